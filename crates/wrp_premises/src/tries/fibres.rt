//! Which premise the delays of a link break after an event: when the link is joined, when time
//! passes, and when a node comes up with other modules.
ghost use Rattle.std.specs.Prelude.{◌≡◌, ◌<◌, ◌≤◌, ◌^◌, ℤ, true, length, unsigned_abs, flat_map, Result};
ghost use Rattle.arrayvec.specs.ArrayVec.{ArrayVec as Items};
ghost use Rattle.wrp_base.specs.declared.message.PtpMsg.{PtpMsg};
ghost use Rattle.wrp_frame.specs.declared.fault.FrameFault.{FrameFault};
ghost use Rattle.wrp_course.specs.Checks.{told_of};
ghost use Rattle.wrp_course.specs.declared.event.Event.TheVariants as event;
ghost use Rattle.wrp_course.specs.Moved.{moved, swap_at};
ghost use Rattle.wrp_plant.specs.Plant.{FitsPlant, PlantIs, delays_in};
ghost use Rattle.wrp_course.specs.Premises as premise;
ghost use Rattle.wrp_course.specs.Setting.{Setting, links_of};
ghost use Rattle.wrp_plant.specs.Sizes.{IsDelay};
ghost use Rattle.wrp_premises.specs.Tried.{LinkHas, delays_after};
ghost use Rattle.wrp_course.specs.WorldAt.{WorldAt};

use crate::checks::needs;
use crate::premises::fibres::fibre_kept;
use arrayvec::ArrayVec;
use wrp_base::Tau;
use wrp_course::{Breach, FibreState, Swap};
use wrp_plant::{Delays, EndState, Plant, moved, reach, swap_for, with_ports};

// Checks the delays of a link if it had this fibre, and these delays at its ends.
fn delays_broken(
    plant: &Plant,
    k: u8,
    fibre: &FibreState,
    master: Delays,
    slave: Delays,
) -> Option<Breach>
    requires fits { FitsPlant plant.now }
    requires link { k < length plant.now.net.cfg.links.items }
    requires ms { IsDelay fibre.now.ms }
    requires sm { IsDelay fibre.now.sm }
    ensures { (s : Setting) (w v : WorldAt) → PlantIs s w plant.now
        → LinkHas v k fibre.now master slave → result ≡ told_of (premise.fibre_kept s v k) }
{
    let most = reach(plant.cfg());
    let link = plant.link_cfg(k);
    let down = with_ports(master.tx, fibre.ms, slave.rx);
    let up = with_ports(slave.tx, fibre.sm, master.rx);
    fibre_kept(most, fibre, down, up, link)
}

// Checks the delays of a link if it is joined with these.
fn new_fibre_broken(plant: &Plant, k: u8, ms: Tau, sm: Tau) -> Option<Breach>
    requires fits { FitsPlant plant.now }
    requires link { k < length plant.now.net.cfg.links.items }
    requires ms { unsigned_abs ms ≤ 2 ^ 63 }
    requires sm { unsigned_abs sm ≤ 2 ^ 63 }
    ensures { (s : Setting) (w : WorldAt) → PlantIs s w plant.now
        → result ≡ told_of (premise.fibre_kept s (moved s w (event.Join k ms sm)) k) }
{
    let span = plant.span(k);
    let fibre = FibreState {
        joined: true,
        ms,
        sm,
    };
    let master = span.master.delays();
    let slave = span.slave.delays();
    delays_broken(plant, k, &fibre, master, slave)
}

/// The first premise that breaks if a link is joined with these delays, with both sides: the delays
/// are wrong (5), or the link is already joined (13). The delays are in tau, within `2^63` either
/// way. `None` if none breaks.
pub fn join_broken(plant: &Plant, k: u8, ms: Tau, sm: Tau) -> Option<Breach>
    requires fits { FitsPlant plant.now }
    requires link { k < length plant.now.net.cfg.links.items }
    requires ms { unsigned_abs ms ≤ 2 ^ 63 }
    requires sm { unsigned_abs sm ≤ 2 ^ 63 }
    ensures { (s : Setting) (w : WorldAt) (says : Result PtpMsg FrameFault)
        → PlantIs s w plant.now → result ≡ told_of (premise.checks_of s w says (event.Join k ms sm)) }
{
    let delays = new_fibre_broken(plant, k, ms, sm);
    let joined = plant.joined(k);
    delays.or(needs(!joined))
}

// Checks the delays of a link after its fibre changed by its entry in the list.
fn moved_fibre_broken(plant: &Plant, k: u8, moves: &ArrayVec<(i64, i64), 63>) -> Option<Breach>
    requires fits { FitsPlant plant.now }
    requires link { k < length plant.now.net.cfg.links.items }
    ensures { (s : Setting) (w : WorldAt) (dt : ℤ) (drifts : Items ℤ) → PlantIs s w plant.now
        → result
        ≡ told_of (premise.fibre_kept s (moved s w (event.Pass dt drifts moves.now)) k) }
{
    let span = plant.span(k);
    let fibre = moved(&span.fibre, moves.as_slice(), k);
    let master = span.master.delays();
    let slave = span.slave.delays();
    delays_broken(plant, k, &fibre, master, slave)
}

/// Premise 5: the delays of all links after their fibres changed by `moves` (down and up, in tau).
/// `None` if it holds; otherwise both sides of the first comparison that fails, link by link: in
/// tau for a delay, and in tau times `2^40` for the asymmetry.
pub fn moved_fibres_broken(plant: &Plant, moves: &ArrayVec<(i64, i64), 63>) -> Option<Breach>
    requires { FitsPlant plant.now }
    ensures { (s : Setting) (w : WorldAt) (dt : ℤ) (drifts : Items ℤ) → PlantIs s w plant.now
        → result ≡ told_of
        (flat_map (premise.fibre_kept s (moved s w (event.Pass dt drifts moves.now)))
        (links_of s)) }
{
    let count = plant.link_count();
    for k in 0..count {
        if let Some(breach) = moved_fibre_broken(plant, k, moves) {
            return Some(breach);
        }
    }
    None
}

// Checks the delays of a link after a node came up with these modules.
fn swapped_fibre_broken(plant: &Plant, k: u8, n: u8, swaps: &ArrayVec<Swap, 18>) -> Option<Breach>
    requires fits { FitsPlant plant.now }
    requires link { k < length plant.now.net.cfg.links.items }
    ensures { (s : Setting) (w : WorldAt) (off : ℤ) → PlantIs s w plant.now
        → result ≡ told_of (premise.fibre_kept s (moved s w (event.Up n off swaps.now)) k) }
{
    let span = plant.span(k);
    let link = plant.link_cfg(k);
    let master = delays_at(
        &span.master,
        link.upper == n,
        link.upper_port,
        swaps.as_slice(),
    );
    let slave = delays_at(
        &span.slave,
        link.lower == n,
        link.lower_port,
        swaps.as_slice(),
    );
    delays_broken(plant, k, &span.fibre, master, slave)
}

/// Premise 5: the delays of all links after a node came up with these modules. `None` if it holds;
/// otherwise both sides of the first comparison that fails, link by link: in tau for a delay, and
/// in tau times `2^40` for the asymmetry.
pub fn swapped_fibres_broken(plant: &Plant, n: u8, swaps: &ArrayVec<Swap, 18>) -> Option<Breach>
    requires { FitsPlant plant.now }
    ensures { (s : Setting) (w : WorldAt) (off : ℤ) → PlantIs s w plant.now
        → result ≡ told_of
        (flat_map (premise.fibre_kept s (moved s w (event.Up n off swaps.now))) (links_of s)) }
{
    let count = plant.link_count();
    for k in 0..count {
        if let Some(breach) = swapped_fibre_broken(plant, k, n, swaps) {
            return Some(breach);
        }
    }
    None
}

// The delays of the module that is installed for a port, or of the present one if there is none.
fn swapped_delays(end: &EndState, port: u16, swaps: &[Swap]) -> Delays
    ensures { result ≡ delays_after true (swap_at port swaps.now) (delays_in end.now) }
{
    match swap_for(swaps, port) {
        Some(swap) => Delays {
            tx: swap.tx,
            rx: swap.rx,
        },
        None => end.delays(),
    }
}

// The same, if the end belongs to the node.
fn delays_at(end: &EndState, is_its: bool, port: u16, swaps: &[Swap]) -> Delays
    ensures { result ≡ delays_after is_its (swap_at port swaps.now) (delays_in end.now) }
{
    if is_its {
        swapped_delays(end, port, swaps)
    } else {
        end.delays()
    }
}
