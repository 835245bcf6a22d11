//! Which premise breaks if a node comes up with these modules.
ghost use Rattle.std.specs.Prelude.{◌≡◌, ◌<◌, ◌≤◌, ◌^◌, ◌∷◌, [], length, map, flat_map, not, true, unsigned_abs, Result};
ghost use Rattle.wrp_base.specs.declared.message.PtpMsg.{PtpMsg};
ghost use Rattle.wrp_frame.specs.declared.fault.FrameFault.{FrameFault};
ghost use Rattle.wrp_course.specs.Checks.{told_of};
ghost use Rattle.wrp_course.specs.Checks as spec;
ghost use Rattle.wrp_course.specs.declared.event.Event.TheVariants as event;
ghost use Rattle.wrp_plant.specs.Plant.{FitsPlant, PlantIs};
ghost use Rattle.wrp_course.specs.Premises as premise;
ghost use Rattle.wrp_course.specs.Setting.{Setting};
ghost use Rattle.wrp_course.specs.WorldAt.{WorldAt};

use super::fibres::swapped_fibres_broken;
use crate::checks::needs;
use crate::premises::modules::module_kept;
use crate::premises::rates::true_at_top;
use arrayvec::ArrayVec;
use wrp_base::Tau;
use wrp_course::{Breach, Swap, place_of};
use wrp_plant::Plant;

// Checks that the grandmaster comes up with true time.
fn top_broken(plant: &Plant, n: u8, off: Tau) -> Option<Breach>
    requires fits { FitsPlant plant.now }
    requires off { unsigned_abs off ≤ 2 ^ 90 }
    ensures { (s : Setting) (w : WorldAt) → PlantIs s w plant.now
        → result ≡ told_of (premise.true_at_top s n off ∷ []) }
{
    let is_top = plant.is_top(n);
    true_at_top(is_top, off)
}

// Checks the true delays of a module that is installed.
fn module_broken(plant: &Plant, n: u8, swap: &Swap) -> Option<Breach>
    requires { FitsPlant plant.now }
    ensures { (s : Setting) (w : WorldAt) → PlantIs s w plant.now
        → result ≡ told_of (premise.module_kept s n swap.now) }
{
    match place_of(&plant.net.cfg, n, swap.port) {
        Some(place) => module_kept(swap, plant.listed_at(place, swap.name.as_str())),
        None => None,
    }
}

// Checks the true delays of all modules that are installed.
fn modules_broken(plant: &Plant, n: u8, swaps: &[Swap]) -> Option<Breach>
    requires { FitsPlant plant.now }
    ensures { (s : Setting) (w : WorldAt) → PlantIs s w plant.now
        → result ≡ told_of (flat_map (premise.module_kept s n) swaps.now) }
{
    for swap in swaps {
        if let Some(breach) = module_broken(plant, n, swap) {
            return Some(breach);
        }
    }
    None
}

// Checks that a module is installed at a port of a link.
fn port_broken(plant: &Plant, n: u8, swap: &Swap) -> Option<Breach>
    requires { FitsPlant plant.now }
    ensures { (s : Setting) (w : WorldAt) → PlantIs s w plant.now
        → result ≡ told_of (premise.swap_is_placed s n swap.now ∷ []) }
{
    let place = place_of(&plant.net.cfg, n, swap.port);
    needs(place.is_some())
}

// Checks that all modules are installed at ports of links.
fn ports_broken(plant: &Plant, n: u8, swaps: &[Swap]) -> Option<Breach>
    requires { FitsPlant plant.now }
    ensures { (s : Setting) (w : WorldAt) → PlantIs s w plant.now
        → result ≡ told_of (map (premise.swap_is_placed s n) swaps.now) }
{
    for swap in swaps {
        if let Some(breach) = port_broken(plant, n, swap) {
            return Some(breach);
        }
    }
    None
}

// Checks that a node that comes up is down.
fn up_again_broken(plant: &Plant, n: u8) -> Option<Breach>
    requires fits { FitsPlant plant.now }
    requires node { n < length plant.now.net.cfg.nodes.items }
    ensures { (s : Setting) (w : WorldAt) → PlantIs s w plant.now
        → result ≡ told_of (spec.needs (not (w.clock n).up) ∷ []) }
{
    let up = plant.is_up(n);
    needs(!up)
}

/// The first premise that breaks if a node comes up with this offset and these modules, with both
/// sides. `off` is in tau, within `2^90` either way. In order: the grandmaster's offset is not 0
/// (3), the delays of a link are wrong (5), a module is too far from its entry (6), a swap is at no
/// link (13), or the node is already up (13). `None` if none breaks.
pub fn up_broken(plant: &Plant, n: u8, off: Tau, swaps: &ArrayVec<Swap, 18>) -> Option<Breach>
    requires fits { FitsPlant plant.now }
    requires node { n < length plant.now.net.cfg.nodes.items }
    requires off { unsigned_abs off ≤ 2 ^ 90 }
    ensures { (s : Setting) (w : WorldAt) (says : Result PtpMsg FrameFault)
        → PlantIs s w plant.now → result ≡ told_of (premise.checks_of s w says (event.Up n off swaps.now)) }
{
    let top = top_broken(plant, n, off);
    let fibres = swapped_fibres_broken(plant, n, swaps);
    let modules = modules_broken(plant, n, swaps.as_slice());
    let ports = ports_broken(plant, n, swaps.as_slice());
    let up = up_again_broken(plant, n);
    top.or(fibres).or(modules).or(ports).or(up)
}
