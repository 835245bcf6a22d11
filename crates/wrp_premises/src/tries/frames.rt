//! Which premise a departure or an arrival breaks.
ghost use Rattle.std.specs.Prelude.{◌≡◌, ◌<◌, ◌≤◌, ◌^◌, ◌-ℤ◌, ◌∷◌, [], ℕ, pos, length, true, unsigned_abs, Some, Result};
ghost use Rattle.wrp_base.specs.declared.message.PtpMsg.{PtpMsg};
ghost use Rattle.wrp_frame.specs.declared.fault.FrameFault.{FrameFault};
ghost use Rattle.wrp_course.specs.Checks.{told_of};
ghost use Rattle.wrp_course.specs.Checks as spec;
ghost use Rattle.wrp_course.specs.declared.event.Event.TheVariants as event;
ghost use Rattle.wrp_course.specs.EventAt.{IsRaw};
ghost use Rattle.wrp_plant.specs.Plant.{DepartedIs, FitsPlant, PlantIs};
ghost use Rattle.wrp_course.specs.Premises as premise;
ghost use Rattle.wrp_course.specs.Setting.{Setting, of_node};
ghost use Rattle.wrp_plant.specs.Sizes.{IsTime};
ghost use Rattle.wrp_premises.specs.Tried.{departs_by, received_to};
ghost use Rattle.wrp_course.specs.WorldAt.{FrameAt, WorldAt, is_on_fibre, reading};

use crate::checks::needs;
use crate::handing::{age_broken, carrier_broken, not_sent_broken};
use crate::premises::stamps::{on_time, raw_kept, stamp_kept};
use wrp_base::{Raw, Tau};
use wrp_course::{Breach, Place, place_of};
use wrp_flights::Departed;
use wrp_plant::Plant;
use wrp_stamp::transition_of;

// Checks that the stamp of a frame that is sent is near the node's reading.
fn stamp_broken(plant: &Plant, n: u8, stamp: Tau) -> Option<Breach>
    requires fits { FitsPlant plant.now }
    requires node { n < length plant.now.net.cfg.nodes.items }
    requires stamp { unsigned_abs stamp ≤ 2 ^ 92 }
    ensures { (s : Setting) (w : WorldAt) → PlantIs s w plant.now
        → result ≡ told_of (spec.at_most 7 (spec.size_of (stamp -ℤ reading w n))
        (pos (of_node (λ node. node.e_tx) s n)) ∷ []) }
{
    let reading = plant.reading(n);
    let node = plant.node_cfg(n);
    stamp_kept(stamp, reading, node.e_tx)
}

// The first premise that breaks if a frame that was put out at the true time `sent` departs over a
// link.
fn departing_broken(plant: &Plant, n: u8, k: u8, stamp: Tau, sent: Tau) -> Option<Breach>
    requires fits { FitsPlant plant.now }
    requires node { n < length plant.now.net.cfg.nodes.items }
    requires link { k < length plant.now.net.cfg.links.items }
    requires stamp { unsigned_abs stamp ≤ 2 ^ 92 }
    requires sent { IsTime sent }
    ensures { (s : Setting) (w : WorldAt) → PlantIs s w plant.now
        → result ≡ told_of (departs_by s w n k stamp sent) }
{
    let stamp = stamp_broken(plant, n, stamp);
    let age = age_broken(plant, sent);
    carrier_broken(plant, stamp.or(age), k)
}

// The same for the oldest frame that waits at an end.
fn leaving_broken(plant: &Plant, n: u8, place: Place, stamp: Tau) -> Option<Breach>
    requires fits { FitsPlant plant.now }
    requires node { n < length plant.now.net.cfg.nodes.items }
    requires link { place.link < length plant.now.net.cfg.links.items }
    requires stamp { unsigned_abs stamp ≤ 2 ^ 92 }
    ensures { (s : Setting) (w : WorldAt) → PlantIs s w plant.now
        → result ≡ told_of (premise.depart_checks s w n stamp (Some place)
        (w.end_at place.link place.role).waiting) }
{
    match plant.oldest_at(place) {
        Some(sent) => departing_broken(plant, n, place.link, stamp, sent),
        None => not_sent_broken(plant, 0),
    }
}

/// The first premise that breaks if the oldest frame that waits at a port departs, with both sides.
/// `stamp` is in tau, within `2^92` either way. In order: the port is at no link (13), no frame
/// waits (11), the stamp is too far from the node's reading (7, in tau), the frame is too old (10,
/// in tau), or the link has no carrier (13). `None` if none breaks.
pub fn depart_broken(plant: &Plant, n: u8, port: u16, stamp: Tau) -> Option<Breach>
    requires fits { FitsPlant plant.now }
    requires node { n < length plant.now.net.cfg.nodes.items }
    requires stamp { unsigned_abs stamp ≤ 2 ^ 92 }
    ensures { (s : Setting) (w : WorldAt) (says : Result PtpMsg FrameFault)
        → PlantIs s w plant.now → result ≡ told_of (premise.checks_of s w says (event.Depart n port stamp)) }
{
    match place_of(&plant.net.cfg, n, port) {
        Some(place) => leaving_broken(plant, n, place, stamp),
        None => needs(false),
    }
}

// Checks that a frame arrives when it is due.
fn due_broken(plant: &Plant, due: Tau) -> Option<Breach>
    requires fits { FitsPlant plant.now }
    requires due { IsTime due }
    ensures { (s : Setting) (w : WorldAt) → PlantIs s w plant.now
        → result ≡ told_of (spec.at_most 8 (spec.size_of (w.time -ℤ due)) (pos 0) ∷ []) }
{
    let now = plant.now();
    on_time(now, due)
}

// Checks that the raw stamp of a frame is near the reading of the node that receives it.
fn raw_broken(plant: &Plant, to: Place, raw: &Raw) -> Option<Breach>
    requires fits { FitsPlant plant.now }
    requires link { to.link < length plant.now.net.cfg.links.items }
    requires raw { IsRaw raw.now }
    ensures { (s : Setting) (w : WorldAt) → PlantIs s w plant.now
        → result ≡ told_of (received_to s w to raw.now) }
{
    let n = plant.node_at(to);
    let end = plant.end(to);
    let transition = transition_of(plant.listed_at(to, end.name.as_str()));
    let reading = plant.reading(n);
    let node = plant.node_cfg(n);
    let cfg = plant.cfg();
    raw_kept(cfg.clock, node.e_tag, transition, reading, raw)
}

// The first premise that breaks if a frame on a fibre arrives.
fn landing_broken(plant: &Plant, frame: &Departed, raw: &Raw) -> Option<Breach>
    requires fits { FitsPlant plant.now }
    requires link { frame.now.link < length plant.now.net.cfg.links.items }
    requires due { IsTime frame.now.due }
    requires raw { IsRaw raw.now }
    ensures { (s : Setting) (w : WorldAt) (i : ℕ) → PlantIs s w plant.now → (f : FrameAt)
        → DepartedIs f frame.now
        → result ≡ told_of (premise.arrive_checks s w i raw.now true (Some f)) }
{
    let due = due_broken(plant, frame.due);
    let from = Place {
        link: frame.link,
        role: frame.by,
    };
    let stamp = raw_broken(plant, from.across(), raw);
    carrier_broken(plant, due.or(stamp), frame.link)
}

// The same for a frame that departed.
fn flight_broken(plant: &Plant, number: u32, frame: &Departed, raw: &Raw) -> Option<Breach>
    requires fits { FitsPlant plant.now }
    requires link { frame.now.link < length plant.now.net.cfg.links.items }
    requires due { IsTime frame.now.due }
    requires raw { IsRaw raw.now }
    ensures { (s : Setting) (w : WorldAt) → PlantIs s w plant.now → (f : FrameAt)
        → DepartedIs f frame.now
        → result
        ≡ told_of (premise.arrive_checks s w number raw.now (is_on_fibre (Some f)) (Some f)) }
{
    let on = frame.is_on();
    if on {
        landing_broken(plant, frame, raw)
    } else {
        not_sent_broken(plant, number)
    }
}

/// The first premise that breaks if the frame of this number arrives with this raw stamp, with both
/// sides: it is not on a fibre (11), it is not due now or its raw stamp is wrong (8), or its link
/// has no carrier (13). `None` if none breaks.
pub fn arrive_broken(plant: &Plant, number: u32, raw: &Raw) -> Option<Breach>
    requires fits { FitsPlant plant.now }
    requires raw { IsRaw raw.now }
    ensures { (s : Setting) (w : WorldAt) (says : Result PtpMsg FrameFault)
        → PlantIs s w plant.now → result ≡ told_of (premise.checks_of s w says (event.Arrive number raw.now)) }
{
    match plant.frame(number) {
        Some(frame) => flight_broken(plant, number, frame, raw),
        None => not_sent_broken(plant, number),
    }
}
