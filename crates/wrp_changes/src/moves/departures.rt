//! Frames that depart.
ghost use Rattle.std.specs.Prelude.{◌≡◌, ◌<◌, ◌≤◌, ◌+◌, ◌+ℤ◌, ◌^◌, ℕ, ℤ, length, true, IfSome, OnOk, OnErr, Some, unsigned_abs};
ghost use Rattle.wrp_course.specs.declared.event.Event.TheVariants as event;
ghost use Rattle.wrp_flights.specs.Departed.{is_on};
ghost use Rattle.wrp_flights.specs.Frames.{Departs};
ghost use Rattle.wrp_changes.specs.Flights.{LosesOldest, TakesOldest, delay_in, departed_of, leaving};
ghost use Rattle.wrp_course.specs.Moved.{moved};
ghost use Rattle.wrp_changes.specs.Moves.{At, Changed, Same, EachBecame};
ghost use Rattle.wrp_plant.specs.Plant.{FitsDeparted, FitsPlant, MaybeIs, DepartedIs, PlantIs};
ghost use Rattle.wrp_changes.specs.Room.{HasRoom};
ghost use Rattle.wrp_course.specs.Setting.{Setting, place_of as place_in};
ghost use Rattle.wrp_plant.specs.Sizes.{IsDelay, IsDueBy, IsTime};
ghost use Rattle.wrp_course.specs.WorldAt.{WorldAt, delay_from};

use super::parts::stay;
use crate::telling::ends::copied;
use std::alloc::AllocError;
use wrp_base::{Role, Tau, sum};
use wrp_course::{Place, place_of};
use wrp_flights::Departed;
use wrp_plant::{EndState, Plant, Span};

// Removes the oldest frame that waits at an end.
fn lose_oldest(end: &mut EndState)
    ensures { LosesOldest end.old end.new }
{
    if !end.waiting.is_empty() {
        let _oldest = end.waiting.remove(0);
    }
}

fn take_oldest(span: &mut Span, role: Role)
    ensures { TakesOldest role span.old span.new }
{
    match role {
        Role::Master => lose_oldest(&mut span.master),
        Role::Slave => lose_oldest(&mut span.slave),
    }
}

fn take_at(spans: &mut Vec<Span>, place: Place)
    requires { place.link < length spans.old.items }
    ensures { EachBecame (At place.link (TakesOldest place.role)) spans.old.items spans.new.items }
{
    take_oldest(&mut spans[usize::from(place.link)], place.role);
}

// The delay of a frame from this end, in tau.
fn delay_from(span: &Span, role: Role) -> Tau
    requires ms { IsDelay span.now.fibre.ms }
    requires sm { IsDelay span.now.fibre.sm }
    ensures value { result ≡ delay_in span.now role }
    ensures size { IsTime result }
    ensures most { (m : ℕ) → unsigned_abs span.now.fibre.ms ≤ m → unsigned_abs span.now.fibre.sm ≤ m
        → unsigned_abs result ≤ m + 2 ^ 65 }
{
    match role {
        Role::Master => span.down(),
        Role::Slave => span.up(),
    }
}

// The frame that departs from an end: the oldest that waits there.
fn departed(end: &EndState, place: Place, due: Tau) -> Option<Departed>
    ensures { result ≡ departed_of place due end.now.waiting.items }
{
    match end.waiting.first() {
        Some(oldest) => Some(Departed {
            link: place.link,
            by: place.role,
            octets: copied(&oldest.octets),
            sent: oldest.at,
            due,
            arrival: None,
            gone: false,
        }),
        None => None,
    }
}

// A frame departs, if there is one, and the event is counted.
fn depart_with(plant: &mut Plant, place: Place, frame: Option<Departed>) -> Result<(), AllocError>
    requires link { place.link < length plant.old.spans.items }
    requires few { plant.old.events + 1 < 2 ^ 32 }
    requires count { length plant.old.frames.sent ≤ plant.old.events }
    requires on { IfSome frame (λ d. is_on d ≡ true) }
    ensures ok { OnOk result (Changed Same (EachBecame (At place.link (TakesOldest place.role))) (Departs frame)
        plant.old.time plant.old plant.new) }
    ensures err { OnErr result (plant.new ≡ plant.old) }
{
    plant.frames.push(frame)?;
    take_at(&mut plant.spans, place);
    plant.events += 1;
    Ok(())
}

// When a frame that departs from an end now is due, in tau.
fn due_from(plant: &Plant, place: Place) -> Tau
    requires fits { FitsPlant plant.now }
    requires link { place.link < length plant.now.net.cfg.links.items }
    ensures value { (s : Setting) (w : WorldAt) → PlantIs s w plant.now
        → result ≡ w.time +ℤ delay_from w place.link place.role }
    ensures size { IsDueBy (plant.now.events + 1) result }
{
    let now = plant.now();
    let delay = delay_from(plant.span(place.link), place.role);
    sum(now, delay)
}

// The frame that departs from an end: the oldest that waits there.
fn leaving(plant: &Plant, place: Place) -> Option<Departed>
    requires fits { FitsPlant plant.now }
    requires link { place.link < length plant.now.net.cfg.links.items }
    ensures is { (s : Setting) (w : WorldAt) (stamp : ℤ) → PlantIs s w plant.now
        → MaybeIs DepartedIs (leaving w place stamp (w.end_at place.link place.role).waiting) result }
    ensures fits { IfSome result (FitsDeparted (length plant.now.net.cfg.links.items) (plant.now.events + 1)) }
    ensures on { IfSome result (λ d. is_on d ≡ true) }
{
    let due = due_from(plant, place);
    departed(plant.span(place.link).end(place.role), place, due)
}

// The oldest frame that waits at an end departs.
fn depart_from(plant: &mut Plant, place: Place) -> Result<(), AllocError>
    requires fits { FitsPlant plant.old }
    requires link { place.link < length plant.old.net.cfg.links.items }
    requires few { plant.old.events + 1 < 2 ^ 32 }
    ensures is { OnOk result ((s : Setting) (w : WorldAt) (n p : ℕ) (stamp : ℤ) → place_in s n p ≡ Some place
        → PlantIs s w plant.old → PlantIs s (moved s w (event.Depart n p stamp)) plant.new) }
    ensures fits { OnOk result (FitsPlant plant.new) }
    ensures net { OnOk result (plant.new.net ≡ plant.old.net) }
    ensures events { OnOk result (plant.new.events ≡ plant.old.events + 1) }
    ensures room { OnOk result ((k : ℕ) → HasRoom k plant.old → HasRoom k plant.new) }
    ensures err { OnErr result (plant.new ≡ plant.old) }
{
    let frame = leaving(plant, place);
    depart_with(plant, place, frame)
}

/// The oldest frame that waits at a port departs with the next number, and the event is counted. If
/// no frame waits, or no link has that port, the event is only counted. `AllocError` if there is
/// not enough memory; then nothing changes.
pub fn depart(plant: &mut Plant, n: u8, port: u16) -> Result<(), AllocError>
    requires fits { FitsPlant plant.old }
    requires few { plant.old.events + 1 < 2 ^ 32 }
    ensures is { OnOk result ((s : Setting) (w : WorldAt) (stamp : ℤ) → PlantIs s w plant.old
        → PlantIs s (moved s w (event.Depart n port stamp)) plant.new) }
    ensures fits { OnOk result (FitsPlant plant.new) }
    ensures net { OnOk result (plant.new.net ≡ plant.old.net) }
    ensures events { OnOk result (plant.new.events ≡ plant.old.events + 1) }
    ensures room { OnOk result ((k : ℕ) → HasRoom k plant.old → HasRoom k plant.new) }
    ensures err { OnErr result (plant.new ≡ plant.old) }
{
    match place_of(&plant.net.cfg, n, port) {
        Some(place) => depart_from(plant, place),
        None => {
            stay(plant);
            Ok(())
        }
    }
}
