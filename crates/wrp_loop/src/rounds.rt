//! One round of a loop: the next event of the simulator, and what follows from it.
ghost use Rattle.std.specs.Prelude.{◌≡◌, ◌*◌, ◌<◌, ◌≤◌, Ok, Err};
ghost use Rattle.wrp_io.specs.Faults.{Rose};
ghost use Rattle.wrp_loop.specs.LoopRun.{LoopAt, Plan};
ghost use Rattle.wrp_loop.specs.LoopStands.{CanLoop, FitsCourse, HasNext, IsArrivalOf, IsNext, StandsAt};
ghost use Rattle.wrp_loop.specs.SoFar.{IsComing, IsReady, MovesOn, Rounds, rounds_left};
ghost use Rattle.wrp_world.specs.Taking.{laws_of};

use crate::carrying::carry;
use crate::network::{LoopCourse, LoopedNetwork};
use crate::outcome::{LoopFault, Rounded};
use crate::plain::come_next;
use std::alloc::Global;
use wrp_io::Link;
use wrp_scene::LAST_EVENT;
use wrp_world::Event;

/// What the simulator's next event is.
#[derive(Clone, Copy)]
pub enum Coming {
    /// The arrival of the frame with this number.
    Arrival(u32),
    /// An event that hands a frame over.
    Handing,
    /// Any other event.
    Plain,
}

// What an event of the simulator is.
fn what_comes(event: &Event) -> Coming
    ensures { IsComing event.now result }
{
    match event {
        Event::Arrive { frame, .. } => Coming::Arrival(*frame),
        Event::Deliver { .. } => Coming::Handing,
        _ => Coming::Plain,
    }
}

// The frame that comes next arrives, unless that event has too great a number.
fn carry_next<F: Fn(i64) -> i64, N: Link>(
    alloc: Global,
    network: &mut LoopedNetwork<F>,
    course: &mut LoopCourse,
    link: &mut N,
    number: u32,
    text: &mut Vec<u8>,
) -> Result<Rounded, LoopFault>
    requires valid { CanLoop F.pre F.post network.old }
    requires fits { FitsCourse network.old course.old }
    requires few { course.old.forged ≤ 16 * course.old.events }
    requires event { IsArrivalOf number course.old.event }
    requires next { IsNext F.post network.old course.old course.old.event }
    ensures valid { CanLoop F.pre F.post network.new }
    ensures fits { result ≡ Ok Rounded.GoesOn → FitsCourse network.new course.new }
    ensures net { network.new.world.plant.net ≡ network.old.world.plant.net }
    ensures laws { laws_of network.new.world ≡ laws_of network.old.world }
    ensures sim { course.new.sim ≡ course.old.sim }
    ensures few { result ≡ Ok Rounded.GoesOn → course.new.forged ≤ 16 * course.new.events }
    ensures more { result ≡ Ok Rounded.GoesOn → course.old.events < course.new.events }
    ensures rounds { (x : Plan) (l : LoopAt)
        → HasNext F.post x network.old course.old l course.old.event
        → Rounds F.post x network.new course.new l (N.told link.old) (N.told link.new)
        text.old.items text.new.items result }
    ensures rose { result ≡ Err LoopFault.Failed → Rose (N.faults link.old) (N.faults link.new) }
    ensures kept { (result ≡ Err LoopFault.Failed → ⊥)
        → N.faults link.new ≡ N.faults link.old }
{
    if course.events == LAST_EVENT {
        return Ok(Rounded::TooLarge);
    }
    match carry(alloc, network, course, link, number, text) {
        Ok(true) => Ok(Rounded::GoesOn),
        Ok(false) => Ok(Rounded::TooLarge),
        Err(fault) => Err(fault),
    }
}

// The event that comes next is taken, or left out.
fn take_next<F: Fn(i64) -> i64, N: Link>(
    alloc: Global,
    network: &mut LoopedNetwork<F>,
    course: &mut LoopCourse,
    link: &mut N,
    text: &mut Vec<u8>,
) -> Result<Rounded, LoopFault>
    requires valid { CanLoop F.pre F.post network.old }
    requires fits { FitsCourse network.old course.old }
    requires few { course.old.forged ≤ 16 * course.old.events }
    requires next { IsNext F.post network.old course.old course.old.event }
    ensures valid { CanLoop F.pre F.post network.new }
    ensures fits { result ≡ Ok Rounded.GoesOn → FitsCourse network.new course.new }
    ensures net { network.new.world.plant.net ≡ network.old.world.plant.net }
    ensures laws { laws_of network.new.world ≡ laws_of network.old.world }
    ensures sim { course.new.sim ≡ course.old.sim }
    ensures few { result ≡ Ok Rounded.GoesOn → course.new.forged ≤ 16 * course.new.events }
    ensures more { result ≡ Ok Rounded.GoesOn
        → MovesOn course.old.event course.old.events course.new.events }
    ensures rounds { (x : Plan) (l : LoopAt)
        → HasNext F.post x network.old course.old l course.old.event
        → Rounds F.post x network.new course.new l (N.told link.old) (N.told link.new)
        text.old.items text.new.items result }
    ensures rose { result ≡ Err LoopFault.Failed → Rose (N.faults link.old) (N.faults link.new) }
    ensures kept { (result ≡ Err LoopFault.Failed → ⊥)
        → N.faults link.new ≡ N.faults link.old }
{
    match what_comes(&course.event) {
        Coming::Arrival(number) => carry_next(alloc, network, course, link, number, text),
        Coming::Handing => Ok(Rounded::GoesOn),
        Coming::Plain => come_next(alloc, network, course, text),
    }
}

/// The next event of the simulator, and what follows from it. `Failed` if a call of the link
/// failed: the round came to nothing, and `text` is as it was. `Memory` if memory runs out: the
/// loop ends, and what was appended to `text` is of no use.
pub fn next_round<F: Fn(i64) -> i64, N: Link>(
    alloc: Global,
    network: &mut LoopedNetwork<F>,
    course: &mut LoopCourse,
    link: &mut N,
    text: &mut Vec<u8>,
) -> Result<Rounded, LoopFault>
    requires ready { IsReady F.pre F.post network.old course.old }
    ensures valid { CanLoop F.pre F.post network.new }
    ensures fits { result ≡ Ok Rounded.GoesOn → FitsCourse network.new course.new }
    ensures net { network.new.world.plant.net ≡ network.old.world.plant.net }
    ensures laws { laws_of network.new.world ≡ laws_of network.old.world }
    ensures few { result ≡ Ok Rounded.GoesOn → course.new.forged ≤ 16 * course.new.events }
    ensures smaller { result ≡ Ok Rounded.GoesOn → rounds_left course.new < rounds_left course.old }
    ensures rounds { (x : Plan) (l : LoopAt) → StandsAt F.post x network.old course.old l
        → Rounds F.post x network.new course.new l (N.told link.old) (N.told link.new)
        text.old.items text.new.items result }
    ensures rose { result ≡ Err LoopFault.Failed → Rose (N.faults link.old) (N.faults link.new) }
    ensures kept { (result ≡ Err LoopFault.Failed → ⊥)
        → N.faults link.new ≡ N.faults link.old }
{
    if !course.sim.next_into(&network.world, &mut course.event) {
        return Ok(Rounded::Over);
    }
    take_next(alloc, network, course, link, text)
}
