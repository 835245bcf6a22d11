//! An event of the simulator comes that is not an arrival and hands no frame over.
ghost use Rattle.std.specs.Prelude.{◌≡◌, ◌+◌, ◌*◌, ◌-◌, ◌^◌, ◌<◌, ◌≤◌, Ok, Err, List, Option, OnOk};
ghost use Rattle.wrp_io.specs.declared.link.LinkCall.{LinkCall};
ghost use Rattle.wrp_loop.specs.LoopRun.{IsPlain, LoopAt, Plan};
ghost use Rattle.wrp_loop.specs.LoopStands.{CamePlain, CanLoop, FitsCourse, HasNext, IsNext};
ghost use Rattle.wrp_loop.specs.SoFar.{Rounds};
ghost use Rattle.wrp_world.specs.Taking.{laws_of};

use crate::network::{LoopCourse, LoopedNetwork};
use crate::outcome::{LoopFault, Rounded};
use std::alloc::{AllocError, Global};
use wrp_scene::LAST_EVENT;
use wrp_sim::simulator_keeps_the_bounds;

// It comes.
fn come<F: Fn(i64) -> i64>(
    alloc: Global,
    network: &mut LoopedNetwork<F>,
    course: &mut LoopCourse,
    text: &mut Vec<u8>,
) -> Result<(), AllocError>
    requires valid { CanLoop F.pre F.post network.old }
    requires fits { FitsCourse network.old course.old }
    requires room { course.old.events + 1 < 2 ^ 32 - 1 }
    requires plain { IsPlain course.old.event }
    requires next { IsNext F.post network.old course.old course.old.event }
    ensures valid { CanLoop F.pre F.post network.new }
    ensures fits { OnOk result (FitsCourse network.new course.new) }
    ensures net { network.new.world.plant.net ≡ network.old.world.plant.net }
    ensures laws { laws_of network.new.world ≡ laws_of network.old.world }
    ensures sim { course.new.sim ≡ course.old.sim }
    ensures forged { course.new.forged ≡ course.old.forged }
    ensures more { OnOk result (course.new.events ≡ course.old.events + 1) }
    ensures came { OnOk result ((x : Plan) (l : LoopAt)
        → HasNext F.post x network.old course.old l course.old.event
        → CamePlain F.post x network.new course.new l text.old.items text.new.items) }
{
    simulator_keeps_the_bounds();
    network.happen(alloc, &course.event, text)?;
    course.events += 1;
    Ok(())
}

/// It comes, unless it has too great a number. No call of the link is made. `Memory` if memory runs
/// out: then the loop ends, and what was appended to `text` is of no use. It is never `Failed`.
pub fn come_next<F: Fn(i64) -> i64>(
    alloc: Global,
    network: &mut LoopedNetwork<F>,
    course: &mut LoopCourse,
    text: &mut Vec<u8>,
) -> Result<Rounded, LoopFault>
    requires valid { CanLoop F.pre F.post network.old }
    requires fits { FitsCourse network.old course.old }
    requires few { course.old.forged ≤ 16 * course.old.events }
    requires plain { IsPlain course.old.event }
    requires next { IsNext F.post network.old course.old course.old.event }
    ensures valid { CanLoop F.pre F.post network.new }
    ensures fits { result ≡ Ok Rounded.GoesOn → FitsCourse network.new course.new }
    ensures net { network.new.world.plant.net ≡ network.old.world.plant.net }
    ensures laws { laws_of network.new.world ≡ laws_of network.old.world }
    ensures sim { course.new.sim ≡ course.old.sim }
    ensures few { result ≡ Ok Rounded.GoesOn → course.new.forged ≤ 16 * course.new.events }
    ensures more { result ≡ Ok Rounded.GoesOn → course.old.events < course.new.events }
    ensures rounds { (x : Plan) (l : LoopAt) (told : Option (List LinkCall))
        → HasNext F.post x network.old course.old l course.old.event
        → Rounds F.post x network.new course.new l told told text.old.items text.new.items
        result }
    ensures never { result ≡ Err LoopFault.Failed → ⊥ }
{
    if course.events == LAST_EVENT {
        return Ok(Rounded::TooLarge);
    }
    match come(alloc, network, course, text) {
        Ok(()) => Ok(Rounded::GoesOn),
        Err(_) => Err(LoopFault::Memory),
    }
}
