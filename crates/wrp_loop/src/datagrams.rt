//! The datagrams that were taken at an arrival, in the order in which they came.
ghost use Rattle.std.specs.Prelude.{◌≡◌, ◌+◌, ◌^◌, ◌<◌, ◌≤◌, IfOk, OnOk, length};
ghost use Rattle.wrp_loop.specs.Datagrams.{Way};
ghost use Rattle.wrp_loop.specs.LoopRun.{LoopAt, Plan};
ghost use Rattle.wrp_loop.specs.LoopStands.{CanLoop, Carries, FitsCourse, HandledAll, HandledOne, IsCarried};
ghost use Rattle.wrp_world.specs.Taking.{laws_of};

use crate::between::{deliver, sound};
use crate::fate::{Fate, fate_of};
use crate::network::{LoopCourse, LoopedNetwork};
use crate::routes::Route;
use std::alloc::{AllocError, Global};
use wrp_base::Frame;

// Handles a datagram that came by a route. Answers whether the loop goes on.
fn handle<F: Fn(i64) -> i64>(
    alloc: Global,
    network: &mut LoopedNetwork<F>,
    course: &mut LoopCourse,
    route: Route,
    frame: &Frame,
    text: &mut Vec<u8>,
) -> Result<bool, AllocError>
    requires valid { CanLoop F.pre F.post network.old }
    requires fits { FitsCourse network.old course.old }
    requires room { course.old.forged + 1 < 2 ^ 64 }
    requires carried { IsCarried F.post network.old course.old route }
    ensures valid { CanLoop F.pre F.post network.new }
    ensures fits { OnOk result (FitsCourse network.new course.new) }
    ensures net { network.new.world.plant.net ≡ network.old.world.plant.net }
    ensures laws { laws_of network.new.world ≡ laws_of network.old.world }
    ensures sim { course.new.sim ≡ course.old.sim }
    ensures few { course.new.forged ≤ course.old.forged + 1 }
    ensures more { course.old.events ≤ course.new.events }
    ensures handled { IfOk result (λ goes. (x : Plan) (l : LoopAt) (way : Way)
        → Carries F.post x network.old course.old l way route
        → HandledOne F.post x network.new course.new l way route frame.now goes
        text.old.items text.new.items) }
{
    match fate_of(network, course, route, frame) {
        Fate::Handed(number) => deliver(alloc, network, course, route, number, text),
        Fate::Forged => {
            course.forged += 1;
            Ok(true)
        }
        Fate::Noisy => sound(alloc, network, course, route, frame, text),
    }
}

/// Handles datagrams that came by a route, up to the first whose event has too great a number.
/// Answers whether the loop goes on. `AllocError` if memory runs out: then nothing is known of
/// `text`, nor of how many datagrams were handled, and the loop ends.
pub fn handle_all<F: Fn(i64) -> i64>(
    alloc: Global,
    network: &mut LoopedNetwork<F>,
    course: &mut LoopCourse,
    route: Route,
    got: &[Frame],
    text: &mut Vec<u8>,
) -> Result<bool, AllocError>
    requires valid { CanLoop F.pre F.post network.old }
    requires fits { FitsCourse network.old course.old }
    requires most { length got.now ≤ 16 }
    requires room { course.old.forged + 16 < 2 ^ 64 }
    requires carried { IsCarried F.post network.old course.old route }
    ensures valid { CanLoop F.pre F.post network.new }
    ensures fits { OnOk result (FitsCourse network.new course.new) }
    ensures net { network.new.world.plant.net ≡ network.old.world.plant.net }
    ensures laws { laws_of network.new.world ≡ laws_of network.old.world }
    ensures sim { course.new.sim ≡ course.old.sim }
    ensures few { course.new.forged ≤ course.old.forged + 16 }
    ensures more { course.old.events ≤ course.new.events }
    ensures handled { IfOk result (λ goes. (x : Plan) (l : LoopAt) (way : Way)
        → Carries F.post x network.old course.old l way route
        → HandledAll F.post x network.new course.new l way route got.now goes
        text.old.items text.new.items) }
{
    for frame in got {
        if !handle(alloc, network, course, route, frame, text)? {
            return Ok(false);
        }
    }
    Ok(true)
}
