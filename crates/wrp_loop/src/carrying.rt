//! A frame arrives: it goes over the link, and what was taken then is handled.
ghost use Rattle.std.specs.Prelude.{◌≡◌, ◌+◌, ◌-◌, ◌^◌, ◌<◌, ◌≤◌, Err, IfOk, OnOk, length};
ghost use Rattle.wrp_io.specs.Faults.{Rose};
ghost use Rattle.wrp_course.specs.WorldAt.{FrameAt};
ghost use Rattle.wrp_loop.specs.LoopRun.{LoopAt, Plan};
ghost use Rattle.wrp_loop.specs.LoopStands.{CanLoop, CarriedOn, FitsCourse, HasNext, IsArrivalOf, IsNext, NextArrives, RoutesNext, way_by};
ghost use Rattle.wrp_loop.specs.SoFar.{Arrivals};
ghost use Rattle.wrp_world.specs.Taking.{laws_of};

use crate::crossing::cross;
use crate::datagrams::handle_all;
use crate::network::{LoopCourse, LoopedNetwork};
use crate::outcome::LoopFault;
use crate::routes::Route;
use std::alloc::{AllocError, Global};
use wrp_base::Frame;
use wrp_io::{Failed, Link};
use wrp_sim::simulator_keeps_the_bounds;

// The frame that comes next arrives, and the datagrams that were taken for it are handled. Answers whether
// the loop goes on.
fn arrive<F: Fn(i64) -> i64>(
    alloc: Global,
    network: &mut LoopedNetwork<F>,
    course: &mut LoopCourse,
    number: u32,
    route: Route,
    got: &[Frame],
    text: &mut Vec<u8>,
) -> Result<bool, AllocError>
    requires valid { CanLoop F.pre F.post network.old }
    requires fits { FitsCourse network.old course.old }
    requires room { course.old.events + 1 < 2 ^ 32 - 1 }
    requires forged { course.old.forged + 16 < 2 ^ 64 }
    requires most { length got.now ≤ 16 }
    requires event { IsArrivalOf number course.old.event }
    requires next { RoutesNext F.post network.old course.old course.old.event number route }
    ensures valid { CanLoop F.pre F.post network.new }
    ensures fits { OnOk result (FitsCourse network.new course.new) }
    ensures net { network.new.world.plant.net ≡ network.old.world.plant.net }
    ensures laws { laws_of network.new.world ≡ laws_of network.old.world }
    ensures sim { course.new.sim ≡ course.old.sim }
    ensures few { course.new.forged ≤ course.old.forged + 16 }
    ensures more { OnOk result (course.old.events < course.new.events) }
    ensures carried { IfOk result (λ goes. (x : Plan) (l : LoopAt) (f : FrameAt)
        → (n : NextArrives F.post x network.old course.old l course.old.event number f route)
        → CarriedOn F.post x network.new course.new l (way_by f route) course.old.event
        n.next.new got.now goes text.old.items text.new.items) }
{
    simulator_keeps_the_bounds();
    network.happen(alloc, &course.event, text)?;
    course.index.arrive(number, route.from)?;
    course.events += 1;
    handle_all(alloc, network, course, route, got, text)
}

/// The frame that comes next goes over the link and arrives, and the datagrams that were taken for
/// it are handled. Answers whether the loop goes on. The calls of the link come first: `Failed` if
/// one fails, and then no event came and `text` is as it was. `Memory` if memory runs out: then the
/// loop ends, and what was appended to `text` is of no use.
pub fn carry<F: Fn(i64) -> i64, N: Link>(
    alloc: Global,
    network: &mut LoopedNetwork<F>,
    course: &mut LoopCourse,
    link: &mut N,
    number: u32,
    text: &mut Vec<u8>,
) -> Result<bool, LoopFault>
    requires valid { CanLoop F.pre F.post network.old }
    requires fits { FitsCourse network.old course.old }
    requires room { course.old.events + 1 < 2 ^ 32 - 1 }
    requires forged { course.old.forged + 16 < 2 ^ 64 }
    requires event { IsArrivalOf number course.old.event }
    requires next { IsNext F.post network.old course.old course.old.event }
    ensures valid { CanLoop F.pre F.post network.new }
    ensures fits { OnOk result (FitsCourse network.new course.new) }
    ensures net { network.new.world.plant.net ≡ network.old.world.plant.net }
    ensures laws { laws_of network.new.world ≡ laws_of network.old.world }
    ensures sim { course.new.sim ≡ course.old.sim }
    ensures few { course.new.forged ≤ course.old.forged + 16 }
    ensures more { OnOk result (course.old.events < course.new.events) }
    ensures carried { (x : Plan) (l : LoopAt)
        → HasNext F.post x network.old course.old l course.old.event
        → Arrivals F.post x network.new course.new l (N.told link.old) (N.told link.new)
        text.old.items text.new.items result }
    ensures rose { result ≡ Err LoopFault.Failed → Rose (N.faults link.old) (N.faults link.new) }
    ensures kept { (result ≡ Err LoopFault.Failed → ⊥)
        → N.faults link.new ≡ N.faults link.old }
{
    simulator_keeps_the_bounds();
    match cross(&network.world, link, number) {
        Ok(crossing) => {
            course.index.forget_old(&network.world);
            match arrive(
                alloc,
                network,
                course,
                number,
                crossing.route,
                &crossing.got,
                text,
            ) {
                Ok(goes) => Ok(goes),
                Err(_) => Err(LoopFault::Memory),
            }
        }
        Err(Failed) => Err(LoopFault::Failed),
    }
}
