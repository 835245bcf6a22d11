//! Events between the events of the simulator, which follow from datagrams.
ghost use Rattle.std.specs.Prelude.{◌≡◌, ◌≤◌, ℕ, List, IfOk, OnOk};
ghost use Rattle.wrp_course.specs.declared.event.Event.TheVariants.{Deliver, Noise};
ghost use Rattle.wrp_loop.specs.Datagrams.{IsOfPeer, IsSuch, Way};
ghost use Rattle.wrp_loop.specs.LoopRun.{LoopAt, Plan, noise_stamp, world_at};
ghost use Rattle.wrp_loop.specs.LoopStands.{CameOne, CanDeliver, CanLoop, CanSound, Carries, FitsCourse};
ghost use Rattle.wrp_world.specs.Taking.{laws_of};

use crate::network::{LoopCourse, LoopedNetwork};
use crate::routes::Route;
use std::alloc::{AllocError, Global};
use wrp_base::{Frame, Raw};
use wrp_scene::LAST_EVENT;
use wrp_world::Event;

/// A frame that has arrived is handed over, unless its event has too great a number. Answers
/// whether the loop goes on. `AllocError` if memory runs out: then nothing is known of `text`, nor
/// of how far the event came, and the loop ends.
pub fn deliver<F: Fn(i64) -> i64>(
    alloc: Global,
    network: &mut LoopedNetwork<F>,
    course: &mut LoopCourse,
    route: Route,
    frame: u32,
    text: &mut Vec<u8>,
) -> Result<bool, AllocError>
    requires valid { CanLoop F.pre F.post network.old }
    requires fits { FitsCourse network.old course.old }
    requires can { CanDeliver F.post network.old course.old route frame }
    ensures valid { CanLoop F.pre F.post network.new }
    ensures fits { OnOk result (FitsCourse network.new course.new) }
    ensures net { network.new.world.plant.net ≡ network.old.world.plant.net }
    ensures laws { laws_of network.new.world ≡ laws_of network.old.world }
    ensures sim { course.new.sim ≡ course.old.sim }
    ensures forged { course.new.forged ≡ course.old.forged }
    ensures more { course.old.events ≤ course.new.events }
    ensures came { IfOk result (λ goes. (x : Plan) (l : LoopAt) (way : Way) (octets : List ℕ)
        → Carries F.post x network.old course.old l way route
        → IsSuch x.setting (world_at x l) way octets frame
        → CameOne F.post x network.new course.new l way route (Deliver frame) goes
        text.old.items text.new.items) }
{
    if course.events == LAST_EVENT {
        return Ok(false);
    }
    network.happen(alloc, &Event::Deliver { frame }, text)?;
    course.index.hand(frame, route.from)?;
    course.events += 1;
    Ok(true)
}

// The same octets.
fn copied(frame: &Frame) -> Frame
    ensures { result ≡ frame.now }
{
    let mut copy = Frame::new();
    let _fits = copy.try_extend_from_slice(frame);
    copy
}

// The noise for octets that no port sent: both counters are 1, and the tag is 0.
fn noise_of(route: Route, frame: &Frame) -> Event
    ensures { result ≡ Noise route.node route.port frame.now noise_stamp }
{
    Event::Noise {
        node: route.node,
        port: route.port,
        bytes: copied(frame),
        raw: Raw {
            rising: 1,
            falling: 1,
            tag: 0,
        },
    }
}

/// Octets that its peer did not send come at the end of a route, unless their event has too great a
/// number. Answers whether the loop goes on. `AllocError` if memory runs out: then nothing is known
/// of `text`, nor of how far the event came, and the loop ends.
pub fn sound<F: Fn(i64) -> i64>(
    alloc: Global,
    network: &mut LoopedNetwork<F>,
    course: &mut LoopCourse,
    route: Route,
    frame: &Frame,
    text: &mut Vec<u8>,
) -> Result<bool, AllocError>
    requires valid { CanLoop F.pre F.post network.old }
    requires fits { FitsCourse network.old course.old }
    requires can { CanSound F.post network.old course.old route frame.now.items }
    ensures valid { CanLoop F.pre F.post network.new }
    ensures fits { OnOk result (FitsCourse network.new course.new) }
    ensures net { network.new.world.plant.net ≡ network.old.world.plant.net }
    ensures laws { laws_of network.new.world ≡ laws_of network.old.world }
    ensures sim { course.new.sim ≡ course.old.sim }
    ensures forged { course.new.forged ≡ course.old.forged }
    ensures more { course.old.events ≤ course.new.events }
    ensures came { IfOk result (λ goes. (x : Plan) (l : LoopAt) (way : Way)
        → Carries F.post x network.old course.old l way route
        → (IsOfPeer x.setting way.to frame.now.items → ⊥)
        → CameOne F.post x network.new course.new l way route
        (Noise route.node route.port frame.now noise_stamp) goes text.old.items text.new.items) }
{
    if course.events == LAST_EVENT {
        return Ok(false);
    }
    network.happen(alloc, &noise_of(route, frame), text)?;
    course.events += 1;
    Ok(true)
}
