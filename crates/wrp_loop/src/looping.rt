//! A loop as its caller runs it: its start, and then round by round until it ends.
ghost use Rattle.std.specs.Prelude.{◌≡◌, ◌*◌, ◌<◌, ◌++◌, ℕ, List, Option, Ok, Err, OnErr};
ghost use Rattle.wrp_io.specs.declared.link.LinkCall.{LinkCall};
ghost use Rattle.wrp_io.specs.Faults.{Rose};
ghost use Rattle.wrp_course.specs.EventAt.{link_count};
ghost use Rattle.wrp_loop.specs.LoopRun.{LoopAt, Plan};
ghost use Rattle.wrp_loop.specs.LoopStands.{CanLoop, StandsAt};
ghost use Rattle.wrp_loop.specs.SoFar.{Begins, CameSoFar, IsReady, Leads, Rounds, Starts, rounds_left};
ghost use Rattle.wrp_sim.specs.Sim.{FitsSim};
ghost use Rattle.wrp_world.specs.Taking.{laws_of};

use crate::network::{LoopCourse, LoopedNetwork};
use crate::outcome::{LoopFault, Rounded};
use crate::rounds::next_round;
use std::alloc::Global;
use wrp_config::Network;
use wrp_io::{Link, StartFault};

// How many ends the links of a network have.
fn end_count(net: &Network) -> u32
    ensures { result ≡ 2 * link_count net.now.cfg }
{
    2 * net.cfg.links.len() as u32
}

/// Starts the link of a loop, before its first round: with two ends for each link of the network.
///
/// `Failed` if it fails: its count of faults rose. `Memory` if memory runs out. In both cases no
/// call of the link was answered.
pub fn start_loop<F: Fn(i64) -> i64, N: Link>(
    network: &LoopedNetwork<F>,
    course: &LoopCourse,
    link: &mut N,
) -> Result<(), LoopFault>
    requires valid { CanLoop F.pre F.post network.now }
    requires sim { FitsSim network.now.world.plant.net.cfg course.now.sim }
    requires none { network.now.world.plant.events ≡ 0 }
    requires begins { (x : Plan) × Begins F.post x network.now course.now }
    ensures ready { IsReady F.pre F.post network.now course.now }
    ensures starts { (x : Plan) → Begins F.post x network.now course.now
        → Starts F.post x network.now course.now (N.told link.old) (N.told link.new) result }
    ensures told { OnErr result (N.told link.new ≡ N.told link.old) }
    ensures rose { result ≡ Err LoopFault.Failed → Rose (N.faults link.old) (N.faults link.new) }
    ensures kept { (result ≡ Err LoopFault.Failed → ⊥)
        → N.faults link.new ≡ N.faults link.old }
{
    let _course = course;
    match link.start(end_count(network.world.net())) {
        Ok(()) => Ok(()),
        Err(StartFault::Failed) => Err(LoopFault::Failed),
        Err(StartFault::Memory(_)) => Err(LoopFault::Memory),
    }
}

/// One round of a loop: the next event of the simulator. An event that hands a frame over is left out. A
/// frame that arrives is sent as a datagram from the end that sent it, and what then waits at its receiver,
/// up to 16 datagrams, is handled in order. Any other event comes as it is. The lines of all events that
/// came are appended to the text.
///
/// If a call of the link fails, the round came to nothing, and the text is as it was, with the lines of all
/// events before the round. If memory runs out, what the round appended is of no use, and the loop goes no
/// further: only the text from before the round counts.
pub fn take_round<F: Fn(i64) -> i64, N: Link>(
    alloc: Global,
    network: &mut LoopedNetwork<F>,
    course: &mut LoopCourse,
    link: &mut N,
    text: &mut Vec<u8>,
) -> Result<Rounded, LoopFault>
    requires ready { IsReady F.pre F.post network.old course.old }
    ensures valid { CanLoop F.pre F.post network.new }
    ensures ready { result ≡ Ok Rounded.GoesOn → IsReady F.pre F.post network.new course.new }
    ensures net { network.new.world.plant.net ≡ network.old.world.plant.net }
    ensures laws { laws_of network.new.world ≡ laws_of network.old.world }
    ensures leads { (x : Plan) (before : Option (List LinkCall)) (written : List ℕ)
        → CameSoFar F.post x network.old course.old before (N.told link.old)
        (written ++ text.old.items)
        → Leads F.post x network.new course.new before (N.told link.new) written
        text.old.items text.new.items result }
    ensures rounds { (x : Plan) (l : LoopAt) → StandsAt F.post x network.old course.old l
        → Rounds F.post x network.new course.new l (N.told link.old) (N.told link.new)
        text.old.items text.new.items result }
    ensures smaller { result ≡ Ok Rounded.GoesOn → rounds_left course.new < rounds_left course.old }
    ensures rose { result ≡ Err LoopFault.Failed → Rose (N.faults link.old) (N.faults link.new) }
    ensures kept { (result ≡ Err LoopFault.Failed → ⊥)
        → N.faults link.new ≡ N.faults link.old }
{
    next_round(alloc, network, course, link, text)
}
