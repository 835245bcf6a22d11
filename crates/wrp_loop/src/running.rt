//! The command `loop`: after its scenario has been read, the network runs over a link, and its lines are written as
//! they come.
ghost use Rattle.std.specs.Prelude.{◌≡◌, ◌++◌, [], ℕ, List, Option, IfOk, true, false};
ghost use Rattle.std.specs.Io.KnownBytes.{Appends, IsAtEnd};
ghost use Rattle.std.specs.List.{concat};
ghost use Rattle.wrp_config.specs.Accepted.{IsAccepted};
ghost use Rattle.wrp_course.specs.Run.{world_after};
ghost use Rattle.wrp_course.specs.Setting.{Setting};
ghost use Rattle.wrp_course.specs.WorldAt.{WorldAt};
ghost use Rattle.wrp_io.specs.declared.link.LinkCall.{LinkCall};
ghost use Rattle.wrp_io.specs.Faults.{Rose};
ghost use Rattle.wrp_loop.specs.LoopRun.{LoopAt, events_at};
ghost use Rattle.wrp_loop.specs.LoopStands.{CanLoop};
ghost use Rattle.wrp_loop.specs.LoopText.{forged_lines};
ghost use Rattle.wrp_loop.specs.SoFar.{CameSoFar, IsReady};
ghost use Rattle.wrp_records.specs.declared.status.Status.{Status};
ghost use Rattle.wrp_records.specs.Passages.{FailsBy, passage};
ghost use Rattle.wrp_records.specs.Taking.{AppendsPart};
ghost use Rattle.wrp_network_world.specs.NetworkSetting.{setting_in};
ghost use Rattle.wrp_network_world.specs.Counts.{all_counts};
ghost use Rattle.wrp_network_world.specs.LawsFit.{LawsFit, HasLawOf};
ghost use Rattle.wrp_loop.specs.LoopPasses.{ClosesLoop, IsUncalled, LoopPasses, Ran};
ghost use Rattle.wrp_loop.specs.Loops.{plan_of};
ghost use Rattle.wrp_scene.specs.Scenario.{IsSceneOf, SceneAt};
ghost use Rattle.wrp_world.specs.StandsFor.{StandsFor};

use crate::lines::append_forged;
use crate::looping::{start_loop, take_round};
use crate::network::{LoopCourse, LoopedNetwork};
use crate::outcome::{LoopFault, Rounded};
use std::alloc::{AllocError, Global};
use wrp_config::Network;
use wrp_io::{Link, Sink, Source};
use wrp_law::DelayLaw;
use wrp_network_world::append_all_counts;
use wrp_records::{Reader, Status, answer, handle_records};
use wrp_scene::Scene;
use wrp_scene_records::{ScenarioLines, overrun, write_waiting};

// Gives the sink an empty piece: a call like any other, which fails if the sink cannot be written to.
// Answers true if it did not fail.
fn is_open<K: Sink>(sink: &mut K) -> bool
    ensures none { Appends (K.held sink.old) (K.held sink.new) [] }
    ensures rose { result ≡ false → Rose (K.faults sink.old) (K.faults sink.new) }
    ensures kept { result ≡ true → K.faults sink.new ≡ K.faults sink.old }
{
    match sink.write(&[]) {
        Ok(_) => true,
        Err(_) => false,
    }
}

// Appends the counters that are not 0, and how many datagrams were forged, if any was.
fn append_closing<F: Fn(i64) -> i64>(
    network: &LoopedNetwork<F>,
    course: &LoopCourse,
    text: &mut Vec<u8>,
) -> Result<(), AllocError>
    requires { CanLoop F.pre F.post network.now }
    ensures { IfOk result (λ _. (s : Setting) (w : WorldAt) → StandsFor F.post s w network.now.world
        → text.new.items ≡ text.old.items
        ++ (all_counts s w ++ concat (forged_lines course.now.forged))) }
{
    append_all_counts(&network.world, text)?;
    append_forged(course.forged, text)
}

// Writes what waits, and the lines that close it.
fn close<F: Fn(i64) -> i64, K: Sink>(
    network: &LoopedNetwork<F>,
    course: &LoopCourse,
    text: &mut Vec<u8>,
    sink: &mut K,
) -> Status
    requires { CanLoop F.pre F.post network.now }
    ensures closes { (s : Setting) (l : LoopAt)
        → StandsFor F.post s (world_after s (events_at l)) network.now.world
        → course.now.forged ≡ l.forged
        → ClosesLoop s l result (K.held sink.old) (K.held sink.new) text.old.items }
    ensures rose { result ≡ Status.WriteFault → Rose (K.faults sink.old) (K.faults sink.new) }
    ensures kept { (result ≡ Status.WriteFault → ⊥) → K.faults sink.new ≡ K.faults sink.old }
    ensures never { result ≡ Status.ReadFault → ⊥ }
    ensures unlinked { result ≡ Status.LinkFault → ⊥ }
{
    match append_closing(network, course, text) {
        Ok(()) => answer(sink, Status::Done, text),
        Err(_) => Status::OutOfMemory,
    }
}

// Runs a network over a link that was started, to the end of its scenario. All lines are written before
// the next round, so that no line waits during a call of the link.
fn run_rounds<F: Fn(i64) -> i64, K: Sink, N: Link>(
    alloc: Global,
    network: &mut LoopedNetwork<F>,
    course: &mut LoopCourse,
    sink: &mut K,
    link: &mut N,
) -> Status
    requires ready { IsReady F.pre F.post network.old course.old }
    requires laws { HasLawOf F.post (setting_in network.old.world.plant.net) network.old.world }
    ensures ran { (scene : SceneAt) (seed : ℕ) (before : Option (List LinkCall))
        → CameSoFar F.post (plan_of (setting_in network.old.world.plant.net) scene seed)
        network.old course.old before (N.told link.old) []
        → Ran (setting_in network.old.world.plant.net) scene seed before (N.told link.new)
        (K.held sink.old) (K.held sink.new) result }
    ensures linked { FailsBy Status.LinkFault result
        (passage N.told N.faults link.old link.new) }
    ensures rose { result ≡ Status.WriteFault → Rose (K.faults sink.old) (K.faults sink.new) }
    ensures kept { (result ≡ Status.WriteFault → ⊥) → K.faults sink.new ≡ K.faults sink.old }
    ensures never { result ≡ Status.ReadFault → ⊥ }
{
    let mut text = Vec::new(alloc);
    'rounds: loop {
        let rounded = match take_round(alloc, network, course, link, &mut text) {
            Ok(rounded) => rounded,
            Err(LoopFault::Failed) => return Status::LinkFault,
            Err(LoopFault::Memory) => return Status::OutOfMemory,
        };
        if !write_waiting(sink, &mut text) {
            return Status::WriteFault;
        }
        match rounded {
            Rounded::GoesOn => {}
            Rounded::Over => return close(network, course, &mut text, sink),
            Rounded::TooLarge => return overrun(alloc, &mut text, sink),
        }
    }
}

// Runs a network by a scenario over a link, which is started first. Right before that the sink is given an
// empty piece, so that the link is not started if nothing can be written.
#[inline(never)]
fn run_scene<F: Fn(i64) -> i64, K: Sink, N: Link>(
    alloc: Global,
    net: Network,
    laws: Vec<Option<DelayLaw<F>>>,
    scene: Scene,
    seed: u64,
    sink: &mut K,
    link: &mut N,
) -> Status
    requires accepted { IsAccepted net.cfg net.db }
    requires laws { LawsFit F.pre F.post net laws.items }
    requires scene { IsSceneOf net.cfg scene }
    ensures ran { Ran (setting_in net) scene seed (N.told link.old) (N.told link.new)
        (K.held sink.old) (K.held sink.new) result }
    ensures linked { FailsBy Status.LinkFault result
        (passage N.told N.faults link.old link.new) }
    ensures rose { result ≡ Status.WriteFault → Rose (K.faults sink.old) (K.faults sink.new) }
    ensures kept { (result ≡ Status.WriteFault → ⊥) → K.faults sink.new ≡ K.faults sink.old }
    ensures never { result ≡ Status.ReadFault → ⊥ }
{
    let mut course = match LoopCourse::new(alloc, &net, scene, seed) {
        Ok(course) => course,
        Err(_) => return Status::OutOfMemory,
    };
    let mut network = match LoopedNetwork::new(alloc, net, laws) {
        Ok(network) => network,
        Err(_) => return Status::OutOfMemory,
    };
    if !is_open(sink) {
        return Status::WriteFault;
    }
    match start_loop(&network, &course, link) {
        Ok(()) => run_rounds(alloc, &mut network, &mut course, sink, link),
        Err(LoopFault::Failed) => Status::LinkFault,
        Err(LoopFault::Memory) => Status::OutOfMemory,
    }
}

/// Runs a network with these laws by the scenario that a reader's lines say, from a seed, over a link. No
/// call of the link is made before all lines were read and the sink has taken an empty piece.
#[inline(never)]
pub fn run_over<F: Fn(i64) -> i64, S: Source, K: Sink, N: Link>(
    alloc: Global,
    net: Box<Network>,
    laws: Vec<Option<DelayLaw<F>>>,
    seed: u64,
    reader: &mut Reader,
    source: &mut S,
    sink: &mut K,
    link: &mut N,
) -> Status
    requires at_end { reader.old.ended ≡ true → IsAtEnd (S.left source.old) }
    requires accepted { IsAccepted net.value.cfg net.value.db }
    requires laws { LawsFit F.pre F.post net.value laws.items }
    ensures passes { LoopPasses (setting_in net.value) seed
        (passage S.left S.faults source.old source.new) (passage K.held K.faults sink.old sink.new)
        (passage N.told N.faults link.old link.new)
        reader.old.rest reader.old.ended reader.new.ended result }
    ensures unstarted { IsUncalled result → link.new ≡ link.old }
{
    let mut lines = ScenarioLines::new(&*net);
    match handle_records(alloc, &mut lines, reader, source, sink) {
        Status::Done => {}
        status => return status,
    }
    let scene = lines.into_scene();
    run_scene(alloc, Box::into_inner(net), laws, scene, seed, sink, link)
}
