//! The command `simulate`: after its scenario the network runs, and its lines are written as they come.
ghost use Rattle.std.specs.Prelude.{◌≡◌, ◌⊎◌, ◌+◌, ◌++◌, [], ℕ, ℤ, List, IfOk, OnOk, true, false};
ghost use Rattle.std.specs.Io.KnownBytes.{Appends, Consumes, IsAtEnd};
ghost use Rattle.wrp_config.specs.Accepted.{IsAccepted};
ghost use Rattle.wrp_io.specs.Faults.{Rose};
ghost use Rattle.wrp_scene.specs.Scenario.{IsSceneOf, SceneAt};
ghost use Rattle.wrp_sim.specs.SimAt.{SimAt};
ghost use Rattle.wrp_course.specs.Run.{Happened};
ghost use Rattle.wrp_course.specs.Setting.{Setting};
ghost use Rattle.wrp_world.specs.StandsFor.{StandsFor};
ghost use Rattle.wrp_course.specs.WorldAt.{WorldAt};
ghost use Rattle.wrp_records.specs.declared.status.Status.{Status};
ghost use Rattle.wrp_records.specs.ByLines.{of_lines};
ghost use Rattle.wrp_records.specs.LinesAfter.{Closed};
ghost use Rattle.wrp_records.specs.Passages.{Passes, passage};
ghost use Rattle.wrp_network_world.specs.NetworkSetting.{setting_in};
ghost use Rattle.wrp_network_world.specs.LawsFit.{LawsFit};
ghost use Rattle.wrp_simulate.specs.SimStands.{AreTotals, Begins, CanRun, ClosesRun, FitsCourse, HasRun, IsInRun, Steps};
ghost use Rattle.wrp_scene_records.specs.ScenarioStands.{ClosesLarge};
ghost use Rattle.wrp_scene_records.specs.Scenarios.{IsScenario};
ghost use Rattle.wrp_simulate.specs.Simulates.{simulation_of};
ghost use Rattle.wrp_records.specs.Taking.{AppendsPart};

use crate::simulation::{Course, SimulatedNetwork};
use crate::totals::add_tracks;
use std::alloc::{AllocError, Global};
use wrp_config::Network;
use wrp_io::{Sink, Source};
use wrp_law::DelayLaw;
use wrp_records::{Reader, Status, answer, handle_records};
use wrp_scene::{LAST_EVENT, Scene};
use wrp_scene_records::{ScenarioLines, overrun, write_waiting};
use wrp_sim::simulator_keeps_the_bounds;

// How many octets have to wait before they are written after an event.
const PIECE: usize = 65_536;

/// What became of a step of a run.
#[derive(Clone, Copy)]
pub enum Stepped {
    /// An event came.
    Event,
    /// No event comes any more.
    Over,
    /// The next event has too great a number.
    TooLarge,
}

// Takes the next event, and appends what it writes.
fn step<F: Fn(i64) -> i64>(
    alloc: Global,
    network: &mut SimulatedNetwork<F>,
    course: &mut Course,
    text: &mut Vec<u8>,
) -> Result<Stepped, AllocError>
    requires ready { CanRun F.pre F.post network.old }
    requires course { FitsCourse network.old course.old }
    requires run { IsInRun F.post network.old course.old }
    ensures ready { OnOk result (CanRun F.pre F.post network.new) }
    ensures course { OnOk result (FitsCourse network.new course.new) }
    ensures counted { IfOk result (λ stepped. stepped ≡ Stepped.Event
        → course.new.events ≡ course.old.events + 1) }
    ensures steps { IfOk result (λ stepped. (seed : ℕ) (s : Setting) (scene : SceneAt)
        (events : List Happened) (at : SimAt)
        → HasRun F.post seed s scene network.old course.old events at
        → Steps F.post seed s scene network.new course.new text.old.items text.new.items events at
        stepped) }
{
    simulator_keeps_the_bounds();
    if !course.sim.next_into(&network.world, &mut course.event) {
        return Ok(Stepped::Over);
    }
    if course.events == LAST_EVENT {
        return Ok(Stepped::TooLarge);
    }
    network.happen(alloc, &course.event, text)?;
    course.events += 1;
    add_tracks(&network.world, &network.outs, &mut course.totals);
    Ok(Stepped::Event)
}

// Writes what waits, if it is long enough. Answers whether all that was written was taken.
fn flush<K: Sink>(sink: &mut K, text: &mut Vec<u8>) -> bool
    ensures whole { result ≡ true
        → ((text.new.items ≡ text.old.items) × (K.held sink.new ≡ K.held sink.old))
        ⊎ ((text.new.items ≡ []) × Appends (K.held sink.old) (K.held sink.new) text.old.items) }
    ensures cut { result ≡ false
        → AppendsPart (K.held sink.old) (K.held sink.new) text.old.items }
    ensures rose { result ≡ false → Rose (K.faults sink.old) (K.faults sink.new) }
    ensures kept { result ≡ true → K.faults sink.new ≡ K.faults sink.old }
{
    if text.len() < PIECE {
        return true;
    }
    write_waiting(sink, text)
}

// Writes what waits, and the lines that sum up.
fn close<F: Fn(i64) -> i64, K: Sink>(
    network: &SimulatedNetwork<F>,
    course: &Course,
    text: &mut Vec<u8>,
    sink: &mut K,
) -> Status
    requires ready { CanRun F.pre F.post network.now }
    requires course { FitsCourse network.now course.now }
    ensures closes { (s : Setting) (w : WorldAt) (offs : ℕ → List ℤ)
        → StandsFor F.post s w network.now.world → AreTotals offs course.now.totals.items
        → ClosesRun s w offs result (K.held sink.old) (K.held sink.new) text.old.items }
    ensures rose { result ≡ Status.WriteFault → Rose (K.faults sink.old) (K.faults sink.new) }
    ensures kept { (result ≡ Status.WriteFault → ⊥) → K.faults sink.new ≡ K.faults sink.old }
    ensures never { result ≡ Status.ReadFault → ⊥ }
{
    match network.append_sums(&course.totals, text) {
        Ok(()) => answer(sink, Status::Done, text),
        Err(_) => Status::OutOfMemory,
    }
}

// Runs a network to the end of its scenario.
fn run_events<F: Fn(i64) -> i64, K: Sink>(
    alloc: Global,
    network: &mut SimulatedNetwork<F>,
    course: &mut Course,
    sink: &mut K,
) -> Status
    requires ready { CanRun F.pre F.post network.old }
    requires course { FitsCourse network.old course.old }
    requires run { IsInRun F.post network.old course.old }
    ensures stands { (seed : ℕ) (s : Setting) (scene : SceneAt)
        → Begins F.post seed s scene network.old course.old
        → Closed (λ lines. IsScenario s lines scene) (simulation_of s seed) result
        (K.held sink.old) (K.held sink.new) }
    ensures rose { result ≡ Status.WriteFault → Rose (K.faults sink.old) (K.faults sink.new) }
    ensures kept { (result ≡ Status.WriteFault → ⊥) → K.faults sink.new ≡ K.faults sink.old }
    ensures never { result ≡ Status.ReadFault → ⊥ }
{
    let mut text = Vec::new(alloc);
    'events: loop {
        match step(alloc, network, course, &mut text) {
            Ok(Stepped::Event) => {}
            Ok(Stepped::Over) => return close(network, course, &mut text, sink),
            Ok(Stepped::TooLarge) => return overrun(alloc, &mut text, sink),
            Err(_) => return Status::OutOfMemory,
        }
        if !flush(sink, &mut text) {
            return Status::WriteFault;
        }
    }
}

// Runs a network by a scenario.
#[inline(never)]
fn run_scene<F: Fn(i64) -> i64, K: Sink>(
    alloc: Global,
    net: Network,
    laws: Vec<Option<DelayLaw<F>>>,
    scene: Scene,
    seed: u64,
    sink: &mut K,
) -> Status
    requires accepted { IsAccepted net.cfg net.db }
    requires laws { LawsFit F.pre F.post net laws.items }
    requires scene { IsSceneOf net.cfg scene }
    ensures stands { Closed (λ lines. IsScenario (setting_in net) lines scene)
        (simulation_of (setting_in net) seed) result (K.held sink.old) (K.held sink.new) }
    ensures rose { result ≡ Status.WriteFault → Rose (K.faults sink.old) (K.faults sink.new) }
    ensures kept { (result ≡ Status.WriteFault → ⊥) → K.faults sink.new ≡ K.faults sink.old }
    ensures never { result ≡ Status.ReadFault → ⊥ }
{
    let mut course = match Course::new(alloc, &net, scene, seed) {
        Ok(course) => course,
        Err(_) => return Status::OutOfMemory,
    };
    let mut network = match SimulatedNetwork::new(alloc, net, laws) {
        Ok(network) => network,
        Err(_) => return Status::OutOfMemory,
    };
    run_events(alloc, &mut network, &mut course, sink)
}

/// Runs a network with these laws by the scenario that a reader's lines say, from a seed.
#[inline(never)]
pub fn simulate<F: Fn(i64) -> i64, S: Source, K: Sink>(
    alloc: Global,
    net: Box<Network>,
    laws: Vec<Option<DelayLaw<F>>>,
    seed: u64,
    reader: &mut Reader,
    source: &mut S,
    sink: &mut K,
) -> Status
    requires at_end { reader.old.ended ≡ true → IsAtEnd (S.left source.old) }
    requires accepted { IsAccepted net.value.cfg net.value.db }
    requires laws { LawsFit F.pre F.post net.value laws.items }
    ensures passes { Passes (of_lines (simulation_of (setting_in net.value) seed))
        (passage S.left S.faults source.old source.new) (passage K.held K.faults sink.old sink.new)
        reader.old.rest reader.old.ended reader.new.ended [] result }
{
    let mut lines = ScenarioLines::new(&*net);
    match handle_records(alloc, &mut lines, reader, source, sink) {
        Status::Done => {}
        status => return status,
    }
    let scene = lines.into_scene();
    run_scene(alloc, Box::into_inner(net), laws, scene, seed, sink)
}
