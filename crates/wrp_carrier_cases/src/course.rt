//! A run: the simulator's events come to a world and to its twin, and after each of them the world is tested.
ghost use Rattle.std.specs.Prelude.{◌≡◌, ◌≤◌, ◌^◌, IfOk, unsigned_abs};
ghost use Rattle.wrp_network.specs.Network.{HasRanges};
ghost use Rattle.wrp_law.specs.Law.{KeepsFact};
ghost use Rattle.wrp_scene.specs.Scenario.{IsSceneOf};
ghost use Rattle.wrp_sim.specs.Sim.{FitsSim};
ghost use Rattle.wrp_world.specs.StandsFor.{IsValid};

use crate::checking::{compare_all, judge_all};
use crate::counts::Counts;
use crate::failure::Failure;
use crate::plan::Plan;
use std::alloc::Global;
use wrp_base::TraceFault;
use wrp_config::Network;
use wrp_law::{DelayLaw, LawKind, floor_of};
use wrp_sim::{Scene, Sim};
use wrp_trial::{KAPPA, Told, Trial, takes, trial_of};
use wrp_world::{Event, NodeOut};

// The seed of all runs.
const SEED: u64 = 1;

// The most events of a run.
const MOST_EVENTS: u32 = 100_000_000;

// The scenario that these lines say.
fn scene_of(alloc: Global, net: &Network, text: &str) -> Result<Scene, Failure>
    requires { HasRanges net.now.cfg }
    ensures { IfOk result (IsSceneOf net.now.cfg) }
{
    let mut scene = Scene::new(net);
    for line in text.lines() {
        match scene.read(alloc, line.as_bytes(), net) {
            Ok(()) => {}
            Err(TraceFault::Memory(_)) => return Err(Failure::Memory),
            Err(_) => return Err(Failure::Scenario),
        }
    }
    Ok(scene)
}

// An event comes to a world.
fn give<F: Fn(i64) -> i64>(trial: &mut Trial<F>, event: &Event) -> Result<(), Failure>
    requires valid { IsValid F.pre F.post trial.old.world }
    requires came { trial.old.world.plant.events ≤ trial.old.came }
    ensures valid { IsValid F.pre F.post trial.new.world }
    ensures came { trial.new.world.plant.events ≤ trial.new.came }
    ensures net { trial.new.world.plant.net ≡ trial.old.world.plant.net }
{
    match takes(trial, event) {
        Told::Taken => Ok(()),
        told => Err(Failure::Event(told)),
    }
}

// Whether the nodes of two worlds made the same steps of an event.
fn are_alike(first: &[NodeOut], second: &[NodeOut]) -> bool {
    let mut pairs = first.iter().zip(second.iter());
    first.len() == second.len()
        && pairs.all(|(a, b)| a.node == b.node && a.input == b.input && a.outs == b.outs)
}

// The next event of the simulator comes to a world and to its twin, and the world is tested. Returns whether one came.
fn step<F: Fn(i64) -> i64>(
    trial: &mut Trial<F>,
    twin: &mut Trial<F>,
    sim: &mut Sim,
    event: &mut Event,
    counts: &mut Counts,
) -> Result<bool, Failure>
    requires valid { IsValid F.pre F.post trial.old.world }
    requires came { trial.old.world.plant.events ≤ trial.old.came }
    requires valid_twin { IsValid F.pre F.post twin.old.world }
    requires came_twin { twin.old.world.plant.events ≤ twin.old.came }
    requires fits { FitsSim trial.old.world.plant.net.cfg sim.old }
    ensures valid { IsValid F.pre F.post trial.new.world }
    ensures came { trial.new.world.plant.events ≤ trial.new.came }
    ensures valid_twin { IsValid F.pre F.post twin.new.world }
    ensures came_twin { twin.new.world.plant.events ≤ twin.new.came }
    ensures fits { FitsSim trial.new.world.plant.net.cfg sim.new }
{
    if !sim.next_into(&trial.world, event) {
        return Ok(false);
    }
    give(trial, event)?;
    give(twin, event)?;
    if !are_alike(&trial.outs, &twin.outs) {
        return Err(Failure::Unlike);
    }
    counts.event(trial.outs.len());
    judge_all(&trial.world, counts)?;
    compare_all(&trial.world, counts)?;
    Ok(true)
}

// The whole run of a simulator.
fn run_sim<F: Fn(i64) -> i64>(
    trial: &mut Trial<F>,
    twin: &mut Trial<F>,
    sim: &mut Sim,
    counts: &mut Counts,
) -> Result<(), Failure>
    requires valid { IsValid F.pre F.post trial.old.world }
    requires came { trial.old.world.plant.events ≤ trial.old.came }
    requires valid_twin { IsValid F.pre F.post twin.old.world }
    requires came_twin { twin.old.world.plant.events ≤ twin.old.came }
    requires fits { FitsSim trial.old.world.plant.net.cfg sim.old }
{
    let mut event = Event::Tick { node: 0 };
    for _number in 0..MOST_EVENTS {
        if !step(trial, twin, sim, &mut event, counts)? {
            counts.refuse(trial.refused);
            counts.refuse(twin.refused);
            return Ok(());
        }
    }
    Err(Failure::Endless)
}

// The run of a world and its twin by a scenario.
fn run_scene<F: Fn(i64) -> i64>(
    alloc: Global,
    trial: &mut Trial<F>,
    twin: &mut Trial<F>,
    text: &str,
    counts: &mut Counts,
) -> Result<(), Failure>
    requires valid { IsValid F.pre F.post trial.old.world }
    requires came { trial.old.world.plant.events ≤ trial.old.came }
    requires valid_twin { IsValid F.pre F.post twin.old.world }
    requires came_twin { twin.old.world.plant.events ≤ twin.old.came }
{
    let scene = scene_of(alloc, trial.world.net(), text)?;
    let mut sim = Sim::new(alloc, scene, SEED)?;
    run_sim(trial, twin, &mut sim, counts)
}

// Runs a plan in two worlds, each with its laws of the upper and of the lower link.
fn run_worlds<F: Fn(i64) -> i64>(
    alloc: Global,
    upper: DelayLaw<F>,
    lower: DelayLaw<F>,
    twin_upper: DelayLaw<F>,
    twin_lower: DelayLaw<F>,
    plan: Plan,
    counts: &mut Counts,
) -> Result<(), Failure>
    requires upper { KeepsFact F.pre F.post upper }
    requires lower { KeepsFact F.pre F.post lower }
    requires twin_upper { KeepsFact F.pre F.post twin_upper }
    requires twin_lower { KeepsFact F.pre F.post twin_lower }
{
    let mut trial = trial_of(alloc, "", upper, lower)?;
    let mut twin = trial_of(alloc, "", twin_upper, twin_lower)?;
    let text = plan.scenario(alloc)?;
    run_scene(alloc, &mut trial, &mut twin, text.as_str(), counts)
}

/// Runs a plan: nothing is reported if each event was taken, and each test held.
pub fn run_plan(alloc: Global, plan: Plan, counts: &mut Counts) -> Result<(), Failure> {
    let down = |x: i64|
        requires { unsigned_abs x ≤ 2 ^ 53 }
    { floor_of(KAPPA, x) };
    let kind = LawKind::Linear { kappa: KAPPA };
    let upper = DelayLaw::new(down, kind, -(1 << 30), 1 << 53, 1);
    let lower = DelayLaw::new(down, kind, -(1 << 30), 1 << 53, 1);
    let twin_upper = DelayLaw::new(down, kind, -(1 << 30), 1 << 53, 1);
    let twin_lower = DelayLaw::new(down, kind, -(1 << 30), 1 << 53, 1);
    run_worlds(alloc, upper, lower, twin_upper, twin_lower, plan, counts)
}
