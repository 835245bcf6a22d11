//! A network that is simulated: its world, and what makes its events.
ghost use Rattle.std.specs.Prelude.{◌≡◌, ◌<◌, ◌+◌, ◌++◌, [], ℕ, ℤ, List, IfOk, OnOk, length, map, pos};
ghost use Rattle.std.specs.List.{flat_map};
ghost use Rattle.wrp_network.specs.Network.{node_count};
ghost use Rattle.wrp_bounds.specs.Bounds.{path_of};
ghost use Rattle.wrp_config.specs.Accepted.{IsAccepted};
ghost use Rattle.wrp_scene.specs.Scenario.{IsSceneOf};
ghost use Rattle.wrp_sim.specs.Sim.{FitsSim, SimIs};
ghost use Rattle.wrp_sim.specs.SimAt.{new_sim};
ghost use Rattle.wrp_course.specs.Setting.{Setting};
ghost use Rattle.wrp_world.specs.StandsFor.{IsValid, StandsFor};
ghost use Rattle.wrp_world.specs.Step.{MayCome, step_seen};
ghost use Rattle.wrp_world.specs.Take.{CanHappen, Taken};
ghost use Rattle.wrp_world.specs.Taking.{AreOfNodes};
ghost use Rattle.wrp_course.specs.WorldAt.{WorldAt, new_world};
ghost use Rattle.wrp_network_world.specs.NetworkSetting.{setting_in};
ghost use Rattle.wrp_network_world.specs.Bounds.{AreBounds};
ghost use Rattle.wrp_network_world.specs.LawsFit.{LawsFit};
ghost use Rattle.wrp_simulate.specs.SimStands.{AreTotals, CanRun, IsTotal, printed_by, sums_by};
ghost use Rattle.wrp_simulate.specs.SimText.{is_printed, printed_lines, sum_by};

use crate::totals::{Total, no_totals};
use std::alloc::{AllocError, Global};
use wrp_base::Tau;
use wrp_config::Network;
use wrp_law::DelayLaw;
use wrp_lines::{Sum, append_line, append_sum_line};
use wrp_network_world::{bounds_of, count_of, name_of};
use wrp_node::Output;
use wrp_scene::Scene;
use wrp_sim::Sim;
use wrp_world::{Event, NodeOut, World};

/// A network that is simulated: its world, the bounds of its nodes in TRACK, and a place for the steps of
/// an event.
#[derive(Drop)]
pub struct SimulatedNetwork<F> {
    pub world: World<F>,
    pub bounds: Vec<Tau>,
    pub outs: Vec<NodeOut>,
}

/// What makes the events of a network, the place for the newest event, how many events came, and what
/// its track lines show so far.
#[derive(Drop)]
pub struct Course {
    pub sim: Sim,
    pub event: Event,
    pub events: u32,
    pub totals: Vec<Total>,
}

impl Course {
    /// Before the first event of a network. `AllocError` if memory runs out: nothing is made.
    pub fn new(alloc: Global, net: &Network, scene: Scene, seed: u64) -> Result<Course, AllocError>
        requires { IsSceneOf net.now.cfg scene }
        ensures fits { IfOk result (λ course. FitsSim net.now.cfg course.sim) }
        ensures scene { IfOk result (λ course. course.sim.scene ≡ scene) }
        ensures begins { IfOk result (λ course. SimIs (new_sim scene seed) course.sim) }
        ensures none { IfOk result (λ course. course.events ≡ 0) }
        ensures count { IfOk result (λ course. length course.totals.items ≡ node_count net.now.cfg) }
        ensures totals { IfOk result (λ course. AreTotals (λ n. []) course.totals.items) }
    {
        let sim = Sim::new(alloc, scene, seed)?;
        let totals = no_totals(alloc, count_of(net))?;
        Ok(Course {
            sim,
            event: Event::Tick { node: 0 },
            events: 0,
            totals,
        })
    }
}

impl<F: Fn(i64) -> i64> SimulatedNetwork<F> {
    /// A network before its first event, with the laws of the links above its nodes. `AllocError`
    /// if memory runs out: no network is made.
    #[inline(never)]
    pub fn new(
        alloc: Global,
        net: Network,
        laws: Vec<Option<DelayLaw<F>>>,
    ) -> Result<SimulatedNetwork<F>, AllocError>
        requires accepted { IsAccepted net.cfg net.db }
        requires laws { LawsFit F.pre F.post net laws.items }
        ensures ready { IfOk result (CanRun F.pre F.post) }
        ensures net { IfOk result (λ network. network.world.plant.net ≡ net) }
        ensures none { IfOk result (λ network. network.world.plant.events ≡ 0) }
        ensures stands { IfOk result (λ network.
            StandsFor F.post (setting_in net) (new_world (setting_in net)) network.world) }
    {
        let bounds = bounds_of(alloc, &net)?;
        let world = World::new(alloc, net, laws)?;
        Ok(SimulatedNetwork {
            world,
            bounds,
            outs: Vec::new(alloc),
        })
    }

    /// Takes an event that keeps all premises, and appends what its steps write. `AllocError` if
    /// memory runs out: then nothing is known of `text`, nor of whether the event was taken.
    pub fn happen(
        &mut self,
        alloc: Global,
        event: &Event,
        text: &mut Vec<u8>,
    ) -> Result<(), AllocError>
        requires ready { CanRun F.pre F.post self.old }
        requires event { MayCome self.old.world event.now }
        requires accepted { CanHappen F.post self.old.world event.now }
        ensures ready { CanRun F.pre F.post self.new }
        ensures net { self.new.world.plant.net ≡ self.old.world.plant.net }
        ensures counted { OnOk result (self.new.world.plant.events ≡ self.old.world.plant.events + 1) }
        ensures nodes { OnOk result (AreOfNodes self.new.world.plant.net.cfg self.new.outs.items) }
        ensures steps { OnOk result (Taken F.post event.now self.old.world self.new.world
            self.new.outs.items) }
        ensures wrote { IfOk result (λ _. (s : Setting) (w : WorldAt)
            → StandsFor F.post s w self.new.world → text.new.items ≡ text.old.items
            ++ flat_map (printed_lines s w) (map step_seen self.new.outs.items)) }
    {
        match self.world.take(event, &mut self.outs) {
            Ok(()) => self.write(alloc, text),
            Err(fault) => Err(fault),
        }
    }

    // Appends what the steps of an event write.
    fn write(&self, alloc: Global, text: &mut Vec<u8>) -> Result<(), AllocError>
        requires ready { CanRun F.pre F.post self.now }
        requires nodes { AreOfNodes self.now.world.plant.net.cfg self.now.outs.items }
        ensures { IfOk result (λ _. (s : Setting) (w : WorldAt)
            → StandsFor F.post s w self.now.world → text.new.items ≡ text.old.items
            ++ flat_map (printed_lines s w) (map step_seen self.now.outs.items)) }
    {
        append_steps(alloc, &self.world, &self.bounds, &self.outs, text)
    }

    /// Appends the lines that sum up the runs of the nodes, by their totals. `AllocError` if memory
    /// runs out: then nothing is known of `text`.
    pub fn append_sums(&self, totals: &[Total], text: &mut Vec<u8>) -> Result<(), AllocError>
        requires ready { CanRun F.pre F.post self.now }
        requires count { length totals.now ≡ node_count self.now.world.plant.net.cfg }
        ensures { IfOk result (λ _. (s : Setting) (w : WorldAt) (offs : ℕ → List ℤ)
            → StandsFor F.post s w self.now.world → AreTotals offs totals.now
            → text.new.items ≡ text.old.items ++ sums_by s w offs) }
    {
        append_all_sums(&self.world, &self.bounds, totals, text)
    }
}

// Appends what these steps write in an event that led to this world.
fn append_steps<F: Fn(i64) -> i64>(
    alloc: Global,
    world: &World<F>,
    bounds: &[Tau],
    outs: &[NodeOut],
    text: &mut Vec<u8>,
) -> Result<(), AllocError>
    requires valid { IsValid F.pre F.post world.now }
    requires bounds { AreBounds world.now.plant.net.cfg bounds.now }
    requires nodes { AreOfNodes world.now.plant.net.cfg outs.now }
    ensures { IfOk result (λ _. (s : Setting) (w : WorldAt)
        → StandsFor F.post s w world.now → text.new.items ≡ text.old.items
        ++ flat_map (printed_lines s w) (map step_seen outs.now)) }
{
    for out in outs {
        append_printed(alloc, world, bounds, out, text)?;
    }
    Ok(())
}

// Appends the lines of what a node put out in an event that led to this world.
fn append_printed<F: Fn(i64) -> i64>(
    alloc: Global,
    world: &World<F>,
    bounds: &[Tau],
    out: &NodeOut,
    text: &mut Vec<u8>,
) -> Result<(), AllocError>
    requires valid { IsValid F.pre F.post world.now }
    requires bounds { AreBounds world.now.plant.net.cfg bounds.now }
    requires node { out.now.node < node_count world.now.plant.net.cfg }
    ensures { IfOk result (λ _. (s : Setting) (w : WorldAt)
        → StandsFor F.post s w world.now → text.new.items ≡ text.old.items
        ++ printed_lines s w (step_seen out.now)) }
{
    let ticks = world.node(out.node).ticks();
    let off = world.off(out.node);
    let name = name_of(world.net(), out.node);
    let bound = bounds[usize::from(out.node)];
    append_outputs(alloc, name, ticks, bound, off, &out.outs, text)
}

// Whether an output has a line.
fn is_printed(out: &Output) -> bool
    ensures { result ≡ is_printed out.now }
{
    match out {
        Output::Step { .. } => true,
        Output::Report(_) => true,
        Output::Send { .. } => false,
        Output::Dac { .. } => false,
    }
}

// Appends the lines of those of a node's outputs that have a line, with its true offset.
fn append_outputs(
    alloc: Global,
    name: &str,
    ticks: u32,
    bound: Tau,
    off: Tau,
    outs: &[Output],
    text: &mut Vec<u8>,
) -> Result<(), AllocError>
    ensures { IfOk result (λ _. text.new.items ≡ text.old.items
        ++ flat_map (λ o. printed_by name.now ticks bound off o) outs.now) }
{
    for out in outs {
        append_output(alloc, name, ticks, bound, off, out, text)?;
    }
    Ok(())
}

// Appends the line of an output, if it has one.
fn append_output(
    alloc: Global,
    name: &str,
    ticks: u32,
    bound: Tau,
    off: Tau,
    out: &Output,
    text: &mut Vec<u8>,
) -> Result<(), AllocError>
    ensures { IfOk result (λ _. text.new.items ≡ text.old.items
        ++ printed_by name.now ticks bound off out.now) }
{
    if is_printed(out) {
        append_line(alloc, name, ticks, out, bound, Some(off), text)
    } else {
        Ok(())
    }
}

// Appends the lines that sum up the runs of the nodes.
fn append_all_sums<F: Fn(i64) -> i64>(
    world: &World<F>,
    bounds: &[Tau],
    totals: &[Total],
    text: &mut Vec<u8>,
) -> Result<(), AllocError>
    requires valid { IsValid F.pre F.post world.now }
    requires bounds { AreBounds world.now.plant.net.cfg bounds.now }
    requires count { length totals.now ≡ node_count world.now.plant.net.cfg }
    ensures { IfOk result (λ _. (s : Setting) (w : WorldAt) (offs : ℕ → List ℤ)
        → StandsFor F.post s w world.now → AreTotals offs totals.now
        → text.new.items ≡ text.old.items ++ sums_by s w offs) }
{
    let count = count_of(world.net());
    let mut node: u8 = 0;
    while node < count {
        let at = usize::from(node);
        append_sum(world, node, bounds[at], totals[at], text)?;
        node += 1;
    }
    Ok(())
}

// Appends the line that sums up the run of a node, by its bound and its total.
fn append_sum<F: Fn(i64) -> i64>(
    world: &World<F>,
    node: u8,
    bound: Tau,
    total: Total,
    text: &mut Vec<u8>,
) -> Result<(), AllocError>
    requires valid { IsValid F.pre F.post world.now }
    requires node { node < node_count world.now.plant.net.cfg }
    requires bound { bound ≡ pos (path_of world.now.plant.net.cfg node) }
    ensures { IfOk result (λ _. (s : Setting) (w : WorldAt) (offs : List ℤ)
        → StandsFor F.post s w world.now → IsTotal offs total
        → text.new.items ≡ text.old.items ++ sum_by s w node offs) }
{
    let name = name_of(world.net(), node);
    let own = world.node(node);
    let sum = Sum {
        ticks: own.ticks(),
        tracks: total.tracks,
        worst: total.worst,
        bound,
        state: own.servo(),
    };
    append_sum_line(name, sum, text)
}
