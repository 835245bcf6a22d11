//! A network that runs over a link: its world, and what makes its events.
ghost use Rattle.std.specs.Prelude.{◌≡◌, ◌+◌, ◌++◌, [], IfOk, OnOk, length, map};
ghost use Rattle.std.specs.List.{concat, flat_map};
ghost use Rattle.wrp_network.specs.Network.{node_count};
ghost use Rattle.wrp_config.specs.Accepted.{IsAccepted};
ghost use Rattle.wrp_scene.specs.Scenario.{IsSceneOf};
ghost use Rattle.wrp_sim.specs.Sim.{FitsSim, SimIs};
ghost use Rattle.wrp_sim.specs.SimAt.{new_sim};
ghost use Rattle.wrp_plant.specs.Plant.{Each};
ghost use Rattle.wrp_world.specs.HasLaws.{HasLaws};
ghost use Rattle.wrp_world.specs.New.{FitsLaw, setting_of};
ghost use Rattle.wrp_world.specs.StandsFor.{StandsFor};
ghost use Rattle.wrp_world.specs.Step.{MayCome, step_seen};
ghost use Rattle.wrp_world.specs.Taking.{AreOfNodes, laws_of};
ghost use Rattle.wrp_course.specs.Setting.{Setting};
ghost use Rattle.wrp_course.specs.WorldAt.{WorldAt, new_world};
ghost use Rattle.wrp_loop.specs.LoopText.{step_lines};
ghost use Rattle.wrp_loop.specs.LoopStands.{CanHappen, CanLoop, Happens};

use crate::index::Index;
use crate::lines::{append_event, append_steps};
use std::alloc::{AllocError, Global};
use wrp_config::Network;
use wrp_course::accepted_is_unbroken;
use wrp_law::DelayLaw;
use wrp_scene::Scene;
use wrp_sim::Sim;
use wrp_world::{Event, NodeOut, Refused, World};

/// A network that runs over a link: its world, and a place for the steps of an event.
#[derive(Drop)]
pub struct LoopedNetwork<F> {
    /// The world.
    pub world: World<F>,
    /// The steps of the nodes in the newest event.
    pub outs: Vec<NodeOut>,
}

/// What makes the events of a network, the place for the newest event of its own, how many events came,
/// how many datagrams were forged, and the frames that arrived.
#[derive(Drop)]
pub struct LoopCourse {
    /// The simulator.
    pub sim: Sim,
    /// The newest event that it gave.
    pub event: Event,
    /// How many events came.
    pub events: u32,
    /// How many datagrams were forged.
    pub forged: u64,
    /// The frames that arrived.
    pub index: Index,
}

impl LoopCourse {
    /// Before the first event of a network. `AllocError` if memory runs out: nothing is made.
    pub fn new(
        alloc: Global,
        net: &Network,
        scene: Scene,
        seed: u64,
    ) -> Result<LoopCourse, AllocError>
        requires { IsSceneOf net.now.cfg scene }
        ensures fits { IfOk result (λ course. FitsSim net.now.cfg course.sim) }
        ensures scene { IfOk result (λ course. course.sim.scene ≡ scene) }
        ensures begins { IfOk result (λ course. SimIs (new_sim scene seed) course.sim) }
        ensures none { IfOk result (λ course. course.events ≡ 0) }
        ensures forged { IfOk result (λ course. course.forged ≡ 0) }
        ensures came { IfOk result (λ course. course.index.came.items ≡ []) }
        ensures handed { IfOk result (λ course. course.index.handed.items ≡ []) }
    {
        let _net = net;
        let sim = Sim::new(alloc, scene, seed)?;
        Ok(LoopCourse {
            sim,
            event: Event::Tick { node: 0 },
            events: 0,
            forged: 0,
            index: Index::new(alloc),
        })
    }
}

impl<F: Fn(i64) -> i64> LoopedNetwork<F> {
    /// A network before its first event, with the laws of the links above its nodes. `AllocError`
    /// if memory runs out: no network is made.
    #[inline(never)]
    pub fn new(
        alloc: Global,
        net: Network,
        laws: Vec<Option<DelayLaw<F>>>,
    ) -> Result<LoopedNetwork<F>, AllocError>
        requires net { IsAccepted net.cfg net.db }
        requires count { length laws.items ≡ node_count net.cfg }
        requires laws { Each (FitsLaw F.pre F.post net.cfg) laws.items }
        ensures ready { IfOk result (CanLoop F.pre F.post) }
        ensures net { IfOk result (λ network. network.world.plant.net ≡ net) }
        ensures none { IfOk result (λ network. network.world.plant.events ≡ 0) }
        ensures stands { IfOk result (λ network.
            StandsFor F.post (setting_of net.cfg net.db laws.items)
            (new_world (setting_of net.cfg net.db laws.items)) network.world) }
        ensures laws { IfOk result (λ network. HasLaws laws.items network.world) }
    {
        let world = World::new(alloc, net, laws)?;
        Ok(LoopedNetwork {
            world,
            outs: Vec::new(alloc),
        })
    }

    /// Takes an event that keeps all premises, and appends its line and what its steps put out.
    /// `AllocError` if memory runs out: then nothing is known of `text`, nor of whether the event
    /// was taken.
    pub fn happen(
        &mut self,
        alloc: Global,
        event: &Event,
        text: &mut Vec<u8>,
    ) -> Result<(), AllocError>
        requires ready { CanLoop F.pre F.post self.old }
        requires event { MayCome self.old.world event.now }
        requires accepted { CanHappen F.post self.old.world event.now }
        ensures ready { CanLoop F.pre F.post self.new }
        ensures net { self.new.world.plant.net ≡ self.old.world.plant.net }
        ensures laws { laws_of self.new.world ≡ laws_of self.old.world }
        ensures counted { OnOk result (self.new.world.plant.events ≡ self.old.world.plant.events + 1) }
        ensures happens { OnOk result (Happens F.post event.now self.old.world self.new.world
            text.old.items text.new.items) }
    {
        accepted_is_unbroken();
        append_event(alloc, event, self.world.net(), text)?;
        match self.world.step_into(event, &mut self.outs) {
            Ok(()) => self.write(alloc, text),
            Err(Refused::Broken { .. }) => unreachable!(),
            Err(Refused::Memory(fault)) => Err(fault),
        }
    }

    // Appends what the steps of an event put out.
    fn write(&self, alloc: Global, text: &mut Vec<u8>) -> Result<(), AllocError>
        requires ready { CanLoop F.pre F.post self.now }
        requires nodes { AreOfNodes self.now.world.plant.net.cfg self.now.outs.items }
        ensures { IfOk result (λ _. (s : Setting) (w : WorldAt)
            → StandsFor F.post s w self.now.world → text.new.items ≡ text.old.items
            ++ flat_map (λ step. concat (step_lines s w step)) (map step_seen self.now.outs.items)) }
    {
        append_steps(alloc, &self.world, &self.outs, text)
    }
}
