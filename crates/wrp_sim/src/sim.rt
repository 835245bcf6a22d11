//! The simulator: the events of a network, each by the first rule that applies.
ghost use Rattle.std.specs.Prelude.{◌≡◌, IfOk, IfSome, length, pos, true};
ghost use Rattle.wrp_network.specs.declared.configuration.NetCfg.{NetCfg};
ghost use Rattle.wrp_sim.specs.HandsOver.{HandsOver};
ghost use Rattle.wrp_scene.specs.Scenario.{IsSceneOf};
ghost use Rattle.wrp_sim.specs.Sim.{FitsSim, FollowsRules, SimIs, StaysFit, put};
ghost use Rattle.wrp_sim.specs.SimAt.{new_sim};
ghost use Rattle.wrp_sim.specs.TakesTurns.{TakesTurns};
ghost use Rattle.wrp_plant.specs.Plant.{Each};
ghost use Rattle.wrp_world.specs.StandsFor.{IsValid};

mod arriving;
mod departing;
mod failing;
mod numbers;
mod passing;
mod rules;
mod sampling;
mod starting;
mod state;
mod ticking;

use crate::draws::Draws;
use crate::laws::simulator_keeps_the_bounds;
use crate::ticks::Ticks;
use state::{Handed, State};
use std::alloc::{AllocError, Global};
use std::marker::Model;
use wrp_base::Tau;
use wrp_scene::Scene;
use wrp_world::{Event, World};

/// A simulator of a network: it makes the events of a world, one after the other, from a scenario and
/// the numbers that it draws.
#[derive(Drop)]
pub struct Sim {
    state: State,
}

impl Model for Sim {
    ghost use Rattle.wrp_sim.specs.declared.sim.state.State.{State};

    ghost Value = { State };

    ghost view = { λ s. s.state };
}

// No node has a tick time yet: this one is before each start.
fn no_ticks(alloc: Global, count: usize) -> Result<Vec<Tau>, AllocError>
    ensures count { IfOk result (λ tick_at. length tick_at.items ≡ count) }
    ensures none { IfOk result (λ tick_at. Each (λ n t. t ≡ pos 0) tick_at.items) }
{
    let mut tick_at = Vec::new(alloc);
    for _node in 0..count {
        tick_at.push(0)?;
    }
    Ok(tick_at)
}

impl Sim {
    /// A simulator of the network that this scenario belongs to, before any event; it draws its numbers
    /// from the seed, which may be any number. `AllocError` if there is not enough memory; then there is
    /// no simulator.
    pub fn new(alloc: Global, scene: Scene, seed: u64) -> Result<Sim, AllocError>
        ensures is { IfOk result (λ sim. SimIs (new_sim scene seed) sim) }
        ensures scene { IfOk result (λ sim. sim.scene ≡ scene) }
        ensures fits { (cfg : NetCfg) → IsSceneOf cfg scene → IfOk result (λ sim. FitsSim cfg sim) }
    {
        let faults = scene.faults().to_vec(alloc)?;
        let tick_at = no_ticks(alloc, scene.node_count())?;
        Ok(Sim {
            state: State {
                scene,
                draws: Draws::new(seed),
                begun: 0,
                faults,
                tick_at: Ticks::of(tick_at),
                ticked: None,
                arrived: Handed { frame: 0, times: 0 },
            },
        })
    }

    /// The next event: the first rule that applies. Its times are in tau. `None` if and only if the
    /// scenario's time has passed and no event is due. Then the simulator draws no number; it only drops
    /// the faults whose time has come and that do not apply.
    ///
    /// The world belongs to the network of the scenario, and the events of this simulator made it, except
    /// that a `Deliver` may be left out, and that other `Deliver` events, and `Noise`, may come in
    /// between.
    /// in between.
    pub fn next<F: Fn(i64) -> i64>(&mut self, world: &World<F>) -> Option<Event>
        requires valid { IsValid F.pre F.post world.now }
        requires fits { FitsSim world.now.plant.net.cfg self.old }
        ensures follows { FollowsRules F.post world.now self.old self.new result }
        ensures stays { StaysFit world.now.plant.net.cfg self.old self.new }
        ensures turns { TakesTurns F.post world.now self.old self.new result }
        ensures hands { IfSome result (HandsOver self.old self.new) }
    {
        let mut event = Event::Tick { node: 0 };
        if self.next_into(world, &mut event) {
            Some(event)
        } else {
            None
        }
    }

    /// The same, put in the place of another event, which is lost. If one place is used again and again,
    /// no new event has to be made each time. Returns whether there is an event; if there is none, the
    /// contents of the place are not specified.
    pub fn next_into<F: Fn(i64) -> i64>(&mut self, world: &World<F>, event: &mut Event) -> bool
        requires valid { IsValid F.pre F.post world.now }
        requires fits { FitsSim world.now.plant.net.cfg self.old }
        ensures follows { FollowsRules F.post world.now self.old self.new (put result event.new) }
        ensures stays { StaysFit world.now.plant.net.cfg self.old self.new }
        ensures turns { TakesTurns F.post world.now self.old self.new (put result event.new) }
        ensures hands { result ≡ true → HandsOver self.old self.new event.new }
    {
        simulator_keeps_the_bounds();
        self.state.next_into(world, event)
    }
}
