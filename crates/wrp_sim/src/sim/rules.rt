//! The rules, one after the other.
ghost use Rattle.wrp_sim.specs.Rules as rule;
ghost use Rattle.wrp_sim.specs.Sim.{FitsSim, Follows, FollowsRules, IsDue, StaysFit, as_is, put};
ghost use Rattle.wrp_world.specs.StandsFor.{IsValid};

use super::state::State;
use wrp_base::Tau;
use wrp_world::{Event, World};

impl State {
    // What the rules after the start and the faults give. `due` is the frame that is due first.
    fn later<F: Fn(i64) -> i64>(
        &mut self,
        world: &World<F>,
        due: Option<(u32, Tau)>,
        event: &mut Event,
    ) -> bool
        requires valid { IsValid F.pre F.post world.now }
        requires fits { FitsSim world.now.plant.net.cfg self.old }
        requires due { IsDue F.post world.now due }
        ensures follows { Follows F.post (λ scene s w at. rule.first_of (rule.later_rules scene s w due at)) as_is world.now self.old self.new (put result event.new) }
        ensures stays { StaysFit world.now.plant.net.cfg self.old self.new }
    {
        if self.sample(world, event) {
            return true;
        }
        if self.depart(world, event) {
            return true;
        }
        if self.deliver(event) {
            return true;
        }
        if self.arrive(world, due, event) {
            return true;
        }
        if self.tick(world, event) {
            return true;
        }
        self.pass(world, due, event)
    }

    /// The next event, by the first rule that applies, is put into this place. Answers whether one applies.
    pub(super) fn next_into<F: Fn(i64) -> i64>(
        &mut self,
        world: &World<F>,
        event: &mut Event,
    ) -> bool
        requires valid { IsValid F.pre F.post world.now }
        requires fits { FitsSim world.now.plant.net.cfg self.old }
        ensures follows { FollowsRules F.post world.now self.old self.new (put result event.new) }
        ensures stays { StaysFit world.now.plant.net.cfg self.old self.new }
    {
        let due = world.next_arrival();
        if self.begin(world, event) {
            return true;
        }
        if self.fail(world, event) {
            return true;
        }
        self.later(world, due, event)
    }
}
