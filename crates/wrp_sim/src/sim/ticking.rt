//! The ticks of nodes.
ghost use Rattle.std.specs.Prelude.{◌≡◌, ◌<◌, length, slice_get, Some, IfSome};
ghost use Rattle.std.specs.List.{find};
ghost use Rattle.wrp_sim.specs.NextTick.{NoneBefore};
ghost use Rattle.wrp_sim.specs.Rules as rule;
ghost use Rattle.wrp_sim.specs.Sim.{FitsSim, Follows, SimIs, StaysFit, as_is, put};
ghost use Rattle.wrp_sim.specs.SimAt.{SimAt};
ghost use Rattle.wrp_course.specs.Setting.{Setting, nodes_of};
ghost use Rattle.wrp_world.specs.StandsFor.{IsValid, StandsFor};
ghost use Rattle.wrp_course.specs.WorldAt.{WorldAt};

use super::numbers::is_at;
use super::state::State;
use wrp_base::Tau;
use wrp_world::{Event, World};

impl State {
    /// When a node ticks next.
    pub(super) fn tick_of(&self, n: u8) -> Tau
        requires { n < length self.now.tick_at }
        ensures { slice_get self.now.tick_at n ≡ Some result }
    {
        self.tick_at.at(n)
    }

    // Whether the tick time of a node is now; a node that is down has no tick time.
    fn ticks_now<F: Fn(i64) -> i64>(&self, world: &World<F>, n: u8) -> bool
        requires valid { IsValid F.pre F.post world.now }
        requires fits { FitsSim world.now.plant.net.cfg self.now }
        requires node { n < length world.now.nodes }
        ensures { (s : Setting) (w : WorldAt) (at : SimAt) → StandsFor F.post s w world.now → SimIs at self.now
            → result ≡ rule.ticks_now w at n }
    {
        let at = self.tick_of(n);
        let now = world.time();
        if is_at(at, now) {
            world.is_up(n)
        } else {
            false
        }
    }

    // The first node whose tick time is now: the nodes from a first one on are asked, if it is known that no
    // earlier one has such a time.
    fn look_for_tick<F: Fn(i64) -> i64>(&self, world: &World<F>, start: u8) -> Option<u8>
        requires valid { IsValid F.pre F.post world.now }
        requires fits { FitsSim world.now.plant.net.cfg self.now }
        requires earlier { (s : Setting) (w : WorldAt) → StandsFor F.post s w world.now
            → NoneBefore w.time self.now.tick_at start }
        ensures value { (s : Setting) (w : WorldAt) (at : SimAt) → StandsFor F.post s w world.now → SimIs at self.now
            → result ≡ find (rule.ticks_now w at) (nodes_of s) }
        ensures within { IfSome result (λ n. n < length world.now.nodes) }
    {
        let count = world.node_count();
        for n in start..count {
            if self.ticks_now(world, n) {
                return Some(n);
            }
        }
        None
    }

    // The first node whose tick time is now: no node is asked if it is known that there is none, and only one if
    // the first of the times is now and its node is up.
    fn first_tick<F: Fn(i64) -> i64>(&self, world: &World<F>) -> Option<u8>
        requires valid { IsValid F.pre F.post world.now }
        requires fits { FitsSim world.now.plant.net.cfg self.now }
        ensures value { (s : Setting) (w : WorldAt) (at : SimAt) → StandsFor F.post s w world.now → SimIs at self.now
            → result ≡ find (rule.ticks_now w at) (nodes_of s) }
        ensures within { IfSome result (λ n. n < length world.now.nodes) }
    {
        let now = world.time();
        if self.tick_at.none_at(now) {
            None
        } else {
            let start = self.tick_at.place_at(now);
            self.look_for_tick(world, start)
        }
    }

    /// A node ticks if its tick time is now.
    pub(super) fn tick<F: Fn(i64) -> i64>(&mut self, world: &World<F>, event: &mut Event) -> bool
        requires valid { IsValid F.pre F.post world.now }
        requires fits { FitsSim world.now.plant.net.cfg self.old }
        ensures follows { Follows F.post (λ scene s w at. rule.ticks s w at) as_is world.now self.old self.new (put result event.new) }
        ensures stays { StaysFit world.now.plant.net.cfg self.old self.new }
    {
        match self.first_tick(world) {
            Some(n) => {
                self.set_tick(world, n);
                self.ticked = Some(n);
                *event = Event::Tick { node: n };
                true
            }
            None => false,
        }
    }
}
