//! Frames that arrive.
ghost use Rattle.std.specs.Prelude.{◌≡◌, ◌<◌, length, Some};
ghost use Rattle.wrp_network.specs.declared.configuration.NetCfg.{NetCfg};
ghost use Rattle.wrp_sim.specs.Draws.{next_state};
ghost use Rattle.wrp_sim.specs.Numbers as number;
ghost use Rattle.wrp_sim.specs.Rules as rule;
ghost use Rattle.wrp_sim.specs.Sim.{FitsSim, Follows, Gave, IsDue, IsOnFibre, SimIs, StaysFit, as_is, put};
ghost use Rattle.wrp_sim.specs.SimAt.{SimAt};
ghost use Rattle.wrp_course.specs.Setting.{Setting};
ghost use Rattle.wrp_world.specs.StandsFor.{IsValid, StandsFor, Tells};
ghost use Rattle.wrp_course.specs.WorldAt.{WorldAt};

use super::numbers::{is_at, is_within, raw_at};
use super::state::{Handed, State};
use crate::draws::Draws;
use wrp_base::{Raw, Tau};
use wrp_course::Place;
use wrp_stamp::transition_of;
use wrp_world::{Event, World};

// Draws whether something happens that happens so often of 1000 times.
fn draw_whether(draws: &mut Draws, permille: u16) -> bool
    ensures value { result ≡ number.is_drawn permille draws.old }
    ensures state { draws.new ≡ next_state draws.old }
{
    draws.draw_from(0, 999) < i128::from(permille)
}

// How often a frame is handed over.
fn times(lost: bool, repeated: bool) -> u8
    ensures { result ≡ rule.times_of lost repeated }
{
    if lost {
        0
    } else if repeated {
        2
    } else {
        1
    }
}

// The raw stamp at an end of a link. `None` if a stamp cannot show the clock there.
fn raw_to<F: Fn(i64) -> i64>(world: &World<F>, to: Place) -> Option<Raw>
    requires valid { IsValid F.pre F.post world.now }
    requires link { to.link < length world.now.plant.net.cfg.links.items }
    ensures { Tells F.post (λ s w. rule.raw_to s w to.link to.role) world.now result }
{
    let clock = world.net().cfg.clock;
    let node = world.node_at(to);
    let at = world.reading(node);
    if is_within(clock, at) {
        let transition = transition_of(world.first_entry(to));
        Some(raw_at(clock, transition, at))
    } else {
        None
    }
}

// The raw stamp of a frame on a fibre, at the end that it comes to.
fn raw_of<F: Fn(i64) -> i64>(world: &World<F>, frame: u32) -> Option<Raw>
    requires valid { IsValid F.pre F.post world.now }
    requires on { IsOnFibre F.post world.now frame }
    ensures { Tells F.post (λ s w. rule.raw_of s w frame) world.now result }
{
    match world.comes_to(frame) {
        Some(to) => raw_to(world, to),
        None => None,
    }
}

impl State {
    // A frame arrives: it is drawn whether it is lost, and whether it is handed over once more.
    fn take_arrival(&mut self, frame: u32)
        ensures at { (at : SimAt) → SimIs at self.old → SimIs (rule.after_arrival self.old.scene frame at) self.new }
        ensures stays { (cfg : NetCfg) → FitsSim cfg self.old → StaysFit cfg self.old self.new }
    {
        let lost = draw_whether(&mut self.draws, self.scene.loss());
        let repeated = draw_whether(&mut self.draws, self.scene.repeat());
        self.arrived = Handed {
            frame,
            times: times(lost, repeated),
        };
    }

    // A frame that is due arrives.
    fn arrive_now<F: Fn(i64) -> i64>(
        &mut self,
        world: &World<F>,
        frame: u32,
        event: &mut Event,
    ) -> bool
        requires valid { IsValid F.pre F.post world.now }
        requires fits { FitsSim world.now.plant.net.cfg self.old }
        requires on { IsOnFibre F.post world.now frame }
        ensures follows { Follows F.post (λ scene s w at. rule.arrives_by scene s w at frame) as_is world.now self.old self.new (put result event.new) }
        ensures stays { StaysFit world.now.plant.net.cfg self.old self.new }
    {
        match raw_of(world, frame) {
            Some(raw) => {
                self.take_arrival(frame);
                *event = Event::Arrive { frame, raw };
                self.comes();
                true
            }
            None => false,
        }
    }

    /// The frame that is due first arrives, if it is due now and a stamp can show its receiver's
    /// clock.
    pub(super) fn arrive<F: Fn(i64) -> i64>(
        &mut self,
        world: &World<F>,
        due: Option<(u32, Tau)>,
        event: &mut Event,
    ) -> bool
        requires valid { IsValid F.pre F.post world.now }
        requires fits { FitsSim world.now.plant.net.cfg self.old }
        requires due { IsDue F.post world.now due }
        ensures follows { Follows F.post (λ scene s w at. rule.arrives scene s w due at) as_is world.now self.old self.new (put result event.new) }
        ensures stays { StaysFit world.now.plant.net.cfg self.old self.new }
    {
        match due {
            Some((frame, at)) => self.arrive_at(world, frame, at, event),
            None => false,
        }
    }

    // A frame arrives, if it is due now.
    fn arrive_at<F: Fn(i64) -> i64>(
        &mut self,
        world: &World<F>,
        frame: u32,
        due: Tau,
        event: &mut Event,
    ) -> bool
        requires valid { IsValid F.pre F.post world.now }
        requires fits { FitsSim world.now.plant.net.cfg self.old }
        requires on { IsOnFibre F.post world.now frame }
        ensures follows { Follows F.post (λ scene s w at. rule.arrives scene s w (Some (frame, due)) at) as_is world.now self.old self.new (put result event.new) }
        ensures stays { StaysFit world.now.plant.net.cfg self.old self.new }
    {
        let now = world.time();
        if is_at(due, now) {
            self.arrive_now(world, frame, event)
        } else {
            false
        }
    }
}
