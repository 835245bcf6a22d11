//! The samples of phase detectors.
ghost use Rattle.std.specs.Prelude.{◌≡◌, ◌<◌, ◌≤◌, ◌^◌, length, option_and_then, option_map, Some, unsigned_abs, IfSome};
ghost use Rattle.std.specs.Option.{option_map_or};
ghost use Rattle.wrp_base.specs.Clock.{steps_of_period};
ghost use Rattle.wrp_sim.specs.Numbers as number;
ghost use Rattle.wrp_sim.specs.Draws as draw;
ghost use Rattle.wrp_sim.specs.Rules as rule;
ghost use Rattle.wrp_sim.specs.Sim.{FitsSim, Follows, Gave, SimIs, StaysFit, as_is, put};
ghost use Rattle.wrp_sim.specs.SimAt.{SimAt};
ghost use Rattle.wrp_course.specs.Setting.{Setting, link_of};
ghost use Rattle.wrp_world.specs.StandsFor.{IsValid, StandsFor, Tells};
ghost use Rattle.wrp_course.specs.WorldAt.{WorldAt};

use super::numbers::{base_before, bits_behind, true_step};
use super::state::State;
use crate::draws::Draws;
use wrp_base::{Module, Role, Tau, sum};
use wrp_course::Place;
use wrp_world::{Event, World};

// Draws how many bits are 0 at the front of a sample.
fn draw_zeros(draws: &mut Draws, beat: u16) -> u32
    requires { beat ≤ 24 }
    ensures value { result ≡ number.drawn_zeros beat draws.old }
    ensures least { 1 ≤ result }
    ensures most { result ≤ 63 }
    ensures state { draws.new ≡ draw.next_state draws.old }
{
    let beat = i128::from(beat);
    let more = draws.draw_from(-beat, beat);
    sum(32, more).unsigned_abs() as u32
}

impl State {
    // The one-way delay down a link: the delay of the fibre by the scenario, and the delays of the ports
    // by the entries of their modules.
    fn delay_down<F: Fn(i64) -> i64>(&self, world: &World<F>, k: u8) -> Tau
        requires valid { IsValid F.pre F.post world.now }
        requires fits { FitsSim world.now.plant.net.cfg self.now }
        requires link { k < length world.now.plant.net.cfg.links.items }
        ensures value { Tells F.post (λ s w. rule.delay_down self.now.scene s k) world.now result }
        ensures size { unsigned_abs result ≤ 2 ^ 100 }
    {
        let upper = Place {
            link: k,
            role: Role::Master,
        };
        let lower = Place {
            link: k,
            role: Role::Slave,
        };
        let ms = self.scene.delay_down(k, &world.net().cfg);
        let sent = tx_of(world.first_entry(upper));
        let received = rx_of(world.first_entry(lower));
        sum(sum(i128::from(sent), ms), i128::from(received))
    }

    // The detector's step in which the true phase of the node below a link lies.
    fn step_below<F: Fn(i64) -> i64>(&self, world: &World<F>, k: u8) -> u16
        requires valid { IsValid F.pre F.post world.now }
        requires fits { FitsSim world.now.plant.net.cfg self.now }
        requires link { k < length world.now.plant.net.cfg.links.items }
        ensures value { Tells F.post (λ s w. option_map (λ link. rule.step_below self.now.scene s w k link) (link_of s k)) world.now (Some result) }
        ensures most { result < steps_of_period }
    {
        let link = world.link_cfg(k);
        let ahead = world.apart(link.lower, link.upper);
        let down = self.delay_down(world, k);
        let phase = sum(ahead, down);
        true_step(world.net().cfg.clock, phase)
    }

    // The sample of the node below a link.
    fn sample_below<F: Fn(i64) -> i64>(&mut self, world: &World<F>, n: u8, k: u8, event: &mut Event)
        requires valid { IsValid F.pre F.post world.now }
        requires fits { FitsSim world.now.plant.net.cfg self.old }
        requires node { n < length world.now.nodes }
        requires link { k < length world.now.plant.net.cfg.links.items }
        ensures follows { (s : Setting) (w : WorldAt) (at : SimAt) → StandsFor F.post s w world.now → SimIs at self.old
            → Gave at (option_and_then (λ link. rule.comes (rule.sample_of self.old.scene s w n k link at.state) (rule.after_draw at)) (link_of s k)) (Some event.new) self.new }
        ensures stays { StaysFit world.now.plant.net.cfg self.old self.new }
    {
        let step = self.step_below(world, k);
        let node = world.node_cfg(n);
        let zeros = draw_zeros(&mut self.draws, node.beat);
        let base = base_before(step);
        let bits = bits_behind(zeros);
        *event = Event::Sample {
            node: n,
            base,
            bits,
        };
        self.comes();
    }

    /// After a tick of a node whose slave port has its carrier, its sample.
    pub(super) fn sample<F: Fn(i64) -> i64>(&mut self, world: &World<F>, event: &mut Event) -> bool
        requires valid { IsValid F.pre F.post world.now }
        requires fits { FitsSim world.now.plant.net.cfg self.old }
        ensures follows { Follows F.post rule.samples as_is world.now self.old self.new (put result event.new) }
        ensures stays { StaysFit world.now.plant.net.cfg self.old self.new }
    {
        match self.ticked {
            Some(node) => self.sample_at(world, node, event),
            None => false,
        }
    }

    // The sample of the node that ticked last.
    fn sample_at<F: Fn(i64) -> i64>(&mut self, world: &World<F>, n: u8, event: &mut Event) -> bool
        requires valid { IsValid F.pre F.post world.now }
        requires fits { FitsSim world.now.plant.net.cfg self.old }
        requires node { n < length world.now.nodes }
        ensures follows { (s : Setting) (w : WorldAt) (at : SimAt) → StandsFor F.post s w world.now → SimIs at self.old
            → at.ticked ≡ Some n → Gave at (rule.samples self.old.scene s w at) (put result event.new) self.new }
        ensures stays { StaysFit world.now.plant.net.cfg self.old self.new }
    {
        match world.above(n) {
            Some(link) => self.sample_over(world, n, link, event),
            None => false,
        }
    }

    // The sample of a node, if the link above it has its carrier.
    fn sample_over<F: Fn(i64) -> i64>(
        &mut self,
        world: &World<F>,
        n: u8,
        k: u8,
        event: &mut Event,
    ) -> bool
        requires valid { IsValid F.pre F.post world.now }
        requires fits { FitsSim world.now.plant.net.cfg self.old }
        requires node { n < length world.now.nodes }
        requires link { k < length world.now.plant.net.cfg.links.items }
        ensures follows { (s : Setting) (w : WorldAt) (at : SimAt) → StandsFor F.post s w world.now → SimIs at self.old
            → Gave at (rule.sample_below self.old.scene s w at n k) (put result event.new) self.new }
        ensures stays { StaysFit world.now.plant.net.cfg self.old self.new }
    {
        if world.has_carrier(k) {
            self.sample_below(world, n, k, event);
            true
        } else {
            false
        }
    }
}

// The transmission delay of a module, 0 if it is not listed.
fn tx_of(entry: Option<Module>) -> u64
    ensures { result ≡ option_map_or (λ m. m.tx) entry 0 }
{
    match entry {
        Some(entry) => entry.tx,
        None => 0,
    }
}

// The reception delay of a module, 0 if it is not listed.
fn rx_of(entry: Option<Module>) -> u64
    ensures { result ≡ option_map_or (λ m. m.rx) entry 0 }
{
    match entry {
        Some(entry) => entry.rx,
        None => 0,
    }
}
