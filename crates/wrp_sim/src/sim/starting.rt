//! The start, links that are joined, and nodes that come up.
ghost use Rattle.std.specs.Prelude.{◌≡◌, ◌<◌, ◌+◌, None, Some, length};
ghost use Rattle.wrp_network.specs.declared.configuration.NetCfg.{NetCfg};
ghost use Rattle.wrp_sim.specs.Rules as rule;
ghost use Rattle.wrp_sim.specs.Sim.{FitsSim, Follows, Gave, SimIs, StaysFit, as_is, put};
ghost use Rattle.wrp_sim.specs.SimAt.{SimAt};
ghost use Rattle.wrp_course.specs.Setting.{Setting};
ghost use Rattle.wrp_world.specs.StandsFor.{IsValid, StandsFor, Tells};
ghost use Rattle.wrp_course.specs.WorldAt.{WorldAt};

use super::state::State;
use arrayvec::ArrayVec;
use wrp_base::sum;
use wrp_world::{Event, World, longest_tick, shortest_tick};

impl State {
    /// A link is joined with the delays of the scenario.
    pub(super) fn join_event<F: Fn(i64) -> i64>(&self, world: &World<F>, k: u8, event: &mut Event)
        requires valid { IsValid F.pre F.post world.now }
        requires fits { FitsSim world.now.plant.net.cfg self.now }
        requires link { k < length world.now.plant.net.cfg.links.items }
        ensures { Tells F.post (λ s w. rule.join_event self.now.scene s k) world.now event.new }
    {
        let cfg = &world.net().cfg;
        *event = Event::Join {
            link: k,
            ms: self.scene.delay_down(k, cfg),
            sm: self.scene.delay_up(k, cfg),
        };
    }

    // A node comes up with the offset of the scenario.
    fn up_event(&self, n: u8, event: &mut Event)
        requires { n < length self.now.scene.offsets }
        ensures { event.new ≡ rule.up_event self.now.scene n }
    {
        *event = Event::Up {
            node: n,
            off: self.scene.offset(n),
            swaps: ArrayVec::new(),
        };
    }

    /// The next tick time of a node that comes up or ticks now is drawn.
    pub(super) fn set_tick<F: Fn(i64) -> i64>(&mut self, world: &World<F>, n: u8)
        requires valid { IsValid F.pre F.post world.now }
        requires fits { FitsSim world.now.plant.net.cfg self.old }
        requires node { n < length world.now.nodes }
        ensures ticks { (s : Setting) (w : WorldAt) (at : SimAt) → StandsFor F.post s w world.now
            → SimIs at self.old → SimIs (rule.with_tick s w.time n at) self.new }
        ensures stays { StaysFit world.now.plant.net.cfg self.old self.new }
    {
        let cfg = &world.net().cfg;
        let wait = self.draws.draw_from(shortest_tick(cfg), longest_tick(cfg));
        let now = world.time();
        let next = sum(now, wait);
        self.tick_at.set(n, next, now);
    }

    /// An event comes that is not a tick.
    pub(super) fn comes(&mut self)
        ensures follows { (at : SimAt) → SimIs at self.old → SimIs (record at { ticked = None }) self.new }
        ensures stays { (cfg : NetCfg) → FitsSim cfg self.old → StaysFit cfg self.old self.new }
    {
        self.ticked = None;
    }

    /// A node comes up.
    pub(super) fn wake<F: Fn(i64) -> i64>(&mut self, world: &World<F>, n: u8, event: &mut Event)
        requires valid { IsValid F.pre F.post world.now }
        requires fits { FitsSim world.now.plant.net.cfg self.old }
        requires node { n < length world.now.nodes }
        ensures follows { (s : Setting) (w : WorldAt) (at stays : SimAt) → StandsFor F.post s w world.now → SimIs at self.old
            → Gave stays (rule.comes (rule.up_event self.old.scene n) (rule.with_tick s w.time n at)) (Some event.new) self.new }
        ensures stays { StaysFit world.now.plant.net.cfg self.old self.new }
    {
        self.up_event(n, event);
        self.set_tick(world, n);
        self.comes();
    }

    // At the start a link is joined.
    fn join_first<F: Fn(i64) -> i64>(&mut self, world: &World<F>, k: u8, event: &mut Event)
        requires valid { IsValid F.pre F.post world.now }
        requires fits { FitsSim world.now.plant.net.cfg self.old }
        requires link { k < length world.now.plant.net.cfg.links.items }
        requires next { self.old.begun ≡ k }
        requires few { self.old.begun < 1_000 }
        ensures follows { (s : Setting) (w : WorldAt) (at : SimAt) → StandsFor F.post s w world.now → SimIs at self.old
            → Gave at (rule.comes (rule.join_event self.old.scene s k) (rule.one_begun at)) (Some event.new) self.new }
        ensures stays { StaysFit world.now.plant.net.cfg self.old self.new }
    {
        self.join_event(world, k, event);
        self.begun += 1;
        self.comes();
    }

    // At the start a node comes up.
    fn wake_first<F: Fn(i64) -> i64>(&mut self, world: &World<F>, n: u8, event: &mut Event)
        requires valid { IsValid F.pre F.post world.now }
        requires fits { FitsSim world.now.plant.net.cfg self.old }
        requires node { n < length world.now.nodes }
        requires next { self.old.begun ≡ length world.now.plant.net.cfg.links.items + n }
        requires few { self.old.begun < 1_000 }
        ensures follows { (s : Setting) (w : WorldAt) (at : SimAt) → StandsFor F.post s w world.now → SimIs at self.old
            → Gave at (rule.comes (rule.up_event self.old.scene n) (rule.with_tick s w.time n (rule.one_begun at))) (Some event.new) self.new }
        ensures stays { StaysFit world.now.plant.net.cfg self.old self.new }
    {
        self.begun += 1;
        self.wake(world, n, event);
    }

    /// At the start every link is joined, and then every node comes up, in file order.
    pub(super) fn begin<F: Fn(i64) -> i64>(&mut self, world: &World<F>, event: &mut Event) -> bool
        requires valid { IsValid F.pre F.post world.now }
        requires fits { FitsSim world.now.plant.net.cfg self.old }
        ensures follows { Follows F.post rule.begins as_is world.now self.old self.new (put result event.new) }
        ensures stays { StaysFit world.now.plant.net.cfg self.old self.new }
    {
        let begun = self.begun;
        let links = world.net().cfg.links.len() as u16;
        let nodes = world.net().cfg.nodes.len() as u16;
        if begun < links {
            self.join_first(world, begun as u8, event);
            true
        } else if begun - links < nodes {
            self.wake_first(world, (begun - links) as u8, event);
            true
        } else {
            false
        }
    }
}
