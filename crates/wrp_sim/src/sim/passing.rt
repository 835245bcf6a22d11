//! True time that passes.
ghost use Rattle.std.specs.Prelude.{◌≡◌, ◌<◌, ◌≤◌, ◌++◌, ◌^◌, ◌+ℤ◌, ◌-ℤ◌, ◌≤ℤ◌, ◌<ℤ◌, ℤ, List, pos, true, fold, map, if◌then◌else◌, length, unsigned_abs, IfSome};
ghost use Rattle.std.specs.List.{AllByRecursion};
ghost use Rattle.wrp_sim.specs.NextTick.{IsNext};
ghost use Rattle.wrp_sim.specs.Numbers as number;
ghost use Rattle.wrp_sim.specs.Numbers.{IsSlow, drift_at};
ghost use Rattle.wrp_sim.specs.Rules as rule;
ghost use Rattle.wrp_scene.specs.Scenario.{IsFree, free_of};
ghost use Rattle.wrp_sim.specs.Sim.{FitsSim, Follows, HasDrifts, IsPassOf, SimIs, StaysFit, as_is, put};
ghost use Rattle.wrp_sim.specs.SimAt.{SimAt};
ghost use Rattle.wrp_course.specs.Setting.{Setting, from_on, nodes_of};
ghost use Rattle.wrp_world.specs.StandsFor.{IsValid, StandsFor, Tells};
ghost use Rattle.wrp_course.specs.WorldAt.{WorldAt};

use super::numbers::{drift_by, held_to, is_by, own_rate, slow_rate};
use super::state::State;
use arrayvec::ArrayVec;
use wrp_base::{Tau, difference, narrow, sum};
use wrp_world::{Event, Steer, World, start_of};

/// The longest time that passes at once, in tau.
const LONGEST: i128 = 1 << 62;

/// The drifts of clocks that do not drift, for as many as a network has at most.
const AT_REST: [i64; 64] = [0; 64];

/// The moves of fibres that do not move, for as many as a network has at most.
const STILL: [(i64, i64); 63] = [(0, 0); 63];

// The sooner of two moments, the second of which counts only if it is after now.
fn sooner(now: Tau, best: Tau, moment: Tau) -> Tau
    requires later { now <ℤ best }
    requires now { unsigned_abs now ≤ 2 ^ 100 }
    requires best { unsigned_abs best ≤ 2 ^ 101 }
    ensures value { result ≡ rule.sooner now best moment }
    ensures later { now <ℤ result }
    ensures most { result ≤ℤ best }
    ensures size { unsigned_abs result ≤ 2 ^ 101 }
{
    if now < moment && moment < best {
        moment
    } else {
        best
    }
}

// The soonest of the moment at which a frame is due, if one is, and of another moment.
fn soonest_due(now: Tau, other: Tau, due: Option<(u32, Tau)>) -> Tau
    requires later { now <ℤ other }
    requires now { unsigned_abs now ≤ 2 ^ 100 }
    requires other { unsigned_abs other ≤ 2 ^ 101 }
    ensures value { result ≡ fold (rule.sooner now) other (rule.due_times due) }
    ensures later { now <ℤ result }
    ensures most { result ≤ℤ other }
    ensures size { unsigned_abs result ≤ 2 ^ 101 }
{
    match due {
        Some((_frame, at)) => sooner(now, other, at),
        None => other,
    }
}

// Whether there is a node with this number, and it is up.
fn is_up_at<F: Fn(i64) -> i64>(world: &World<F>, n: usize) -> bool
    requires { IsValid F.pre F.post world.now }
    ensures { (s : Setting) (w : WorldAt) → StandsFor F.post s w world.now → result ≡ true → (w.clock n).up ≡ true }
{
    if n < usize::from(world.node_count()) {
        world.is_up(n as u8)
    } else {
        false
    }
}

// How long it is to the next moment.
fn between(now: Tau, next: Tau) -> i64
    requires later { now <ℤ next }
    requires most { next ≤ℤ (now +ℤ pos (2 ^ 62)) }
    requires now { unsigned_abs now ≤ 2 ^ 100 }
    ensures { result ≡ next -ℤ now }
{
    narrow(difference(next, now))
}

// So many clocks that do not drift.
fn at_rest(count: usize) -> &'static [i64]
    requires { count ≤ 64 }
    ensures { length result.now ≡ count }
{
    &AT_REST[..count]
}

// Room for so many drifts.
fn make_room(count: usize, drifts: &mut ArrayVec<i64, 64>)
    requires { count ≤ 64 }
    ensures { length drifts.new.items ≡ count }
{
    drifts.clear();
    let _fits = drifts.try_extend_from_slice(at_rest(count));
}

// The number of a node.
fn as_number(n: usize) -> u8
    requires { n < 256 }
    ensures { result ≡ n }
{
    n as u8
}

// So many fibres that do not move.
fn still(count: usize) -> &'static [(i64, i64)]
    requires { count ≤ 63 }
    ensures value { result.now ≡ map (λ k. (pos 0, pos 0)) (from_on count 0) }
    ensures count { length result.now ≡ count }
{
    &STILL[..count]
}

// No fibre moves.
fn put_moves(count: usize, moves: &mut ArrayVec<(i64, i64), 63>)
    requires { count ≤ 63 }
    ensures { moves.new.items ≡ map (λ k. (pos 0, pos 0)) (from_on count 0) }
{
    moves.clear();
    let _fits = moves.try_extend_from_slice(still(count));
}

// A time that passes, in place of another event; if that event was also a time that passes, its lists
// stay where they are.
fn make_pass(dt: i64, event: &mut Event)
    ensures { IsPassOf dt event.new }
{
    match event {
        Event::Pass { dt: passing, .. } => *passing = dt,
        _ => {
            *event = Event::Pass {
                dt,
                drifts: ArrayVec::new(),
                fibres: ArrayVec::new(),
            };
        }
    }
}

// No fibre moves as a time passes.
fn put_all_moves(count: usize, event: &mut Event)
    requires { count ≤ 63 }
    ensures { (dt : ℤ) (moves : List ℤ) → HasDrifts dt moves event.old
        → event.new ≡ Event.Pass dt (record { items = moves }) (record { items = map (λ k. (pos 0, pos 0)) (from_on count 0) }) }
{
    match event {
        Event::Pass { fibres, .. } => put_moves(count, fibres),
        _ => {}
    }
}

// The value of the DAC at which a clock has its own rate.
fn bias<F: Fn(i64) -> i64>(world: &World<F>) -> i64
    requires { IsValid F.pre F.post world.now }
    ensures value { Tells F.post (λ s w. s.cfg.bias) world.now result }
    ensures size { unsigned_abs result ≤ 65_535 }
{
    world.net().cfg.bias
}

impl State {
    // The end of the scenario.
    fn end_time<F: Fn(i64) -> i64>(&self, world: &World<F>) -> Tau
        requires valid { IsValid F.pre F.post world.now }
        requires fits { FitsSim world.now.plant.net.cfg self.now }
        ensures value { Tells F.post (λ s w. rule.end_time self.now.scene s) world.now result }
        ensures size { unsigned_abs result ≤ 2 ^ 126 }
    {
        let start = start_of(&world.net().cfg);
        let duration = self.scene.duration();
        sum(start, duration)
    }

    // Whether the scenario's time has passed.
    fn is_over<F: Fn(i64) -> i64>(&self, world: &World<F>) -> bool
        requires valid { IsValid F.pre F.post world.now }
        requires fits { FitsSim world.now.plant.net.cfg self.now }
        ensures { Tells F.post (λ s w. rule.is_over self.now.scene s w) world.now result }
    {
        let end = self.end_time(world);
        let now = world.time();
        is_by(end, now)
    }

    // The sooner of the tick time of a node, if it is up, and of another moment.
    fn sooner_tick<F: Fn(i64) -> i64>(&self, world: &World<F>, now: Tau, best: Tau, n: u8) -> Tau
        requires valid { IsValid F.pre F.post world.now }
        requires fits { FitsSim world.now.plant.net.cfg self.now }
        requires node { n < length world.now.nodes }
        requires later { now <ℤ best }
        requires now { unsigned_abs now ≤ 2 ^ 100 }
        requires best { unsigned_abs best ≤ 2 ^ 101 }
        ensures value { (s : Setting) (w : WorldAt) (at : SimAt) → StandsFor F.post s w world.now
            → SimIs at self.now → result ≡ (if (w.clock n).up then rule.sooner now best (at.tick_at n) else best) }
        ensures later { now <ℤ result }
        ensures most { result ≤ℤ best }
        ensures size { unsigned_abs result ≤ 2 ^ 101 }
    {
        let up = world.is_up(n);
        let at = self.tick_of(n);
        if up { sooner(now, best, at) } else { best }
    }

    // The soonest of the tick times and of another moment: all nodes are asked.
    fn soonest_of_all<F: Fn(i64) -> i64>(&self, world: &World<F>, now: Tau, other: Tau) -> Tau
        requires valid { IsValid F.pre F.post world.now }
        requires fits { FitsSim world.now.plant.net.cfg self.now }
        requires later { now <ℤ other }
        requires now { unsigned_abs now ≤ 2 ^ 100 }
        requires other { unsigned_abs other ≤ 2 ^ 101 }
        ensures value { (s : Setting) (w : WorldAt) (at : SimAt) → StandsFor F.post s w world.now
            → SimIs at self.now → result ≡ fold (rule.sooner now) other (rule.tick_times s w at) }
        ensures later { now <ℤ result }
        ensures most { result ≤ℤ other }
        ensures size { unsigned_abs result ≤ 2 ^ 101 }
    {
        let mut best = other;
        let count = world.node_count();
        for n in 0..count {
            best = self.sooner_tick(world, now, best, n);
        }
        best
    }

    // The same, if the first tick time after now is known.
    fn soonest_known<F: Fn(i64) -> i64>(
        &self,
        world: &World<F>,
        now: Tau,
        other: Tau,
        n: usize,
        time: Tau,
    ) -> Tau
        requires valid { IsValid F.pre F.post world.now }
        requires fits { FitsSim world.now.plant.net.cfg self.now }
        requires next { IsNext now self.now.tick_at n time }
        requires later { now <ℤ other }
        requires now { unsigned_abs now ≤ 2 ^ 100 }
        requires other { unsigned_abs other ≤ 2 ^ 101 }
        ensures value { (s : Setting) (w : WorldAt) (at : SimAt) → StandsFor F.post s w world.now
            → SimIs at self.now → result ≡ fold (rule.sooner now) other (rule.tick_times s w at) }
        ensures later { now <ℤ result }
        ensures most { result ≤ℤ other }
        ensures size { unsigned_abs result ≤ 2 ^ 101 }
    {
        if is_up_at(world, n) {
            sooner(now, other, time)
        } else {
            self.soonest_of_all(world, now, other)
        }
    }

    // The same; if it is known which node ticks next, and it is up, no other node is asked.
    fn soonest_tick<F: Fn(i64) -> i64>(&self, world: &World<F>, now: Tau, other: Tau) -> Tau
        requires valid { IsValid F.pre F.post world.now }
        requires fits { FitsSim world.now.plant.net.cfg self.now }
        requires later { now <ℤ other }
        requires now { unsigned_abs now ≤ 2 ^ 100 }
        requires other { unsigned_abs other ≤ 2 ^ 101 }
        ensures value { (s : Setting) (w : WorldAt) (at : SimAt) → StandsFor F.post s w world.now
            → SimIs at self.now → result ≡ fold (rule.sooner now) other (rule.tick_times s w at) }
        ensures later { now <ℤ result }
        ensures most { result ≤ℤ other }
        ensures size { unsigned_abs result ≤ 2 ^ 101 }
    {
        match self.tick_at.next(now) {
            Some((n, time)) => self.soonest_known(world, now, other, n, time),
            None => self.soonest_of_all(world, now, other),
        }
    }

    // The soonest of the times of faults and of another moment.
    fn soonest_fault<F: Fn(i64) -> i64>(&self, world: &World<F>, now: Tau, other: Tau) -> Tau
        requires valid { IsValid F.pre F.post world.now }
        requires fits { FitsSim world.now.plant.net.cfg self.now }
        requires later { now <ℤ other }
        requires now { unsigned_abs now ≤ 2 ^ 100 }
        requires other { unsigned_abs other ≤ 2 ^ 101 }
        ensures value { Tells F.post (λ s w. fold (rule.sooner now) other (map (rule.fault_time s) self.now.faults.items)) world.now result }
        ensures later { now <ℤ result }
        ensures most { result ≤ℤ other }
        ensures size { unsigned_abs result ≤ 2 ^ 101 }
    {
        let start = start_of(&world.net().cfg);
        let mut best = other;
        for fault in &self.faults {
            let at = sum(start, fault.at);
            best = sooner(now, best, at);
        }
        best
    }

    // How long it is to the next moment.
    fn wait<F: Fn(i64) -> i64>(&self, world: &World<F>, due: Option<(u32, Tau)>) -> i64
        requires valid { IsValid F.pre F.post world.now }
        requires fits { FitsSim world.now.plant.net.cfg self.now }
        ensures { (s : Setting) (w : WorldAt) (at : SimAt) → StandsFor F.post s w world.now → SimIs at self.now
            → result ≡ rule.next_moment w.time (rule.moments self.now.scene s w due at) -ℤ w.time }
    {
        let now = world.time();
        let last = sum(now, LONGEST);
        let ticks = self.soonest_tick(world, now, last);
        let arrives = soonest_due(now, ticks, due);
        let fails = self.soonest_fault(world, now, arrives);
        let end = self.end_time(world);
        let next = sooner(now, fails, end);
        between(now, next)
    }

    // How far the clock of a node with this steering moves in a time.
    fn moves<F: Fn(i64) -> i64>(
        &self,
        world: &World<F>,
        dt: i64,
        most: i64,
        n: u8,
        steering: Steer,
    ) -> i64
        requires valid { IsValid F.pre F.post world.now }
        requires fits { FitsSim world.now.plant.net.cfg self.now }
        requires slow { IsSlow dt most }
        requires node { n < length world.now.nodes }
        requires kept { IfSome steering.kept (λ rate. rate ≤ 1_000_000_000) }
        ensures { Tells F.post (λ s w. drift_at dt (number.held_to steering.kept
            (number.own_rate (free_of self.now.scene n) steering.dac s.cfg.bias))) world.now result }
    {
        let free = self.free(n);
        let own = own_rate(free, steering.dac, bias(world));
        let rate = held_to(steering.kept, own);
        drift_by(dt, most, rate)
    }

    // The rate of a node's clock at rest.
    fn free(&self, n: u8) -> i64
        requires node { n < length self.now.scene.frees }
        requires small { AllByRecursion IsFree self.now.scene.frees }
        ensures value { result ≡ free_of self.now.scene n }
        ensures size { unsigned_abs result ≤ 100_000 }
    {
        self.scene.free(n)
    }

    // How far a node's clock moves in a time.
    fn drift<F: Fn(i64) -> i64>(&self, world: &World<F>, dt: i64, most: i64, n: u8) -> i64
        requires valid { IsValid F.pre F.post world.now }
        requires fits { FitsSim world.now.plant.net.cfg self.now }
        requires slow { IsSlow dt most }
        requires node { n < length world.now.nodes }
        ensures { Tells F.post (λ s w. rule.drift_over self.now.scene s w dt n) world.now result }
    {
        match world.steering(n) {
            Some(steering) => self.moves(world, dt, most, n, steering),
            None => 0,
        }
    }

    // How far each clock moves in a time, put into its place.
    fn put_each<F: Fn(i64) -> i64>(&self, world: &World<F>, dt: i64, drifts: &mut [i64])
        requires valid { IsValid F.pre F.post world.now }
        requires fits { FitsSim world.now.plant.net.cfg self.now }
        requires places { length drifts.old ≡ length world.now.nodes }
        requires few { length drifts.old ≤ 64 }
        ensures { Tells F.post (λ s w. map (rule.drift_over self.now.scene s w dt) (nodes_of s))
            world.now drifts.new }
    {
        let most = slow_rate(dt);
        for n in 0..drifts.len() {
            drifts[n] = self.drift(world, dt, most, as_number(n));
        }
    }

    // How far all clocks move in a time. There is room for all drifts at first: to put one into its place costs
    // less than to append it.
    fn put_drifts<F: Fn(i64) -> i64>(
        &self,
        world: &World<F>,
        dt: i64,
        drifts: &mut ArrayVec<i64, 64>,
    )
        requires valid { IsValid F.pre F.post world.now }
        requires fits { FitsSim world.now.plant.net.cfg self.now }
        ensures { Tells F.post (λ s w. map (rule.drift_over self.now.scene s w dt) (nodes_of s)) world.now drifts.new.items }
    {
        make_room(usize::from(world.node_count()), drifts);
        self.put_each(world, dt, drifts.as_mut_slice());
    }

    // The clocks move in this way as a time passes.
    fn put_all_drifts<F: Fn(i64) -> i64>(&self, world: &World<F>, dt: i64, event: &mut Event)
        requires valid { IsValid F.pre F.post world.now }
        requires fits { FitsSim world.now.plant.net.cfg self.now }
        requires pass { IsPassOf dt event.old }
        ensures { (s : Setting) (w : WorldAt) → StandsFor F.post s w world.now
            → HasDrifts dt (map (rule.drift_over self.now.scene s w dt) (nodes_of s)) event.new }
    {
        match event {
            Event::Pass { drifts, .. } => self.put_drifts(world, dt, drifts),
            _ => {}
        }
    }

    // A time passes, in which the clocks move at their rates and no fibre moves.
    fn put_pass<F: Fn(i64) -> i64>(&self, world: &World<F>, dt: i64, event: &mut Event)
        requires valid { IsValid F.pre F.post world.now }
        requires fits { FitsSim world.now.plant.net.cfg self.now }
        ensures { Tells F.post (λ s w. rule.pass_of self.now.scene s w dt) world.now event.new }
    {
        make_pass(dt, event);
        self.put_all_drifts(world, dt, event);
        put_all_moves(world.net().cfg.links.len(), event);
    }

    /// Time passes to the next moment, if the end has not come.
    pub(super) fn pass<F: Fn(i64) -> i64>(
        &mut self,
        world: &World<F>,
        due: Option<(u32, Tau)>,
        event: &mut Event,
    ) -> bool
        requires valid { IsValid F.pre F.post world.now }
        requires fits { FitsSim world.now.plant.net.cfg self.old }
        ensures follows { Follows F.post (λ scene s w at. rule.passes scene s w due at) as_is world.now self.old self.new (put result event.new) }
        ensures stays { StaysFit world.now.plant.net.cfg self.old self.new }
    {
        if self.is_over(world) {
            return false;
        }
        let dt = self.wait(world, due);
        self.put_pass(world, dt, event);
        self.comes();
        true
    }
}
