//! The faults of the scenario.
ghost use Rattle.std.specs.Prelude.{◌≡◌, ◌<◌, option_map, length, slice_get, IfSome, Some};
ghost use Rattle.std.specs.List as list;
ghost use Rattle.std.specs.List.{AllByRecursion};
ghost use Rattle.wrp_network.specs.declared.configuration.NetCfg.{NetCfg};
ghost use Rattle.wrp_sim.specs.Rules as rule;
ghost use Rattle.wrp_scene.specs.Scenario.{IsFault, IsFaultKind};
ghost use Rattle.wrp_sim.specs.Sim.{FitsSim, Follows, Gave, SimIs, StaysFit, put};
ghost use Rattle.wrp_sim.specs.SimAt.{SimAt};
ghost use Rattle.wrp_course.specs.Setting.{Setting};
ghost use Rattle.wrp_world.specs.StandsFor.{IsValid, StandsFor, Tells};
ghost use Rattle.wrp_course.specs.WorldAt.{WorldAt};

use super::numbers::is_by;
use super::state::State;
use wrp_base::sum;
use wrp_scene::{Fault, FaultKind};
use wrp_world::{Event, World, start_of};

// Whether a fault applies: what it does has not been done yet.
fn applies<F: Fn(i64) -> i64>(world: &World<F>, kind: FaultKind) -> bool
    requires valid { IsValid F.pre F.post world.now }
    requires kind { IsFaultKind world.now.plant.net.cfg kind }
    ensures { Tells F.post (λ s w. rule.applies w kind) world.now result }
{
    match kind {
        FaultKind::Down { node } => world.is_up(node),
        FaultKind::Up { node } => !world.is_up(node),
        FaultKind::Cut { link } => world.joined(link),
        FaultKind::Join { link } => !world.joined(link),
    }
}

// Whether the time of a fault has come.
fn has_come<F: Fn(i64) -> i64>(world: &World<F>, fault: &Fault) -> bool
    requires valid { IsValid F.pre F.post world.now }
    requires fault { IsFault world.now.plant.net.cfg fault.now }
    ensures { Tells F.post (λ s w. rule.has_come s w fault.now) world.now result }
{
    let start = start_of(&world.net().cfg);
    let due = sum(start, fault.at);
    let now = world.time();
    is_by(due, now)
}

// The fault at a place.
fn fault_at(faults: &Vec<Fault>, i: usize) -> Fault
    requires { i < length faults.now.items }
    ensures { slice_get faults.now.items i ≡ Some result }
{
    faults[i]
}

// Takes out the fault at a place.
fn remove(faults: &mut Vec<Fault>, i: usize)
    requires { i < length faults.old.items }
    ensures { faults.new.items ≡ list.remove faults.old.items i }
{
    let _taken = faults.remove(i);
}

// Takes out the first fault whose time has come and that applies, and drops the faults before it that
// do not apply.
fn take_fault<F: Fn(i64) -> i64>(faults: &mut Vec<Fault>, world: &World<F>) -> Option<FaultKind>
    requires valid { IsValid F.pre F.post world.now }
    requires faults { AllByRecursion (IsFault world.now.plant.net.cfg) faults.old.items }
    ensures first { Tells F.post (λ s w. option_map (λ f. f.kind) (rule.next_fault s w faults.old.items)) world.now result }
    ensures left { Tells F.post (λ s w. rule.faults_left s w faults.old.items) world.now faults.new.items }
    ensures faults { AllByRecursion (IsFault world.now.plant.net.cfg) faults.new.items }
    ensures kind { IfSome result (IsFaultKind world.now.plant.net.cfg) }
{
    let mut i = 0;
    'tried: while i < faults.len() {
        let fault = fault_at(faults, i);
        if has_come(world, &fault) {
            remove(faults, i);
            if applies(world, fault.kind) {
                return Some(fault.kind);
            }
        } else {
            i += 1;
        }
    }
    None
}

impl State {
    // A link is joined by a fault.
    fn rejoin<F: Fn(i64) -> i64>(&mut self, world: &World<F>, k: u8, event: &mut Event)
        requires valid { IsValid F.pre F.post world.now }
        requires fits { FitsSim world.now.plant.net.cfg self.old }
        requires link { k < length world.now.plant.net.cfg.links.items }
        ensures follows { (s : Setting) (w : WorldAt) (at stays : SimAt) → StandsFor F.post s w world.now → SimIs at self.old
            → Gave stays (rule.comes (rule.join_event self.old.scene s k) at) (Some event.new) self.new }
        ensures stays { StaysFit world.now.plant.net.cfg self.old self.new }
    {
        self.join_event(world, k, event);
        self.comes();
    }

    // A node goes down by a fault.
    fn takes_down(&mut self, node: u8, event: &mut Event)
        ensures follows { (at stays : SimAt) → SimIs at self.old
            → Gave stays (rule.comes (Event.Down node) at) (Some event.new) self.new }
        ensures stays { (cfg : NetCfg) → FitsSim cfg self.old → StaysFit cfg self.old self.new }
    {
        *event = Event::Down { node };
        self.comes();
    }

    // A link is cut by a fault.
    fn cuts(&mut self, link: u8, event: &mut Event)
        ensures follows { (at stays : SimAt) → SimIs at self.old
            → Gave stays (rule.comes (Event.Cut link) at) (Some event.new) self.new }
        ensures stays { (cfg : NetCfg) → FitsSim cfg self.old → StaysFit cfg self.old self.new }
    {
        *event = Event::Cut { link };
        self.comes();
    }

    // What a fault does.
    fn fault<F: Fn(i64) -> i64>(&mut self, world: &World<F>, kind: FaultKind, event: &mut Event)
        requires valid { IsValid F.pre F.post world.now }
        requires fits { FitsSim world.now.plant.net.cfg self.old }
        requires kind { IsFaultKind world.now.plant.net.cfg kind }
        ensures follows { (s : Setting) (w : WorldAt) (at stays : SimAt) → StandsFor F.post s w world.now → SimIs at self.old
            → Gave stays (rule.fault_of self.old.scene s w at kind) (Some event.new) self.new }
        ensures stays { StaysFit world.now.plant.net.cfg self.old self.new }
    {
        match kind {
            FaultKind::Down { node } => self.takes_down(node, event),
            FaultKind::Up { node } => self.wake(world, node, event),
            FaultKind::Cut { link } => self.cuts(link, event),
            FaultKind::Join { link } => self.rejoin(world, link, event),
        }
    }

    /// A fault whose time has come and that applies; a fault that does not apply in its turn is dropped
    /// for good.
    pub(super) fn fail<F: Fn(i64) -> i64>(&mut self, world: &World<F>, event: &mut Event) -> bool
        requires valid { IsValid F.pre F.post world.now }
        requires fits { FitsSim world.now.plant.net.cfg self.old }
        ensures follows { Follows F.post rule.fails rule.rest_of world.now self.old self.new (put result event.new) }
        ensures stays { StaysFit world.now.plant.net.cfg self.old self.new }
    {
        match take_fault(&mut self.faults, world) {
            Some(kind) => {
                self.fault(world, kind, event);
                true
            }
            None => false,
        }
    }
}
