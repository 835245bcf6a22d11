//! The world takes an event.
ghost use Rattle.std.specs.Prelude.{◌≡◌, ◌+◌, IfErr, IfOk, OnErr, OnOk};
ghost use Rattle.wrp_world.specs.declared.outcome.Refused.TheVariants.{Broken};
ghost use Rattle.wrp_world.specs.RunsOn.{RunsOn};
ghost use Rattle.wrp_world.specs.StandsFor.{IsValid};
ghost use Rattle.wrp_world.specs.Step.{IsRefusal, MayCome, StaysSo, Stepped};
ghost use Rattle.wrp_world.specs.StepHolds.{KeepsRuns, LinksGoOn, TruthGoesOn};
ghost use Rattle.wrp_world.specs.Taking.{AreOfNodes, laws_of};

use super::World;
use super::fitting::event_fits;
use crate::Refused;
use crate::run_laws::events_hold;
use std::alloc::Global;
use wrp_course::{Breach, Event, NodeOut};

impl<F: Fn(i64) -> i64> World<F> {
    /// Takes an event. If it keeps all premises and there is enough memory, it changes the world,
    /// and `outs` holds the steps of the nodes, in order, instead of what was there. `Broken` if it
    /// breaks a premise: the lowest one that is broken, with both sides of its first comparison
    /// that fails. `Memory` if it keeps all premises, but there is not enough memory. A refused
    /// event changes nothing in the world; the contents of `outs` are then not specified.
    ///
    /// An accepted event continues each run that the world was in. After it, no port is in
    /// WR_LINK_ON unless its peer went through the required steps of that same handshake, and a
    /// slave there knows the deltas of the installed modules. Each port is where its marks lead,
    /// and is judged Ok exactly in WR_LINK_ON. What the nodes report about this is true. A frame
    /// that a node drops for one of the reasons 1 to 12 changes one counter of that node and
    /// nothing else.
    ///
    /// In a run that began with `World::new`, this is also true: each node that is up is within its
    /// bound of true time in TRACK and in HOLDOVER, ahead or behind. Each estimate among the steps
    /// comes from a node in TRACK that is within its path, and is near its offset from its parent.
    /// Each chain of good samples has a constant.
    pub fn step_into(&mut self, event: &Event, outs: &mut Vec<NodeOut>) -> Result<(), Refused>
        requires valid { IsValid F.pre F.post self.old }
        requires event { MayCome self.old event.now }
        ensures valid { IsValid F.pre F.post self.new }
        ensures steps { OnOk result (Stepped F.post event.now self.old self.new outs.new.items) }
        ensures handshakes { OnOk result (RunsOn F.post event.now self.old self.new) }
        ensures links { OnOk result (LinksGoOn F.post event.now self.old self.new
            outs.new.items) }
        ensures truth { OnOk result (TruthGoesOn F.pre F.post event.now self.old self.new
            outs.new.items) }
        ensures nodes { OnOk result (AreOfNodes self.new.plant.net.cfg outs.new.items) }
        ensures refusal { IfErr result (IsRefusal F.post event.now self.old) }
        ensures stays { OnErr result (StaysSo F.post self.old self.new) }
        ensures runs { OnErr result (KeepsRuns F.pre F.post self.old self.new) }
        ensures counted { OnOk result (self.new.plant.events ≡ self.old.plant.events + 1) }
        ensures count { OnErr result (self.new.plant.events ≡ self.old.plant.events) }
        ensures net { self.new.plant.net ≡ self.old.plant.net }
        ensures laws { laws_of self.new ≡ laws_of self.old }
    {
        events_hold();
        event_fits(event);
        if let Some(breach) = self.broken(event) {
            return Err(refused(breach));
        }
        self.take_so(event, outs)?;
        Ok(())
    }

    /// Takes an event as `step_into` does, and returns the steps of the nodes in a new list.
    /// `Broken` and `Memory` come in the same cases; a refused event changes nothing in the world.
    pub fn step(&mut self, alloc: Global, event: &Event) -> Result<Vec<NodeOut>, Refused>
        requires valid { IsValid F.pre F.post self.old }
        requires event { MayCome self.old event.now }
        ensures valid { IsValid F.pre F.post self.new }
        ensures steps { IfOk result (λ outs. Stepped F.post event.now self.old self.new
            outs.items) }
        ensures handshakes { OnOk result (RunsOn F.post event.now self.old self.new) }
        ensures links { IfOk result (λ outs. LinksGoOn F.post event.now self.old self.new
            outs.items) }
        ensures truth { IfOk result (λ outs. TruthGoesOn F.pre F.post event.now self.old
            self.new outs.items) }
        ensures nodes { IfOk result (λ outs. AreOfNodes self.new.plant.net.cfg outs.items) }
        ensures refusal { IfErr result (IsRefusal F.post event.now self.old) }
        ensures stays { OnErr result (StaysSo F.post self.old self.new) }
        ensures runs { OnErr result (KeepsRuns F.pre F.post self.old self.new) }
        ensures counted { OnOk result (self.new.plant.events ≡ self.old.plant.events + 1) }
        ensures count { OnErr result (self.new.plant.events ≡ self.old.plant.events) }
        ensures net { self.new.plant.net ≡ self.old.plant.net }
        ensures laws { laws_of self.new ≡ laws_of self.old }
    {
        let mut outs = Vec::new(alloc);
        self.step_into(event, &mut outs)?;
        Ok(outs)
    }
}

// The refusal of an event that breaks a premise.
fn refused(breach: Breach) -> Refused
    ensures { result ≡ Broken breach.premise breach.shown breach.bound }
{
    Refused::Broken {
        premise: breach.premise,
        shown: breach.shown,
        bound: breach.bound,
    }
}
