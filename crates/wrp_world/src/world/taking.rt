//! The world takes an event that is known to keep all premises.
ghost use Rattle.std.specs.Prelude.{◌≡◌, ◌+◌, OnErr, OnOk};
ghost use Rattle.wrp_world.specs.StandsFor.{IsValid};
ghost use Rattle.wrp_world.specs.Step.{MayCome, StaysSo};
ghost use Rattle.wrp_world.specs.StepHolds.{KeepsRuns};
ghost use Rattle.wrp_world.specs.Take.{CanHappen, CanHappenSo, Taken, TakenSo, TakesLinksOn, TakesRunsOn, TakesTruthOn};
ghost use Rattle.wrp_world.specs.Taking.{AreOfNodes, laws_of};

use super::World;
use super::fitting::{event_fits, said};
use crate::run_laws::events_hold;
use std::alloc::AllocError;
use wrp_changes::{begin, put_out_at};
use wrp_course::{Event, NodeOut};

impl<F: Fn(i64) -> i64> World<F> {
    /// Takes an event that is known to keep all premises in some state that the world stands for. It does what
    /// `step_into` does, but does not check the premises. What `step_into` ensures of an accepted event is true
    /// of each such state, and of each run that leads to one. `AllocError` if there is not enough memory; then
    /// nothing changes in the world, and the contents of `outs` are not specified.
    pub fn take(&mut self, event: &Event, outs: &mut Vec<NodeOut>) -> Result<(), AllocError>
        requires valid { IsValid F.pre F.post self.old }
        requires event { MayCome self.old event.now }
        requires accepted { CanHappen F.post self.old event.now }
        ensures valid { IsValid F.pre F.post self.new }
        ensures steps { OnOk result (Taken F.post event.now self.old self.new outs.new.items) }
        ensures handshakes { OnOk result (TakesRunsOn F.post event.now self.old self.new) }
        ensures links { OnOk result (TakesLinksOn F.post event.now self.old self.new
            outs.new.items) }
        ensures truth { OnOk result (TakesTruthOn F.pre F.post event.now self.old self.new
            outs.new.items) }
        ensures nodes { OnOk result (AreOfNodes self.new.plant.net.cfg outs.new.items) }
        ensures stays { OnErr result (StaysSo F.post self.old self.new) }
        ensures runs { OnErr result (KeepsRuns F.pre F.post self.old self.new) }
        ensures counted { OnOk result (self.new.plant.events ≡ self.old.plant.events + 1) }
        ensures count { OnErr result (self.new.plant.events ≡ self.old.plant.events) }
        ensures net { self.new.plant.net ≡ self.old.plant.net }
        ensures laws { laws_of self.new ≡ laws_of self.old }
    {
        events_hold();
        event_fits(event);
        let _says = said(event);
        self.take_so(event, outs)?;
        Ok(())
    }

    // Takes an event that keeps all premises, given what its octets spell.
    pub(super) fn take_so(
        &mut self,
        event: &Event,
        outs: &mut Vec<NodeOut>,
    ) -> Result<(), AllocError>
        requires valid { IsValid F.pre F.post self.old }
        requires event { MayCome self.old event.now }
        requires accepted { CanHappenSo F.post self.old event.now }
        ensures valid { IsValid F.pre F.post self.new }
        ensures steps { OnOk result (TakenSo F.post event.now self.old self.new outs.new.items) }
        ensures nodes { OnOk result (AreOfNodes self.new.plant.net.cfg outs.new.items) }
        ensures stays { OnErr result (StaysSo F.post self.old self.new) }
        ensures counted { OnOk result (self.new.plant.events ≡ self.old.plant.events + 1) }
        ensures count { OnErr result (self.new.plant.events ≡ self.old.plant.events) }
        ensures net { self.new.plant.net ≡ self.old.plant.net }
        ensures laws { laws_of self.new ≡ laws_of self.old }
    {
        let put = put_out_at(&self.plant, event);
        begin(&mut self.plant, event, outs, &mut self.aside)?;
        self.give_all(put, outs);
        Ok(())
    }
}
