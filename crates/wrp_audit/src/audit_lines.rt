//! The lines of an audit, each of which says an event.
ghost use Rattle.std.specs.Prelude.{◌≡◌, ◌<◌, [], IfOk, IfSome, OnOk};
ghost use Rattle.wrp_network.specs.Network.{node_count};
ghost use Rattle.wrp_config.specs.Accepted.{HasNames, IsAccepted};
ghost use Rattle.wrp_course.specs.EventAt.{IsEventOf};
ghost use Rattle.wrp_fields.specs.Reading.{IsReading};
ghost use Rattle.wrp_records.specs.Split.{IsSplit};
ghost use Rattle.wrp_trace.specs.Events.{event_read, told_in};
ghost use Rattle.wrp_trace.specs.Places.{IsPlaceOf, event_in};
ghost use Rattle.wrp_audit.specs.AuditLines.{CanRead};
ghost use Rattle.wrp_audit.specs.AuditStands.{HasAudited};
ghost use Rattle.wrp_network_world.specs.LawsFit.{LawsFit};

use crate::audit::AuditedNetwork;
use crate::laws::one_audit;
use csv::ByteRecord;
use std::alloc::{AllocError, Global};
use wrp_base::TraceFault;
use wrp_config::Network;
use wrp_law::DelayLaw;
use wrp_records::{Closing, Machine, Taken, refuse};
use wrp_trace::{EventPlace, read_event_into};

/// What takes the lines of an audit: the network as far as it is audited, and the place into which each line's
/// event is read.
#[derive(Drop)]
pub struct AuditLines<F> {
    pub network: AuditedNetwork<F>,
    pub place: EventPlace,
}

impl<F: Fn(i64) -> i64> AuditLines<F> {
    /// Before the first line. `AllocError` if memory runs out: nothing is made.
    #[inline(never)]
    pub fn new(
        alloc: Global,
        net: Box<Network>,
        laws: Vec<Option<DelayLaw<F>>>,
        emit: Option<u8>,
    ) -> Result<AuditLines<F>, AllocError>
        requires accepted { IsAccepted net.value.cfg net.value.db }
        requires laws { LawsFit F.pre F.post net.value laws.items }
        requires emit { IfSome emit (λ n. n < node_count net.value.cfg) }
        ensures ready { IfOk result (CanRead F.pre F.post) }
        ensures taken { IfOk result (λ held. HasAudited F.post held.network []) }
        ensures net { IfOk result (λ held. held.network.world.plant.net ≡ net.value) }
        ensures emit { IfOk result (λ held. held.network.emit ≡ emit) }
        ensures none { IfOk result (λ held. held.network.world.plant.events ≡ 0) }
    {
        let place = EventPlace::new(&net.cfg);
        let network = AuditedNetwork::new(alloc, Box::into_inner(net), laws, emit)?;
        Ok(AuditLines { network, place })
    }
}

impl<F: Fn(i64) -> i64> Machine for AuditLines<F> {
    ghost use Rattle.wrp_records.specs.LineMeaning.{bars_none};
    ghost use Rattle.wrp_audit.specs.AuditLines.{CanRead};
    ghost use Rattle.wrp_audit.specs.AuditStands.{HasAudited};
    ghost use Rattle.wrp_audit.specs.Audits.{meaning_for};
    ghost use Rattle.wrp_network_world.specs.NetworkSetting.{setting_in};

    type Setting = (Network, Option<u8>);

    ghost setting = { λ s. (s.network.world.plant.net, s.network.emit) };

    ghost count = { λ s. s.network.world.plant.events };

    ghost is_ready = { CanRead F.pre F.post };

    ghost has_taken = { λ s. HasAudited F.post s.network };

    ghost accepts = { λ setting. (meaning_for setting.1 (setting_in setting.0)).accepts };

    ghost refuses = { λ setting. (meaning_for setting.1 (setting_in setting.0)).refuses };

    ghost closes = { λ setting. (meaning_for setting.1 (setting_in setting.0)).closes };

    ghost bars = { λ setting. bars_none };

    fn take(
        &mut self,
        alloc: Global,
        line: &[u8],
        parts: Option<&ByteRecord>,
        number: u32,
        text: &mut Vec<u8>,
    ) -> Result<Taken, AllocError> {
        one_audit();
        match read_parts(&self.network, line, parts, &mut self.place) {
            Ok(()) => self.network.happen(alloc, &self.place, number, text),
            Err(fault) => refuse(alloc, number, &fault, text),
        }
    }

    fn close(&self, _alloc: Global, text: &mut Vec<u8>) -> Result<Closing, AllocError> {
        self.network.append_last(text)?;
        Ok(Closing::Closed)
    }
}

// Puts what a line says, by its parts, into a place.
fn read_parts<F: Fn(i64) -> i64>(
    network: &AuditedNetwork<F>,
    line: &[u8],
    parts: Option<&ByteRecord>,
    place: &mut EventPlace,
) -> Result<(), TraceFault>
    requires split { IsSplit line.now parts }
    requires names { HasNames network.now.world.plant.net.cfg }
    requires place { IsPlaceOf network.now.world.plant.net.cfg place.old }
    ensures value { IsReading (event_read network.now.world.plant.net.cfg line.now)
        (told_in result (event_in place.new)) }
    ensures event { OnOk result (IsEventOf network.now.world.plant.net.cfg (event_in place.new)) }
    ensures place { IsPlaceOf network.now.world.plant.net.cfg place.new }
{
    let _line = line;
    match parts {
        Some(row) => read_event_into(row, network.net(), place),
        None => Err(TraceFault::Fields),
    }
}
