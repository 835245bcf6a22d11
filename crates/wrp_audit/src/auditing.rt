//! The audit of a network over the records that a reader gives.
ghost use Rattle.std.specs.Prelude.{◌≡◌, ◌<◌, [], ℕ, IfSome, true};
ghost use Rattle.std.specs.Io.KnownBytes.{IsAtEnd};
ghost use Rattle.wrp_network.specs.Network.{node_count};
ghost use Rattle.wrp_config.specs.Accepted.{IsAccepted};
ghost use Rattle.wrp_records.specs.ByLines.{of_lines};
ghost use Rattle.wrp_records.specs.Passages.{Passes, passage};
ghost use Rattle.wrp_network_world.specs.NetworkSetting.{setting_in};
ghost use Rattle.wrp_network_world.specs.LawsFit.{LawsFit};
ghost use Rattle.wrp_audit.specs.Audits.{meaning_for};

use crate::audit_lines::AuditLines;
use std::alloc::Global;
use wrp_config::Network;
use wrp_io::{Sink, Source};
use wrp_law::DelayLaw;
use wrp_records::{Reader, Status, run_lines};

/// Audits the records that a reader gives with these laws.
#[inline(never)]
pub fn audit_by<F: Fn(i64) -> i64, S: Source, K: Sink>(
    alloc: Global,
    net: Box<Network>,
    laws: Vec<Option<DelayLaw<F>>>,
    emit: Option<u8>,
    reader: &mut Reader,
    source: &mut S,
    sink: &mut K,
) -> Status
    requires at_end { reader.old.ended ≡ true → IsAtEnd (S.left source.old) }
    requires accepted { IsAccepted net.value.cfg net.value.db }
    requires laws { LawsFit F.pre F.post net.value laws.items }
    requires emit { IfSome emit (λ n. n < node_count net.value.cfg) }
    ensures passes { Passes (of_lines (meaning_for emit (setting_in net.value)))
        (passage S.left S.faults source.old source.new) (passage K.held K.faults sink.old sink.new)
        reader.old.rest reader.old.ended reader.new.ended [] result }
{
    match AuditLines::new(alloc, net, laws, emit) {
        Ok(mut machine) => run_lines(alloc, &mut machine, reader, source, sink),
        Err(_) => Status::OutOfMemory,
    }
}
