//! Commands that stand alone: each is given to its machine.
ghost use Rattle.wrp_records.specs.declared.status.Status.{Status};
ghost use Rattle.wrp_records.specs.Passages.{FailsBy, PassesAll, passage};
ghost use Rattle.wrp_commands.specs.declared.alone.Alone.{Alone};
ghost use Rattle.wrp_asked.specs.Alone.{IsAlone, alone_meaning};
ghost use Rattle.wrp_asked.specs.Ends.{EndsUnlinked};
ghost use Rattle.wrp_words.specs.Requests.{asked_in};

use std::alloc::Global;
use wrp_calib::calibrate;
use wrp_commands::Alone;
use wrp_io::{Sink, Source};
use wrp_l1sync::l1sync;
use wrp_migrate::migrate;
use wrp_pcap::inspect;
use wrp_plain::lines::plain;
use wrp_records::Status;

// Gives the source and the sink to the command's machine.
fn handle<S: Source, K: Sink>(alloc: Global, alone: Alone, source: &mut S, sink: &mut K) -> Status
    ensures { PassesAll (alone_meaning alone) (passage S.left S.faults source.old source.new)
        (passage K.held K.faults sink.old sink.new) result }
{
    match alone {
        Alone::Migrate => migrate(alloc, source, sink),
        Alone::Inspect => inspect(alloc, source, sink),
        Alone::L1Sync => l1sync(alloc, source, sink),
        Alone::Calibrate => calibrate(alloc, source, sink),
        Alone::Plain => plain(alloc, source, sink),
    }
}

/// Runs a command that stands alone.
#[inline(never)]
pub fn run_alone<S: Source, K: Sink>(
    alloc: Global,
    words: &[&str],
    alone: Alone,
    source: &mut S,
    sink: &mut K,
) -> Status
    requires { IsAlone (asked_in words.now) alone }
    ensures ends { EndsUnlinked (asked_in words.now) (passage S.left S.faults source.old source.new)
        (passage K.held K.faults sink.old sink.new) result }
    ensures read { FailsBy Status.ReadFault result (passage S.left S.faults source.old source.new) }
    ensures write { FailsBy Status.WriteFault result (passage K.held K.faults sink.old sink.new) }
{
    let _words = words;
    handle(alloc, alone, source, sink)
}
