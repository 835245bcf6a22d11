//! The command: its input is judged whole, and only then is anything written.
ghost use Rattle.std.specs.Prelude.{◌≡◌, ◌≤◌, length};
ghost use Rattle.wrp_io.specs.Faults.{Rose};
ghost use Rattle.wrp_migrate.specs.Input.{GivesText, GivesAnswer};
ghost use Rattle.wrp_migrate.specs.Migration.{migration};
ghost use Rattle.wrp_records.specs.Passages.{PassesAll, passage};

use crate::input::{HowItEnded, take_text};
use std::alloc::Global;
use wrp_caldb::CalDb;
use wrp_calibration_text::{ReadCalibration, WriteCalibration};
use wrp_io::{Sink, Source};
use wrp_records::{Status, TOO_LARGE_LINE, answer, refuse_network};

// Writes the text of a database. All memory for it is there before anything is written.
fn write_text<K: Sink>(alloc: Global, sink: &mut K, database: &CalDb) -> Status
    ensures how { GivesText database.now result (K.held sink.old) (K.held sink.new) }
    ensures rose { result ≡ Status.WriteFault → Rose (K.faults sink.old) (K.faults sink.new) }
    ensures kept { (result ≡ Status.WriteFault → ⊥) → K.faults sink.new ≡ K.faults sink.old }
{
    match database.text(alloc) {
        Ok(text) => answer(sink, Status::Done, &text),
        Err(_) => Status::OutOfMemory,
    }
}

// Writes what a calibration text migrates to, or the line that names why it is refused.
fn answer_text<K: Sink>(alloc: Global, sink: &mut K, input: &[u8]) -> Status
    requires { length input.now ≤ 262_144 }
    ensures how { GivesAnswer input.now result (K.held sink.old) (K.held sink.new) }
    ensures rose { result ≡ Status.WriteFault → Rose (K.faults sink.old) (K.faults sink.new) }
    ensures kept { (result ≡ Status.WriteFault → ⊥) → K.faults sink.new ≡ K.faults sink.old }
{
    match CalDb::read(alloc, input) {
        Ok(database) => write_text(alloc, sink, &database),
        Err(fault) => refuse_network(alloc, sink, &fault),
    }
}

/// Takes a calibration text of version 1 or 2 from a source, up to 262,144 octets, and writes the text
/// of version 2 of the same database, as `toml` prints it. Nothing is written before the whole input
/// was judged, and all memory is there before the first octet is written. A text that is refused, and
/// one that is too long, is answered with the line that names it; after a source failed, or if memory
/// runs out, nothing is written.
pub fn migrate<S: Source, K: Sink>(alloc: Global, source: &mut S, sink: &mut K) -> Status
    ensures passes { PassesAll migration
        (passage S.left S.faults source.old source.new)
        (passage K.held K.faults sink.old sink.new) result }
{
    let mut input = Vec::new(alloc);
    match take_text(source, &mut input) {
        HowItEnded::Whole => answer_text(alloc, sink, &input),
        HowItEnded::TooLong => answer(sink, Status::TooLarge, TOO_LARGE_LINE.as_bytes()),
        HowItEnded::Failed => Status::ReadFault,
        HowItEnded::Memory => Status::OutOfMemory,
    }
}
