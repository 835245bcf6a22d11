//! All records of an input, and what is written after them.
ghost use Rattle.std.specs.Prelude.{◌≡◌, [], ℕ, List, true};
ghost use Rattle.std.specs.Io.KnownBytes.{IsAtEnd};
ghost use Rattle.wrp_io.specs.Faults.{Rose};
ghost use Rattle.wrp_records.specs.ByLines.{of_lines};
ghost use Rattle.wrp_records.specs.LineMeaning.{meaning_by};
ghost use Rattle.wrp_records.specs.LinesAfter.{Closed};
ghost use Rattle.wrp_records.specs.Passages.{Passes, PassesAll, passage};

use crate::answering::answer;
use crate::engine::handle_records;
use crate::machine::{Closing, Machine};
use crate::reader::Reader;
use crate::status::Status;
use std::alloc::Global;
use wrp_io::{Sink, Source};

// Writes what comes after all records.
fn close<M: Machine, K: Sink>(alloc: Global, machine: &M, sink: &mut K) -> Status
    requires { M.is_ready machine.now }
    ensures stands { Closed (M.has_taken machine.now)
        (meaning_by (M.accepts (M.setting machine.now)) (M.refuses (M.setting machine.now))
        (M.closes (M.setting machine.now)) (M.bars (M.setting machine.now)))
        result (K.held sink.old) (K.held sink.new) }
    ensures rose { result ≡ Status.WriteFault → Rose (K.faults sink.old) (K.faults sink.new) }
    ensures kept { (result ≡ Status.WriteFault → ⊥) → K.faults sink.new ≡ K.faults sink.old }
    ensures never { result ≡ Status.ReadFault → ⊥ }
{
    let mut text = Vec::new(alloc);
    match machine.close(alloc, &mut text) {
        Ok(Closing::Closed) => answer(sink, Status::Done, &text),
        Ok(Closing::BadCalib) => answer(sink, Status::BadCalib, &text),
        Err(_) => Status::OutOfMemory,
    }
}

/// Gives a machine the records that a reader gives, and then the end of the input.
pub fn run_lines<M: Machine, S: Source, K: Sink>(
    alloc: Global,
    machine: &mut M,
    reader: &mut Reader,
    source: &mut S,
    sink: &mut K,
) -> Status
    requires fresh { M.has_taken machine.old [] × M.accepts (M.setting machine.old) [] [] }
    requires none { M.count machine.old ≡ 0 }
    requires ready { M.is_ready machine.old }
    requires at_end { reader.old.ended ≡ true → IsAtEnd (S.left source.old) }
    ensures passes { Passes
        (of_lines (meaning_by (M.accepts (M.setting machine.old)) (M.refuses (M.setting machine.old))
        (M.closes (M.setting machine.old)) (M.bars (M.setting machine.old))))
        (passage S.left S.faults source.old source.new) (passage K.held K.faults sink.old sink.new)
        reader.old.rest reader.old.ended reader.new.ended [] result }
{
    match handle_records(alloc, machine, reader, source, sink) {
        Status::Done => close(alloc, machine, sink),
        status => status,
    }
}

/// Gives a machine all records of a source, from its first octet on, and then the end of the input.
pub fn run_all_lines<M: Machine, S: Source, K: Sink>(
    alloc: Global,
    machine: &mut M,
    source: &mut S,
    sink: &mut K,
) -> Status
    requires fresh { M.has_taken machine.old [] × M.accepts (M.setting machine.old) [] [] }
    requires none { M.count machine.old ≡ 0 }
    requires ready { M.is_ready machine.old }
    ensures passes { PassesAll
        (of_lines (meaning_by (M.accepts (M.setting machine.old)) (M.refuses (M.setting machine.old))
        (M.closes (M.setting machine.old)) (M.bars (M.setting machine.old))))
        (passage S.left S.faults source.old source.new) (passage K.held K.faults sink.old sink.new)
        result }
{
    let mut reader = Reader::new();
    run_lines(alloc, machine, &mut reader, source, sink)
}
