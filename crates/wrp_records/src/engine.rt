//! The records of an input, handled as they come: each line is handled when it has been read, and
//! its output is written, all at once, before the source is asked for more.
ghost use Rattle.std.specs.Prelude.{◌≡◌, ◌⊎◌, ℕ, Option, None, MatchOption, List, ◌+◌, ◌^◌, ◌<◌, ◌≤◌, ◌++◌, ◌∷◌, [], length, true, false, OnOk, OnErr};
ghost use Rattle.std.specs.Io.KnownBytes.{IsAtEnd};
ghost use Rattle.wrp_io.specs.Faults.{Rose};
ghost use Rattle.wrp_records.specs.Lines.{content_of};
ghost use Rattle.wrp_records.specs.Reader.{Takes, IsNext, IsCut, IsLast, piece_limit};
ghost use Rattle.wrp_records.specs.Reached.{Reached};
ghost use Rattle.wrp_records.specs.Split.{IsSplit};
ghost use Rattle.wrp_records.specs.Stream.{size_of, IsWithin, IsTooLarge, IsLargeNext, IsCutWithin, number_limit, large_line, Handles, Handling};
ghost use Rattle.wrp_records.specs.Engine.{Writes, LineOutcome, Finishes, TellsLarge, TellsFaults, MostAt, status_by};

mod block;
mod splitting;

use crate::feed::first_feed;
use crate::machine::{Machine, Refusal, Taken};
use crate::reader::{Next, Reader};
use crate::status::Status;
use crate::writing::write_all;
use block::handle_given;
use csv::ByteRecord;
use std::alloc::{AllocError, Global};
use wrp_io::{Sink, Source};

// How many octets a record's line may have before its LF.
const LINE_LIMIT: usize = 8_192;

// What ends the handling before the end of the input.
#[derive(Clone, Copy)]
enum Ended {
    // A record is too large, or has too great a number.
    TooLarge,
    // A record is refused.
    Refused(Refusal),
    // Memory ran out.
    Memory,
}

impl Ended {
    // The status with which a run then ends.
    fn status(self) -> Status
        ensures { result ≡ status_by self }
    {
        match self {
            Ended::TooLarge => Status::TooLarge,
            Ended::Refused(Refusal::BadTrace) => Status::BadTrace,
            Ended::Refused(Refusal::Broken) => Status::Broken,
            Ended::Memory => Status::OutOfMemory,
        }
    }
}

// What comes next of the records.
#[derive(Clone, Copy)]
enum NextRecord {
    // A record's line.
    Line,
    // The end.
    End,
    // A line that is too large, or has too great a number.
    TooLarge,
    // The source failed.
    Failed,
    // The sink failed.
    Unwritten,
    // Memory ran out.
    Memory,
}

// How many octets a line has before its LF.
fn size_of_line(line: &[u8]) -> usize
    ensures { result ≡ size_of line.now }
{
    match first_feed(line) {
        Some(at) => at,
        None => line.len(),
    }
}

// How many octets of a line without its LF are taken after so many records: none if the next
// record's number is too great.
fn most_at(number: u32) -> usize
    ensures { MostAt number result }
{
    if number == u32::MAX { 0 } else { LINE_LIMIT }
}

// What a line is that came after so many records.
fn came(line: &[u8], number: u32) -> NextRecord
    ensures line { result ≡ NextRecord.Line
        → IsWithin line.now × (number + 1 < number_limit) }
    ensures large { result ≡ NextRecord.TooLarge → IsTooLarge line.now number }
    ensures either { (result ≡ NextRecord.Line) ⊎ (result ≡ NextRecord.TooLarge) }
{
    if number == u32::MAX || size_of_line(line) > LINE_LIMIT {
        NextRecord::TooLarge
    } else {
        NextRecord::Line
    }
}

// What the reader answered, when so many records came before.
fn answered(next: Next, line: &[u8], number: u32) -> NextRecord
    ensures line { result ≡ NextRecord.Line
        → (next ≡ Next.Line) × IsWithin line.now × (number + 1 < number_limit) }
    ensures end { result ≡ NextRecord.End → next ≡ Next.End }
    ensures too_large { result ≡ NextRecord.TooLarge
        → (next ≡ Next.TooLong) ⊎ ((next ≡ Next.Line) × IsTooLarge line.now number) }
    ensures failed { (result ≡ NextRecord.Failed → next ≡ Next.Failed)
        × (next ≡ Next.Failed → result ≡ NextRecord.Failed) }
    ensures written { result ≡ NextRecord.Unwritten → ⊥ }
    ensures memory { result ≡ NextRecord.Memory → next ≡ Next.Memory }
{
    match next {
        Next::Line => came(line, number),
        Next::End => NextRecord::End,
        Next::TooLong => NextRecord::TooLarge,
        Next::Failed => NextRecord::Failed,
        Next::Memory => NextRecord::Memory,
    }
}

// Gives the line of the next record, after `number` records. What waits is written before the
// source is asked.
fn next_record<S: Source, K: Sink>(
    reader: &mut Reader,
    source: &mut S,
    sink: &mut K,
    waiting: &mut Vec<u8>,
    line: &mut Vec<u8>,
    number: u32,
) -> NextRecord
    requires at_end { reader.old.ended ≡ true → IsAtEnd (S.left source.old) }
    ensures taken { Takes (S.left source.old) (S.left source.new)
        reader.old.rest reader.old.ended reader.new line.new.items }
    ensures written { Writes result (K.held sink.old) (K.held sink.new)
        waiting.old.items waiting.new.items }
    ensures at_end { reader.new.ended ≡ true → IsAtEnd (S.left source.new) }
    ensures line { result ≡ NextRecord.Line
        → IsNext line.new.items reader.new × (length reader.new.rest ≤ piece_limit)
        × IsWithin line.new.items × (number + 1 < number_limit) }
    ensures end { result ≡ NextRecord.End → IsLast reader.new × (line.new.items ≡ []) }
    ensures too_large { result ≡ NextRecord.TooLarge
        → IsLargeNext line.new.items reader.new number }
    ensures failed { result ≡ NextRecord.Failed → IsCutWithin line.new.items reader.new number }
    ensures read_rose { result ≡ NextRecord.Failed
        → Rose (S.faults source.old) (S.faults source.new) }
    ensures read_kept { (result ≡ NextRecord.Failed → ⊥)
        → S.faults source.new ≡ S.faults source.old }
    ensures write_rose { result ≡ NextRecord.Unwritten
        → Rose (K.faults sink.old) (K.faults sink.new) }
    ensures write_kept { (result ≡ NextRecord.Unwritten → ⊥)
        → K.faults sink.new ≡ K.faults sink.old }
{
    line.clear();
    let most = most_at(number);
    match reader.give_on(line, most) {
        Some(next) => return answered(next, line, number),
        None => {}
    }
    if !write_all(sink, waiting) {
        return NextRecord::Unwritten;
    }
    waiting.clear();
    let next = reader.read_on(source, waiting, line, most);
    answered(next, line, number)
}

/// Appends the line that names a record that is too large, or an event with too great a number.
/// `AllocError` if memory runs out: nothing is appended.
pub fn append_large(alloc: Global, waiting: &mut Vec<u8>, number: u64) -> Result<(), AllocError>
    ensures ok { OnOk result (waiting.new.items ≡ waiting.old.items ++ large_line number) }
    ensures err { OnErr result (waiting.new.items ≡ waiting.old.items) }
{
    let line = format!(in alloc; "too-large {number}\n")?;
    waiting.extend_from_slice(line.as_bytes())?;
    Ok(())
}

// Names the record that comes after so many and is too large.
fn tell_large(alloc: Global, waiting: &mut Vec<u8>, number: u32) -> Ended
    ensures { TellsLarge (number + 1) waiting.old.items waiting.new.items result }
{
    match append_large(alloc, waiting, u64::from(number) + 1) {
        Ok(()) => Ended::TooLarge,
        Err(_) => Ended::Memory,
    }
}

// Appends a text. Most records write nothing, and then nothing is done. `AllocError` if memory runs out: nothing
// is appended.
fn append_text(waiting: &mut Vec<u8>, text: &[u8]) -> Result<(), AllocError>
    ensures ok { OnOk result (waiting.new.items ≡ waiting.old.items ++ text.now) }
    ensures err { OnErr result (waiting.new.items ≡ waiting.old.items) }
{
    if text.is_empty() {
        return Ok(());
    }
    waiting.extend_from_slice(text)
}

// Handles what a line says, given by its parts, as the record of this number.
fn handle_line<M: Machine>(
    alloc: Global,
    machine: &mut M,
    said: &[u8],
    parts: Option<&ByteRecord>,
    number: u32,
    text: &mut Vec<u8>,
    waiting: &mut Vec<u8>,
) -> Option<Ended>
    requires split { IsSplit said.now parts }
    requires ready { M.is_ready machine.old }
    requires room { M.count machine.old + 1 < 2 ^ 32 }
    ensures ready { M.is_ready machine.new }
    ensures count { M.count machine.new ≤ M.count machine.old + 1 }
    ensures setting { M.setting machine.new ≡ M.setting machine.old }
    ensures stands { (lines : List (List ℕ)) (before : List ℕ)
        → M.has_taken machine.old lines → M.accepts (M.setting machine.old) lines before
        → number ≡ length lines + 1
        → LineOutcome (M.accepts (M.setting machine.old)) (M.refuses (M.setting machine.old))
        (M.has_taken machine.new) lines said.now before waiting.old.items waiting.new.items
        result }
{
    text.clear();
    let Ok(taken) = machine.take(alloc, said, parts, number, text) else {
        return Some(Ended::Memory);
    };
    if append_text(waiting, text).is_err() {
        return Some(Ended::Memory);
    }
    match taken {
        Taken::Accepted => None,
        Taken::Refused(refusal) => Some(Ended::Refused(refusal)),
    }
}

// Writes what waits, and answers the status with which the run ends.
fn finish<K: Sink>(sink: &mut K, waiting: &[u8], ended: Ended) -> Status
    ensures text { Finishes (status_by ended) result (K.held sink.old) (K.held sink.new) waiting.now }
    ensures rose { result ≡ Status.WriteFault → Rose (K.faults sink.old) (K.faults sink.new) }
    ensures kept { (result ≡ Status.WriteFault → ⊥)
        → K.faults sink.new ≡ K.faults sink.old }
    ensures never { (result ≡ Status.Done → ⊥) × (result ≡ Status.ReadFault → ⊥)
        × (result ≡ Status.Usage → ⊥) × (result ≡ Status.BadNetwork → ⊥)
        × (result ≡ Status.LinkFault → ⊥) × (result ≡ Status.BadCapture → ⊥)
        × (result ≡ Status.BadCalib → ⊥) }
{
    if write_all(sink, waiting) {
        ended.status()
    } else {
        Status::WriteFault
    }
}

// Handles the next record, and those that the reader then holds as whole and plain lines. Answers the status with
// which the handling ends, if it ends here.
fn handle_next<M: Machine, S: Source, K: Sink>(
    alloc: Global,
    machine: &mut M,
    reader: &mut Reader,
    source: &mut S,
    sink: &mut K,
    number: &mut u32,
    line: &mut Vec<u8>,
    text: &mut Vec<u8>,
    waiting: &mut Vec<u8>,
) -> Option<Status>
    requires ready { M.is_ready machine.old }
    requires count { M.count machine.old ≤ number.old }
    requires at_end { reader.old.ended ≡ true → IsAtEnd (S.left source.old) }
    ensures machine { M.is_ready machine.new × (M.setting machine.new ≡ M.setting machine.old) }
    ensures count { result ≡ None
        → (M.count machine.new ≤ number.new) × (number.old < number.new) }
    ensures stands { (start : List ℕ) (left held : Option (List ℕ))
        → Reached (Handles (M.accepts (M.setting machine.old))) (M.has_taken machine.old) start
        reader.old left (S.left source.old) held (K.held sink.old) waiting.old.items number.old
        → MatchOption result
        (Reached (Handles (M.accepts (M.setting machine.old))) (M.has_taken machine.new) start
        reader.new left (S.left source.new) held (K.held sink.new) waiting.new.items number.new)
        (λ status. Handling
        (M.accepts (M.setting machine.old)) (M.refuses (M.setting machine.old))
        (M.has_taken machine.new) start reader.new
        left (S.left source.new) held (K.held sink.new) status) }
    ensures at_end { reader.new.ended ≡ true → IsAtEnd (S.left source.new) }
    ensures ended { reader.old.ended ≡ true → reader.new.ended ≡ true }
    ensures faults { MatchOption result
        ((S.faults source.new ≡ S.faults source.old) × (K.faults sink.new ≡ K.faults sink.old))
        (λ status. TellsFaults status (S.faults source.old) (S.faults source.new)
        (K.faults sink.old) (K.faults sink.new) reader.new.ended) }
{
    match next_record(reader, source, sink, waiting, line, *number) {
        NextRecord::End => return Some(Status::Done),
        NextRecord::Failed => return Some(Status::ReadFault),
        NextRecord::Unwritten => return Some(Status::WriteFault),
        NextRecord::Memory => return Some(finish(sink, waiting, Ended::Memory)),
        NextRecord::TooLarge => {
            let ended = tell_large(alloc, waiting, *number);
            return Some(finish(sink, waiting, ended));
        }
        NextRecord::Line => {}
    }
    match handle_given(alloc, machine, line, reader, number, text, waiting) {
        Some(ended) => Some(finish(sink, waiting, ended)),
        None => None,
    }
}

/// Handles the records that a reader gives. It takes each line as it comes, uses one reader of `csv` for it and
/// the lines that the reader then holds, and writes their output before it asks the source for more. Answers Done
/// at the end of the input; what is written at the end is left to the caller.
pub fn handle_records<M: Machine, S: Source, K: Sink>(
    alloc: Global,
    machine: &mut M,
    reader: &mut Reader,
    source: &mut S,
    sink: &mut K,
) -> Status
    requires fresh { M.has_taken machine.old [] × M.accepts (M.setting machine.old) [] [] }
    requires none { M.count machine.old ≡ 0 }
    requires ready { M.is_ready machine.old }
    requires at_end { reader.old.ended ≡ true → IsAtEnd (S.left source.old) }
    ensures setting { M.setting machine.new ≡ M.setting machine.old }
    ensures ready { M.is_ready machine.new }
    ensures stands { Handling
        (M.accepts (M.setting machine.old)) (M.refuses (M.setting machine.old))
        (M.has_taken machine.new) reader.old.rest reader.new
        (S.left source.old) (S.left source.new) (K.held sink.old) (K.held sink.new) result }
    ensures at_end { reader.new.ended ≡ true → IsAtEnd (S.left source.new) }

    // A source that ended is not asked again.
    ensures ended { reader.old.ended ≡ true → reader.new.ended ≡ true }
    ensures open { result ≡ Status.ReadFault → reader.new.ended ≡ false }

    // The source failed if and only if ReadFault is answered, and the sink failed if and only if
    // WriteFault is.
    ensures read_fault { result ≡ Status.ReadFault
        → Rose (S.faults source.old) (S.faults source.new) }
    ensures read_kept { (result ≡ Status.ReadFault → ⊥)
        → S.faults source.new ≡ S.faults source.old }
    ensures write_fault { result ≡ Status.WriteFault
        → Rose (K.faults sink.old) (K.faults sink.new) }
    ensures write_kept { (result ≡ Status.WriteFault → ⊥)
        → K.faults sink.new ≡ K.faults sink.old }
    ensures never { (result ≡ Status.Usage → ⊥) × (result ≡ Status.BadNetwork → ⊥)
        × (result ≡ Status.LinkFault → ⊥) × (result ≡ Status.BadCapture → ⊥)
        × (result ≡ Status.BadCalib → ⊥) }
{
    let mut line = Vec::new(alloc);
    let mut text = Vec::new(alloc);
    let mut waiting = Vec::new(alloc);
    let mut number: u32 = 0;
    'records: loop {
        match handle_next(
            alloc,
            machine,
            reader,
            source,
            sink,
            &mut number,
            &mut line,
            &mut text,
            &mut waiting,
        ) {
            Some(status) => return status,
            None => {}
        }
    }
}
