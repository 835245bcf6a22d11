//! The lines of a plain servo: the first says how its world starts, and each later line is an event.
ghost use Rattle.std.specs.Prelude.{◌≡◌, ◌+◌, ◌++◌, ◌∷◌, [], ◌^◌, ◌<◌, ◌≤◌, ℕ, List, None, IfOk, length};
ghost use Rattle.wrp_records.specs.Split.{IsSplit};
ghost use Rattle.wrp_records.specs.declared.machine.Refusal.{Refusal};
ghost use Rattle.wrp_records.specs.declared.machine.Taken.{Taken};
ghost use Rattle.wrp_records.specs.ByLines.{of_lines};
ghost use Rattle.wrp_records.specs.Passages.{PassesAll, passage};
ghost use Rattle.wrp_plain.specs.LineCourse.{PlainAccepts, PlainRefuses, plain_meaning};
ghost use Rattle.wrp_plain.specs.LinesHeld.{CanTake, CountsTicks, HasTaken, HasTakenSo, event_count};

mod course;
mod kinds;
mod printing;
mod reading;
mod refusals;

use course::PlainRun;
use csv::ByteRecord;
use reading::{read_event, read_start};
use std::alloc::{AllocError, Global};
use wrp_io::{Sink, Source};
use wrp_records::{Closing, Machine, Status, Taken, refuse, run_all_lines};

/// The command `plain`: it takes the records of a source, from its first octet on, one per line, and
/// writes what they make to a sink before it asks for more. The first line is
/// `param,RATE,ERR,LEAST,SPAN,DMAX,RING,STEP,OFF`; the later ones are `pass,DT,DRIFT`, `tick` and
/// `exch,SPAN,DMS,DSM,O2,O3,T1,T2,T3,T4`. An event writes `TICK plain EST BOUND true OFF` if the servo
/// reports, and after it `TICK step N` if its command is not 0.
pub fn plain<S: Source, K: Sink>(alloc: Global, source: &mut S, sink: &mut K) -> Status
    ensures passes { PassesAll (of_lines plain_meaning)
        (passage S.left S.faults source.old source.new) (passage K.held K.faults sink.old sink.new)
        result }
{
    let mut machine = PlainLines::new();
    run_all_lines(alloc, &mut machine, source, sink)
}

/// A world with a plain servo, as far as its lines were read. There is none before the first line,
/// which says how it starts.
#[derive(Drop)]
pub struct PlainLines {
    course: Option<PlainRun>,
}

impl PlainLines {
    /// No line was read.
    pub fn new() -> PlainLines
        ensures ready { CanTake result }
        ensures taken { HasTaken result [] }
        ensures none { event_count result ≡ 0 }
    {
        PlainLines { course: None }
    }

    // Takes the first line.
    fn begin(
        &mut self,
        alloc: Global,
        line: &[u8],
        parts: Option<&ByteRecord>,
        number: u32,
        text: &mut Vec<u8>,
    ) -> Result<Taken, AllocError>
        requires split { IsSplit line.now parts }
        requires before { self.old.course ≡ None }
        requires none { text.old.items ≡ [] }
        ensures ready { CanTake self.new }
        ensures count { event_count self.new ≤ 0 }
        ensures accepted { IfOk result (λ taken. taken ≡ Taken.Accepted
            → HasTaken self.new (line.now ∷ []) × PlainAccepts (line.now ∷ []) text.new.items) }
        ensures refused { (refusal : Refusal) → IfOk result (λ taken. taken ≡ Taken.Refused refusal
            → number ≡ 1 → PlainRefuses [] line.now refusal text.new.items) }
    {
        match read_start(line, parts) {
            Ok(start) => {
                self.course = Some(PlainRun::new(alloc, start)?);
                Ok(Taken::Accepted)
            }
            Err(fault) => refuse(alloc, number, &fault, text),
        }
    }
}

// Takes a line after the first.
fn go_on(
    course: &mut PlainRun,
    alloc: Global,
    line: &[u8],
    parts: Option<&ByteRecord>,
    number: u32,
    text: &mut Vec<u8>,
) -> Result<Taken, AllocError>
    requires split { IsSplit line.now parts }
    requires counts { CountsTicks course.old }
    requires few { course.old.world.events + 1 < 2 ^ 32 }
    requires none { text.old.items ≡ [] }
    ensures counts { CountsTicks course.new }
    ensures few { course.new.world.events ≤ course.old.world.events + 1 }
    ensures accepted { (first : List ℕ) (lines : List (List ℕ)) (before : List ℕ) → IfOk result (λ taken.
        taken ≡ Taken.Accepted
        → HasTakenSo course.old first lines → PlainAccepts (first ∷ lines) before
        → HasTakenSo course.new first (lines ++ line.now ∷ [])
        × PlainAccepts (first ∷ lines ++ line.now ∷ []) (before ++ text.new.items)) }
    ensures refused { (first : List ℕ) (lines : List (List ℕ)) (refusal : Refusal) → IfOk result (λ taken.
        taken ≡ Taken.Refused refusal → HasTakenSo course.old first lines
        → number ≡ length (first ∷ lines) + 1
        → PlainRefuses (first ∷ lines) line.now refusal text.new.items) }
{
    match read_event(line, parts) {
        Ok(event) => course.happen(alloc, &event, number, text),
        Err(fault) => refuse(alloc, number, &fault, text),
    }
}

impl Machine for PlainLines {
    ghost use Rattle.wrp_records.specs.LineMeaning.{bars_none};
    ghost use Rattle.wrp_plain.specs.LineCourse.{PlainAccepts, PlainRefuses, PlainCloses};
    ghost use Rattle.wrp_plain.specs.LinesHeld.{CanTake, HasTaken, event_count};

    type Setting = ();

    ghost setting = { λ held. tt };

    ghost count = { event_count };

    ghost is_ready = { CanTake };

    ghost has_taken = { HasTaken };

    ghost accepts = { λ setting. PlainAccepts };

    ghost refuses = { λ setting. PlainRefuses };

    ghost closes = { λ setting. PlainCloses };

    ghost bars = { λ setting. bars_none };

    fn take(
        &mut self,
        alloc: Global,
        line: &[u8],
        parts: Option<&ByteRecord>,
        number: u32,
        text: &mut Vec<u8>,
    ) -> Result<Taken, AllocError> {
        match &mut self.course {
            Some(course) => go_on(course, alloc, line, parts, number, text),
            None => self.begin(alloc, line, parts, number, text),
        }
    }

    fn close(&self, _alloc: Global, _text: &mut Vec<u8>) -> Result<Closing, AllocError> {
        Ok(Closing::Closed)
    }
}
