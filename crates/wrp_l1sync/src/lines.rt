//! The lines of the command `l1sync`: a pair of ends, as its record lines make it.
ghost use Rattle.std.specs.Prelude.{◌≡◌, ◌<◌, ◌≤◌, ◌+◌, ◌-◌, ◌++◌, ◌∷◌, ◌^◌, [], ℕ, List, None, Some, Ok, IfOk, length};
ghost use Rattle.wrp_l1sync.specs.declared.event.L1Event.{L1Event};
ghost use Rattle.wrp_l1sync.specs.LineReading.{AreLimits, limits_read, event_read};
ghost use Rattle.wrp_l1sync.specs.LineRecords.{Accepts, Refuses, meaning};
ghost use Rattle.wrp_l1sync.specs.LineTaking.{HasTaken, GoesOn, BeginsWith, count_of};
ghost use Rattle.wrp_l1sync.specs.Pair.{IsFit, StandsFor};
ghost use Rattle.wrp_records.specs.ByLines.{of_lines};
ghost use Rattle.wrp_records.specs.Passages.{PassesAll, passage};
ghost use Rattle.wrp_records.specs.Split.{IsSplit};

mod fields;
mod kinds;
mod printing;
mod reading;

use crate::event::Limits;
use crate::{L1Event, L1Pair, L1Refused};
use csv::ByteRecord;
use printing::{append_breach, append_event};
use reading::{read_event, read_limits};
use std::alloc::{AllocError, Global};
use wrp_io::{Sink, Source};
use wrp_records::{Closing, Machine, Refusal, Status, Taken, refuse, run_all_lines};

/// A pair of ends as far as its record lines were taken: the first line says its limits, and each
/// later one an event.
#[derive(Debug, Drop)]
pub struct L1Lines {
    pair: Option<L1Pair>,
}

impl L1Lines {
    /// No line was taken.
    pub fn new() -> L1Lines
        ensures none { result.pair ≡ None }
        ensures taken { HasTaken result [] }
    {
        L1Lines { pair: None }
    }

    // Takes what the first line says.
    fn begin(
        &mut self,
        alloc: Global,
        line: &[u8],
        parts: Option<&ByteRecord>,
        number: u32,
        text: &mut Vec<u8>,
    ) -> Result<Taken, AllocError>
        requires split { IsSplit line.now parts }
        requires none { text.old.items ≡ [] }
        ensures count { count_of self.new.pair ≤ count_of self.old.pair + 1 }
        ensures stands { IfOk result (BeginsWith self.new.pair number line.now text.new.items) }
    {
        match read_limits(line, parts) {
            Ok(limits) => {
                self.pair = Some(pair_of(alloc, limits));
                Ok(Taken::Accepted)
            }
            Err(fault) => refuse(alloc, number, &fault, text),
        }
    }
}

impl Machine for L1Lines {
    ghost use Rattle.wrp_l1sync.specs.LineRecords.{Accepts, Refuses, Closes};
    ghost use Rattle.wrp_l1sync.specs.LineTaking.{HasTaken, count_of};
    ghost use Rattle.wrp_records.specs.LineMeaning.{bars_none};

    type Setting = ();

    ghost setting = { λ s. tt };

    ghost count = { λ s. count_of s.pair };

    ghost is_ready = { λ s. Unit {0} };

    ghost has_taken = { HasTaken };

    ghost accepts = { λ setting. Accepts };

    ghost refuses = { λ setting. Refuses };

    ghost closes = { λ setting. Closes };

    ghost bars = { λ setting. bars_none };

    fn take(
        &mut self,
        alloc: Global,
        line: &[u8],
        parts: Option<&ByteRecord>,
        number: u32,
        text: &mut Vec<u8>,
    ) -> Result<Taken, AllocError> {
        match &mut self.pair {
            Some(pair) => go_on(alloc, pair, line, parts, number, text),
            None => self.begin(alloc, line, parts, number, text),
        }
    }

    fn close(&self, alloc: Global, text: &mut Vec<u8>) -> Result<Closing, AllocError> {
        Ok(Closing::Closed)
    }
}

/// Runs the command `l1sync` over all octets of a source. The first line is
/// `param,TIMEOUT,INTERVAL,DMAX,LIFE`, and each later one `pass,DT`, `tick,END`, `enable,END`,
/// `disable,END`, `own,END,REQ,IS` or `deliver,END,K`; END is `a` or `b`. It writes
/// `END TICK send K REQ IS` and `END TICK STATE`.
pub fn l1sync<S: Source, K: Sink>(alloc: Global, source: &mut S, sink: &mut K) -> Status
    ensures passes { PassesAll (of_lines meaning) (passage S.left S.faults source.old source.new)
        (passage K.held K.faults sink.old sink.new) result }
{
    let mut machine = L1Lines::new();
    run_all_lines(alloc, &mut machine, source, sink)
}

// A pair with these limits.
fn pair_of(alloc: Global, limits: Limits) -> L1Pair
    requires { AreLimits limits }
    ensures limits { result.limits ≡ limits }
    ensures stands { StandsFor result [] }
    ensures count { result.count ≡ 0 }
{
    let Limits {
        timeout,
        interval,
        dmax,
        life,
    } = limits;
    L1Pair::new(alloc, timeout, interval, dmax as i64, life as i64)
}

// Takes what a later line says.
fn go_on(
    alloc: Global,
    pair: &mut L1Pair,
    line: &[u8],
    parts: Option<&ByteRecord>,
    number: u32,
    text: &mut Vec<u8>,
) -> Result<Taken, AllocError>
    requires split { IsSplit line.now parts }
    requires none { text.old.items ≡ [] }
    requires room { pair.old.count < 2 ^ 32 - 1 }
    ensures count { pair.new.count ≤ pair.old.count + 1 }
    ensures stands { (events : List L1Event) → StandsFor pair.old events
        → IfOk result (GoesOn pair.old pair.new events number line.now text.new.items) }
{
    match read_event(line, parts) {
        Ok(event) => happen(alloc, pair, &event, number, text),
        Err(fault) => refuse(alloc, number, &fault, text),
    }
}

// Takes an event.
fn happen(
    alloc: Global,
    pair: &mut L1Pair,
    event: &L1Event,
    number: u32,
    text: &mut Vec<u8>,
) -> Result<Taken, AllocError>
    requires fit { IsFit event.now }
    requires none { text.old.items ≡ [] }
    requires room { pair.old.count < 2 ^ 32 - 1 }
    ensures count { pair.new.count ≤ pair.old.count + 1 }
    ensures stands { (line : List ℕ) (events : List L1Event) → event_read line ≡ Ok event.now
        → StandsFor pair.old events
        → IfOk result (GoesOn pair.old pair.new events number line text.new.items) }
{
    match pair.step(event) {
        Ok(out) => {
            append_event(alloc, pair, event, &out, text)?;
            Ok(Taken::Accepted)
        }
        Err(
            L1Refused::Broken {
                premise,
                shown,
                bound,
            },
        ) => {
            append_breach(alloc, number, premise, shown, bound, text)?;
            Ok(Taken::Refused(Refusal::Broken))
        }
        Err(L1Refused::Memory(error)) => Err(error),
    }
}
