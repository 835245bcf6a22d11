//! The lines of a calibration: each is taken as it comes, and the answer is written after the last.
ghost use Rattle.std.specs.Prelude.{◌≡◌, ◌+◌, ◌++◌, ◌∷◌, [], ℕ, List, IfErr, IfOk, OnOk};
ghost use Rattle.csv.specs.Records.{fields_of};
ghost use Rattle.wrp_calib.specs.declared.lines.Held.TheVariants as held;
ghost use Rattle.wrp_calib.specs.LinesMeaning.{IsFaulty};
ghost use Rattle.wrp_calib.specs.LinesStand.{HasTaken, IsReady, TakesNext, TakesRun, Ends, IsTold};
ghost use Rattle.wrp_calib.specs.Printing.{missing_line};
ghost use Rattle.wrp_calib.specs.Recorded.{Barred};
ghost use Rattle.wrp_records.specs.Split.{IsSplit};

mod fields;
mod printing;
mod words;

use crate::calibration::Calib;
use csv::ByteRecord;
use fields::{cord_line, error_line, run_line};
use printing::{append_missing, append_told};
use std::alloc::{AllocError, Global};
use wrp_base::TraceFault;
use wrp_records::{Closing, Machine, Taken, refuse};

/// The lines of a calibration, as far as they were taken: `err,E` and `patch,D,EP` are the first two, and
/// each further one is `ref,T1,T2,T3,T4,SKEW`, or the same with `straight` or `swapped`.
#[derive(Debug, Drop)]
pub struct CalibLines {
    held: Held,
}

// What the lines said so far.
#[derive(Debug, Drop)]
enum Held {
    // No line came.
    Nothing,
    // The error of measured delays, in tau.
    Error { e: u64 },
    // All errors, and some runs.
    Runs { calib: Calib },
}

impl CalibLines {
    /// No lines.
    pub fn new() -> CalibLines
        ensures ready { IsReady result }
        ensures taken { HasTaken result [] }
    {
        CalibLines {
            held: Held::Nothing,
        }
    }

    // Takes record 1.
    fn take_error(&mut self, row: &ByteRecord) -> Result<(), TraceFault>
        requires nothing { self.old.held ≡ held.Nothing }
        ensures ready { IsReady self.new }
        ensures taken { TakesNext self.old self.new (fields_of row.now) result }
    {
        let e = error_line(row)?;
        self.held = Held::Error { e };
        Ok(())
    }

    // Takes record 2.
    fn take_cord(&mut self, e: u64, row: &ByteRecord) -> Result<(), TraceFault>
        requires ready { IsReady self.old }
        requires error { self.old.held ≡ held.Error e }
        ensures ready { IsReady self.new }
        ensures taken { TakesNext self.old self.new (fields_of row.now) result }
    {
        let cord = cord_line(row)?;
        let calib = Calib::new(e, cord.d, cord.ep);
        self.held = Held::Runs { calib };
        Ok(())
    }

    // Takes the next record, by its fields.
    fn take_fields(&mut self, row: &ByteRecord) -> Result<(), TraceFault>
        requires ready { IsReady self.old }
        ensures ready { IsReady self.new }
        ensures taken { TakesNext self.old self.new (fields_of row.now) result }
    {
        match &mut self.held {
            Held::Nothing => self.take_error(row),
            Held::Error { e } => {
                let e = *e;
                self.take_cord(e, row)
            }
            Held::Runs { calib } => take_run(calib, row),
        }
    }

    // Takes the next line, by its fields. A line that is not plain has none.
    fn take_line(&mut self, line: &[u8], parts: Option<&ByteRecord>) -> Result<(), TraceFault>
        requires split { IsSplit line.now parts }
        requires ready { IsReady self.old }
        ensures ready { IsReady self.new }
        ensures accepted { OnOk result ((lines : List (List ℕ))
            → HasTaken self.old lines → HasTaken self.new (lines ++ line.now ∷ [])) }
        ensures refused { IfErr result (λ fault. (lines : List (List ℕ))
            → HasTaken self.old lines → IsFaulty lines line.now fault) }
    {
        let _line = line;
        match parts {
            Some(row) => self.take_fields(row),
            None => Err(TraceFault::Fields),
        }
    }

    // Appends what is expected after the last line.
    fn end(&self, alloc: Global, text: &mut Vec<u8>) -> Result<Closing, AllocError>
        requires { text.old.items ≡ [] }
        ensures { IfOk result (λ closing. (lines : List (List ℕ))
            → HasTaken self.now lines → Ends lines closing text.new.items) }
    {
        match &self.held {
            Held::Nothing => bar_missing(alloc, "err", text),
            Held::Error { .. } => bar_missing(alloc, "patch", text),
            Held::Runs { calib } => append_told(alloc, calib.answer(), text),
        }
    }
}

impl Machine for CalibLines {
    ghost use Rattle.wrp_calib.specs.LinesMeaning.{Accepts, Bars, Closes, Refuses};
    ghost use Rattle.wrp_calib.specs.LinesStand.{HasTaken, IsReady};

    type Setting = ();

    ghost setting = { λ s. tt };

    ghost count = { λ s. 0 };

    ghost is_ready = { IsReady };

    ghost has_taken = { HasTaken };

    ghost accepts = { λ fixed. Accepts };

    ghost refuses = { λ fixed. Refuses };

    ghost closes = { λ fixed. Closes };

    ghost bars = { λ fixed. Bars };

    fn take(
        &mut self,
        alloc: Global,
        line: &[u8],
        parts: Option<&ByteRecord>,
        number: u32,
        text: &mut Vec<u8>,
    ) -> Result<Taken, AllocError> {
        match self.take_line(line, parts) {
            Ok(()) => Ok(Taken::Accepted),
            Err(fault) => refuse(alloc, number, &fault, text),
        }
    }

    fn close(&self, alloc: Global, text: &mut Vec<u8>) -> Result<Closing, AllocError> {
        self.end(alloc, text)
    }
}

// Takes a further record.
fn take_run(calib: &mut Calib, row: &ByteRecord) -> Result<(), TraceFault>
    ensures { TakesRun calib.old calib.new (fields_of row.now) result }
{
    let run = run_line(row)?;
    calib.add(run.kind, &run.times);
    Ok(())
}

// Appends the line of a record that did not come, by its word.
fn bar_missing(alloc: Global, word: &str, text: &mut Vec<u8>) -> Result<Closing, AllocError>
    requires { text.old.items ≡ [] }
    ensures { IfOk result (λ closing. IsTold (Barred (missing_line word.now)) closing text.new.items) }
{
    append_missing(alloc, word, text)?;
    Ok(Closing::BadCalib)
}
