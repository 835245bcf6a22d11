//! The fields of a calibration's lines: what each line says, or its fault.
ghost use Rattle.std.specs.Prelude.{◌≡◌, ◌<◌, ◌≤◌, ◌^◌, All, IfOk, unsigned_abs};
ghost use Rattle.csv.specs.Records.{fields_of};
ghost use Rattle.wrp_base.specs.Ranges.{IsAmong};
ghost use Rattle.wrp_calib.specs.Lines.{cord_line, delay_at, error_at, error_line, run_line, run_said, time_at};
ghost use Rattle.wrp_calib.specs.Said.{says_cord, says_error, says_run};

use super::words::kind_named;
use crate::run::RunKind;
use csv::ByteRecord;
use wrp_base::TraceFault;
use wrp_fields::{field, number, number_at, number_fault};

// The greatest error, in tau.
const MOST_ERROR: u64 = 1_000_000_000;

// The greatest delay of the patch cord, in tau.
const MOST_DELAY: u64 = 1_000_000_000_000_000;

// The greatest time, either sign, in tau.
const MOST_TIME: i128 = 1 << 60;

/// What a line says of the patch cord, in tau.
#[derive(Clone, Copy)]
pub struct Cord {
    /// What it takes, either way.
    pub d: u64,
    /// How far that may be off.
    pub ep: u64,
}

/// What a line says of a run.
#[derive(Clone, Copy)]
pub struct RunLine {
    /// How it was wired.
    pub kind: RunKind,
    /// T1 to T4 and SKEW, in tau.
    pub times: [i64; 5],
}

// An error: 0 to 10^9.
fn error_at(row: &ByteRecord, place: u32) -> Result<u64, TraceFault>
    requires { 0 < place }
    ensures value { result ≡ error_at place (fields_of row.now) }
    ensures range { IfOk result (IsAmong 0 1_000_000_000) }
{
    number_at(row, place, 0, MOST_ERROR)
}

// The delay of the patch cord: 0 to 10^15.
fn delay_at(row: &ByteRecord, place: u32) -> Result<u64, TraceFault>
    requires { 0 < place }
    ensures value { result ≡ delay_at place (fields_of row.now) }
    ensures range { IfOk result (IsAmong 0 1_000_000_000_000_000) }
{
    number_at(row, place, 0, MOST_DELAY)
}

// A time or an offset: within 2^60, either sign.
fn time_at(row: &ByteRecord, place: u32) -> Result<i64, TraceFault>
    requires { 0 < place }
    ensures value { result ≡ time_at place (fields_of row.now) }
    ensures range { IfOk result (λ t. unsigned_abs t ≤ 2 ^ 60) }
{
    match number(field(row, place), -MOST_TIME, MOST_TIME) {
        Some(time) => Ok(time as i64),
        None => Err(number_fault(place)),
    }
}

/// What record 1 says: `err,E`. `Kind` if the first field is another, `Fields` if there are not 2
/// fields, `Number` if E is not 0 to `10^9`.
pub fn error_line(row: &ByteRecord) -> Result<u64, TraceFault>
    ensures value { says_error result ≡ error_line (fields_of row.now) }
    ensures range { IfOk result (λ e. e ≤ 10 ^ 9) }
{
    if field(row, 1) != b"err".as_slice() {
        return Err(TraceFault::Kind);
    }
    if row.len() != 2 {
        return Err(TraceFault::Fields);
    }
    error_at(row, 2)
}

/// What record 2 says: `patch,D,EP`. `Kind` if the first field is another, `Fields` if there are not 3
/// fields, `Number` for the first that is out of its range, of D, 0 to `10^15`, and EP, 0 to `10^9`.
pub fn cord_line(row: &ByteRecord) -> Result<Cord, TraceFault>
    ensures value { says_cord result ≡ cord_line (fields_of row.now) }
    ensures d { IfOk result (λ cord. cord.d ≤ 10 ^ 15) }
    ensures ep { IfOk result (λ cord. cord.ep ≤ 10 ^ 9) }
{
    if field(row, 1) != b"patch".as_slice() {
        return Err(TraceFault::Kind);
    }
    if row.len() != 3 {
        return Err(TraceFault::Fields);
    }
    let d = delay_at(row, 2)?;
    let ep = error_at(row, 3)?;
    Ok(Cord { d, ep })
}

// `T1,T2,T3,T4,SKEW`, after the word of a kind of runs.
fn run_said(row: &ByteRecord, kind: RunKind) -> Result<RunLine, TraceFault>
    ensures value { says_run result ≡ run_said kind (fields_of row.now) }
    ensures range { IfOk result (λ run. All (λ n. unsigned_abs n ≤ 2 ^ 60) run.times) }
{
    let t1 = time_at(row, 2)?;
    let t2 = time_at(row, 3)?;
    let t3 = time_at(row, 4)?;
    let t4 = time_at(row, 5)?;
    let skew = time_at(row, 6)?;
    Ok(RunLine {
        kind,
        times: [t1, t2, t3, t4, skew],
    })
}

/// What each further record says: `ref,T1,T2,T3,T4,SKEW`, or the same with `straight` or `swapped`.
/// `Kind` if the first field is no such word, `Fields` if there are not 6 fields, `Number` for the
/// first number that is not within `2^60` either way.
pub fn run_line(row: &ByteRecord) -> Result<RunLine, TraceFault>
    ensures value { says_run result ≡ run_line (fields_of row.now) }
    ensures range { IfOk result (λ run. All (λ n. unsigned_abs n ≤ 2 ^ 60) run.times) }
{
    match kind_named(field(row, 1)) {
        Some(kind) if row.len() == 6 => run_said(row, kind),
        Some(_) => Err(TraceFault::Fields),
        None => Err(TraceFault::Kind),
    }
}
