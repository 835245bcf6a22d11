//! What the lines of a plain servo say, by their fields.
ghost use Rattle.std.specs.Prelude.{◌≡◌, ◌<◌, ◌≤◌, ◌^◌, ◌-◌, ◌≤ℤ◌, pos, neg_ℤ, unsigned_abs, IfOk, codes};
ghost use Rattle.csv.specs.Records.{fields_of};
ghost use Rattle.wrp_fields.specs.Reading.{field_of};
ghost use Rattle.wrp_records.specs.Split.{IsSplit};
ghost use Rattle.wrp_plain.specs.Event.{HasFields};
ghost use Rattle.wrp_plain.specs.LineKinds.{same_word};
ghost use Rattle.wrp_plain.specs.LineReading.{signed_at, within_at, start_of, first_of, start_read, pass_of, exch_of, fields_of_kind, event_of, event_read};
ghost use Rattle.wrp_plain.specs.Measurement.{HasRanges};

use super::kinds::{LineKind, kind_of};
use crate::event::PlainEvent;
use crate::settings::{PlainSet, PlainStart};
use csv::ByteRecord;
use wrp_base::{TraceFault, narrow};
use wrp_fields::{field, number, number_at, number_fault};

// The place of the first field.
const KIND: u32 = 1;

// How many fields the first line has, its word among them.
const FIRST_FIELDS: usize = 9;

// The greatest rate and the greatest error of a stamp.
const MOST_RATE: u64 = 1_000_000_000;

// The greatest least delay and the greatest span of the settings, in tau.
const MOST_LEAST: i64 = 1_000_000_000_000_000;

// The greatest time that passes in one line, and between two ticks, in tau.
const MOST_PASS: i64 = 1_000_000_000_000_000_000;

// The most measurements that are kept.
const MOST_KEPT: u64 = 64;

// The greatest step, drift, span and delay of a line, in tau.
const MOST_TIME: i64 = 1 << 60;

// The greatest stamp of a line, either sign, in tau.
const MOST_STAMP: i64 = 1 << 61;

// The greatest true offset at the start, either sign, in tau.
const MOST_START: i64 = 1 << 62;

// The greatest true offset of a line, either sign, in tau.
const MOST_OFFSET: i128 = 1 << 94;

// The number from `least` to `greatest`, which may be below 0, in the field of a place.
fn wide_at(row: &ByteRecord, place: u32, least: i128, greatest: i128) -> Result<i128, TraceFault>
    requires place { 0 < place }
    requires least { unsigned_abs least < 2 ^ 127 - 1 }
    requires greatest { unsigned_abs greatest < 2 ^ 127 - 1 }
    ensures value { result ≡ signed_at least greatest place (fields_of row.now) }
    ensures range { IfOk result (λ z. (least ≤ℤ z) × (z ≤ℤ greatest)) }
{
    match number(field(row, place), least, greatest) {
        Some(number) => Ok(number),
        None => Err(number_fault(place)),
    }
}

// The same in 64 bits.
fn signed_at(row: &ByteRecord, place: u32, least: i64, greatest: i64) -> Result<i64, TraceFault>
    requires place { 0 < place }
    ensures value { result ≡ signed_at least greatest place (fields_of row.now) }
    ensures range { IfOk result (λ z. (least ≤ℤ z) × (z ≤ℤ greatest)) }
{
    let number = wide_at(row, place, least.into(), greatest.into())?;
    Ok(narrow(number))
}

// A true offset, either sign.
fn offset_at(row: &ByteRecord, place: u32) -> Result<i128, TraceFault>
    requires { 0 < place }
    ensures value { result ≡ within_at (2 ^ 94) place (fields_of row.now) }
    ensures range { IfOk result (λ z. unsigned_abs z ≤ 2 ^ 94) }
{
    wide_at(row, place, -MOST_OFFSET, MOST_OFFSET)
}

// A stamp, either sign.
fn stamp_at(row: &ByteRecord, place: u32) -> Result<i64, TraceFault>
    requires { 0 < place }
    ensures value { result ≡ within_at (2 ^ 61) place (fields_of row.now) }
    ensures range { IfOk result (λ z. unsigned_abs z ≤ 2 ^ 61) }
{
    signed_at(row, place, -MOST_STAMP, MOST_STAMP)
}

// A drift, either sign.
fn drift_at(row: &ByteRecord, place: u32) -> Result<i64, TraceFault>
    requires { 0 < place }
    ensures value { result ≡ within_at (2 ^ 60) place (fields_of row.now) }
    ensures range { IfOk result (λ z. unsigned_abs z ≤ 2 ^ 60) }
{
    signed_at(row, place, -MOST_TIME, MOST_TIME)
}

// The true offset at the start, either sign.
fn start_at(row: &ByteRecord, place: u32) -> Result<i64, TraceFault>
    requires { 0 < place }
    ensures value { result ≡ within_at (2 ^ 62) place (fields_of row.now) }
    ensures range { IfOk result (λ z. unsigned_abs z ≤ 2 ^ 62) }
{
    signed_at(row, place, -MOST_START, MOST_START)
}

// `param,RATE,ERR,LEAST,SPAN,DMAX,RING,STEP,OFF`.
fn start_of(row: &ByteRecord) -> Result<PlainStart, TraceFault>
    ensures value { result ≡ start_of (fields_of row.now) }
    ensures ranges { IfOk result (λ start. HasRanges start.set) }
    ensures off { IfOk result (λ start. unsigned_abs start.off ≤ 2 ^ 62) }
{
    let rate = number_at(row, 2, 0, MOST_RATE)?;
    let err = number_at(row, 3, 0, MOST_RATE)?;
    let least = signed_at(row, 4, 0, MOST_LEAST)?;
    let span = signed_at(row, 5, 0, MOST_LEAST)?;
    let dmax = signed_at(row, 6, 1, MOST_PASS)?;
    let ring = number_at(row, 7, 1, MOST_KEPT)?;
    let step = signed_at(row, 8, 1, MOST_TIME)?;
    let off = start_at(row, 9)?;
    let set = PlainSet {
        rate,
        err,
        least,
        span,
        dmax,
        ring: ring as usize,
        step,
    };
    Ok(PlainStart { set, off })
}

// What the fields of the first line say.
fn first_of(row: &ByteRecord) -> Result<PlainStart, TraceFault>
    ensures value { result ≡ first_of (fields_of row.now) }
    ensures ranges { IfOk result (λ start. HasRanges start.set) }
    ensures off { IfOk result (λ start. unsigned_abs start.off ≤ 2 ^ 62) }
{
    if !is_param(field(row, KIND)) {
        return Err(TraceFault::Kind);
    }
    if row.len() != FIRST_FIELDS {
        return Err(TraceFault::Fields);
    }
    start_of(row)
}

// Whether this is the word of the first line.
fn is_param(word: &[u8]) -> bool
    ensures { result ≡ same_word word.now (codes "param") }
{
    word == b"param".as_slice()
}

/// What the first line says, by its parts. A line that is not plain says nothing: `Fields`. Otherwise
/// the fault is `Kind` if the first field is another word, `Fields` if the number of fields is wrong,
/// and `Number` with the place of the first field that is out of its range.
pub fn read_start(line: &[u8], parts: Option<&ByteRecord>) -> Result<PlainStart, TraceFault>
    requires { IsSplit line.now parts }
    ensures value { result ≡ start_read line.now }
    ensures ranges { IfOk result (λ start. HasRanges start.set) }
    ensures off { IfOk result (λ start. unsigned_abs start.off ≤ 2 ^ 62) }
{
    let _line = line;
    match parts {
        Some(row) => first_of(row),
        None => Err(TraceFault::Fields),
    }
}

// `pass,DT,DRIFT`.
fn pass_of(row: &ByteRecord) -> Result<PlainEvent, TraceFault>
    ensures value { result ≡ pass_of (fields_of row.now) }
    ensures fields { IfOk result HasFields }
{
    let dt = signed_at(row, 2, 1, MOST_PASS)?;
    let drift = drift_at(row, 3)?;
    Ok(PlainEvent::Pass { dt, drift })
}

// `exch,SPAN,DMS,DSM,O2,O3,T1,T2,T3,T4`.
fn exch_of(row: &ByteRecord) -> Result<PlainEvent, TraceFault>
    ensures value { result ≡ exch_of (fields_of row.now) }
    ensures fields { IfOk result HasFields }
{
    let span = signed_at(row, 2, 0, MOST_TIME)?;
    let dms = signed_at(row, 3, 0, MOST_TIME)?;
    let dsm = signed_at(row, 4, 0, MOST_TIME)?;
    let o2 = offset_at(row, 5)?;
    let o3 = offset_at(row, 6)?;
    let t1 = stamp_at(row, 7)?;
    let t2 = stamp_at(row, 8)?;
    let t3 = stamp_at(row, 9)?;
    let t4 = stamp_at(row, 10)?;
    Ok(PlainEvent::Exch {
        span,
        dms,
        dsm,
        o2,
        o3,
        t: [t1, t2, t3, t4],
    })
}

// The event that the fields of a line of a kind say.
fn fields_of_kind(kind: LineKind, row: &ByteRecord) -> Result<PlainEvent, TraceFault>
    ensures value { result ≡ fields_of_kind kind (fields_of row.now) }
    ensures fields { IfOk result HasFields }
{
    match kind {
        LineKind::Pass => pass_of(row),
        LineKind::Tick => Ok(PlainEvent::Tick),
        LineKind::Exch => exch_of(row),
    }
}

// The event that the fields of a line after the first say.
fn event_of(row: &ByteRecord) -> Result<PlainEvent, TraceFault>
    ensures value { result ≡ event_of (fields_of row.now) }
    ensures fields { IfOk result HasFields }
{
    match kind_of(field(row, KIND)) {
        Some(kind) if row.len() == kind.field_count() => fields_of_kind(kind, row),
        Some(_) => Err(TraceFault::Fields),
        None => Err(TraceFault::Kind),
    }
}

/// The event that a line after the first says, by its parts. A line that is not plain says none:
/// `Fields`. Otherwise the fault is `Kind` if the first field is no kind, `Fields` if the number of
/// fields is wrong, and `Number` with the place of the first field that is out of its range.
pub fn read_event(line: &[u8], parts: Option<&ByteRecord>) -> Result<PlainEvent, TraceFault>
    requires { IsSplit line.now parts }
    ensures value { result ≡ event_read line.now }
    ensures fields { IfOk result HasFields }
{
    let _line = line;
    match parts {
        Some(row) => event_of(row),
        None => Err(TraceFault::Fields),
    }
}
