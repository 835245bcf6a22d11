//! The fields of an event line, by their places from 1, that an input line does not have.
ghost use Rattle.std.specs.Prelude.{◌≡◌, ◌<◌, ◌≤◌, ◌^◌, IfOk, unsigned_abs};
ghost use Rattle.csv.specs.Records.{fields_of};
ghost use Rattle.wrp_base.specs.Ranges.{IsFromTo};
ghost use Rattle.wrp_trace.specs.EventFields.{span_at, delay_at, offset_at};

use csv::ByteRecord;
use wrp_base::{Tau, TraceFault};
use wrp_fields::{field, natural, number, number_fault};

// The greatest span and one-way delay, in tau: 2^63 - 1.
const MOST_SPAN: u64 = (1 << 63) - 1;

// The greatest offset, in tau: 2^90.
const MOST_OFFSET: i128 = 1 << 90;

/// How much true time passes, in tau: 1 to `2^63 - 1`. `Number` with this place if the field is not
/// such a number.
#[tactic(auto, using(crate::proofs::SmallNumbers::natural_back))]
pub fn span_at(row: &ByteRecord, place: u32) -> Result<i64, TraceFault>
    requires { 0 < place }
    ensures value { result ≡ span_at place (fields_of row.now) }
    ensures range { IfOk result (IsFromTo 1 9_223_372_036_854_775_807) }
{
    match natural(field(row, place), 1, MOST_SPAN) {
        Some(span) => Ok(span as i64),
        None => Err(number_fault(place)),
    }
}

/// A one-way delay, in tau: 0 to `2^63 - 1`. `Number` with this place if the field is not such a
/// number.
pub fn delay_at(row: &ByteRecord, place: u32) -> Result<Tau, TraceFault>
    requires { 0 < place }
    ensures value { result ≡ delay_at place (fields_of row.now) }
    ensures range { IfOk result (IsFromTo 0 9_223_372_036_854_775_807) }
{
    match number(field(row, place), 0, i128::from(MOST_SPAN)) {
        Some(delay) => Ok(delay),
        None => Err(number_fault(place)),
    }
}

/// A clock's offset, in tau: within `2^90`. `Number` with this place if the field is not such a
/// number.
pub fn offset_at(row: &ByteRecord, place: u32) -> Result<Tau, TraceFault>
    requires { 0 < place }
    ensures value { result ≡ offset_at place (fields_of row.now) }
    ensures range { IfOk result (λ off. unsigned_abs off ≤ 2 ^ 90) }
{
    match number(field(row, place), -MOST_OFFSET, MOST_OFFSET) {
        Some(off) => Ok(off),
        None => Err(number_fault(place)),
    }
}
