//! The fields of the lines of `l1sync`, by their places from 1: what each says, or its fault.
ghost use Rattle.std.specs.Prelude.{◌≡◌, ◌<◌, ◌≤◌, ◌^◌, IfOk};
ghost use Rattle.csv.specs.Records.{fields_of};
ghost use Rattle.wrp_base.specs.Ranges.{IsAmong};
ghost use Rattle.wrp_l1sync.specs.LineFields.{ticks_at, span_at, life_at, bits_at, message_at, end_at, bits_from};

use crate::L1Msg;
use csv::ByteRecord;
use wrp_base::TraceFault;
use wrp_fields::{field, name_fault, number_at};

// The most ticks.
const MOST_TICKS: u64 = 1_000_000;

// The longest time, in tau.
const MOST_TIME: u64 = 1 << 62;

// All three bits.
const ALL_BITS: u64 = 7;

// The greatest number of a message.
const MOST_NUMBER: u64 = u32::MAX as u64;

/// A number of ticks: 1 to `10^6`. `Number` with this place if the field is not that.
pub fn ticks_at(row: &ByteRecord, place: u32) -> Result<u32, TraceFault>
    requires { 0 < place }
    ensures value { result ≡ ticks_at place (fields_of row.now) }
    ensures range { IfOk result (IsAmong 1 1_000_000) }
{
    let ticks = number_at(row, place, 1, MOST_TICKS)?;
    Ok(ticks as u32)
}

/// A time that passes, in tau: 1 to `2^62`. `Number` with this place if the field is not that.
pub fn span_at(row: &ByteRecord, place: u32) -> Result<u64, TraceFault>
    requires { 0 < place }
    ensures value { result ≡ span_at place (fields_of row.now) }
    ensures range { IfOk result (IsAmong 1 4_611_686_018_427_387_904) }
{
    number_at(row, place, 1, MOST_TIME)
}

/// How long a message may be on its way, in tau: 0 to `2^62`. `Number` with this place if the field is
/// not that.
pub fn life_at(row: &ByteRecord, place: u32) -> Result<u64, TraceFault>
    requires { 0 < place }
    ensures value { result ≡ life_at place (fields_of row.now) }
    ensures range { IfOk result (λ life. life ≤ 4_611_686_018_427_387_904) }
{
    let life = number_at(row, place, 0, MOST_TIME)?;
    Ok(life)
}

// Three bits: 0 to 7.
fn bits_at(row: &ByteRecord, place: u32) -> Result<u8, TraceFault>
    requires { 0 < place }
    ensures { result ≡ bits_at place (fields_of row.now) }
{
    let bits = number_at(row, place, 0, ALL_BITS)?;
    Ok(bits as u8)
}

/// The number of a message: 0 to `2^32 - 1`. `Number` with this place if the field is not that.
pub fn message_at(row: &ByteRecord, place: u32) -> Result<u32, TraceFault>
    requires { 0 < place }
    ensures { result ≡ message_at place (fields_of row.now) }
{
    let number = number_at(row, place, 0, MOST_NUMBER)?;
    Ok(number as u32)
}

/// An end: `a` is 0, `b` is 1. `Name` with this place if the field is neither.
pub fn end_at(row: &ByteRecord, place: u32) -> Result<u8, TraceFault>
    requires { 0 < place }
    ensures value { result ≡ end_at place (fields_of row.now) }
    ensures range { IfOk result (λ end. end ≤ 1) }
{
    let text = field(row, place);
    if text == b"a".as_slice() {
        Ok(0)
    } else if text == b"b".as_slice() {
        Ok(1)
    } else {
        Err(name_fault(place))
    }
}

/// A message: REQ and IS, each 0 to 7, from a place on. `Number` with the place of the first of the
/// two that is not that.
pub fn bits_from(row: &ByteRecord, place: u32) -> Result<L1Msg, TraceFault>
    requires { (0 < place) × (place < 2 ^ 16) }
    ensures { result ≡ bits_from place (fields_of row.now) }
{
    let req = bits_at(row, place)?;
    let is = bits_at(row, place + 1)?;
    Ok(L1Msg { req, is })
}
