//! The fields of a line, by their places from 1: what each says, or its fault.
ghost use Rattle.std.specs.Prelude.{◌≡◌, ◌<◌, ◌≤◌, ◌^◌, IfOk, true};
ghost use Rattle.csv.specs.Records.{fields_of};
ghost use Rattle.wrp_trace.specs.Fields.{u16_at, u32_at, step_at, counter_at, bits_at, octets_at, time_at, raw_from, stamp_from, port_at, message_at, module_at};
ghost use Rattle.wrp_trace.specs.InputAt.{IsListed};
ghost use Rattle.wrp_trace.specs.LineSetting.{line_setting_of, has_port};
ghost use Rattle.wrp_base.specs.Ranges.{IsAmong};
ghost use Rattle.wrp_course.specs.EventAt.{IsRaw, IsTime};

use crate::digits::{bits, octets};
use crate::line_setting::{has_port, named_at};
use crate::times::time;
use csv::ByteRecord;
use wrp_base::{Frame, Module, Raw, Stamp, Tau, TraceFault};
use wrp_config::Network;
use wrp_fields::{field, name_fault, number_at, number_fault};

// The greatest number of 16 bits.
const MOST_SHORT: u64 = u16::MAX as u64;

// The greatest number of 32 bits.
const MOST_LONG: u64 = u32::MAX as u64;

// The last detector step of a period.
const LAST_STEP: u64 = 16_383;

// The greatest count of periods.
const MOST_COUNT: u64 = (1 << 63) - 1;

/// A number of 16 bits: 0 to 65535. `Number` with this place if the field is not such a number.
pub fn u16_at(row: &ByteRecord, place: u32) -> Result<u16, TraceFault>
    requires { 0 < place }
    ensures { result ≡ u16_at place (fields_of row.now) }
{
    let number = number_at(row, place, 0, MOST_SHORT)?;
    Ok(number as u16)
}

/// A number of 32 bits: 0 to `2^32 - 1`. `Number` with this place if the field is not such a
/// number.
pub fn u32_at(row: &ByteRecord, place: u32) -> Result<u32, TraceFault>
    requires { 0 < place }
    ensures { result ≡ u32_at place (fields_of row.now) }
{
    let number = number_at(row, place, 0, MOST_LONG)?;
    Ok(number as u32)
}

/// A place in the period, in detector steps: 0 to 16383. `Number` with this place if the field is
/// not such a number.
pub fn step_at(row: &ByteRecord, place: u32) -> Result<u16, TraceFault>
    requires { 0 < place }
    ensures value { result ≡ step_at place (fields_of row.now) }
    ensures range { IfOk result (λ n. n ≤ 16_383) }
{
    let number = number_at(row, place, 0, LAST_STEP)?;
    Ok(number as u16)
}

/// A counter of whole periods: 1 to `2^63 - 1`. `Number` with this place if the field is not such a
/// number.
pub fn counter_at(row: &ByteRecord, place: u32) -> Result<u64, TraceFault>
    requires { 0 < place }
    ensures value { result ≡ counter_at place (fields_of row.now) }
    ensures range { IfOk result (IsAmong 1 9_223_372_036_854_775_807) }
{
    number_at(row, place, 1, MOST_COUNT)
}

/// The beat bits: 16 hex digits. `Number` with this place if the field is anything else.
pub fn bits_at(row: &ByteRecord, place: u32) -> Result<u64, TraceFault>
    requires { 0 < place }
    ensures { result ≡ bits_at place (fields_of row.now) }
{
    match bits(field(row, place)) {
        Some(bits) => Ok(bits),
        None => Err(number_fault(place)),
    }
}

/// The octets of a frame, as hex digits: at most 256 octets. `Number` with this place if the field
/// is anything else.
pub fn octets_at(row: &ByteRecord, place: u32) -> Result<Frame, TraceFault>
    requires { 0 < place }
    ensures { result ≡ octets_at place (fields_of row.now) }
{
    match octets(field(row, place)) {
        Some(octets) => Ok(octets),
        None => Err(number_fault(place)),
    }
}

/// The time of a stamp, in tau: 0 to `2^92`, a multiple of 1,000. `Number` with this place if the
/// field is not such a number.
pub fn time_at(row: &ByteRecord, place: u32) -> Result<Tau, TraceFault>
    requires { 0 < place }
    ensures value { result ≡ time_at place (fields_of row.now) }
    ensures range { IfOk result IsTime }
{
    match time(field(row, place)) {
        Some(time) => Ok(time),
        None => Err(number_fault(place)),
    }
}

/// The raw stamp of a reception: RISING, FALLING and TAG, from a place on. `Number` with the place
/// of the first of the three that is out of its range.
pub fn raw_from(row: &ByteRecord, place: u32) -> Result<Raw, TraceFault>
    requires { (0 < place) × (place < 2 ^ 16) }
    ensures value { result ≡ raw_from place (fields_of row.now) }
    ensures range { IfOk result IsRaw }
{
    let rising = counter_at(row, place)?;
    let falling = counter_at(row, place + 1)?;
    let tag = step_at(row, place + 2)?;
    Ok(Raw {
        rising,
        falling,
        tag,
    })
}

/// The stamp of a sending: STAMP and SAMPLE, from a place on. `Number` with the place of the first
/// of the two that is out of its range.
pub fn stamp_from(row: &ByteRecord, place: u32) -> Result<Stamp, TraceFault>
    requires { (0 < place) × (place < 2 ^ 16) }
    ensures value { result ≡ stamp_from place (fields_of row.now) }
    ensures range { IfOk result (λ stamp. IsTime stamp.value) }
{
    let value = time_at(row, place)?;
    let sample = u32_at(row, place + 1)?;
    Ok(Stamp { value, sample })
}

/// A port of the node: the field must be a number, and then one of the node's ports. `Number` with
/// this place if it is not a number of 16 bits, `Name` if it is not a port of the node.
pub fn port_at(row: &ByteRecord, place: u32, net: &Network, node: u8) -> Result<u16, TraceFault>
    requires { 0 < place }
    ensures value { result ≡ port_at (line_setting_of net.now node) place (fields_of row.now) }
    ensures range { IfOk result (λ port.
        has_port (line_setting_of net.now node) port ≡ true) }
{
    let port = u16_at(row, place)?;
    if has_port(net, node, port) {
        Ok(port)
    } else {
        Err(name_fault(place))
    }
}

/// Which message was sent: `sync` is false, `delay` is true. `Name` with this place if the field is
/// neither.
pub fn message_at(row: &ByteRecord, place: u32) -> Result<bool, TraceFault>
    requires { 0 < place }
    ensures { result ≡ message_at place (fields_of row.now) }
{
    let text = field(row, place);
    if text == b"sync".as_slice() {
        Ok(false)
    } else if text == b"delay".as_slice() {
        Ok(true)
    } else {
        Err(name_fault(place))
    }
}

/// The module at a port of the node: a listed one, or `unlisted`. The answer is None for
/// `unlisted`. `Name` with this place if the field is neither.
pub fn module_at(
    row: &ByteRecord,
    place: u32,
    net: &Network,
    node: u8,
    port: u16,
) -> Result<Option<Module>, TraceFault>
    requires { 0 < place }
    ensures value { result ≡ module_at (line_setting_of net.now node) port place (fields_of row.now) }
    ensures range { IfOk result (IsListed (line_setting_of net.now node) port) }
{
    match named_at(net, node, port, field(row, place)) {
        Some(module) => Ok(module),
        None => Err(name_fault(place)),
    }
}
