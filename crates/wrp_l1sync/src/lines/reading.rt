//! What a line of `l1sync` says, by its fields.
ghost use Rattle.std.specs.Prelude.{◌≡◌, IfOk};
ghost use Rattle.csv.specs.Records.{fields_of};
ghost use Rattle.wrp_l1sync.specs.declared.event.L1Event.TheVariants as event;
ghost use Rattle.wrp_l1sync.specs.LineReading.{AreLimits, limits_from, limits_of, limits_read, pass_of, end_event, own_of, deliver_of, event_of_kind, event_of, event_read};
ghost use Rattle.wrp_l1sync.specs.Pair.{IsFit};
ghost use Rattle.wrp_records.specs.Split.{IsSplit};

use super::fields::{bits_from, end_at, life_at, message_at, span_at, ticks_at};
use super::kinds::{EventKind, is_param, kind_of};
use crate::L1Event;
use crate::event::Limits;
use csv::ByteRecord;
use wrp_base::TraceFault;
use wrp_fields::field;

// The place of the first field.
const KIND: u32 = 1;

// How many fields the first line has.
const PARAM_FIELDS: usize = 5;

/// The limits that the first line says, by its parts. A line that is not plain says none: `Fields`.
/// Otherwise the fault is `Kind` if the first field is another word, `Fields` if the number of fields
/// is wrong, and `Number` with the place of the first field that is out of its range.
pub fn read_limits(line: &[u8], parts: Option<&ByteRecord>) -> Result<Limits, TraceFault>
    requires { IsSplit line.now parts }
    ensures value { result ≡ limits_read line.now }
    ensures range { IfOk result AreLimits }
{
    let _line = line;
    match parts {
        Some(row) => limits_of(row),
        None => Err(TraceFault::Fields),
    }
}

/// The event that a later line says, by its parts. A line that is not plain says none: `Fields`.
/// Otherwise the fault is `Kind` if the first field is no kind, `Fields` if the number of fields is
/// wrong, and then `Number` or `Name` with the place of the first field that says nothing.
pub fn read_event(line: &[u8], parts: Option<&ByteRecord>) -> Result<L1Event, TraceFault>
    requires { IsSplit line.now parts }
    ensures value { result ≡ event_read line.now }
    ensures fit { IfOk result IsFit }
{
    let _line = line;
    match parts {
        Some(row) => event_of(row),
        None => Err(TraceFault::Fields),
    }
}

// The limits that the fields of a line say.
fn limits_of(row: &ByteRecord) -> Result<Limits, TraceFault>
    ensures value { result ≡ limits_of (fields_of row.now) }
    ensures range { IfOk result AreLimits }
{
    if !is_param(field(row, KIND)) {
        Err(TraceFault::Kind)
    } else if row.len() == PARAM_FIELDS {
        limits_from(row)
    } else {
        Err(TraceFault::Fields)
    }
}

// `param,TIMEOUT,INTERVAL,DMAX,LIFE`.
fn limits_from(row: &ByteRecord) -> Result<Limits, TraceFault>
    ensures value { result ≡ limits_from (fields_of row.now) }
    ensures range { IfOk result AreLimits }
{
    let timeout = ticks_at(row, 2)?;
    let interval = ticks_at(row, 3)?;
    let dmax = span_at(row, 4)?;
    let life = life_at(row, 5)?;
    Ok(Limits {
        timeout,
        interval,
        dmax,
        life,
    })
}

// The event that the fields of a line say.
fn event_of(row: &ByteRecord) -> Result<L1Event, TraceFault>
    ensures value { result ≡ event_of (fields_of row.now) }
    ensures fit { IfOk result IsFit }
{
    match kind_of(field(row, KIND)) {
        Some(kind) if row.len() == kind.field_count() => event_of_kind(kind, row),
        Some(_) => Err(TraceFault::Fields),
        None => Err(TraceFault::Kind),
    }
}

// The same, for the fields of a line of a kind.
fn event_of_kind(kind: EventKind, row: &ByteRecord) -> Result<L1Event, TraceFault>
    ensures value { result ≡ event_of_kind kind (fields_of row.now) }
    ensures fit { IfOk result IsFit }
{
    match kind {
        EventKind::Pass => pass_of(row),
        EventKind::Tick => tick_of(row),
        EventKind::Enable => enable_of(row),
        EventKind::Disable => disable_of(row),
        EventKind::Own => own_of(row),
        EventKind::Deliver => deliver_of(row),
    }
}

// `pass,DT`.
fn pass_of(row: &ByteRecord) -> Result<L1Event, TraceFault>
    ensures value { result ≡ pass_of (fields_of row.now) }
    ensures fit { IfOk result IsFit }
{
    let dt = span_at(row, 2)?;
    Ok(L1Event::Pass { dt: dt as i64 })
}

// `tick,END`.
fn tick_of(row: &ByteRecord) -> Result<L1Event, TraceFault>
    ensures value { result ≡ end_event event.Tick (fields_of row.now) }
    ensures fit { IfOk result IsFit }
{
    let end = end_at(row, 2)?;
    Ok(L1Event::Tick { end })
}

// `enable,END`.
fn enable_of(row: &ByteRecord) -> Result<L1Event, TraceFault>
    ensures value { result ≡ end_event event.Enable (fields_of row.now) }
    ensures fit { IfOk result IsFit }
{
    let end = end_at(row, 2)?;
    Ok(L1Event::Enable { end })
}

// `disable,END`.
fn disable_of(row: &ByteRecord) -> Result<L1Event, TraceFault>
    ensures value { result ≡ end_event event.Disable (fields_of row.now) }
    ensures fit { IfOk result IsFit }
{
    let end = end_at(row, 2)?;
    Ok(L1Event::Disable { end })
}

// `own,END,REQ,IS`.
fn own_of(row: &ByteRecord) -> Result<L1Event, TraceFault>
    ensures value { result ≡ own_of (fields_of row.now) }
    ensures fit { IfOk result IsFit }
{
    let end = end_at(row, 2)?;
    let msg = bits_from(row, 3)?;
    Ok(L1Event::Own { end, msg })
}

// `deliver,END,K`.
fn deliver_of(row: &ByteRecord) -> Result<L1Event, TraceFault>
    ensures value { result ≡ deliver_of (fields_of row.now) }
    ensures fit { IfOk result IsFit }
{
    let end = end_at(row, 2)?;
    let k = message_at(row, 3)?;
    Ok(L1Event::Deliver { end, k })
}
