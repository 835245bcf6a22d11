//! The fields of a line, by their places from 1: the value of each, or its fault.
ghost use Rattle.std.specs.Prelude.{◌≡◌, ◌<◌, IfOk};
ghost use Rattle.csv.specs.Records.{fields_of};
ghost use Rattle.wrp_base.specs.declared.fault.TraceFault.TheVariants.{Number, Name};
ghost use Rattle.wrp_base.specs.Ranges.{IsAmong};
ghost use Rattle.wrp_fields.specs.Fields.{number_at};
ghost use Rattle.wrp_fields.specs.Reading.{field_of};

use crate::numbers::natural;
use csv::ByteRecord;
use wrp_base::TraceFault;

/// The field at a place. Empty if the line has no such field.
pub fn field(row: &ByteRecord, place: u32) -> &[u8]
    requires { 0 < place }
    ensures { result.now ≡ field_of place (fields_of row.now) }
{
    match row.get(place as usize - 1) {
        Some(field) => field,
        None => &[],
    }
}

/// The fault of a field that is not a number, or is out of its range.
pub fn number_fault(place: u32) -> TraceFault
    requires { 0 < place }
    ensures { result ≡ Number place }
{
    TraceFault::Number { field: place }
}

/// The fault of a field that is not a known name.
pub fn name_fault(place: u32) -> TraceFault
    ensures { result ≡ Name place }
{
    TraceFault::Name { field: place }
}

/// The number in the field at a place, if it is from `least` to `greatest`. `Number` with that place
/// if the field is missing, is not 1 to 39 digits (after an optional `-`), or is out of that range.
/// `row` stays as it is.
pub fn number_at(row: &ByteRecord, place: u32, least: u64, greatest: u64) -> Result<u64, TraceFault>
    requires { 0 < place }
    ensures value { result ≡ number_at least greatest place (fields_of row.now) }
    ensures range { IfOk result (IsAmong least greatest) }
{
    match natural(field(row, place), least, greatest) {
        Some(number) => Ok(number),
        None => Err(number_fault(place)),
    }
}
