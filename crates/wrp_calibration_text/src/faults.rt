//! The first place of a code in a table with rows.
ghost use Rattle.std.specs.Prelude.{◌≡◌, ◌≤◌, Some, None, IfSome, option_map, length};
ghost use Rattle.toml.specs.Data.{get_member};
ghost use Rattle.toml.specs.View.{table_view};
ghost use Rattle.wrp_caldb.specs.Rows.{is_listed, has_unknown, has_fault, first_key};
ghost use Rattle.wrp_caldb.specs.Refusal.{place_of_keys, place_of_others, place_in_table};

use crate::place::Place;
use crate::row::Row;
use crate::sort::fits;
use crate::value::value_at;
use toml::Table;
use wrp_caldb::{At, Code, Need};

/// Whether a row's key has a fault of a code.
pub fn is_at_fault(table: &Table, row: &Row, code: Code) -> bool
    ensures { result ≡ has_fault code row.now (get_member row.now.name (table_view table.now)) }
{
    match code {
        Code::UnknownKey => false,
        Code::Missing => row.need() == Need::Required && value_at(table, row.key()).is_none(),
        Code::Range => match value_at(table, row.key()) {
            Some(value) => !fits(row.sort(), value),
            None => false,
        },
        Code::Twice => false,
    }
}

// The first row with a fault of a code.
fn first_row<'a>(table: &Table, rows: &'a [Row], code: Code) -> Option<&'a Row>
    ensures { option_map (λ r. r.now.name) result ≡ first_key code rows.now (table_view table.now) }
{
    rows.iter().find(|row| is_at_fault(table, row, code))
}

/// The first key of a table with a fault of a code: `Missing` or `Range`.
pub fn place_of_keys(at: At, table: &Table, rows: &[Row], code: Code) -> Option<Place>
    ensures { result ≡ place_of_keys code at rows.now (table_view table.now) }
{
    match first_row(table, rows, code) {
        Some(row) => Some(Place::of_key(at, row.key())),
        None => None,
    }
}

// Whether a key has a row.
fn has_row(rows: &[Row], key: &str) -> bool
    ensures { result ≡ is_listed rows.now key.now }
{
    rows.iter().any(|row| row.key() == key)
}

// Whether a table has a key that has no row.
fn has_unknown(table: &Table, rows: &[Row]) -> bool
    ensures { result ≡ has_unknown rows.now (table_view table.now) }
{
    for key in table.keys() {
        if !has_row(rows, key.as_str()) {
            return true;
        }
    }
    false
}

/// The table, if the code is `UnknownKey` and it has a key that has no row.
pub fn place_of_others(at: At, table: &Table, rows: &[Row], code: Code) -> Option<Place>
    ensures { result ≡ place_of_others code at rows.now (table_view table.now) }
{
    match code {
        Code::UnknownKey => {
            if has_unknown(table, rows) {
                Some(Place::of_table(at))
            } else {
                None
            }
        }
        Code::Missing | Code::Range | Code::Twice => None,
    }
}

/// The first place of a code in a table with these rows: the table if it has a key without a row,
/// then the keys in the order of the rows.
pub fn place_in_table(at: At, table: &Table, rows: &[Row], code: Code) -> Option<Place>
    ensures { result ≡ place_in_table code at rows.now (table_view table.now) }
{
    match place_of_others(at, table, rows, code) {
        Some(place) => Some(place),
        None => place_of_keys(at, table, rows, code),
    }
}
