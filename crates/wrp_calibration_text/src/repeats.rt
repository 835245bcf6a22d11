//! What is there twice: a name among tables of a kind, and the wavelengths of a pair in its module.
ghost use Rattle.std.specs.Prelude.{◌≡◌, ◌≤◌, List, Some, None, map, option_copied, length, take};
ghost use Rattle.std.specs.List.{list_any};
ghost use Rattle.toml.specs.Data.{Data, Members};
ghost use Rattle.toml.specs.View.{view, table_view};
ghost use Rattle.wrp_calibration_text.specs.Met.{IsTold};
ghost use Rattle.wrp_caldb.specs.Repeats.{are_same_texts, are_same_numbers, name_in, has_name_of, integer_in, has_number_of, has_wavelengths_of, place_of_name, place_of_pair};

use crate::place::Place;
use crate::value::value_at;
use toml::{Table, Value};
use wrp_caldb::{At, Code};

/// The text at `name`.
pub fn name_in<'a>(table: &'a Table) -> Option<&'a str>
    ensures { option_copied result ≡ name_in (table_view table.now) }
{
    match value_at(table, "name") {
        Some(value) => value.as_str(),
        None => None,
    }
}

// Whether two tables have the same text at `name`.
fn have_same_name(a: &Table, b: &Table) -> bool
    ensures { result ≡ are_same_texts (name_in (table_view a.now)) (name_in (table_view b.now)) }
{
    match (name_in(a), name_in(b)) {
        (Some(a), Some(b)) => a == b,
        _ => false,
    }
}

// Whether a value is a table with the same name.
fn has_name_of(table: &Table, value: &Value) -> bool
    ensures { result ≡ has_name_of (table_view table.now) (view value.now) }
{
    match value.as_table() {
        Some(other) => have_same_name(other, table),
        None => false,
    }
}

fn any_has_name_of(table: &Table, values: &[Value]) -> bool
    ensures { result ≡ list_any (λ v. has_name_of (table_view table.now) (view v)) values.now }
{
    values.iter().any(|value| has_name_of(table, value))
}

// Whether one of the first values is a table with the same name.
fn has_name_before(values: &[Value], count: usize, table: &Table) -> bool
    requires { count ≤ length values.now }
    ensures { result
        ≡ list_any (has_name_of (table_view table.now)) (take count (map view values.now)) }
{
    any_has_name_of(table, &values[..count])
}

/// The key `name`, if the code is `Twice` and `repeats` says that the table has the name of an
/// earlier one.
pub fn place_of_repeat(code: Code, at: At, repeats: bool) -> Option<Place>
    ensures { (earlier : List Data) (table : Members) → IsTold code earlier table repeats
        → result ≡ place_of_name code at earlier table }
{
    match code {
        Code::Twice => {
            if repeats {
                Some(Place::of_key(at, "name"))
            } else {
                None
            }
        }
        Code::UnknownKey | Code::Missing | Code::Range => None,
    }
}

/// The key `name`, if the code is `Twice` and one of the first values is a table with the same name.
/// It searches them one by one, so it is only for the short lists of nodes and links.
pub fn place_of_name(
    code: Code,
    at: At,
    values: &[Value],
    count: usize,
    table: &Table,
) -> Option<Place>
    requires { count ≤ length values.now }
    ensures { result
        ≡ place_of_name code at (take count (map view values.now)) (table_view table.now) }
{
    match code {
        Code::Twice => {
            if has_name_before(values, count, table) {
                Some(Place::of_key(at, "name"))
            } else {
                None
            }
        }
        Code::UnknownKey | Code::Missing | Code::Range => None,
    }
}

fn are_same_numbers(a: Option<i64>, b: Option<i64>) -> bool
    ensures { result ≡ are_same_numbers a b }
{
    match (a, b) {
        (Some(a), Some(b)) => a == b,
        _ => false,
    }
}

// The number at a key.
fn integer_in(key: &str, table: &Table) -> Option<i64>
    ensures { result ≡ integer_in key.now (table_view table.now) }
{
    match value_at(table, key) {
        Some(value) => value.as_integer(),
        None => None,
    }
}

// Whether a value is a table with the same number at a key.
fn has_number_of(key: &str, table: &Table, value: &Value) -> bool
    ensures { result ≡ has_number_of key.now (table_view table.now) (view value.now) }
{
    match value.as_table() {
        Some(other) => are_same_numbers(integer_in(key, other), integer_in(key, table)),
        None => false,
    }
}

// Whether a value is a table with the same two wavelengths.
fn has_wavelengths_of(table: &Table, value: &Value) -> bool
    ensures { result ≡ has_wavelengths_of (table_view table.now) (view value.now) }
{
    has_number_of("tx_nm", table, value) && has_number_of("rx_nm", table, value)
}

fn any_has_wavelengths_of(table: &Table, values: &[Value]) -> bool
    ensures { result
        ≡ list_any (λ v. has_wavelengths_of (table_view table.now) (view v)) values.now }
{
    values.iter().any(|value| has_wavelengths_of(table, value))
}

// Whether one of the first values is a pair of the same wavelengths.
fn has_wavelengths_before(values: &[Value], count: usize, table: &Table) -> bool
    requires { count ≤ length values.now }
    ensures { result
        ≡ list_any (has_wavelengths_of (table_view table.now)) (take count (map view values.now)) }
{
    any_has_wavelengths_of(table, &values[..count])
}

// The pair, if one of the first values is a pair of the same wavelengths. It searches them one by
// one: when `Twice` is looked for, a module has at most 16 pairs, since more are out of range.
pub fn place_of_pair(
    code: Code,
    at: At,
    values: &[Value],
    count: usize,
    table: &Table,
) -> Option<Place>
    requires { count ≤ length values.now }
    ensures { result
        ≡ place_of_pair code at (take count (map view values.now)) (table_view table.now) }
{
    match code {
        Code::Twice => {
            if has_wavelengths_before(values, count, table) {
                Some(Place::of_table(at))
            } else {
                None
            }
        }
        Code::UnknownKey | Code::Missing | Code::Range => None,
    }
}
