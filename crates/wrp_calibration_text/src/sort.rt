//! The sorts of values, and the number of a row's key.
ghost use Rattle.std.specs.Prelude.{◌≡◌, ℕ, ℤ, List, Bool, Some, None, map, option_map};
ghost use Rattle.toml.specs.Data.{get_member};
ghost use Rattle.toml.specs.View.{view, table_view};
ghost use Rattle.wrp_caldb.specs.Points.{values_of};
ghost use Rattle.wrp_caldb.specs.Rows.{is_one_of, is_wavelength, fits_first, is_below, are_tables, is_array_of_tables, fits_sort, fitting_number, default_of, number_in};

use crate::points::is_table_of_points;
use crate::row::Row;
use crate::value::{all_are_tables, array_of, is_table, value_at};
use toml::{Table, Value};
use wrp_caldb::{Need, Sort, is_identity, is_module_name, is_name};

fn is_one_of(first: i64, second: i64, number: Option<i64>) -> bool
    ensures { result ≡ is_one_of first second number }
{
    match number {
        Some(number) => number == first || number == second,
        None => false,
    }
}

fn is_wavelength(number: Option<i64>) -> bool
    ensures { result ≡ is_wavelength number }
{
    match number {
        Some(nm) => nm == 0 || (800 <= nm && nm <= 1700),
        None => false,
    }
}

// Whether a wavelength is 0 if and only if the first one is.
fn fits_first(first: Option<i64>, number: Option<i64>) -> bool
    ensures { result ≡ fits_first first number }
{
    match (first, number) {
        (Some(first), Some(second)) => (first == 0) == (second == 0),
        _ => true,
    }
}

fn is_below(greatest: Option<usize>, number: usize) -> bool
    ensures { result ≡ is_below greatest number }
{
    match greatest {
        Some(greatest) => number <= greatest,
        None => true,
    }
}

// Whether the values are only tables, from `least` to `greatest` of them.
fn are_tables(values: &[Value], least: usize, greatest: Option<usize>) -> bool
    ensures { result ≡ are_tables least greatest (map view values.now) }
{
    all_are_tables(values) && least <= values.len() && is_below(greatest, values.len())
}

fn is_array_of_tables(value: &Value, least: usize, greatest: Option<usize>) -> bool
    ensures { result ≡ is_array_of_tables least greatest (values_of (view value.now)) }
{
    match array_of(value) {
        Some(values) => are_tables(values, least, greatest),
        None => false,
    }
}

/// Whether a value is of a sort.
pub fn fits(sort: Sort, value: &Value) -> bool
    ensures { result ≡ fits_sort sort (view value.now) }
{
    match sort {
        Sort::Number { least, greatest } => match value.as_integer() {
            Some(number) => least <= number && number <= greatest,
            None => false,
        },
        Sort::OneOf { first, second } => is_one_of(first, second, value.as_integer()),
        Sort::Identity => match value.as_str() {
            Some(text) => is_identity(text),
            None => false,
        },
        Sort::Wavelength => is_wavelength(value.as_integer()),
        Sort::SecondWavelength { first } => {
            is_wavelength(value.as_integer()) && fits_first(first, value.as_integer())
        }
        Sort::Points { law } => is_table_of_points(law, value),
        Sort::Flag => value.as_bool().is_some(),
        Sort::Text => value.as_str().is_some(),
        Sort::Name => match value.as_str() {
            Some(text) => is_name(text),
            None => false,
        },
        Sort::ModuleName => match value.as_str() {
            Some(text) => is_module_name(text),
            None => false,
        },
        Sort::Table => is_table(value),
        Sort::Tables { least, greatest } => is_array_of_tables(value, least, greatest),
    }
}

// The number of a value that is of a sort.
fn fitting_number(sort: Sort, value: &Value) -> Option<i64>
    ensures { result ≡ fitting_number sort (view value.now) }
{
    if fits(sort, value) {
        value.as_integer()
    } else {
        None
    }
}

// The value used for a key that is missing.
fn default_of(need: Need) -> Option<i64>
    ensures { result ≡ default_of need }
{
    match need {
        Need::Default(default) => Some(default),
        Need::Required | Need::Optional => None,
    }
}

/// The number of a row's key: a value of its sort, or its default if it is missing.
pub fn number_at(table: &Table, row: &Row) -> Option<i64>
    ensures { result ≡ number_in row.now (get_member row.now.name (table_view table.now)) }
{
    match value_at(table, row.key()) {
        Some(value) => fitting_number(row.sort(), value),
        None => default_of(row.need()),
    }
}
