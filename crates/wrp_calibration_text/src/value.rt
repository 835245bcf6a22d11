//! The values of a table: what is at a key, and the tables of an array of tables.
ghost use Rattle.std.specs.Prelude.{◌≡◌, ℕ, ℤ, List, Bool, Some, None, map, option_map};
ghost use Rattle.std.specs.Option.{is_some};
ghost use Rattle.std.specs.List.{list_all};
ghost use Rattle.toml.specs.Data.{get_member, as_table};
ghost use Rattle.toml.specs.View.{view, table_view};
ghost use Rattle.wrp_caldb.specs.Points.{values_of};
ghost use Rattle.wrp_caldb.specs.Rows.{all_tables, tables_at};

use toml::{Table, Value};

/// The value at a key.
pub fn value_at<'a>(table: &'a Table, key: &str) -> Option<&'a Value>
    ensures { option_map (λ v. view v.now) result ≡ get_member key.now (table_view table.now) }
{
    table.get(key)
}

/// The values of an array; `None` if the value is anything else.
pub fn array_of<'a>(value: &'a Value) -> Option<&'a [Value]>
    ensures { option_map (λ a. map view a.now) result ≡ values_of (view value.now) }
{
    match value.as_array() {
        Some(array) => Some(array.as_slice()),
        None => None,
    }
}

pub(crate) fn is_table(value: &Value) -> bool
    ensures { result ≡ is_some (as_table (view value.now)) }
{
    match value.as_table() {
        Some(_) => true,
        None => false,
    }
}

// Whether all values are tables.
pub(crate) fn all_are_tables(values: &[Value]) -> bool
    ensures { result ≡ list_all (λ d. is_some (as_table d)) (map view values.now) }
{
    each_is_table(values)
}

fn each_is_table(values: &[Value]) -> bool
    ensures { result ≡ list_all (λ v. is_some (as_table (view v))) values.now }
{
    values.iter().all(|value| is_table(value))
}

/// The tables of the array of tables at a key; none if there is another value, or none.
pub fn tables_at<'a>(table: &'a Table, key: &str) -> &'a [Value]
    ensures { map view result.now ≡ tables_at key.now (table_view table.now) }
{
    match value_at(table, key) {
        Some(value) => match array_of(value) {
            Some(values) => tables_among(values),
            None => &[],
        },
        None => &[],
    }
}

// The values if all are tables, else none.
fn tables_among(values: &[Value]) -> &[Value]
    ensures { map view result.now ≡ all_tables (map view values.now) }
{
    if all_are_tables(values) { values } else { &[] }
}
