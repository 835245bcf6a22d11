//! The ends of links, `NODE:PORT`.
ghost use Rattle.std.specs.Prelude.{◌≡◌, ◌<◌, Some, IfSome, map, length, option_copied};
ghost use Rattle.std.specs.List.{position};
ghost use Rattle.toml.specs.View.{view, table_view};
ghost use Rattle.wrp_caldb.specs.Repeats.{are_same_texts};
ghost use Rattle.wrp_network_text.specs.Ends.{is_named, named, port_of, both, end_in, end_of_value, text_at};

use toml::{Table, Value};
use wrp_calibration_text::{name_in, value_at};

/// The text at a key.
pub fn text_at<'a>(key: &str, table: &'a Table) -> Option<&'a str>
    ensures { option_copied result ≡ text_at key.now (table_view table.now) }
{
    match value_at(table, key) {
        Some(value) => value.as_str(),
        None => None,
    }
}

/// Whether both texts are there and are the same.
pub fn are_same_texts(a: Option<&str>, b: Option<&str>) -> bool
    ensures { result ≡ are_same_texts (option_copied a.entry) (option_copied b.entry) }
{
    match (a, b) {
        (Some(a), Some(b)) => a == b,
        _ => false,
    }
}

// Whether a value is a table with a text at `name`.
fn is_named(name: &str, value: &Value) -> bool
    ensures { result ≡ is_named name.now (view value.now) }
{
    match value.as_table() {
        Some(table) => match name_in(table) {
            Some(other) => other == name,
            None => false,
        },
        None => false,
    }
}

// The first of these tables with a text at `name`.
fn named(name: &str, values: &[Value]) -> Option<usize>
    ensures value { result ≡ named name.now (map view values.now) }
    ensures within { IfSome result (λ n. n < length values.now) }
{
    first_named(name, values)
}

fn first_named(name: &str, values: &[Value]) -> Option<usize>
    ensures value { result ≡ position (λ v. is_named name.now (view v)) values.now }
    ensures within { IfSome result (λ n. n < length values.now) }
{
    values.iter().position(|value| is_named(name, value))
}

// A port, 1 to 18, without sign or leading zero.
fn port_of(text: &str) -> Option<u16>
    ensures { result ≡ port_of text.now }
{
    match text.as_bytes() {
        [d] if b'1' <= *d && *d <= b'9' => Some(u16::from(*d - b'0')),
        [b'1', d] if b'0' <= *d && *d <= b'8' => Some(u16::from(*d - b'0') + 10),
        _ => None,
    }
}

fn both(node: Option<usize>, port: Option<u16>) -> Option<(usize, u16)>
    ensures value { result ≡ both node port }
    ensures node { IfSome result (λ e. node ≡ Some e.0) }
{
    match (node, port) {
        (Some(node), Some(port)) => Some((node, port)),
        _ => None,
    }
}

/// The place of the node and the port that a text names.
pub fn end_in(nodes: &[Value], text: &str) -> Option<(usize, u16)>
    ensures value { result ≡ end_in (map view nodes.now) text.now }
    ensures within { IfSome result (λ e. e.0 < length nodes.now) }
{
    match text.split_once(':') {
        Some((node, port)) => both(named(node, nodes), port_of(port)),
        None => None,
    }
}

/// The end that a value names.
pub fn end_of_value(nodes: &[Value], value: &Value) -> Option<(usize, u16)>
    ensures { result ≡ end_of_value (map view nodes.now) (view value.now) }
{
    match value.as_str() {
        Some(text) => end_in(nodes, text),
        None => None,
    }
}
