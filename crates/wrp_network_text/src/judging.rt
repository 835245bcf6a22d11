//! Where a network file is refused for what one of its tables says: the first place of each code, in
//! the order of the places.
//!
//! Texts that are there twice are searched for among the tables before each one. The lists are short then:
//! `Twice` is looked for only if nothing is out of range, and so among at most 64 nodes and 63 links. The
//! modules and the fibres, of which there may be thousands, are judged by `wrp_calibration_text`.
ghost use Rattle.std.specs.Prelude.{◌≡◌, ◌↔◌, ◌≤◌, ◌<◌, Some, None, IfOk, map, length, take, option_copied};
ghost use Rattle.std.specs.List.{list_any};
ghost use Rattle.toml.specs.View.{view, table_view};
ghost use Rattle.wrp_caldb.specs.Database.{database_of};
ghost use Rattle.wrp_caldb.specs.Place.{PlaceAt};
ghost use Rattle.wrp_caldb.specs.Refusal.{least_of};
ghost use Rattle.wrp_caldb.specs.Repeats.{place_of_name};
ghost use Rattle.wrp_network_text.specs.Keys.{network_in};
ghost use Rattle.wrp_network_text.specs.Places.{has_text_of, place_of_identity, place_in_node, place_in_nodes, has_end, repeats_upper, repeats_lower, place_of_port, place_in_link, place_in_links, no_node, place_in_head, place_at_nodes, place_at_links, first_place, IsRefused, IsTaken};

use crate::ends::{are_same_texts, text_at};
use crate::keys::{clock_in, head_rows, link_row, node_row, node_rows, top_rows};
use crate::link_rows::place_in_link_table;
use crate::settings::network_rows;
use std::alloc::{AllocError, Global};
use toml::{Table, Value};
use wrp_base::Clock;
use wrp_caldb::{At, Code, Lists};
use wrp_calibration_text::{
    Place, place_in_lists, place_in_table, place_of_keys, place_of_name, place_of_others, tables_at,
};

// Whether a value is a table with the same text at a key.
fn has_text_of(key: &str, table: &Table, value: &Value) -> bool
    ensures { result ≡ has_text_of key.now (table_view table.now) (view value.now) }
{
    match value.as_table() {
        Some(other) => are_same_texts(text_at(key, other), text_at(key, table)),
        None => false,
    }
}

fn any_has_text_of(key: &str, table: &Table, values: &[Value]) -> bool
    ensures { result ≡ list_any (λ v. has_text_of key.now (table_view table.now) (view v)) values.now }
{
    values.iter().any(|value| has_text_of(key, table, value))
}

// Whether one of the first values is a table with the same text at a key.
fn has_text_before(key: &str, values: &[Value], count: usize, table: &Table) -> bool
    requires { count ≤ length values.now }
    ensures { result
        ≡ list_any (has_text_of key.now (table_view table.now)) (take count (map view values.now)) }
{
    any_has_text_of(key, table, &values[..count])
}

// The key `identity`, if the code is `Twice` and an earlier node has the same.
fn place_of_identity(
    code: Code,
    at: At,
    nodes: &[Value],
    count: usize,
    node: &Table,
) -> Option<Place>
    requires { count ≤ length nodes.now }
    ensures { result
        ≡ place_of_identity code at (take count (map view nodes.now)) (table_view node.now) }
{
    match code {
        Code::Twice => {
            if has_text_before("identity", nodes, count, node) {
                Some(Place::of_key(at, "identity"))
            } else {
                None
            }
        }
        Code::UnknownKey | Code::Missing | Code::Range => None,
    }
}

// The first place of a code in a node, with `count` nodes before it.
fn place_in_node(
    clock: Clock,
    code: Code,
    nodes: &[Value],
    count: usize,
    node: &Table,
) -> Option<Place>
    requires { count < length nodes.now }
    ensures { result
        ≡ place_in_node clock code (map view nodes.now) count (table_view node.now) }
{
    let at = At::Node(count + 1);
    if let Some(place) = place_in_table(at, node, &node_rows(clock), code) {
        return Some(place);
    }
    match place_of_name(code, at, nodes, count, node) {
        Some(place) => Some(place),
        None => place_of_identity(code, at, nodes, count, node),
    }
}

// The first place of a code in the nodes.
fn place_in_nodes(clock: Clock, code: Code, nodes: &[Value]) -> Option<Place>
    ensures { result ≡ place_in_nodes clock code (map view nodes.now) }
{
    for i in 0..nodes.len() {
        if let Some(node) = nodes[i].as_table() {
            if let Some(place) = place_in_node(clock, code, nodes, i, node) {
                return Some(place);
            }
        }
    }
    None
}

// Whether a value is a table that has a text at one of its ends.
fn has_end(text: Option<&str>, value: &Value) -> bool
    ensures { result ≡ has_end (option_copied text.entry) (view value.now) }
{
    match value.as_table() {
        Some(link) => {
            are_same_texts(text_at("upper", link), text)
                || are_same_texts(text_at("lower", link), text)
        }
        None => false,
    }
}

fn any_has_end(text: Option<&str>, values: &[Value]) -> bool
    ensures { result ≡ list_any (λ v. has_end (option_copied text.entry) (view v)) values.now }
{
    values.iter().any(|value| has_end(text, value))
}

// Whether one of the first links has a text at one of its ends.
fn has_end_before(text: Option<&str>, links: &[Value], count: usize) -> bool
    requires { count ≤ length links.now }
    ensures { result
        ≡ list_any (has_end (option_copied text.entry)) (take count (map view links.now)) }
{
    any_has_end(text, &links[..count])
}

// Whether the port of the upper end is a port of an earlier link.
fn repeats_upper(links: &[Value], count: usize, link: &Table) -> bool
    requires { count ≤ length links.now }
    ensures { result ≡ repeats_upper (take count (map view links.now)) (table_view link.now) }
{
    has_end_before(text_at("upper", link), links, count)
}

// Whether the port of the lower end is the port of the upper end, or a port of an earlier link.
fn repeats_lower(links: &[Value], count: usize, link: &Table) -> bool
    requires { count ≤ length links.now }
    ensures { result ≡ repeats_lower (take count (map view links.now)) (table_view link.now) }
{
    are_same_texts(text_at("upper", link), text_at("lower", link))
        || has_end_before(text_at("lower", link), links, count)
}

// The key of an end of a link, if the code is `Twice` and its port is the port of an earlier end.
fn place_of_port(code: Code, at: At, links: &[Value], count: usize, link: &Table) -> Option<Place>
    requires { count ≤ length links.now }
    ensures { result
        ≡ place_of_port code at (take count (map view links.now)) (table_view link.now) }
{
    match code {
        Code::Twice => {
            if repeats_upper(links, count, link) {
                Some(Place::of_key(at, "upper"))
            } else if repeats_lower(links, count, link) {
                Some(Place::of_key(at, "lower"))
            } else {
                None
            }
        }
        Code::UnknownKey | Code::Missing | Code::Range => None,
    }
}

// The key `name` of a link, if the code is `Twice` and a node has the same name.
fn place_of_node_name(code: Code, at: At, nodes: &[Value], link: &Table) -> Option<Place>
    ensures { result ≡ place_of_name code at (map view nodes.now) (table_view link.now) }
{
    place_of_name(code, at, nodes, nodes.len(), link)
}

// The first place of a code in a link, with `count` links before it.
fn place_in_link(
    code: Code,
    nodes: &[Value],
    lists: &Lists,
    links: &[Value],
    count: usize,
    link: &Table,
) -> Option<Place>
    requires { count < length links.now }
    ensures { result ≡ place_in_link code (record { nodes = map view nodes.now; db = lists.now })
        (map view links.now) count (table_view link.now) }
{
    let at = At::Link(count + 1);
    if let Some(place) = place_in_link_table(code, at, nodes, lists, link) {
        return Some(place);
    }
    if let Some(place) = place_of_node_name(code, at, nodes, link) {
        return Some(place);
    }
    match place_of_name(code, at, links, count, link) {
        Some(place) => Some(place),
        None => place_of_port(code, at, links, count, link),
    }
}

// The first place of a code in the links.
fn place_in_links(code: Code, nodes: &[Value], lists: &Lists, links: &[Value]) -> Option<Place>
    ensures { result ≡ place_in_links code (record { nodes = map view nodes.now; db = lists.now })
        (map view links.now) }
{
    for i in 0..links.len() {
        if let Some(link) = links[i].as_table() {
            if let Some(place) = place_in_link(code, nodes, lists, links, i, link) {
                return Some(place);
            }
        }
    }
    None
}

// The key `node`, if the code is `Missing` and there is no node.
fn no_node(code: Code, nodes: &[Value]) -> Option<Place>
    ensures { result ≡ no_node code (map view nodes.now) }
{
    match code {
        Code::Missing => match nodes {
            [] => Some(Place::of_key(At::Top, "node")),
            [_, ..] => None,
        },
        Code::UnknownKey | Code::Range | Code::Twice => None,
    }
}

// The first place of a code at the top and in `network`.
fn place_in_head(code: Code, doc: &Table, network: &Table) -> Option<Place>
    requires { table_view network.now ≡ network_in (table_view doc.now) }
    ensures { result ≡ place_in_head code (table_view doc.now) }
{
    if let Some(place) = place_of_others(At::Top, doc, &top_rows(), code) {
        return Some(place);
    }
    if let Some(place) = place_of_keys(At::Top, doc, &head_rows(), code) {
        return Some(place);
    }
    place_in_table(At::Network, network, &network_rows(), code)
}

// The first place of a code at the key `node` and in the nodes.
fn place_at_nodes(code: Code, doc: &Table, network: &Table) -> Option<Place>
    requires { table_view network.now ≡ network_in (table_view doc.now) }
    ensures { result ≡ place_at_nodes code (table_view doc.now) }
{
    let nodes = tables_at(doc, "node");
    if let Some(place) = no_node(code, nodes) {
        return Some(place);
    }
    if let Some(place) = place_of_keys(At::Top, doc, &[node_row()], code) {
        return Some(place);
    }
    place_in_nodes(clock_in(doc, network), code, nodes)
}

// The first place of a code at the key `link` and in the links.
fn place_at_links(code: Code, doc: &Table, lists: &Lists) -> Option<Place>
    requires { lists.now ≡ database_of (table_view doc.now) }
    ensures { result ≡ place_at_links code (table_view doc.now) }
{
    if let Some(place) = place_of_keys(At::Top, doc, &[link_row()], code) {
        return Some(place);
    }
    place_in_links(code, tables_at(doc, "node"), lists, tables_at(doc, "link"))
}

// The first place of a code in the text.
fn first_place(
    alloc: Global,
    code: Code,
    doc: &Table,
    network: &Table,
    lists: &Lists,
) -> Result<Option<Place>, AllocError>
    requires network { table_view network.now ≡ network_in (table_view doc.now) }
    requires lists { lists.now ≡ database_of (table_view doc.now) }
    ensures { IfOk result (λ place. place ≡ first_place (table_view doc.now) code) }
{
    if let Some(place) = place_in_head(code, doc, network) {
        return Ok(Some(place));
    }
    if let Some(place) = place_at_nodes(code, doc, network) {
        return Ok(Some(place));
    }
    match place_at_links(code, doc, lists) {
        Some(place) => Ok(Some(place)),
        None => place_in_lists(alloc, code, doc),
    }
}

// The least code that has a place, with its first place.
fn least_of(
    alloc: Global,
    doc: &Table,
    network: &Table,
    lists: &Lists,
) -> Result<Option<(Code, Place)>, AllocError>
    requires network { table_view network.now ≡ network_in (table_view doc.now) }
    requires lists { lists.now ≡ database_of (table_view doc.now) }
    ensures { IfOk result (λ least. least ≡ least_of (first_place (table_view doc.now))) }
{
    if let Some(place) = first_place(alloc, Code::UnknownKey, doc, network, lists)? {
        return Ok(Some((Code::UnknownKey, place)));
    }
    if let Some(place) = first_place(alloc, Code::Missing, doc, network, lists)? {
        return Ok(Some((Code::Missing, place)));
    }
    if let Some(place) = first_place(alloc, Code::Range, doc, network, lists)? {
        return Ok(Some((Code::Range, place)));
    }
    match first_place(alloc, Code::Twice, doc, network, lists)? {
        Some(place) => Ok(Some((Code::Twice, place))),
        None => Ok(None),
    }
}

/// Why a table of a network file is refused: the least code that has a place, at its first place. `network`
/// is the table `network` of the text, and `lists` are its modules and fibres. `None` if no code has a place: the
/// table is taken. Memory is needed only if no code below `Twice` has a place. `AllocError` if there is not enough;
/// the table stays as it is.
pub fn refusal(
    alloc: Global,
    doc: &Table,
    network: &Table,
    lists: &Lists,
) -> Result<Option<(Code, Place)>, AllocError>
    requires network { table_view network.now ≡ network_in (table_view doc.now) }
    requires lists { lists.now ≡ database_of (table_view doc.now) }
    ensures refused { (code : Code) (place : PlaceAt) → IfOk result (λ refusal.
        (refusal ≡ Some (code, place)) ↔ IsRefused (table_view doc.now) code place) }
    ensures taken { IfOk result (λ refusal. (refusal ≡ None) ↔ IsTaken (table_view doc.now)) }
{
    least_of(alloc, doc, network, lists)
}
