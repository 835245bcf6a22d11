//! The rows of a link, and the first place of a code in its keys.
ghost use Rattle.std.specs.Prelude.{◌≡◌, ◌≤◌, map, length, option_map};
ghost use Rattle.std.specs.List.{find};
ghost use Rattle.toml.specs.Data.{get_member};
ghost use Rattle.toml.specs.View.{view, table_view};
ghost use Rattle.wrp_network_text.specs.Links.{down_key, up_key, upper_key, lower_key, fibre_key, upper_module_key, lower_module_key, first_in, down_in, up_in, wr_key, link_keys, names_fibre, names_module, names_one, is_any, may_be_missing, is_stray, has_link_fault, place_of_link_keys, place_in_link_table};

use crate::ends::end_of_value;
use crate::keys::name_row;
use std::marker::Model;
use toml::{Table, Value};
use wrp_caldb::{At, Code, Lists, Sort};
use wrp_calibration_text::{Place, Row, is_at_fault, natural, place_of_others, value_at};

/// What a value has to name, in addition to its sort.
#[derive(Clone, Copy)]
pub enum Names {
    /// Nothing.
    Nothing,
    /// A port of one of the nodes.
    Node,
    /// A listed fibre.
    Fibre,
    /// A module that is listed for the wavelengths of the upper end.
    UpperModule,
    /// A module that is listed for the wavelengths of the lower end.
    LowerModule,
    /// Nothing; its default 0 means any wavelength up, which fits only any wavelength down.
    Up,
}

/// A row of a link.
#[derive(Drop)]
pub struct LinkRow {
    row: Row,
    names: Names,
}

impl Model for LinkRow {
    ghost use Rattle.wrp_network_text.specs.Links.{LinkKey};

    ghost Value = { LinkKey };

    ghost view = { λ r. record { key = r.row; names = r.names } };
}

impl LinkRow {
    // The key's name.
    fn key(&self) -> &'static str
        ensures value { result.now ≡ self.now.key.name }
        ensures short { length result.now ≤ 16 }
    {
        self.row.key()
    }
}

// `down_nm`: the wavelength of the way down, in nm.
fn down_row() -> Row
    ensures { result ≡ down_key }
{
    Row::defaulted("down_nm", Sort::Wavelength, 0)
}

// `up_nm`: the wavelength of the way up, if the wavelength of the way down is this.
fn up_row(first: Option<i64>) -> Row
    ensures { result ≡ up_key first }
{
    Row::defaulted("up_nm", Sort::SecondWavelength { first }, 0)
}

// `wr`: whether the link may leave plain PTP.
fn wr_row() -> Row
    ensures { result ≡ wr_key }
{
    Row::optional("wr", Sort::Flag)
}

// The number for the wavelength of the way down.
fn first_in(link: &Table) -> Option<i64>
    ensures { result ≡ first_in (table_view link.now) }
{
    match value_at(link, "down_nm") {
        Some(value) => value.as_integer(),
        None => Some(0),
    }
}

/// The wavelength of the way down, in nm; 0 if there is none.
pub fn down_in(link: &Table) -> u16
    ensures { result ≡ down_in (table_view link.now) }
{
    natural(link, &down_row()) as u16
}

/// The wavelength of the way up, in nm; 0 if there is none.
pub fn up_in(link: &Table) -> u16
    ensures { result ≡ up_in (table_view link.now) }
{
    natural(link, &up_row(first_in(link))) as u16
}

// `upper` and `lower`: a port of a node.
fn upper_row() -> Row
    ensures { result ≡ upper_key }
{
    Row::required("upper", Sort::Text)
}

fn lower_row() -> Row
    ensures { result ≡ lower_key }
{
    Row::required("lower", Sort::Text)
}

// `fibre`: a fibre's name.
fn fibre_row() -> Row
    ensures { result ≡ fibre_key }
{
    Row::required("fibre", Sort::Name)
}

// `upper_module` and `lower_module`: a module's name.
fn upper_module_row() -> Row
    ensures { result ≡ upper_module_key }
{
    Row::required("upper_module", Sort::ModuleName)
}

fn lower_module_row() -> Row
    ensures { result ≡ lower_module_key }
{
    Row::required("lower_module", Sort::ModuleName)
}

fn link_row(row: Row, names: Names) -> LinkRow
    ensures { result ≡ record { key = row; names = names } }
{
    LinkRow { row, names }
}

// The rows of a link, with what each value has to name.
fn link_rows(link: &Table) -> [LinkRow; 9]
    ensures { result ≡ link_keys (table_view link.now) }
{
    [
        link_row(name_row(), Names::Nothing),
        link_row(upper_row(), Names::Node),
        link_row(lower_row(), Names::Node),
        link_row(fibre_row(), Names::Fibre),
        link_row(upper_module_row(), Names::UpperModule),
        link_row(lower_module_row(), Names::LowerModule),
        link_row(wr_row(), Names::Nothing),
        link_row(down_row(), Names::Nothing),
        link_row(up_row(first_in(link)), Names::Up),
    ]
}

// The rows alone.
fn plain_rows(link: &Table) -> [Row; 9]
    ensures { result ≡ map (λ k. k.key) (link_keys (table_view link.now)) }
{
    [
        name_row(),
        upper_row(),
        lower_row(),
        fibre_row(),
        upper_module_row(),
        lower_module_row(),
        wr_row(),
        down_row(),
        up_row(first_in(link)),
    ]
}

fn names_fibre(lists: &Lists, value: &Value) -> bool
    ensures { result ≡ names_fibre lists.now (view value.now) }
{
    match value.as_str() {
        Some(name) => lists.fibre(name).is_some(),
        None => false,
    }
}

fn names_module(lists: &Lists, value: &Value, tx_nm: u16, rx_nm: u16) -> bool
    ensures { result ≡ names_module lists.now tx_nm rx_nm (view value.now) }
{
    match value.as_str() {
        Some(name) => lists.module_at(name, tx_nm, rx_nm).is_some(),
        None => false,
    }
}

// Whether a value of a link names what it has to.
fn names_one(nodes: &[Value], lists: &Lists, link: &Table, names: Names, value: &Value) -> bool
    ensures { result ≡ names_one (record { nodes = map view nodes.now; db = lists.now })
        (table_view link.now) names (view value.now) }
{
    match names {
        Names::Nothing => true,
        Names::Node => end_of_value(nodes, value).is_some(),
        Names::Fibre => names_fibre(lists, value),
        Names::UpperModule => names_module(lists, value, down_in(link), up_in(link)),
        Names::LowerModule => names_module(lists, value, up_in(link), down_in(link)),
        Names::Up => true,
    }
}

fn is_any(nm: Option<i64>) -> bool
    ensures { result ≡ is_any nm }
{
    match nm {
        Some(nm) => nm == 0,
        None => true,
    }
}

// Whether the key of a row may be missing.
fn may_be_missing(link: &Table, names: Names) -> bool
    ensures { result ≡ may_be_missing (table_view link.now) names }
{
    match names {
        Names::Up => is_any(first_in(link)),
        Names::Nothing | Names::Node | Names::Fibre | Names::UpperModule | Names::LowerModule =>
            true,
    }
}

// Whether the value of a row names nothing, or a default does not fit, if the code is `Range`.
fn is_stray(code: Code, nodes: &[Value], lists: &Lists, link: &Table, row: &LinkRow) -> bool
    ensures { result ≡ is_stray code (may_be_missing (table_view link.now) row.now.names)
        (names_one (record { nodes = map view nodes.now; db = lists.now })
        (table_view link.now) row.now.names)
        (get_member row.now.key.name (table_view link.now)) }
{
    match code {
        Code::UnknownKey => false,
        Code::Missing => false,
        Code::Range => match value_at(link, row.key()) {
            Some(value) => !names_one(nodes, lists, link, row.names, value),
            None => !may_be_missing(link, row.names),
        },
        Code::Twice => false,
    }
}

// Whether a row of a link has a fault of a code.
fn has_link_fault(code: Code, nodes: &[Value], lists: &Lists, link: &Table, row: &LinkRow) -> bool
    ensures { result ≡ has_link_fault code (record { nodes = map view nodes.now; db = lists.now })
        (table_view link.now) row.now }
{
    is_at_fault(link, &row.row, code) || is_stray(code, nodes, lists, link, row)
}

// The first row of a link with a fault of a code.
fn first_row<'a>(
    code: Code,
    nodes: &[Value],
    lists: &Lists,
    link: &Table,
    rows: &'a [LinkRow],
) -> Option<&'a LinkRow>
    ensures { option_map (λ r. r.now) result ≡ find
        (has_link_fault code (record { nodes = map view nodes.now; db = lists.now })
        (table_view link.now)) rows.now }
{
    rows.iter()
        .find(|row| has_link_fault(code, nodes, lists, link, row))
}

// The key of the first row of a link with a fault of a code.
fn place_of_link_keys(
    code: Code,
    at: At,
    nodes: &[Value],
    lists: &Lists,
    link: &Table,
) -> Option<Place>
    ensures { result ≡ place_of_link_keys code at
        (record { nodes = map view nodes.now; db = lists.now }) (table_view link.now) }
{
    match first_row(code, nodes, lists, link, &link_rows(link)) {
        Some(row) => Some(Place::of_key(at, row.key())),
        None => None,
    }
}

/// The first place of a code in the keys of a link: the link if it has a key without a row, then
/// the keys in the order of the rows.
pub fn place_in_link_table(
    code: Code,
    at: At,
    nodes: &[Value],
    lists: &Lists,
    link: &Table,
) -> Option<Place>
    ensures { result ≡ place_in_link_table code at
        (record { nodes = map view nodes.now; db = lists.now }) (table_view link.now) }
{
    match place_of_others(at, link, &plain_rows(link), code) {
        Some(place) => Some(place),
        None => place_of_link_keys(code, at, nodes, lists, link),
    }
}
