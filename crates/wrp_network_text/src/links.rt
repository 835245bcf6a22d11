//! The links that a text describes.
ghost use Rattle.std.specs.Prelude.{◌≡◌, ◌≤◌, ◌<◌, map, length, fold, option_map};
ghost use Rattle.toml.specs.View.{view, table_view};
ghost use Rattle.wrp_caldb.specs.Database.{each_table, table_at};
ghost use Rattle.wrp_config.specs.Accepted.{greatest, error_of, error_at_ends, law_error};
ghost use Rattle.wrp_network_text.specs.Config.{name_of, end_at, wr_in, fibre_of, link_of};
ghost use Rattle.wrp_config.specs.Same.{bare_link};

use crate::ends::{end_in, text_at};
use crate::link_rows::{down_in, up_in};
use arrayvec::ArrayVec;
use toml::{Table, Value};
use wrp_base::{Fibre, Module};
use wrp_caldb::{ListedModule, Lists};
use wrp_calibration_text::{name_at, value_at};
use wrp_network::{LinkCfg, Name};

// The name at a key; an empty name if there is none.
fn name_of(key: &str, table: &Table) -> Name
    ensures { result.bytes ≡ name_of key.now (table_view table.now) }
{
    match text_at(key, table) {
        Some(text) => wrp_caldb::name_of(text),
        None => Name::new(),
    }
}

// The node and the port at a key; 0 and 0 if there is none.
fn end_at(nodes: &[Value], key: &str, link: &Table) -> (u8, u16)
    requires { length nodes.now ≤ 64 }
    ensures { result ≡ end_at (map view nodes.now) key.now (table_view link.now) }
{
    match text_at(key, link) {
        Some(text) => match end_in(nodes, text) {
            Some((node, port)) => (node as u8, port),
            None => (0, 0),
        },
        None => (0, 0),
    }
}

// `wr`, which is true if it is missing.
fn wr_in(link: &Table) -> bool
    ensures { result ≡ wr_in (table_view link.now) }
{
    match value_at(link, "wr") {
        Some(value) => value.as_bool().unwrap_or(true),
        None => true,
    }
}

// The fibre of a name; without asymmetry and error if it is not listed.
fn fibre_of(lists: &Lists, name: &str) -> Fibre
    ensures { result ≡ fibre_of lists.now name.now }
{
    match lists.fibre(name) {
        Some(fibre) => fibre,
        None => Fibre { kappa: 0, err: 0 },
    }
}

fn error_of(delays: Option<Module>) -> u64
    ensures { result ≡ error_of delays }
{
    match delays {
        Some(delays) => delays.err,
        None => 0,
    }
}

// The greater error of a module at the two ends of a link.
fn error_at_ends(down: u16, up: u16, module: &ListedModule) -> u64
    ensures { result ≡ error_at_ends down up «module».now }
{
    error_of(module.at(down, up)).max(error_of(module.at(up, down)))
}

// The greatest error of a module at the two ends of a link.
fn greatest_error(down: u16, up: u16, modules: &[ListedModule]) -> u64
    ensures { result ≡ greatest (map (error_at_ends down up) modules.now) }
{
    let mut greatest = 0;
    for listed in modules {
        greatest = greatest.max(error_at_ends(down, up, listed));
    }
    greatest
}

// The error of the law of a fibre.
fn law_error(lists: &Lists, fibre: &str) -> u64
    ensures { result ≡ law_error (table_at lists.now fibre.now) }
{
    match lists.table(fibre) {
        Some((_points, err)) => err + 1,
        None => 1,
    }
}

// A link.
fn link_of(nodes: &[Value], lists: &Lists, link: &Table) -> LinkCfg
    requires { length nodes.now ≤ 64 }
    ensures { bare_link result ≡ link_of (map view nodes.now) lists.now (table_view link.now) }
{
    let (upper, upper_port) = end_at(nodes, "upper", link);
    let (lower, lower_port) = end_at(nodes, "lower", link);
    let fibre = name_of("fibre", link);
    let Fibre { kappa, err } = fibre_of(lists, fibre.as_str());
    let law_err = law_error(lists, fibre.as_str());
    let down_nm = down_in(link);
    let up_nm = up_in(link);
    LinkCfg {
        name: name_at(link),
        upper,
        upper_port,
        lower,
        lower_port,
        wr: wr_in(link),
        upper_module: name_of("upper_module", link),
        lower_module: name_of("lower_module", link),
        fibre,
        kappa,
        e_asym: err,
        down_nm,
        up_nm,
        e_db: greatest_error(down_nm, up_nm, lists.modules()),
        law_err,
    }
}

/// The links of a text, at most 63, between at most 64 nodes.
pub fn links_of(nodes: &[Value], lists: &Lists, links: &[Value]) -> ArrayVec<LinkCfg, 63>
    requires nodes { length nodes.now ≤ 64 }
    requires links { length links.now ≤ 63 }
    ensures { map bare_link result.items
        ≡ each_table (link_of (map view nodes.now) lists.now) (map view links.now) }
{
    let mut all = ArrayVec::new();
    for value in links {
        if let Some(link) = value.as_table() {
            all.push(link_of(nodes, lists, link));
        }
    }
    all
}
