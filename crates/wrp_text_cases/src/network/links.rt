//! What is printed of a link: `link` is its place; then its numbers, by the names that `LinkCfg` has for them.
ghost use Rattle.std.specs.Prelude.{◌<◌, length};

use crate::telling::{push_none, push_points};
use std::alloc::AllocError;
use wrp_config::Network;
use wrp_network::LinkCfg;

// A number of a link.
fn given_number_of(link: &LinkCfg, key: &str) -> Option<i128> {
    match key {
        "kappa" => Some(i128::from(link.kappa)),
        "e_asym" => Some(i128::from(link.e_asym)),
        "law_err" => Some(i128::from(link.law_err)),
        "e_db" => Some(i128::from(link.e_db)),
        "upper_port" => Some(i128::from(link.upper_port)),
        "lower_port" => Some(i128::from(link.lower_port)),
        "down_nm" => Some(i128::from(link.down_nm)),
        "up_nm" => Some(i128::from(link.up_nm)),
        _ => None,
    }
}

/// The number of a key.
pub fn number_of(net: &Network, l: u8, key: &str) -> Option<i128> {
    if key == "link" {
        return Some(i128::from(l));
    }
    match net.cfg.links.as_slice().get(usize::from(l)) {
        Some(link) => given_number_of(link, key),
        None => None,
    }
}

// The points of the stored law of a link.
fn table_of<'a>(net: &'a Network, name: &str) -> Option<&'a [(i64, i64)]> {
    let l = net.link_named(name)?;
    if usize::from(l) < net.cfg.links.len() {
        net.table_of(l)
    } else {
        None
    }
}

/// Appends the line of the points of the stored law of a link.
pub fn tell_table(
    text: &mut String,
    net: &Network,
    word: &str,
    name: &str,
) -> Result<(), AllocError> {
    let Some(points) = table_of(net, name) else {
        return push_none(text, word);
    };
    text.push_str(word)?;
    push_points(text, points)
}

// Appends the places of the nodes at the ends of a link, and their ports.
fn push_ends(text: &mut String, link: &LinkCfg) -> Result<(), AllocError> {
    let (upper, upper_port) = (link.upper, link.upper_port);
    let (lower, lower_port) = (link.lower, link.lower_port);
    write!(
        text,
        " upper {upper} upper_port {upper_port} lower {lower} lower_port {lower_port}"
    )
}

// Appends the names of what a link is made of, and whether it may leave plain PTP.
fn push_parts(text: &mut String, link: &LinkCfg) -> Result<(), AllocError> {
    let (fibre, wr) = (link.fibre.as_str(), link.wr);
    let (upper, lower) = (link.upper_module.as_str(), link.lower_module.as_str());
    write!(
        text,
        " fibre {fibre} upper_module {upper} lower_module {lower} wr {wr}"
    )
}

// Appends the other numbers of a link, and the end of the line.
fn push_numbers(text: &mut String, link: &LinkCfg) -> Result<(), AllocError> {
    let (down_nm, up_nm) = (link.down_nm, link.up_nm);
    let (kappa, e_asym) = (link.kappa, link.e_asym);
    let (law_err, e_db) = (link.law_err, link.e_db);
    write!(
        text,
        " down_nm {down_nm} up_nm {up_nm} \
         kappa {kappa} e_asym {e_asym} law_err {law_err} e_db {e_db}\n"
    )
}

// Appends the line of a link, with its place.
fn tell_link(text: &mut String, l: u8, link: &LinkCfg) -> Result<(), AllocError> {
    let name = link.name.as_str();
    write!(text, "{name} link {l}")?;
    push_ends(text, link)?;
    push_parts(text, link)?;
    push_numbers(text, link)
}

/// Appends the line of all that is kept of a link.
pub fn tell(text: &mut String, net: &Network, l: u8) -> Result<(), AllocError> {
    match net.cfg.links.as_slice().get(usize::from(l)) {
        Some(link) => tell_link(text, l, link),
        None => Ok(()),
    }
}
