//! Cases on `Network::read`, whose input is a network file. If it is accepted, a line is expected for each word:
//!
//!     network.KEY         a number of `[network]`, as the file has it (`settings` says more of them)
//!     NODE.KEY            a number or a bound of a node (`nodes`)
//!     LINK.KEY            a number of a link (`links`)
//!     LINK.table          the points of the stored law of its fibre
//!     NODE:PORT:MODULE    the numbers of a module at a port
//!     NODE or LINK        all that is kept of it, in one line
//!
//! `none` is printed if there is no such thing. If the file is refused, the code of the fault and a line with its place
//! are expected.
ghost use Rattle.wrp_config.specs.Accepted.{IsAccepted};

mod links;
mod nodes;
mod settings;

use crate::modules::push_module;
use crate::refusal::answer_of;
use crate::telling::push_none;
use crate::words::natural;
use std::alloc::{AllocError, Global};
use wrp_config::Network;
use wrp_network_text::ReadNetwork;
use wrp_suite::{Answer, Case, Fault};

// A number that a name has under a key.
fn number_of(net: &Network, name: &str, key: &str) -> Option<i128>
    requires { IsAccepted net.now.cfg net.now.db }
{
    if name == "network" {
        return settings::number_of(&net.cfg, key);
    }
    match net.node_named(name) {
        Some(n) => nodes::number_of(net, n, key),
        None => links::number_of(net, net.link_named(name)?, key),
    }
}

// Appends the line of a key.
fn tell_key(
    text: &mut String,
    net: &Network,
    word: &str,
    name: &str,
    key: &str,
) -> Result<(), AllocError>
    requires { IsAccepted net.now.cfg net.now.db }
{
    if key == "table" {
        return links::tell_table(text, net, word, name);
    }
    match number_of(net, name, key) {
        Some(number) => write!(text, "{word} {number}\n"),
        None => push_none(text, word),
    }
}

// Appends the line of a module at a port, which follows the name of the node.
fn tell_port(
    text: &mut String,
    net: &Network,
    word: &str,
    name: &str,
    rest: &str,
) -> Result<(), AllocError> {
    let (port, module) = rest.split_once(':').unwrap_or((rest, ""));
    let found = match (net.node_named(name), natural(port, 0, 65_535)) {
        (Some(n), Ok(port)) => net.module_at_port(n, port as u16, module),
        _ => None,
    };
    push_module(text, word, found)
}

// Appends the line of all that is kept under a name.
fn tell_name(text: &mut String, net: &Network, name: &str) -> Result<(), AllocError> {
    if let Some(n) = net.node_named(name) {
        return nodes::tell(text, net, n);
    }
    match net.link_named(name) {
        Some(l) => links::tell(text, net, l),
        None => push_none(text, name),
    }
}

// Appends the line of a word.
fn tell(text: &mut String, net: &Network, word: &str) -> Result<(), AllocError>
    requires { IsAccepted net.now.cfg net.now.db }
{
    if let Some((name, key)) = word.split_once('.') {
        return tell_key(text, net, word, name, key);
    }
    match word.split_once(':') {
        Some((name, rest)) => tell_port(text, net, word, name, rest),
        None => tell_name(text, net, word),
    }
}

// Appends the lines of the words.
fn tell_all(text: &mut String, net: &Network, words: &[String]) -> Result<(), AllocError>
    requires { IsAccepted net.now.cfg net.now.db }
{
    for word in words {
        tell(text, net, word.as_str())?;
    }
    Ok(())
}

// What is printed of a network that was read.
fn answer_of_network(alloc: Global, net: &Network, words: &[String]) -> Result<Answer, Fault>
    requires { IsAccepted net.now.cfg net.now.db }
{
    let mut text = String::new(alloc);
    tell_all(&mut text, net, words)?;
    Ok(Answer::of(0, text))
}

/// What `Network::read` answers.
pub fn answer(alloc: Global, case: &Case) -> Result<Answer, Fault> {
    match Network::read(alloc, &case.input) {
        Ok(net) => answer_of_network(alloc, &net, &case.words),
        Err(fault) => answer_of(alloc, &fault),
    }
}
