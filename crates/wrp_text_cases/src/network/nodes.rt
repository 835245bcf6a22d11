//! What is printed of a node: `node` is its place; then its numbers by their keys; its bounds in tau, `hop` from its
//! parent, `track` and `holdover` from the grandmaster; `held_motion`, how far it moves in HOLDOVER; and what its hop
//! is made of, by the names of `HopNumbers`.
ghost use Rattle.wrp_config.specs.Accepted.{IsAccepted};
ghost use Rattle.wrp_network.specs.Network.{HasRanges, IsTree, node_count};
ghost use Rattle.wrp_bounds.specs.Hop.{IsInRange};
ghost use Rattle.std.specs.Prelude.{◌<◌, length};

use std::alloc::AllocError;
use wrp_bounds::{HopNumbers, held_motion, holdover, hop, numbers_over, path, placed_above};
use wrp_config::Network;
use wrp_network::{NetCfg, NodeCfg};

// A number that the file gives.
fn given_number_of(node: &NodeCfg, key: &str) -> Option<i128> {
    match key {
        "e_tx" => Some(i128::from(node.e_tx)),
        "e_tag" => Some(i128::from(node.e_tag)),
        "beat" => Some(i128::from(node.beat)),
        "slew" => Some(i128::from(node.slew)),
        "held" => Some(i128::from(node.held)),
        _ => None,
    }
}

// A part of a hop.
fn part_of(numbers: &HopNumbers, key: &str) -> Option<u128>
    requires { IsInRange numbers.now }
{
    match key {
        "detector_error" => Some(numbers.detector_error()),
        "gap_motion" => Some(numbers.gap_motion()),
        "reach_motion" => Some(numbers.reach_motion()),
        "down_error" => Some(numbers.down_error()),
        "up_error" => Some(numbers.up_error()),
        "age_motion" => Some(numbers.age_motion()),
        "scaled_error" => Some(numbers.scaled_error()),
        _ => None,
    }
}

// What has to do with the link above the node.
fn hop_number_of(cfg: &NetCfg, n: u8, key: &str) -> Option<i128>
    requires ranges { HasRanges cfg.now }
    requires tree { IsTree cfg.now }
    requires node { n < node_count cfg.now }
{
    let link = placed_above(cfg, n)?;
    if key == "hop" {
        return Some(hop(cfg, n));
    }
    i128::try_from(part_of(&numbers_over(cfg, link), key)?).ok()
}

// What has to do with the whole network.
fn bound_of(cfg: &NetCfg, n: u8, key: &str) -> Option<i128>
    requires ranges { HasRanges cfg.now }
    requires tree { IsTree cfg.now }
    requires node { n < node_count cfg.now }
{
    match key {
        "node" => Some(i128::from(n)),
        "track" => Some(path(cfg, n)),
        "holdover" => Some(holdover(cfg, n)),
        "held_motion" => i128::try_from(held_motion(cfg, n)).ok(),
        _ => hop_number_of(cfg, n, key),
    }
}

/// The number of a key.
pub fn number_of(net: &Network, n: u8, key: &str) -> Option<i128>
    requires { IsAccepted net.now.cfg net.now.db }
{
    match net.cfg.nodes.as_slice().get(usize::from(n)) {
        Some(node) => given_number_of(node, key).or(bound_of(&net.cfg, n, key)),
        None => None,
    }
}

// Appends the line of a node, with its place.
fn tell_node(text: &mut String, n: u8, node: &NodeCfg) -> Result<(), AllocError> {
    let (name, identity) = (node.name.as_str(), node.identity);
    let (e_tx, e_tag) = (node.e_tx, node.e_tag);
    let (beat, slew, held) = (node.beat, node.slew, node.held);
    write!(
        text,
        "{name} node {n} identity {identity:016x} \
         e_tx {e_tx} e_tag {e_tag} beat {beat} slew {slew} held {held}\n"
    )
}

/// Appends the line of all that is kept of a node.
pub fn tell(text: &mut String, net: &Network, n: u8) -> Result<(), AllocError> {
    match net.cfg.nodes.as_slice().get(usize::from(n)) {
        Some(node) => tell_node(text, n, node),
        None => Ok(()),
    }
}
