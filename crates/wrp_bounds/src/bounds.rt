//! The bounds of a node: of its hop, in TRACK, and in HOLDOVER.
ghost use Rattle.std.specs.Prelude.{◌≡◌, pos, ◌+◌, ◌^◌, ◌<◌, ◌≤◌, ◌≤ℤ◌, ◌<ℤ◌, IsSome};
ghost use Rattle.wrp_network.specs.Network as network;
ghost use Rattle.wrp_network.specs.Network.{HasRanges, IsTree, node_count};
ghost use Rattle.wrp_bounds.specs.Bounds as spec;
ghost use Rattle.wrp_bounds.specs.Bounds.{IsPlaced, hop_of, path_of, holdover_of};

use crate::network::{held_motion, numbers_over, placed_above};
use wrp_base::Tau;
use wrp_network::{LinkCfg, NetCfg};

/// The most links from a node up to the grandmaster.
const MOST_LINKS: u32 = 8;

/// How far a node in TRACK may be from its parent, in tau. The node has a parent.
pub fn hop(cfg: &NetCfg, n: u8) -> Tau
    requires ranges { HasRanges cfg.now }
    requires tree { IsTree cfg.now }
    requires node { n < node_count cfg.now }
    requires slave { IsSome (network.link_above cfg.now n) }
    ensures value { result ≡ pos (hop_of cfg.now n) }
    ensures range { (pos 0 ≤ℤ result) × (result <ℤ pos (2 ^ 100)) }
{
    match placed_above(cfg, n) {
        Some(link) => hop_over(cfg, link) as i128,
        None => 0,
    }
}

/// How far a node in TRACK may be from the grandmaster, in tau: its hop and the bound in HOLDOVER
/// of its parent, and 0 of the grandmaster.
pub fn path(cfg: &NetCfg, n: u8) -> Tau
    requires ranges { HasRanges cfg.now }
    requires tree { IsTree cfg.now }
    requires node { n < node_count cfg.now }
    ensures value { result ≡ pos (path_of cfg.now n) }
    ensures range { (pos 0 ≤ℤ result) × (result <ℤ pos (2 ^ 100)) }
{
    path_sum(cfg, n) as i128
}

/// How far a node in HOLDOVER may be from the grandmaster, in tau: its bound in TRACK, and how far it
/// moves in the longest HOLDOVER. 0 for the grandmaster.
pub fn holdover(cfg: &NetCfg, n: u8) -> Tau
    requires ranges { HasRanges cfg.now }
    requires tree { IsTree cfg.now }
    requires node { n < node_count cfg.now }
    ensures value { result ≡ pos (holdover_of cfg.now n) }
    ensures range { (pos 0 ≤ℤ result) × (result <ℤ pos (2 ^ 100)) }
{
    (path_sum(cfg, n) + held_motion(cfg, n)) as i128
}

// The bound of the hop over a link.
fn hop_over(cfg: &NetCfg, link: &LinkCfg) -> u128
    requires ranges { HasRanges cfg.now }
    requires tree { IsTree cfg.now }
    requires placed { IsPlaced cfg.now link.now }
    ensures value { result ≡ spec.hop_over cfg.now link.now }
    ensures size { result ≤ 2 ^ 79 }
{
    numbers_over(cfg, link).hop()
}

// The sum over the links from a node up to the grandmaster.
fn path_sum(cfg: &NetCfg, n: u8) -> u128
    requires ranges { HasRanges cfg.now }
    requires tree { IsTree cfg.now }
    requires node { n < node_count cfg.now }
    ensures value { result ≡ path_of cfg.now n }
    ensures size { result ≤ 2 ^ 83 }
{
    let mut sum = 0;
    let mut at = n;
    for passed in 0..MOST_LINKS {
        match placed_above(cfg, at) {
            None => return sum,
            Some(link) => {
                sum += hop_over(cfg, link) + held_motion(cfg, link.upper);
                at = link.upper;
            }
        }
    }
    sum
}
