//! What a network's tree says of a node and of its link upwards.
ghost use Rattle.std.specs.Prelude.{◌≡◌, ℕ, ◌^◌, ◌<◌, ◌≤◌, Some, IfSome, slice_get};
ghost use Rattle.std.specs.Option.{option_map, is_some};
ghost use Rattle.wrp_network.specs.Network as network;
ghost use Rattle.wrp_network.specs.Network.{HasRanges, IsTree, HasNodeRanges, IsNode, node_count};
ghost use Rattle.wrp_bounds.specs.Hop.{IsInRange, EndIsInRange};
ghost use Rattle.wrp_bounds.specs.Bounds as spec;
ghost use Rattle.wrp_bounds.specs.Bounds.{IsPlaced};

use crate::motion::motion;
use crate::numbers::{HopNumbers, NodeNumbers};
use crate::times::{age_time, count, gap_time, held_time, reach};
use wrp_network::{LinkCfg, NetCfg, NodeCfg, link_above};

/// The link above a node, which is one of the network's and has its place in it. `None` if the node has no link
/// above it, as the root.
pub fn placed_above<'a>(cfg: &'a NetCfg, n: u8) -> Option<&'a LinkCfg>
    requires ranges { HasRanges cfg.now }
    requires tree { IsTree cfg.now }
    ensures value { option_map (λ link. link.now) result ≡ network.link_above cfg.now n }
    ensures placed { IfSome result (λ link. IsPlaced cfg.now link.now) }
{
    link_above(cfg, n)
}

// A node.
fn node_at<'a>(cfg: &'a NetCfg, n: u8) -> &'a NodeCfg
    requires ranges { HasRanges cfg.now }
    requires node { n < node_count cfg.now }
    ensures value { slice_get cfg.now.nodes.items n ≡ Some result.now }
    ensures ranges { HasNodeRanges cfg.now.clock result.now }
{
    &cfg.nodes[usize::from(n)]
}

// What a node brings to the bound of a hop.
fn end_of(cfg: &NetCfg, n: u8, node: &NodeCfg) -> NodeNumbers
    requires ranges { HasRanges cfg.now }
    requires tree { IsTree cfg.now }
    requires node { HasNodeRanges cfg.now.clock node.now }
    ensures value { result ≡ spec.end_of cfg.now n node.now }
    ensures ranges { EndIsInRange result }
{
    let rate = if link_above(cfg, n).is_some() {
        node.slew.max(node.held)
    } else {
        0
    };
    NodeNumbers {
        e_tx: node.e_tx,
        e_tag: node.e_tag,
        rate,
    }
}

/// What the bound of the hop over a link is made of.
pub fn numbers_over(cfg: &NetCfg, link: &LinkCfg) -> HopNumbers
    requires ranges { HasRanges cfg.now }
    requires tree { IsTree cfg.now }
    requires placed { IsPlaced cfg.now link.now }
    ensures value { spec.numbers_over cfg.now link.now ≡ Some result }
    ensures ranges { IsInRange result }
{
    let own = node_at(cfg, link.lower);
    let parent = node_at(cfg, link.upper);
    HopNumbers {
        clock: cfg.clock,
        track_tau: count(cfg.track_tau),
        loop_tau: count(cfg.loop_tau),
        own: end_of(cfg, link.lower, own),
        parent: end_of(cfg, link.upper, parent),
        beat: own.beat,
        kappa: link.kappa,
        e_db: link.e_db,
        e_asym: link.e_asym,
        law_err: link.law_err,
        gap_time: gap_time(cfg),
        age_time: age_time(cfg),
        reach: reach(cfg),
    }
}

/// How far a node may move in HOLDOVER, in tau.
#[tactic(auto, unfolding(crate::specs::Bounds::held_motion))]
pub fn held_motion(cfg: &NetCfg, n: u8) -> u128
    requires ranges { HasRanges cfg.now }
    requires tree { IsTree cfg.now }
    requires node { n < node_count cfg.now }
    ensures value { result ≡ spec.held_motion cfg.now n }
    ensures size { result ≤ 2 ^ 72 }
{
    match placed_above(cfg, n) {
        Some(_) => motion(u128::from(node_at(cfg, n).held), held_time(cfg)),
        None => 0,
    }
}
