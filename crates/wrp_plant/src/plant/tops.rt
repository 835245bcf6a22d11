//! Which node is the grandmaster, and which node's link above is at the node's own place.
ghost use Rattle.std.specs.Prelude.{◌≡◌, ◌==◌, ◌≤◌, ◌-◌, not, nat_le, true, false, length, slice_get};
ghost use Rattle.std.specs.Option.{is_some, option_map_or};
ghost use Rattle.wrp_network.specs.Network.{IsGrandmaster, IsTree, link_above as link_over};
ghost use Rattle.wrp_plant.specs.Plant.{FitsPlant, PlantIs};
ghost use Rattle.wrp_course.specs.Setting.{Setting};
ghost use Rattle.wrp_course.specs.WorldAt.{WorldAt};

use super::Plant;
use wrp_network::{NetCfg, link_above};

// Whether the link with this number is above a node.
fn is_above(cfg: &NetCfg, k: usize, n: u8) -> bool
    ensures { result ≡ option_map_or (λ link. link.lower == n) (slice_get cfg.now.links.items k) false }
{
    match cfg.links.get(k) {
        Some(link) => link.lower == n,
        None => false,
    }
}

/// Whether the link above a node has the number just below the node's own. This is true of every node but the
/// grandmaster if links are in the order of their lower nodes and the first node is the grandmaster.
pub fn has_own_link(cfg: &NetCfg, n: u8) -> bool
    ensures above { result ≡ true → is_some (link_over cfg.now n) ≡ true }
    ensures some { result ≡ true → 1 ≤ n }
    ensures place { result ≡ true → option_map_or (λ link. link.lower == n)
        (slice_get cfg.now.links.items (n - 1)) false ≡ true }
{
    if n == 0 {
        return false;
    }
    is_above(cfg, usize::from(n) - 1, n)
}

// Whether no link is above a node. All links are searched.
fn has_none_above(cfg: &NetCfg, n: u8) -> bool
    ensures { result ≡ not (is_some (link_over cfg.now n)) }
{
    link_above(cfg, n).is_none()
}

/// The grandmaster of a network: the node with no link above it.
pub fn top_of(cfg: &NetCfg) -> u8
    requires { IsTree cfg.now }
    ensures { IsGrandmaster cfg.now result }
{
    let count = cfg.nodes.len() as u8;
    for n in 0..count {
        if has_none_above(cfg, n) {
            return n;
        }
    }
    unreachable!()
}

impl Plant {
    // Whether no node has this number.
    fn is_past(&self, n: u8) -> bool
        ensures { result ≡ nat_le (length self.now.net.cfg.nodes.items) n }
    {
        self.net.cfg.nodes.len() <= usize::from(n)
    }

    /// Whether no link is above a node: then it is the grandmaster. The grandmaster's number is known, so no link is
    /// looked at. For a number that no node has, the answer is true.
    pub fn is_top(&self, n: u8) -> bool
        requires { FitsPlant self.now }
        ensures { (s : Setting) (w : WorldAt) → PlantIs s w self.now
            → result ≡ not (is_some (link_over s.cfg n)) }
    {
        if n == self.top { true } else { self.is_past(n) }
    }
}
