//! Whether the links of a network make one tree, at most 8 links deep.
ghost use Rattle.std.specs.Prelude.{◌≡◌, ◌+◌, ◌≤◌, IfSome, option_map};
ghost use Rattle.wrp_network_text.specs.Tree.{is_root, some_below, depth_within, depth_of, stands_apart, has_two_parents, is_over_8, is_too_deep, has_fault, IsFirst, IsRefusal, number_of};

use wrp_network::{NetCfg, link_above};

/// Why the links make no such tree, by the number that a refusal's line has.
#[derive(Clone, Copy)]
pub enum TreeFault {
    /// A node has no parent and is not the first such node, or the walk up from it does not end.
    NotATree = 7,
    /// A node is the lower end of two links.
    TwoSlaves = 8,
    /// A node is more than 8 links below the grandmaster.
    TooDeep = 9,
}

impl TreeFault {
    /// The fault's number.
    pub fn number(self) -> u8
        ensures { result ≡ number_of self }
    {
        self as u8
    }
}

// Whether no link is above a node.
fn is_root(cfg: &NetCfg, n: u8) -> bool
    ensures { result ≡ is_root cfg.now n }
{
    link_above(cfg, n).is_none()
}

// Whether no link is above one of the nodes before this one.
fn has_root_below(cfg: &NetCfg, n: u8) -> bool
    ensures { result ≡ some_below (is_root cfg.now) n }
{
    let mut found = false;
    for m in 0..n {
        found = found || is_root(cfg, m);
    }
    found
}

// How many links the walk from a node up its parents takes, at most this many.
fn depth_within(most: u8, cfg: &NetCfg, n: u8) -> Option<u8>
    requires { most ≤ 64 }
    ensures value { result ≡ depth_within most cfg.now n }
    ensures size { IfSome result (λ depth. depth ≤ most) }
{
    match link_above(cfg, n) {
        None => Some(0),
        Some(link) => {
            if most == 0 {
                None
            } else {
                one_more(depth_within(most - 1, cfg, link.upper))
            }
        }
    }
}

fn one_more(depth: Option<u8>) -> Option<u8>
    requires { IfSome depth (λ d. d ≤ 64) }
    ensures { result ≡ option_map (λ d. d + 1) depth }
{
    match depth {
        Some(depth) => Some(depth + 1),
        None => None,
    }
}

// How many links the walk from a node up its parents takes; `None` if it does not end.
fn depth_of(cfg: &NetCfg, n: u8) -> Option<u8>
    ensures { result ≡ depth_of cfg.now n }
{
    depth_within(64, cfg, n)
}

// Whether a node has no parent and is not the first such node, or the walk from it does not end.
fn stands_apart(cfg: &NetCfg, n: u8) -> bool
    ensures { result ≡ stands_apart cfg.now n }
{
    (is_root(cfg, n) && has_root_below(cfg, n)) || depth_of(cfg, n).is_none()
}

// Whether a node is the lower end of two links.
fn has_two_parents(cfg: &NetCfg, n: u8) -> bool
    ensures { result ≡ has_two_parents cfg.now n }
{
    cfg.links.iter().filter(|link| link.lower == n).count() > 1
}

fn is_over_8(depth: Option<u8>) -> bool
    ensures { result ≡ is_over_8 depth }
{
    match depth {
        Some(depth) => depth > 8,
        None => false,
    }
}

// Whether a node is more than 8 links below the grandmaster.
fn is_too_deep(cfg: &NetCfg, n: u8) -> bool
    ensures { result ≡ is_too_deep cfg.now n }
{
    is_over_8(depth_of(cfg, n))
}

// Whether a node has a fault.
fn has_fault(cfg: &NetCfg, fault: TreeFault, n: u8) -> bool
    ensures { result ≡ has_fault cfg.now fault n }
{
    match fault {
        TreeFault::NotATree => stands_apart(cfg, n),
        TreeFault::TwoSlaves => has_two_parents(cfg, n),
        TreeFault::TooDeep => is_too_deep(cfg, n),
    }
}

// The first node that has a fault.
fn first_node(cfg: &NetCfg, fault: TreeFault) -> Option<u8>
    ensures { IsFirst cfg.now fault result }
{
    for n in 0..cfg.nodes.len() {
        if has_fault(cfg, fault, n as u8) {
            return Some(n as u8);
        }
    }
    None
}

/// Why the links make no tree: the least fault that a node has, and the first such node.
pub fn refusal(cfg: &NetCfg) -> Option<(TreeFault, u8)>
    ensures { IsRefusal cfg.now result }
{
    if let Some(n) = first_node(cfg, TreeFault::NotATree) {
        return Some((TreeFault::NotATree, n));
    }
    if let Some(n) = first_node(cfg, TreeFault::TwoSlaves) {
        return Some((TreeFault::TwoSlaves, n));
    }
    match first_node(cfg, TreeFault::TooDeep) {
        Some(n) => Some((TreeFault::TooDeep, n)),
        None => None,
    }
}
