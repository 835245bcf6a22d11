//! Names of nodes and links, as octets of a line.
ghost use Rattle.std.specs.Prelude.{◌≡◌, ◌<◌, IfSome, length};
ghost use Rattle.std.specs.List.{position};
ghost use Rattle.wrp_network.specs.Network.{node_count};
ghost use Rattle.wrp_caldb.specs.Name.{same_name};
ghost use Rattle.wrp_config.specs.Names.{node_named, link_named};

use wrp_network::{LinkCfg, NetCfg, NodeCfg};

// Whether a node has a name.
fn is_node_named(node: &NodeCfg, name: &[u8]) -> bool
    ensures { result ≡ same_name node.now.name.bytes name.now }
{
    node.name.as_str().as_bytes() == name
}

fn node_place(nodes: &[NodeCfg], name: &[u8]) -> Option<usize>
    ensures value { result ≡ position (λ node. same_name node.name.bytes name.now) nodes.now }
    ensures within { IfSome result (λ n. n < length nodes.now) }
{
    nodes.iter().position(|node| is_node_named(node, name))
}

/// The node with a name, by its place from 0 in file order. None if and only if no node has that
/// name.
pub fn node_named(cfg: &NetCfg, name: &[u8]) -> Option<u8>
    ensures value { result ≡ node_named cfg.now name.now }
    ensures within { IfSome result (λ n. n < node_count cfg.now) }
{
    match node_place(&cfg.nodes, name) {
        Some(n) => Some(n as u8),
        None => None,
    }
}

// Whether a link has a name.
fn is_link_named(link: &LinkCfg, name: &[u8]) -> bool
    ensures { result ≡ same_name link.now.name.bytes name.now }
{
    link.name.as_str().as_bytes() == name
}

fn link_place(links: &[LinkCfg], name: &[u8]) -> Option<usize>
    ensures value { result ≡ position (λ link. same_name link.name.bytes name.now) links.now }
    ensures within { IfSome result (λ l. l < length links.now) }
{
    links.iter().position(|link| is_link_named(link, name))
}

/// The link with a name, by its place from 0 in file order. None if and only if no link has that
/// name.
pub fn link_named(cfg: &NetCfg, name: &[u8]) -> Option<u8>
    ensures value { result ≡ link_named cfg.now name.now }
    ensures within { IfSome result (λ l. l < length cfg.now.links.items) }
{
    match link_place(&cfg.links, name) {
        Some(l) => Some(l as u8),
        None => None,
    }
}
