//! The network that a file describes, and what its names find.
ghost use Rattle.std.specs.Prelude.{◌≡◌, ◌<◌, length, option_map, IfSome};
ghost use Rattle.std.specs.List.{find, position};
ghost use Rattle.wrp_caldb.specs.Name.{same_name};
ghost use Rattle.wrp_config.specs.Names as spec;
ghost use Rattle.wrp_config.specs.Names.{has_port, is_lower_end, is_upper_end, pair_at, pair_of, listed_at};

use wrp_base::Module;
use wrp_caldb::CalDb;
use wrp_network::{LinkCfg, NetCfg, NodeCfg};

/// A network: its numbers, nodes and links, and the calibration database of its modules and fibres.
#[derive(Debug, Drop)]
pub struct Network {
    /// The numbers, the nodes and the links.
    pub cfg: NetCfg,
    /// The modules and the fibres.
    pub db: CalDb,
}

impl Network {
    /// The node of a name, by its place from 0 in file order. `None` if and only if no node has it.
    pub fn node_named(&self, name: &str) -> Option<u8>
        ensures { result ≡ spec.node_named self.now.cfg name.now }
    {
        match node_place(&self.cfg.nodes, name) {
            Some(n) => Some(n as u8),
            None => None,
        }
    }

    /// The link of a name, by its place from 0 in file order. `None` if and only if no link has it.
    pub fn link_named(&self, name: &str) -> Option<u8>
        ensures { result ≡ spec.link_named self.now.cfg name.now }
    {
        match link_place(&self.cfg.links, name) {
            Some(l) => Some(l as u8),
            None => None,
        }
    }

    /// The numbers of a module at a port of a node: its entry for the wavelengths that the port sends
    /// and receives, else its entry of any pair. `None` if and only if no link has that port, or the
    /// module has no such entry.
    pub fn module_at_port(&self, node: u8, port: u16, name: &str) -> Option<Module>
        ensures { result ≡ listed_at self.now.cfg self.now.db node port name.now }
    {
        match pair_at(&self.cfg, node, port) {
            Some((tx_nm, rx_nm)) => self.db.module_at(name, tx_nm, rx_nm),
            None => None,
        }
    }

    /// The points of the stored law of a link's fibre, each a two-way delay and a one-way delay down,
    /// in tau. `None` if and only if the fibre has no table. The link is one of the network's.
    pub fn table_of(&self, link: u8) -> Option<&[(i64, i64)]>
        requires { link < length self.now.cfg.links.items }
        ensures { option_map (λ points. points.now) result
            ≡ spec.table_of self.now.cfg self.now.db link }
    {
        match self
            .db
            .table(self.cfg.links[usize::from(link)].fibre.as_str())
        {
            Some((points, _err)) => Some(points),
            None => None,
        }
    }
}

// Whether a node has a name.
fn is_node_named(node: &NodeCfg, name: &str) -> bool
    ensures { result ≡ same_name node.now.name.bytes name.now }
{
    node.name.as_str() == name
}

fn node_place(nodes: &[NodeCfg], name: &str) -> Option<usize>
    ensures value { result ≡ position (λ node. same_name node.name.bytes name.now) nodes.now }
    ensures within { IfSome result (λ n. n < length nodes.now) }
{
    nodes.iter().position(|node| is_node_named(node, name))
}

// Whether a link has a name.
fn is_link_named(link: &LinkCfg, name: &str) -> bool
    ensures { result ≡ same_name link.now.name.bytes name.now }
{
    link.name.as_str() == name
}

fn link_place(links: &[LinkCfg], name: &str) -> Option<usize>
    ensures value { result ≡ position (λ link. same_name link.name.bytes name.now) links.now }
    ensures within { IfSome result (λ l. l < length links.now) }
{
    links.iter().position(|link| is_link_named(link, name))
}

/// Whether this port of this node is the upper end of a link.
pub fn is_upper_end(link: &LinkCfg, node: u8, port: u16) -> bool
    ensures { result ≡ is_upper_end node port link.now }
{
    link.upper == node && link.upper_port == port
}

/// Whether this port of this node is the lower end of a link.
pub fn is_lower_end(link: &LinkCfg, node: u8, port: u16) -> bool
    ensures { result ≡ is_lower_end node port link.now }
{
    link.lower == node && link.lower_port == port
}

fn has_port(link: &LinkCfg, node: u8, port: u16) -> bool
    ensures { result ≡ has_port node port link.now }
{
    is_upper_end(link, node, port) || is_lower_end(link, node, port)
}

// The first link that has a port of a node.
fn link_at<'a>(cfg: &'a NetCfg, node: u8, port: u16) -> Option<&'a LinkCfg>
    ensures { option_map (λ link. link.now) result ≡ spec.link_at cfg.now node port }
{
    cfg.links.iter().find(|link| has_port(link, node, port))
}

/// The wavelengths that a port of a node sends and receives, in nm. `None` if and only if no link has
/// that port.
pub fn pair_at(cfg: &NetCfg, node: u8, port: u16) -> Option<(u16, u16)>
    ensures { result ≡ pair_at cfg.now node port }
{
    match link_at(cfg, node, port) {
        Some(link) => Some(pair_of(link, node, port)),
        None => None,
    }
}

// The wavelengths that a port at an end of a link sends and receives, in nm.
fn pair_of(link: &LinkCfg, node: u8, port: u16) -> (u16, u16)
    ensures { result ≡ pair_of node port link.now }
{
    if is_upper_end(link, node, port) {
        (link.down_nm, link.up_nm)
    } else {
        (link.up_nm, link.down_nm)
    }
}
