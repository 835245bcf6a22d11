//! The nodes of a network: how many, and their names.
ghost use Rattle.std.specs.Prelude.{◌≡◌, ◌<◌};
ghost use Rattle.wrp_network.specs.Network.{name_at, node_count};

use wrp_config::Network;

/// How many nodes a network has.
pub fn count_of(net: &Network) -> u8
    ensures { result ≡ node_count net.now.cfg }
{
    net.cfg.nodes.len() as u8
}

/// The name of a node.
pub fn name_of(net: &Network, node: u8) -> &str
    requires { node < node_count net.now.cfg }
    ensures { result.now ≡ name_at net.now.cfg node }
{
    net.cfg.nodes[usize::from(node)].name.as_str()
}
