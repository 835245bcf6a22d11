//! A node of a network that is replayed.
use wrp_config::Network;

/// A node of a network.
#[derive(Clone, Copy, Debug)]
pub struct Replayed<'a> {
    /// The network.
    pub net: &'a Network,
    /// The node's place from 0 in file order.
    pub node: u8,
}
