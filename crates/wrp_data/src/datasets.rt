//! The datasets of a node and of its ports.
use wrp_base::{PortIdentity, Role};

/// What a node knows of itself and of its place in the network (the members of defaultDS, currentDS
/// and parentDS of IEEE 1588-2019 that do not change while a network runs).
#[derive(Clone, Copy, Debug, Default, PartialEq, Eq)]
pub struct DefaultDs {
    /// clockIdentity of the node.
    pub identity: u64,
    /// domainNumber.
    pub domain: u8,
    /// grandmasterIdentity: clockIdentity of the network's grandmaster.
    pub gm: u64,
    /// stepsRemoved: how many links away from the grandmaster the node is, 0 for the grandmaster.
    pub steps: u16,
}

/// What a port knows of itself and of the port at the other end of its link.
#[derive(Clone, Copy, Debug, Default, PartialEq, Eq)]
pub struct PortDs {
    /// portIdentity of the port.
    pub own: PortIdentity,
    /// portIdentity of its peer. Frames of any other source are dropped.
    pub peer: PortIdentity,
    /// Which end of the link the port is.
    pub role: Role,
    /// Whether the link takes part in White Rabbit at all.
    pub wr: bool,
}

/// What a port reports to its peer of its side of White Rabbit (members of the White Rabbit data
/// sets).
#[derive(Clone, Copy, Debug, Default, PartialEq, Eq)]
pub struct WrPortDs {
    /// calibrated: whether the calibration database lists the port's module.
    pub known: bool,
    /// wrModeOn: whether the port is in WR_LINK_ON.
    pub on: bool,
}
