//! The nodes and the links of a network, as its file names them.
use arrayvec::{ArrayString, ArrayVec};

/// A name: a letter `a` to `z`, then letters `a` to `z`, digits and `_`; at most 16 octets.
pub type Name = ArrayString<16>;

/// The nodes of a network, in file order.
pub type Nodes = ArrayVec<NodeCfg, 64>;

/// The links of a network, in file order.
pub type Links = ArrayVec<LinkCfg, 63>;

/// One node.
#[derive(Debug, Default, Drop, PartialEq, Eq)]
pub struct NodeCfg {
    /// `name`.
    pub name: Name,
    /// `identity`, the clockIdentity.
    pub identity: u64,
    /// `e_tx`, the bound on a send stamp's error, in tau: 1,000 to `10^9`.
    pub e_tx: u64,
    /// `e_tag`, the bound on a tag's error, in tau: 32,000 to 65,535,999, and from 64,000 on at
    /// 62.5 MHz.
    pub e_tag: u64,
    /// `beat`, how far from the edge the beat bits may flicker, in detector steps: 0 to 24.
    pub beat: u16,
    /// `slew`, the greatest rate of the clock when it is locked, in `10^-12`: 0 to `10^9`.
    pub slew: u64,
    /// `held`, the greatest rate of the clock in HOLDOVER, in `10^-12`: 0 to `10^9`.
    pub held: u64,
}

/// One link.
#[derive(Debug, Default, Drop, PartialEq, Eq)]
pub struct LinkCfg {
    /// `name`.
    pub name: Name,
    /// The place of the upper node, from 0 in file order.
    pub upper: u8,
    /// The port of the upper node: 1 to 18.
    pub upper_port: u16,
    /// The place of the lower node, from 0 in file order.
    pub lower: u8,
    /// The port of the lower node: 1 to 18.
    pub lower_port: u16,
    /// `wr`, whether the link may leave plain PTP.
    pub wr: bool,
    /// `upper_module`, the module's name.
    pub upper_module: Name,
    /// `lower_module`, the module's name.
    pub lower_module: Name,
    /// `fibre`, the fibre's name.
    pub fibre: Name,
    /// The fibre's asymmetry: the way down takes `(2^39 + kappa) / 2^40` of both ways. From `-2^38`
    /// to `2^38`.
    pub kappa: i64,
    /// The fibre's `err`, in tau: 1 to `10^9`.
    pub e_asym: u64,
    /// The wavelength of the way down, in nm: 0 for any, or 800 to 1700.
    pub down_nm: u16,
    /// The wavelength of the way up, in nm: 0 for any, or 800 to 1700.
    pub up_nm: u16,
    /// The greatest `err` of the modules at the link's ends, in tau: 0 to `10^9`.
    pub e_db: u64,
    /// The error of the link's stored delay law, in tau: 1 to `10^9 + 1`.
    pub law_err: u64,
}
