//! What happens in a world.
use arrayvec::ArrayVec;
use wrp_base::{Frame, Raw, Tau};
use wrp_network::Name;

/// A module that is put in place at a port while its node is down.
#[derive(Debug, Default, Drop, PartialEq, Eq)]
pub struct Swap {
    /// The port.
    pub port: u16,
    /// The name that it has in the calibration database, if it is listed there.
    pub name: Name,
    /// Its true transmission delay, in tau: 0 to `10^12`.
    pub tx: u64,
    /// Its true reception delay, in tau: 0 to `10^12`.
    pub rx: u64,
}

/// One event of a world: the atomic step of a network.
#[derive(Debug, Drop, PartialEq, Eq)]
pub enum Event {
    /// True time passes.
    Pass {
        /// How much, in tau: at least 1.
        dt: i64,
        /// How far each node's clock moves away from true time meanwhile, in tau.
        drifts: ArrayVec<i64, 64>,
        /// How far the one-way delays of each link's fibre move, down and up, in tau.
        fibres: ArrayVec<(i64, i64), 63>,
    },
    /// A node's clock ticks.
    Tick {
        /// The node.
        node: u8,
    },
    /// A node's phase detector takes a sample.
    Sample {
        /// The node.
        node: u8,
        /// The tag at which its bits begin: below 16384.
        base: u16,
        /// 64 beat bits, the most significant first.
        bits: u64,
    },
    /// The oldest frame that waits at a port is put on the fibre.
    Depart {
        /// The node.
        node: u8,
        /// Its port.
        port: u16,
        /// The stamp of the sending, in tau: 0 to `2^92`, a multiple of 1000.
        stamp: Tau,
    },
    /// A frame reaches the other end of its fibre.
    Arrive {
        /// Its number, which it got as it departed.
        frame: u32,
        /// The raw stamp of its reception.
        raw: Raw,
    },
    /// A frame that arrived is handed to its receiver.
    Deliver {
        /// Its number.
        frame: u32,
    },
    /// Octets that the peer did not send are handed to a node.
    Noise {
        /// The node.
        node: u8,
        /// Its port.
        port: u16,
        /// The octets.
        bytes: Frame,
        /// The raw stamp of their reception.
        raw: Raw,
    },
    /// A node goes down, and with it the carriers of its links.
    Down {
        /// The node.
        node: u8,
    },
    /// A node comes up, possibly with other modules.
    Up {
        /// The node.
        node: u8,
        /// The offset of its clock from true time, in tau: within `2^90`, 0 at the grandmaster.
        off: Tau,
        /// The modules that were put in place, each port once.
        swaps: ArrayVec<Swap, 18>,
    },
    /// A link is cut.
    Cut {
        /// The link.
        link: u8,
    },
    /// A link is joined.
    Join {
        /// The link.
        link: u8,
        /// The one-way delay of its fibre down, in tau: 0 to `2^63 - 1`.
        ms: Tau,
        /// The one-way delay up.
        sm: Tau,
    },
}
