//! The true clocks of a world.
use wrp_base::Tau;

/// A node's clock at a moment.
#[derive(Clone, Copy, Debug, PartialEq, Eq)]
pub struct ClockState {
    /// Whether the node is up.
    pub up: bool,
    /// The clock's reading minus true time, in tau.
    pub off: Tau,
    /// The true time of the node's last tick, or of its coming up if no tick came since.
    pub ticked: Tau,
    /// The samples since the node came up.
    pub samples: u32,
}
