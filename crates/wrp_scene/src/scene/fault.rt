//! The faults of a scenario.
use wrp_base::Tau;

/// What a fault does.
#[derive(Clone, Copy, Debug, PartialEq, Eq)]
pub enum FaultKind {
    /// A node goes down.
    Down {
        /// The node.
        node: u8,
    },
    /// A node comes up, with the scenario's offset.
    Up {
        /// The node.
        node: u8,
    },
    /// A link is cut.
    Cut {
        /// The link.
        link: u8,
    },
    /// A link is joined, with the scenario's delays.
    Join {
        /// The link.
        link: u8,
    },
}

impl Default for FaultKind {
    fn default() -> FaultKind {
        FaultKind::Down { node: 0 }
    }
}

/// A fault of a scenario: it happens once its time has come, if it applies then.
#[derive(Clone, Copy, Debug, Default, PartialEq, Eq)]
pub struct Fault {
    /// How long after the start, in tau: 0 to `10^7` ms, whole ms.
    pub at: Tau,
    /// What it does.
    pub kind: FaultKind,
}
