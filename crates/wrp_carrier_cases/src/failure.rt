//! Why a run failed.
use std::alloc::AllocError;
use std::fmt;
use wrp_base::Tau;
use wrp_check::Verdict;
use wrp_trial::{Lack, Told};

/// Why a run failed.
#[derive(Clone, Copy)]
pub enum Failure {
    /// There was no memory.
    Memory,
    /// There is no such network or scenario.
    Scenario,
    /// The run did not end.
    Endless,
    /// An event of the simulator was not taken.
    Event(Told),
    /// The nodes of the two worlds made other steps of an event.
    Unlike,
    /// A port in WR_LINK_ON is not in the same handshake as its peer.
    Judged {
        /// Its node, by its place.
        node: u8,
        /// Its number.
        port: u16,
        /// Why not.
        verdict: Verdict,
    },
    /// A node is beyond its bound.
    Beyond {
        /// Its place.
        node: u8,
        /// Its true offset, in tau.
        off: Tau,
        /// The bound, in tau.
        bound: Tau,
    },
}

impl From<AllocError> for Failure {
    fn from(_e: AllocError) -> Failure {
        Failure::Memory
    }
}

impl From<Lack> for Failure {
    fn from(lack: Lack) -> Failure {
        match lack {
            Lack::Memory => Failure::Memory,
            Lack::Network => Failure::Scenario,
        }
    }
}

impl fmt::Display for Failure {
    fn fmt<W: fmt::Write>(&self, f: &mut fmt::Formatter<W>) -> fmt::Result {
        match self {
            Failure::Memory => write!(f, "out of memory"),
            Failure::Scenario => write!(f, "no such network or scenario"),
            Failure::Endless => write!(f, "no end"),
            Failure::Event(told) => write!(f, "an event was not taken: {told:?}"),
            Failure::Unlike => write!(f, "two worlds made other steps of an event"),
            Failure::Judged {
                node,
                port,
                verdict,
            } => write!(
                f,
                "port {port} of node {node} is on, and judged {verdict:?}"
            ),
            Failure::Beyond { node, off, bound } => {
                write!(f, "node {node} is {off} tau off, and its bound is {bound}")
            }
        }
    }
}
