//! What a link is set to, what it is given, and what it answers.
use arrayvec::ArrayVec;
use wrp_base::{LinkState, Module, WrMsg};

/// The counts of a link (this project's profile), each in ticks except `retries`.
#[derive(Clone, Copy, Debug, Default, PartialEq, Eq)]
pub struct LinkSet {
    /// The quiet time after a carrier came, or after a handshake failed: at least 1.
    pub quiet: u32,
    /// How long a waiting state waits before it sends again: at least 1.
    pub wait: u32,
    /// The same of S_LOCK and M_LOCK: at least 1.
    pub lock_wait: u32,
    /// How often a waiting state waits again before the handshake fails.
    pub retries: u32,
    /// How long a slave whose handshake failed does not start a new one.
    pub holdoff: u32,
    /// Whether the link takes part in White Rabbit at all. Without it the port never leaves IDLE.
    pub wr: bool,
}

/// What happens at a port, as far as its link setup is concerned.
#[derive(Clone, Copy, Debug, PartialEq, Eq)]
pub enum LinkIn {
    /// A White Rabbit message of the peer.
    Msg(WrMsg),
    /// An Announce of the peer, with the wrFlags of its suffix, if it has one.
    Announce(Option<u16>),
    /// A tick of the node. The bool says whether the lock detector is locked.
    Tick(bool),
    /// The carrier goes.
    CarrierDown,
    /// A carrier comes. None is a module that the calibration database does not list.
    CarrierUp(Option<Module>),
}

/// What a link answers to one input.
#[derive(Debug, Drop, PartialEq, Eq)]
pub struct LinkOut {
    /// The messages to send, in their order.
    pub sends: ArrayVec<WrMsg, 2>,
    /// The new state: Some if and only if it differs from the one before.
    pub moved: Option<LinkState>,
    /// False if and only if a message has no row in the handshake table for the state. An Announce,
    /// a tick and a change of carrier are always used.
    pub used: bool,
}
