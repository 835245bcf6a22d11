//! What one end of a link is handed, what it answers, and its states.
use crate::L1Msg;

/// What happens at one end of a link.
#[derive(Clone, Copy, Debug, PartialEq, Eq)]
pub enum L1In {
    /// The end is enabled. It begins without a message of its peer, at tick count 0; if it was enabled,
    /// nothing changes.
    Enable,
    /// The end is disabled. Its tick count stays.
    Disable,
    /// The end's own message from now on.
    Own(L1Msg),
    /// A message of the peer. At a disabled end nothing changes.
    Msg(L1Msg),
    /// A tick. At a disabled end nothing changes.
    Tick,
}

/// A state of one end of a link (after Annex L of IEEE 1588-2019).
#[derive(Clone, Copy, Debug, Default, PartialEq, Eq)]
pub enum L1State {
    /// The end is disabled.
    #[default]
    Disabled,
    /// No message of the peer is known.
    Idle,
    /// The peer's message is known, and requires something else.
    LinkAlive,
    /// Both ends require the same, and a required bit is missing at one of them.
    ConfigMatch,
    /// Both ends require the same, and every required bit holds at both.
    Up,
}

/// What one end answers to an input.
#[derive(Clone, Copy, Debug, Default, PartialEq, Eq)]
pub struct L1Out {
    /// The message that is sent, if one is.
    pub send: Option<L1Msg>,
    /// The new state: Some if and only if it differs from the one before.
    pub moved: Option<L1State>,
}
