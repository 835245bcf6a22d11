//! Why a handshake is not the same one.
use wrp_base::LinkState;

/// Why a port and its peer are not in WR_LINK_ON by one and the same handshake (this project's
/// profile).
#[derive(Clone, Copy, Debug, PartialEq, Eq)]
pub enum Verdict {
    /// The last mark of the port's history does not lead to WR_LINK_ON, or it has no mark.
    NotOn,
    /// No message except SLAVE_PRESENT moved the port in its last stretch, or the last one was sent in
    /// no stretch of the peer, or another one was not sent in the newest stretch in which the last one
    /// was.
    NoStretch,
    /// The peer's stretch lacks a state that a message requires at or before its sending.
    Missing {
        /// For the first such message, the first state that it requires and that is not there.
        state: LinkState,
    },
}
