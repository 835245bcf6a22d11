//! What becomes of a round of a loop.

/// What became of a round.
#[derive(Clone, Copy, Debug, PartialEq, Eq)]
pub enum Rounded {
    /// An event of the simulator came, or was left out.
    GoesOn,
    /// No event comes any more.
    Over,
    /// The next event, of the simulator or of a datagram, has a number that reaches `2^32 - 1`.
    TooLarge,
}

/// Why a loop goes no further.
#[derive(Clone, Copy, Debug, PartialEq, Eq)]
pub enum LoopFault {
    /// A call of the link failed, and its count of faults rose.
    Failed,
    /// Memory ran out.
    Memory,
}
