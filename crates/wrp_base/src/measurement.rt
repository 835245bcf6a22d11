//! What the two-step exchange measures, and what happens to a servo's chain.
use crate::Tau;

/// The four stamps of one two-step exchange with the phases that go with two of them. Each time is
/// in tau and lies strictly between `-2^105` and `2^105`.
#[derive(Clone, Copy, Debug, Default, PartialEq, Eq)]
pub struct Four {
    /// The master's sending of the Sync, corrections included.
    pub t1: Tau,
    /// The slave's reception of the Sync.
    pub t2: Tau,
    /// The slave's sending of the Delay_Req.
    pub t3: Tau,
    /// The master's reception of the Delay_Req, correction included.
    pub t4: Tau,
    /// The unwrapped phase at the Sync's sample, in tau: strictly between `-2^60` and `2^60`.
    pub u2: i64,
    /// The unwrapped phase at the Delay_Req's sample, in tau: strictly between `-2^60` and `2^60`.
    pub u3: i64,
    /// The older of two ticks: the one at which the Sync was handed over, and the one at which the
    /// Delay_Req's sending was reported.
    pub tick: u32,
}

/// What one call of the servo did to its chain of good samples (this project's profile).
#[derive(Clone, Copy, Debug, Default, PartialEq, Eq)]
pub enum ChainNews {
    /// The chain is as before, or there is still none.
    #[default]
    Same,
    /// A chain started at the sample of this number.
    Started(u32),
    /// The chain ended.
    Ended,
}
