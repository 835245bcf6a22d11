//! The settings of a plain servo, and what it answers.

/// The settings of a plain servo, in tau unless another unit is named.
#[derive(Clone, Copy, Debug, PartialEq, Eq)]
pub struct PlainSet {
    /// How fast the offset may move, in `10^-12`: at most `10^9`.
    pub rate: u64,
    /// How far a stamp may be off: at most `10^9`.
    pub err: u64,
    /// The least delay of either direction: 0 to `10^15`.
    pub least: i64,
    /// How long an exchange takes at most: 0 to `10^15`.
    pub span: i64,
    /// The greatest time between two ticks: 1 to `10^18`.
    pub dmax: i64,
    /// How many measurements are kept: 1 to 64.
    pub ring: usize,
    /// The greatest command, either way: 1 to `2^60`.
    pub step: i64,
}

/// How a world with a plain servo starts.
#[derive(Clone, Copy, Debug, PartialEq, Eq)]
pub struct PlainStart {
    /// The settings of its servo.
    pub set: PlainSet,
    /// The true offset of the slave's clock, in tau: at most `2^62`, either way.
    pub off: i64,
}

/// What a plain servo reports of its clock.
#[derive(Clone, Copy, Debug, PartialEq, Eq)]
pub struct PlainReport {
    /// The estimate of the offset, in tau.
    pub est: i128,
    /// How far the true offset is from it at most, in tau.
    pub bound: i128,
}

/// What a plain servo answers to a measurement.
#[derive(Clone, Copy, Debug, PartialEq, Eq)]
pub enum PlainOut {
    /// The round trip is shorter than the settings allow: nothing changed.
    Short {
        /// The round trip, in tau.
        round: i128,
        /// The least that the settings allow, in tau.
        least: i128,
    },
    /// The measurement is kept.
    Taken {
        /// The report with it, before the command.
        report: PlainReport,
        /// By how much the clock is to be moved, in tau.
        command: i64,
    },
}
