//! A measurement that a plain servo keeps.

/// A measurement that is kept.
#[derive(Clone, Copy, Debug)]
pub struct Kept {
    /// The offset as measured, in tau.
    pub est: i128,
    /// How far the true offset was from it at most, in tau.
    pub base: i128,
    /// The tick count at it.
    pub ticks: u32,
    /// The command that was given last before it, in tau.
    pub before: i64,
}
