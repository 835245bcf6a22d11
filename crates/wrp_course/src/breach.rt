//! What is reported of the first comparison of a premise that fails.
use wrp_base::Tau;

/// A premise that an event breaks, with the two sides of the comparison that fails.
#[derive(Clone, Copy, Debug, PartialEq, Eq)]
pub struct Breach {
    /// The number of the premise.
    pub premise: u8,
    /// The left side.
    pub shown: Tau,
    /// The right side.
    pub bound: Tau,
}
