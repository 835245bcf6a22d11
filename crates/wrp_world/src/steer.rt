//! How the clock of a node is steered.

/// How the clock of a node that is up is steered.
#[derive(Clone, Copy, Debug, PartialEq, Eq)]
pub struct Steer {
    /// The DAC value of the node.
    pub dac: u16,
    /// The rate within which the clock keeps, in `10^-12`: at most `10^9`. `None` if it has none to keep.
    pub kept: Option<u64>,
}
