//! The true fibres of a world.
use wrp_base::Tau;

/// A link's fibre at a moment.
#[derive(Clone, Copy, Debug, PartialEq, Eq)]
pub struct FibreState {
    /// Whether the link is joined.
    pub joined: bool,
    /// The one-way delay of the fibre down, in tau.
    pub ms: Tau,
    /// The one-way delay of the fibre up, in tau.
    pub sm: Tau,
}
