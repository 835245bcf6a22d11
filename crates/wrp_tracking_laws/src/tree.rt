//! The bound on the way to the grandmaster. Each function here computes nothing: its contract is the law.
ghost use Rattle.wrp_tracking_laws.specs.Reference.{ReferenceBounds};
ghost use Rattle.wrp_tracking_laws.specs.Tree.{HeldWithin, TreeSum};

/// The hops add up from the grandmaster downwards: in TRACK a node is within its path, in HOLDOVER within
/// its bound there.
pub fn tree_sum()
    ensures { TreeSum }
{}

/// HOLDOVER adds the motion of the node's clock since it was entered.
pub fn held_within_motion()
    ensures { HeldWithin }
{}

/// The error sum on the reference network's numbers, term by term.
pub fn reference_bounds()
    ensures { ReferenceBounds }
{}
