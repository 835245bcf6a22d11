//! The error sum of one hop. Each function here computes nothing: its contract is the law.
ghost use Rattle.wrp_tracking_laws.specs.ErrorSum.{EstimateIsNear, HopSum};
ghost use Rattle.wrp_tracking_laws.specs.Worked.{WorkedHop};

/// The estimate is within its error of the true offset from the parent.
pub fn estimate_is_near()
    ensures { EstimateIsNear }
{}

/// In TRACK a node is within the bound of its hop of its parent.
pub fn hop_sum()
    ensures { HopSum }
{}

/// The premises of these laws are not empty: a hop worked out for the reference network's switch has them,
/// in TRACK too, and its estimate is its true offset.
pub fn worked_hop()
    ensures { WorkedHop }
{}
