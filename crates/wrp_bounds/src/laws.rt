//! Laws of the bounds, over all networks. Each function computes nothing.
ghost use Rattle.wrp_bounds.specs.Laws.{PathOfChild, GrandmasterIsExact, RoundsUp};

/// In a tree the bound in TRACK of a node that has a parent is the bound of its own hop and the bound
/// in HOLDOVER of its parent.
pub fn path_of_child()
    ensures { PathOfChild }
{}

/// The bounds of the grandmaster are 0.
pub fn grandmaster_is_exact()
    ensures { GrandmasterIsExact }
{}

/// What is rounded up in a bound is at least the exact number, and less than one more.
pub fn rounds_up()
    ensures { RoundsUp }
{}
