//! The parts of the tracking invariant at one state of a world. Each function here computes nothing: its
//! contract is the law.
ghost use Rattle.wrp_tracking_laws.specs.Parts.{MomentKeepsTrack, PartsGiveBound};

/// The parts at one state give the tracking bound of every node: its path in TRACK, its bound in HOLDOVER.
pub fn parts_give_bound()
    ensures { PartsGiveBound }
{}

/// A moment in which a node's servo and exchange stay as they are keeps its chain and TRACK.
pub fn moment_keeps_track()
    ensures { MomentKeepsTrack }
{}
