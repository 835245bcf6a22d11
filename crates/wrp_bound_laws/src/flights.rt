//! The frames of a run on their ways. Each function here computes nothing: its contract is the law.
ghost use Rattle.wrp_bound_laws.specs.FlightOrder.{FramesArriveInOrder, FramesDepartInOrder};
ghost use Rattle.wrp_bound_laws.specs.FlightOrder.{FramesFollowTheSource};

use wrp_course::frames_have_times;

/// Frames depart in the order of their numbers. Frames from one end of a link that arrive do so in that
/// order: one that is overtaken never arrives.
pub fn frames_keep_order()
    ensures depart { FramesDepartInOrder }
    ensures arrive { FramesArriveInOrder }
{}

/// A frame of a link's master that arrives after the lease below was renewed, as each Sync of a chain
/// does, departed no sooner than the master put out the Announce that renewed it.
pub fn frames_follow_the_source()
    ensures { FramesFollowTheSource }
{
    frames_have_times();
}
