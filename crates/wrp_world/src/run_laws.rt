//! Laws of the runs that worlds are in: functions that do nothing, whose contracts are the laws.
ghost use Rattle.wrp_world.specs.EventHolds.{LinksHoldInRuns, TracksHoldInRuns};
ghost use Rattle.wrp_world.specs.InRun.{NewIsInRun, StepAddsToRun};

use wrp_bound_laws::{chain_has_constant, offsets_keep_bounds, reports_are_within};
use wrp_course::{dropped_frames_leave_a_count, ports_are_judged, reported_link_on_is_earned};

/// What is true of each event of every run. Each port in WR_LINK_ON has earned it, and so has each port
/// that is reported to be in WR_LINK_ON. Each port is where its marks lead, and is judged Ok exactly in
/// WR_LINK_ON. A frame that is dropped as no message, or as a foreign one, changes one counter and nothing
/// else. If the events' numbers fit and the laws' answers are near, this is also true: each node that is up
/// is within its bound of true time in TRACK and in HOLDOVER, each report of TRACK is true, and each chain
/// has a constant.
pub fn events_hold()
    ensures links { LinksHoldInRuns }
    ensures tracks { TracksHoldInRuns }
{
    ports_are_judged();
    reported_link_on_is_earned();
    dropped_frames_leave_a_count();
    offsets_keep_bounds();
    reports_are_within();
    chain_has_constant();
}

/// A world before any event is in a run of no events, and each accepted event adds itself to each run that
/// the world is in. So the laws of runs are true of every world that comes from a new one by accepted
/// events.
pub fn worlds_are_in_runs<F: Fn(i64) -> i64>()
    ensures new { NewIsInRun F.post }
    ensures step { StepAddsToRun F.post }
{}
