//! HOLDOVER in a run. Each function here computes nothing: its contract is the law.
ghost use Rattle.wrp_bound_laws.specs.Holdovers.{HoldoverIsFromTrack, HoldoverIsShort};

use wrp_course::ticks_are_apart;
use wrp_node::{commands_are_held, step_settles};
use wrp_servo::{holdover_since, no_step_in_track, track_is_near, track_since};

/// A node in HOLDOVER entered it in an event; since then it moved no faster than its rate of HOLDOVER and
/// took no step, and the time of HOLDOVER has not passed.
pub fn holdover_is_short()
    ensures { HoldoverIsShort }
{
    commands_are_held();
    holdover_since();
    no_step_in_track();
    track_is_near();
    track_since();
    ticks_are_apart();
}

/// Before the event in which a node enters HOLDOVER it was up, and in TRACK; and the event did not move
/// it.
pub fn holdover_is_from_track()
    ensures { HoldoverIsFromTrack }
{
    commands_are_held();
    no_step_in_track();
    step_settles();
    holdover_since();
    track_is_near();
    track_since();
}
