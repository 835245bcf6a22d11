//! The clock of a node in TRACK or HOLDOVER runs forward, and keeps the rate of its node in the network file:
//! laws over runs. The functions do nothing; their contracts are the laws. All rules are this project's
//! profile.
#![tactic(auto)]

ghost use Rattle.wrp_clock_laws.specs.Steady.{ClocksRunForward, HoldoverKeepsHeld, SteadyKeepsRate, TrackKeepsSlew};
ghost use Rattle.wrp_clock_laws.specs.Worked.{StepsBack};
ghost use Rattle.wrp_clock_laws.specs.WorkedRun.{RunsBackward};

use wrp_node::{chain_is_unbroken, commands_are_held};
use wrp_servo::{holdover_since, no_step_in_track, track_is_near, track_since};

/// Through a part of a run in which a node stays up and in TRACK or HOLDOVER, its clock never runs backward. Its
/// offset from true time moves no faster than `slew` in TRACK, than `held` in HOLDOVER, and than the greater of
/// both if the node goes from one to the other. The event in which the node leaves TRACK or HOLDOVER counts as a
/// part of it.
pub fn clocks_run_forward()
    ensures forward { ClocksRunForward }
    ensures slew { TrackKeepsSlew }
    ensures held { HoldoverKeepsHeld }
    ensures rate { SteadyKeepsRate }
{
    chain_is_unbroken();
    commands_are_held();
    holdover_since();
    no_step_in_track();
    track_is_near();
    track_since();
}

/// The laws need TRACK or HOLDOVER: there is a run, written out, in which the local time of a node that is up and
/// in UNINIT falls.
pub fn needs_states()
    ensures { RunsBackward }
{}

/// The same holds of steps: a servo in SYNC_NSEC, whose calls are written out, commands a step of two periods
/// back.
pub fn steps_go_back()
    ensures { StepsBack }
{}
