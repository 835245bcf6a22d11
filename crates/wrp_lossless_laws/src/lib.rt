//! A loop over a link that loses nothing is the simulation: laws of the events of both, and of what both print. The functions do
//! nothing; their contracts are the laws. All rules are this project's profile.
#![tactic(auto)]

ghost use Rattle.wrp_lossless_laws.specs.Printed.{LosslessLoopPrintsTheSimulation};
ghost use Rattle.wrp_lossless_laws.specs.Simulated.{LosslessLoopIsSimulated};
ghost use Rattle.wrp_lossless_laws.specs.Worked.{WorkedLinks};
ghost use Rattle.wrp_lossless_laws.specs.WorkedKinds.{WorkedKinds};

use wrp_asked::looped_events_carry_parts;
use wrp_sim::simulator_keeps_the_bounds;

/// If the scenario loses and repeats no frame, and the link answers each reception with what was sent, in order,
/// then the events of a loop are the events of a simulation of the same network, scenario and seed.
pub fn lossless_loop_is_simulated()
    ensures { LosslessLoopIsSimulated }
{
    simulator_keeps_the_bounds();
}

/// So both print the same lines of the kinds step, link, servo and track, if the loop ends with Done or with TooLarge;
/// the simulation then ends with the same status.
pub fn lossless_loop_prints_the_simulation()
    ensures { LosslessLoopPrintsTheSimulation }
{
    simulator_keeps_the_bounds();
    looped_events_carry_parts();
}

/// The definition of a link that loses nothing, worked out: calls that satisfy it, and three lists of calls that do
/// not, because a frame is lost, comes twice or is overtaken.
pub fn worked_links()
    ensures { WorkedLinks }
{}

/// Which lines are of the four kinds, worked out: four of the six lines of an output.
pub fn worked_kinds()
    ensures { WorkedKinds }
{}
