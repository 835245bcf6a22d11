//! Laws of what is expected, and of audits, simulations and runs over a link. The functions do nothing; their contracts
//! are the laws.
ghost use Rattle.wrp_asked.specs.AnswerLaws.{OneAnswer, RunsPrintWithinBounds};
ghost use Rattle.wrp_asked.specs.EmitHeadline.{EmissionsTellNoTrack};
ghost use Rattle.wrp_asked.specs.Headline.{EventsCarryParts};
ghost use Rattle.wrp_asked.specs.LoopHeadline.{LoopedEventsCarryParts};
ghost use Rattle.wrp_asked.specs.ReplayHeadline.{ReplaysAreTold};
ghost use Rattle.wrp_asked.specs.ReportLines.{LinkOnReportsHaveLines, TrackReportsHaveLines};
ghost use Rattle.wrp_asked.specs.SimHeadline.{MadeEventsCarryParts};

use wrp_audit::one_audit;
use wrp_bound_laws::hops_are_kept;
use wrp_lookback_laws::drops_only_count;
use wrp_loop::{loop_is_audited, loop_keeps_the_bounds};
use wrp_network_text::reading_is_accepted;
use wrp_node::one_run;
use wrp_servo::told_last;
use wrp_sim::simulator_keeps_the_bounds;
use wrp_trace::events_can_come;
use wrp_world::events_hold;

/// For a command, an input and the calls of a link at most one status and one output are expected.
pub fn one_answer()
    ensures { OneAnswer }
{
    one_run();
    one_audit();
    told_last();
}

/// In each event that the first records of an audit say, each port in WR_LINK_ON has earned it, and so has
/// each that is reported to be; each node is within its bound of true time in TRACK and in HOLDOVER, and each
/// track line is true; a frame that is dropped as no message, or as a foreign one, changes a counter alone, and
/// nothing is written of it; and after the event each node in TRACK is within its hop of its parent.
pub fn events_carry_parts()
    ensures { EventsCarryParts }
{
    reading_is_accepted();
    events_can_come();
    events_hold();
    hops_are_kept();
}

/// The same holds in each event that a simulation makes, whatever its scenario and its seed: none can break a
/// premise.
pub fn made_events_carry_parts()
    ensures { MadeEventsCarryParts }
{
    reading_is_accepted();
    simulator_keeps_the_bounds();
    events_hold();
    hops_are_kept();
}

/// The same holds in each event of a run over a link, whatever the link does: they are a run of the network.
pub fn looped_events_carry_parts()
    ensures { LoopedEventsCarryParts }
{
    reading_is_accepted();
    loop_keeps_the_bounds();
    events_hold();
    hops_are_kept();
}

/// No line of an audit that is asked for the inputs of a node begins as a `track` line does, whatever the status
/// is: neither the line that names what is refused, nor a line that is cut.
pub fn emissions_tell_no_track()
    ensures { EmissionsTellNoTrack }
{
    reading_is_accepted();
}

/// What a run wrote of a replay, whatever its status is: the lines of what the node puts out at the
/// inputs that the records say, and what is written after them. A frame that the node drops for one of the reasons 1
/// to 12 leaves one counter raised and nothing else changed, and nothing is put out.
pub fn replays_are_told()
    ensures { ReplaysAreTold }
{
    drops_only_count();
    one_run();
}

/// In each line NODE TICK track EST BOUND true OFF that a run wrote of an audit, a simulation or a run over a link, the
/// size of OFF is at most BOUND, whatever the status is. A line that was cut off before its LF is no such line.
pub fn runs_print_within_bounds()
    ensures { RunsPrintWithinBounds }
{
    reading_is_accepted();
    events_carry_parts();
    emissions_tell_no_track();
    made_events_carry_parts();
    looped_events_carry_parts();
    one_audit();
    loop_is_audited();
}

/// Each report of TRACK in an event has its line among the lines that an audit and a run over a link write of the
/// event, and among the lines of a simulation: the name and the tick count of the node, the estimate, the node's
/// path, and its offset from true time. So the law above speaks of some line wherever a node reports TRACK.
pub fn track_reports_have_lines()
    ensures { TrackReportsHaveLines }
{}

/// The same holds of each report that a link is on: among these lines is the one with the name and the tick count of
/// the node and the port. So what the aim says of such lines speaks of some line wherever a node reports a link that is
/// on.
pub fn link_on_reports_have_lines()
    ensures { LinkOnReportsHaveLines }
{}
