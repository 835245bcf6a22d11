//! Laws of answers: functions whose contracts are the laws, and whose bodies call the laws that they rest on.
ghost use Rattle.wrp_answer_laws.specs.Accepted.{AcceptedIsAudit, AcceptedIsDone, RunOfLinesIsAudit};
ghost use Rattle.wrp_answer_laws.specs.Accepted.{SimulatedIsHeard};
ghost use Rattle.wrp_answer_laws.specs.EachAnswer.{EachHasAnswer, EachReplayHasAnswer};
ghost use Rattle.wrp_answer_laws.specs.EachAnswer.{EachStandsAloneWithAnswer};
ghost use Rattle.wrp_answer_laws.specs.Listed.{ReplayOfListedInputs};
ghost use Rattle.wrp_answer_laws.specs.Moments.{NextIsLeast};
ghost use Rattle.wrp_answer_laws.specs.NoOutput.{EmissionTellsNoOutput};
ghost use Rattle.wrp_answer_laws.specs.WorkedLink.{WorkedLink};

use wrp_network_text::reading_is_accepted;
use wrp_projection_laws::replay_of_emitted_inputs;
use wrp_sim::simulator_keeps_the_bounds;

/// For the record lines of each replay of a node some status and octets are expected.
pub fn each_replay_has_answer()
    ensures { EachReplayHasAnswer }
{}

/// For each input of `migrate`, `inspect`, `l1sync`, `calibrate` and `plain` some status and octets are
/// expected.
pub fn each_stands_alone_with_answer()
    ensures { EachStandsAloneWithAnswer }
{}

/// For what is asked, an input and a link, a status and an output are expected, whatever is asked, whatever the
/// octets are and whatever the link answers to each of its calls. The calls that are made, one after the other,
/// have these answers. If none of them fails, `one_answer` says that no other status and no other output are
/// expected for them. If one fails, LinkFault is expected, with the lines of the events before it.
pub fn each_has_answer()
    ensures { EachHasAnswer }
{
    reading_is_accepted();
}

/// A worked example of a link: calls that follow its answers, with the call after them failing, and calls that do
/// not follow them.
pub fn worked_link()
    ensures { WorkedLink }
{}

/// Lines that say events, each accepted in its turn after those before it, are an audit. What the octets of a Noise
/// say, the answers of the links' laws, and that each frame that a node was given is read as its octets say, all
/// follow from the lines.
pub fn accepted_is_audit()
    ensures { AcceptedIsAudit }
{
    reading_is_accepted();
}

/// A run of a world whose events are said by lines is an audit: what a node ever put out is spelled by its
/// octets.
pub fn run_of_lines_is_audit()
    ensures { RunOfLinesIsAudit }
{
    reading_is_accepted();
}

/// In each run that a simulator makes, each frame that a node was given is read as its octets say.
pub fn simulated_is_heard()
    ensures { SimulatedIsHeard }
{
    reading_is_accepted();
    simulator_keeps_the_bounds();
}

/// If `audit` is asked for, the network is accepted, each record is a line of at most 8,192 octets that says an
/// event which is accepted in its turn, and there are fewer than 2^32 records, then Done is expected, with the
/// whole text.
pub fn accepted_is_done()
    ensures { AcceptedIsDone }
{
    reading_is_accepted();
}

/// If an audit is expected to end with Done and its network lists a node, then `audit --emit NODE` is expected to
/// end with Done. The replay of that node on these records, if they are fewer than 2^32, is too, and writes the
/// node's lines of the audit.
pub fn replay_of_listed_inputs()
    ensures { ReplayOfListedInputs }
{
    replay_of_emitted_inputs();
}

/// None of the lines that `audit --emit NODE` prints of events is the line of an output of a node: each is the line
/// of an input, which contains no space.
pub fn emission_tells_no_output()
    ensures { EmissionTellsNoOutput }
{
    reading_is_accepted();
}

/// The next moment of a simulation is the least of its moments after now, and at most 2^62 tau after it.
pub fn next_moment_is_least()
    ensures { NextIsLeast }
{}
