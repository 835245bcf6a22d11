//! The law of projection: functions whose contracts are the laws, and whose bodies call the laws that
//! they rest on.
ghost use Rattle.wrp_projection_laws.specs.Law.{FrontWithRecords, ReplayOfEmittedInputs};

use wrp_audit::one_audit;
use wrp_network_text::reading_is_accepted;
use wrp_recorded_laws::inputs_are_recorded;

/// If an audit of an input is expected to end with Done, and so is `audit --emit NODE` with fewer than
/// 2^32 records, then `replay --node NODE` of the same network text, `---` and these records is also
/// expected to end with Done, and to write the audit's lines of that node without ` true OFF`,
/// including the lines of its counters. What is expected is what `run` answers and writes.
pub fn replay_of_emitted_inputs()
    ensures { ReplayOfEmittedInputs }
{
    inputs_are_recorded();
    reading_is_accepted();
    one_audit();
}

/// An input for that replay is the audit's input up to the records, and then the records of the
/// node.
pub fn front_with_records()
    ensures { FrontWithRecords }
{}
