//! The law of loops and audits: what a run over a link printed of its events is a trace of these
//! events.
ghost use Rattle.wrp_answer_laws.specs.LoopAgain.{LoopIsAuditedAgain, TextWithRecords};

use wrp_asked::looped_events_carry_parts;
use wrp_loop::loop_is_audited;
use wrp_network_text::reading_is_accepted;

/// If a run over a link is expected to end with Done, then the lines that it printed of its events, without `= `,
/// after its network text and `---`, are the records of an audit that is also expected to end with Done, and to
/// write the other lines of the run, in their order, except the line of forged datagrams.
pub fn loop_is_audited_again()
    ensures { LoopIsAuditedAgain }
{
    reading_is_accepted();
    loop_is_audited();
    looped_events_carry_parts();
}

/// An input for that audit is the network text of the run's input, if it ends with LF, the line `---`, and these
/// records.
pub fn text_with_records()
    ensures { TextWithRecords }
{}
