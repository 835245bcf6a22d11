//! The top call: which command the words name.
ghost use Rattle.std.specs.Prelude.{◌≡◌, ℕ, List, true, IfOk, IfSome};
ghost use Rattle.std.specs.Io.KnownBytes.{Appends};
ghost use Rattle.wrp_io.specs.declared.link.LinkCall.{LinkCall};
ghost use Rattle.wrp_io.specs.Faults.{Rose};
ghost use Rattle.wrp_loop.specs.Calls.{Grew};
ghost use Rattle.wrp_records.specs.declared.status.Status.{Status};
ghost use Rattle.wrp_records.specs.Passages.{FailsBy, passage};
ghost use Rattle.wrp_records.specs.Statuses.{is_answer};
ghost use Rattle.wrp_commands.specs.declared.alone.Alone.{Alone};
ghost use Rattle.wrp_asked.specs.Alone.{HasAim, IsAlone};
ghost use Rattle.wrp_asked.specs.Answer.{Answer, IsCommand};
ghost use Rattle.wrp_run.specs.Asked.{AsksSo};
ghost use Rattle.wrp_run.specs.Ending.{MayEnd};
ghost use Rattle.wrp_run.specs.Shown.{AuditFollows, LoopFollows};
ghost use Rattle.wrp_run.specs.Synced.{RunsNetwork, StepsComeInSync};
ghost use Rattle.wrp_asked.specs.EmitHeadline.{EmitHeadline};
ghost use Rattle.wrp_asked.specs.Ends.{Ends, IsToldOf};
ghost use Rattle.wrp_loop.specs.LoopPasses.{IsUncalled};
ghost use Rattle.wrp_asked.specs.Headline.{Headline};
ghost use Rattle.wrp_asked.specs.LoopHeadline.{LoopHeadline};
ghost use Rattle.wrp_asked.specs.PrintedTracks.{TracksAreWithinBounds};
ghost use Rattle.wrp_asked.specs.ReplayHeadline.{ReplayHeadline};
ghost use Rattle.wrp_asked.specs.SimHeadline.{SimHeadline};
ghost use Rattle.wrp_asked.specs.Tasks.{IsAuditing, IsEmission, IsLooping, IsReplay, IsSimulation};
ghost use Rattle.wrp_words.specs.Requests.{ReportsTrueOffsets, asked_in};
ghost use Rattle.wrp_words.specs.Words.{texts_of};

use crate::alone::run_alone;
use crate::looped::run_loop;
use crate::network::run_network;
use std::alloc::{AllocError, Global};
use wrp_asked::{
    emissions_tell_no_track, events_carry_parts, looped_events_carry_parts,
    made_events_carry_parts, replays_are_told, runs_print_within_bounds,
};
use wrp_audit::one_audit;
use wrp_commands::Command;
use wrp_io::{Link, Sink, Source};
use wrp_loop::loop_is_audited;
use wrp_network_text::reading_is_accepted;
use wrp_node::one_run;
use wrp_printed_laws::{offsets_follow, steps_come_synced};
use wrp_records::{Status, answer};
use wrp_servo::told_last;
use wrp_trace::events_can_come;
use wrp_words::{USAGE_LINE, read_words};

// The command that the words name, or None.
fn read_command<'a>(alloc: Global, words: &'a [&'a str]) -> Result<Option<Command<'a>>, AllocError>
    ensures { IfOk result (AsksSo (asked_in words.now)) }
{
    read_words(alloc, words)
}

// Runs the command that the words name. Only a loop calls the link.
fn run_command<S: Source, K: Sink, N: Link>(
    alloc: Global,
    words: &[&str],
    source: &mut S,
    sink: &mut K,
    link: &mut N,
) -> Status
    ensures ends { Ends (record {
      asked = asked_in words.now;
      source = passage S.left S.faults source.old source.new;
      sink = passage K.held K.faults sink.old sink.new;
      link = passage N.told N.faults link.old link.new;
    }) result }
    ensures read { FailsBy Status.ReadFault result (passage S.left S.faults source.old source.new) }
    ensures write { FailsBy Status.WriteFault result (passage K.held K.faults sink.old sink.new) }
    ensures linked { FailsBy Status.LinkFault result
        (passage N.told N.faults link.old link.new) }
    ensures unread { (IsCommand (asked_in words.now) → ⊥) → source.new ≡ source.old }
    ensures unlinked { ((seed : ℕ) → IsLooping (asked_in words.now) seed → ⊥) → link.new ≡ link.old }
    ensures unstarted { IsUncalled result → link.new ≡ link.old }
{
    match read_command(alloc, words) {
        Ok(Some(Command::OnNetwork(asked))) => run_network(alloc, words, asked, source, sink),
        Ok(Some(Command::Alone(alone))) => run_alone(alloc, words, alone, source, sink),
        Ok(Some(Command::Loop(seed))) => run_loop(alloc, words, seed, source, sink, link),
        Ok(None) => answer(sink, Status::Usage, USAGE_LINE.as_bytes()),
        Err(_) => Status::OutOfMemory,
    }
}

/// Runs the command that the words name: reads the source as a stream, writes the expected output to the sink
/// before more is read, and answers the status.
pub fn run<S: Source, K: Sink, N: Link>(
    alloc: Global,
    words: &[&str],
    source: &mut S,
    sink: &mut K,
    link: &mut N,
) -> Status
    // How it ends, for each status.
    ensures ends { Ends (record {
      asked = asked_in words.now;
      source = passage S.left S.faults source.old source.new;
      sink = passage K.held K.faults sink.old sink.new;
      link = passage N.told N.faults link.old link.new;
    }) result }

    // The status by what the words ask for: words that are no command end with Usage, unless a write
    // fails or memory runs out, and each other status needs a command that may answer it.
    ensures may { MayEnd (asked_in words.now) result }

    // Every fault is reported: if the source, the sink or the link failed in this run, the status
    // says so.
    ensures read_kept { (result ≡ Status.ReadFault → ⊥)
        → S.faults source.new ≡ S.faults source.old }
    ensures write_kept { (result ≡ Status.WriteFault → ⊥)
        → K.faults sink.new ≡ K.faults sink.old }
    ensures link_kept { (result ≡ Status.LinkFault → ⊥)
        → N.faults link.new ≡ N.faults link.old }

    // The expected status is answered and the expected octets are written, unless there is a fault
    // or memory runs out.
    ensures due { (status : Status) (octets : List ℕ) (calls : List LinkCall) → is_answer result ≡ true
        → IsToldOf (passage N.told N.faults link.old link.new) calls
        → IfSome (S.left source.old) (λ input. Answer (asked_in words.now) input calls status octets
        → (result ≡ status) × Appends (K.held sink.old) (K.held sink.new) octets) }
    ensures complete { (status : Status) (octets : List ℕ) (calls : List LinkCall)
        → (result ≡ Status.OutOfMemory → ⊥)
        → (Rose (S.faults source.old) (S.faults source.new) → ⊥)
        → (Rose (K.faults sink.old) (K.faults sink.new) → ⊥)
        → (Rose (N.faults link.old) (N.faults link.new) → ⊥)
        → IsToldOf (passage N.told N.faults link.old link.new) calls
        → IfSome (S.left source.old) (λ input. Answer (asked_in words.now) input calls status octets
        → (result ≡ status) × Appends (K.held sink.old) (K.held sink.new) octets) }

    // The aim of an audit, for what is written, for each status.
    ensures headline { IsAuditing (asked_in words.now) → IfSome (S.left source.old) (λ input.
        (octets : List ℕ) × Appends (K.held sink.old) (K.held sink.new) octets
        × Headline (asked_in words.now) input result octets) }

    // The same for an audit that is asked for the inputs of a node, which prints no track line.
    ensures emitted { (name : List ℕ) → IsEmission (asked_in words.now) name → IfSome (S.left source.old) (λ input.
        (octets : List ℕ) × Appends (K.held sink.old) (K.held sink.new) octets
        × EmitHeadline (asked_in words.now) input result octets) }

    // For a replay, for each status: it wrote what its node puts out for the inputs that the records say, and a
    // frame that the node drops for one of the reasons 1 to 12 leaves one counter raised and nothing else changed.
    ensures replayed { (name : List ℕ) → IsReplay (asked_in words.now) name → IfSome (S.left source.old) (λ input.
        (octets : List ℕ) × Appends (K.held sink.old) (K.held sink.new) octets
        × ReplayHeadline (asked_in words.now) input result octets) }

    // The same for a simulation, whose events keep all premises: they are a run of the network.
    ensures simulated { (seed : ℕ) → IsSimulation (asked_in words.now) seed → IfSome (S.left source.old) (λ input.
        (octets : List ℕ) × Appends (K.held sink.old) (K.held sink.new) octets
        × SimHeadline (asked_in words.now) input result octets) }

    // The aim of a command that stands alone, as its row of the table has it: what a migration wrote is a text
    // of the same database; what an inspection wrote shows the handshakes of the capture; what the
    // synchronisation of two ends wrote shows both, record by record; what a calibration wrote holds the
    // truth; and each report of a plain servo is within its bound.
    ensures aimed { (alone : Alone) → IsAlone (asked_in words.now) alone → IfSome (S.left source.old) (λ input.
        (octets : List ℕ) × Appends (K.held sink.old) (K.held sink.new) octets
        × HasAim alone input result octets) }

    // The same for a run over a link: some calls that the link added determine what the run wrote.
    ensures looped { (seed : ℕ) → IsLooping (asked_in words.now) seed → IfSome (S.left source.old) (λ input.
        (octets : List ℕ) × (calls : List LinkCall) × Appends (K.held sink.old) (K.held sink.new) octets
        × Grew (N.told link.old) (N.told link.new) calls
        × LoopHeadline (asked_in words.now) input calls result octets) }

    // For an audit, a simulation and a run over a link, for each status: in each line NODE TICK track EST BOUND
    // true OFF that is written, with its LF, the size of OFF is at most BOUND.
    ensures tracks { ReportsTrueOffsets (texts_of words.now) → IfSome (S.left source.old) (λ input.
        (octets : List ℕ) × Appends (K.held sink.old) (K.held sink.new) octets × TracksAreWithinBounds octets) }

    // For an audit, for each status: in each such line BOUND is the bound of the node's path in the network file,
    // and OFF is the offset of the node's last `up` event, plus the drift of each `pass` since, plus a period for
    // each of the CYCLES of each `step` line of the node since. TICK of each line counts the `tick` events of its
    // node since the last `up`. The event lines are those of the input.
    ensures follows { IsAuditing (asked_in words.now) → IfSome (S.left source.old) (λ input.
        (octets : List ℕ) × Appends (K.held sink.old) (K.held sink.new) octets × AuditFollows input octets) }

    // The same for a run over a link, whose event lines are those that it writes after `= `.
    ensures looped_follows { (seed : ℕ) → IsLooping (asked_in words.now) seed → IfSome (S.left source.old) (λ input.
        (octets : List ℕ) × Appends (K.held sink.old) (K.held sink.new) octets × LoopFollows input octets) }

    // For an audit, a simulation and a run over a link, for each status: each line NODE TICK step CYCLES that is
    // written, with its LF, comes while the last line NODE TICK servo STATE of this node before it says sync-tai
    // or sync-nsec.
    ensures synced { RunsNetwork (asked_in words.now) → IfSome (S.left source.old) (λ input.
        (octets : List ℕ) × Appends (K.held sink.old) (K.held sink.new) octets
        × StepsComeInSync octets) }

    // Words that are no command are refused with nothing read. Only a loop uses the link, and a loop does not use
    // it if the status is about its words, its network, a record or the source. `ends` says, for a link that shows
    // its calls, that the link is used only after the whole scenario, also if memory ran out, a line was too large
    // or a write failed.
    ensures unread { (IsCommand (asked_in words.now) → ⊥) → source.new ≡ source.old }
    ensures link { ((seed : ℕ) → IsLooping (asked_in words.now) seed → ⊥) → link.new ≡ link.old }
    ensures unstarted { IsUncalled result → link.new ≡ link.old }
{
    one_run();
    one_audit();
    events_carry_parts();
    emissions_tell_no_track();
    made_events_carry_parts();
    looped_events_carry_parts();
    replays_are_told();
    runs_print_within_bounds();
    loop_is_audited();
    told_last();
    reading_is_accepted();
    events_can_come();
    offsets_follow();
    steps_come_synced();
    run_command(alloc, words, source, sink, link)
}
