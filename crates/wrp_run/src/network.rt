//! The commands on a network: after its text the records are given to a node, or to all of its nodes in a
//! world.
ghost use Rattle.std.specs.Prelude.{◌≡◌, ◌≤ℤ◌, ◌<◌, ◌∷◌, [], ℕ, None, Ok, Option, List, false, true};
ghost use Rattle.std.specs.Io.KnownBytes.{IsAtEnd};
ghost use Rattle.wrp_config.specs.Accepted.{IsAccepted};
ghost use Rattle.wrp_config.specs.Names.{node_named};
ghost use Rattle.wrp_network_text.specs.Reading.{IsReadingOf};
ghost use Rattle.wrp_config.specs.Same.{IsSameNetwork};
ghost use Rattle.wrp_law.specs.Law.{IsNear};
ghost use Rattle.wrp_law.specs.LinkLaw.{IsSound, down_of, error_of, kind_of, least_of, most_of};
ghost use Rattle.wrp_records.specs.declared.status.Status.{Status};
ghost use Rattle.wrp_records.specs.ByLines.{of_lines};
ghost use Rattle.wrp_records.specs.Passages.{FailsBy, Passes, passage};
ghost use Rattle.wrp_asked.specs.Answer.{IsOfNode};
ghost use Rattle.wrp_run.specs.Asked.{AsksWork, FitsWork, IsAsked, IsFront, work_meaning};
ghost use Rattle.wrp_network_world.specs.NetworkSetting.{setting_in};
ghost use Rattle.wrp_asked.specs.Ends.{EndsUnlinked, begun_at};
ghost use Rattle.wrp_network_world.specs.LawsFit.{LawsFit};
ghost use Rattle.wrp_asked.specs.Tasks.{IsReplay};
ghost use Rattle.wrp_words.specs.Requests.{asked_in};

use crate::front::{Front, new_reader, take_front};
use std::alloc::Global;
use wrp_audit::audit_by;
use wrp_commands::Asked;
use wrp_config::Network;
use wrp_io::{Sink, Source};
use wrp_law::DelayLaw;
use wrp_network_world::count_of;
use wrp_records::{Reader, Status, answer};
use wrp_replay::{Replayed, asked, kept_if, law_above, replay};
use wrp_simulate::simulate;
use wrp_words::USAGE_LINE;

/// What is done on a whole network.
#[derive(Clone, Copy)]
pub enum Work {
    /// Its audit, or the inputs of this node.
    Audit(Option<u8>),
    /// Its simulation from this seed.
    Simulate(u64),
}

// Does work on a network over the records that a reader gives, with these laws.
fn work_by<F: Fn(i64) -> i64, S: Source, K: Sink>(
    alloc: Global,
    net: Box<Network>,
    laws: Vec<Option<DelayLaw<F>>>,
    work: Work,
    reader: &mut Reader,
    source: &mut S,
    sink: &mut K,
) -> Status
    requires at_end { reader.old.ended ≡ true → IsAtEnd (S.left source.old) }
    requires accepted { IsAccepted net.value.cfg net.value.db }
    requires laws { LawsFit F.pre F.post net.value laws.items }
    requires work { FitsWork net.value work }
    ensures passes { Passes (of_lines (work_meaning work (setting_in net.value)))
        (passage S.left S.faults source.old source.new) (passage K.held K.faults sink.old sink.new)
        reader.old.rest reader.old.ended reader.new.ended [] result }
{
    match work {
        Work::Audit(emit) => audit_by(alloc, net, laws, emit, reader, source, sink),
        Work::Simulate(seed) => simulate(alloc, net, laws, seed, reader, source, sink),
    }
}

// Does work on a network over the records that a reader gives. The laws look into one network, and the
// world has a copy of it. All of them are one closure, which is made here.
fn work_on<S: Source, K: Sink>(
    alloc: Global,
    net: &Network,
    own: Box<Network>,
    work: Work,
    reader: &mut Reader,
    source: &mut S,
    sink: &mut K,
) -> Status
    requires at_end { reader.old.ended ≡ true → IsAtEnd (S.left source.old) }
    requires accepted { IsAccepted net.now.cfg net.now.db }
    requires own { IsAccepted own.value.cfg own.value.db }
    requires same { IsSameNetwork net.now own.value }
    requires work { FitsWork own.value work }
    ensures passes { Passes (of_lines (work_meaning work (setting_in own.value)))
        (passage S.left S.faults source.old source.new) (passage K.held K.faults sink.old sink.new)
        reader.old.rest reader.old.ended reader.new.ended [] result }
{
    let count = count_of(net);
    let mut laws = Vec::new(alloc);
    let mut n: u8 = 0;
    while n < count {
        let above = law_above(Replayed { net, node: n });
        let link = asked(above);
        let law = DelayLaw::new(
            move |x: i64|
                requires sound { IsSound link }
                requires lo { least_of link ≤ℤ x }
                requires hi { x ≤ℤ most_of link }
                // The floor of the fraction, or the table's value if the link has a table.
                ensures down { result ≡ down_of link.entry x }
                ensures near { IsNear (kind_of link.entry) (error_of link.entry) x result }
            { link.down(x) },
            link.kind(),
            link.lo(),
            link.hi(),
            link.err(),
        );
        match laws.push(kept_if(above.is_some(), law)) {
            Ok(()) => n += 1,
            Err(_) => return Status::OutOfMemory,
        }
    }
    work_by(alloc, own, laws, work, reader, source, sink)
}

// Does work on the network in front of the records. The world gets a copy of it.
#[inline(never)]
fn work_behind<S: Source, K: Sink>(
    alloc: Global,
    words: &[&str],
    front: Front,
    work: Work,
    reader: &mut Reader,
    source: &mut S,
    sink: &mut K,
) -> Status
    requires at_end { reader.old.ended ≡ true → IsAtEnd (S.left source.old) }
    requires reads { IsReadingOf front.text.items (Ok front.net.value) }
    requires accepted { IsAccepted front.net.value.cfg front.net.value.db }
    requires asks { AsksWork (asked_in words.now) front.net.value work }
    requires fits { FitsWork front.net.value work }
    ensures ends { (first : Option (List ℕ))
        → IsFront first (S.left source.old) front.text.items reader.old front.net.value
        → EndsUnlinked (asked_in words.now) (begun_at first (passage S.left S.faults source.old source.new))
        (passage K.held K.faults sink.old sink.new) result }
    ensures read { FailsBy Status.ReadFault result (passage S.left S.faults source.old source.new) }
    ensures write { FailsBy Status.WriteFault result (passage K.held K.faults sink.old sink.new) }
{
    let _words = words;
    let own = match front.net.copied(alloc) {
        Ok(own) => own,
        Err(_) => return Status::OutOfMemory,
    };
    work_on(alloc, &*front.net, own, work, reader, source, sink)
}

// Replays a node of the network that comes before the records.
#[inline(never)]
fn replay_behind<S: Source, K: Sink>(
    alloc: Global,
    words: &[&str],
    name: &str,
    front: Front,
    node: u8,
    reader: &mut Reader,
    source: &mut S,
    sink: &mut K,
) -> Status
    requires at_end { reader.old.ended ≡ true → IsAtEnd (S.left source.old) }
    requires reads { IsReadingOf front.text.items (Ok front.net.value) }
    requires accepted { IsAccepted front.net.value.cfg front.net.value.db }
    requires asks { IsReplay (asked_in words.now) name.now }
    requires named { node_named front.net.value.cfg name.now ≡ Some node }
    ensures ends { (first : Option (List ℕ))
        → IsFront first (S.left source.old) front.text.items reader.old front.net.value
        → EndsUnlinked (asked_in words.now) (begun_at first (passage S.left S.faults source.old source.new))
        (passage K.held K.faults sink.old sink.new) result }
    ensures read { FailsBy Status.ReadFault result (passage S.left S.faults source.old source.new) }
    ensures write { FailsBy Status.WriteFault result (passage K.held K.faults sink.old sink.new) }
{
    let _words = words;
    let _name = name;
    let net = &*front.net;
    replay(alloc, Replayed { net, node }, reader, source, sink)
}

// Answers that the network before the records has no node with this name.
fn lacks_node<S: Source, K: Sink>(
    words: &[&str],
    name: &str,
    front: Front,
    reader: &mut Reader,
    source: &mut S,
    sink: &mut K,
) -> Status
    requires asks { IsOfNode (asked_in words.now) name.now }
    requires none { node_named front.net.value.cfg name.now ≡ None }
    ensures ends { (first : Option (List ℕ))
        → IsFront first (S.left source.old) front.text.items reader.old front.net.value
        → EndsUnlinked (asked_in words.now) (begun_at first (passage S.left S.faults source.old source.new))
        (passage K.held K.faults sink.old sink.new) result }
    ensures read { FailsBy Status.ReadFault result (passage S.left S.faults source.old source.new) }
    ensures write { FailsBy Status.WriteFault result (passage K.held K.faults sink.old sink.new) }
{
    let _words = words;
    let _name = name;
    let _front = front;
    let _reader = reader;
    let _source = source;
    answer(sink, Status::Usage, USAGE_LINE.as_bytes())
}

// Does what is asked of the network that comes before the records.
fn run_behind<S: Source, K: Sink>(
    alloc: Global,
    words: &[&str],
    asked: Asked<'_>,
    front: Front,
    reader: &mut Reader,
    source: &mut S,
    sink: &mut K,
) -> Status
    requires at_end { reader.old.ended ≡ true → IsAtEnd (S.left source.old) }
    requires reads { IsReadingOf front.text.items (Ok front.net.value) }
    requires accepted { IsAccepted front.net.value.cfg front.net.value.db }
    requires asks { IsAsked (asked_in words.now) asked }
    ensures ends { (first : Option (List ℕ))
        → IsFront first (S.left source.old) front.text.items reader.old front.net.value
        → EndsUnlinked (asked_in words.now) (begun_at first (passage S.left S.faults source.old source.new))
        (passage K.held K.faults sink.old sink.new) result }
    ensures read { FailsBy Status.ReadFault result (passage S.left S.faults source.old source.new) }
    ensures write { FailsBy Status.WriteFault result (passage K.held K.faults sink.old sink.new) }
{
    match asked {
        Asked::Audit => work_behind(alloc, words, front, Work::Audit(None), reader, source, sink),
        Asked::Simulate(seed) => {
            work_behind(
                alloc,
                words,
                front,
                Work::Simulate(seed),
                reader,
                source,
                sink,
            )
        }
        Asked::Emit(name) => match front.net.node_named(name) {
            Some(node) => {
                work_behind(
                    alloc,
                    words,
                    front,
                    Work::Audit(Some(node)),
                    reader,
                    source,
                    sink,
                )
            }
            None => lacks_node(words, name, front, reader, source, sink),
        },
        Asked::Replay(name) => match front.net.node_named(name) {
            Some(node) => replay_behind(alloc, words, name, front, node, reader, source, sink),
            None => lacks_node(words, name, front, reader, source, sink),
        },
    }
}

// Does what is asked of the network that comes before the records, with a reader that has taken nothing.
fn run_read<S: Source, K: Sink>(
    alloc: Global,
    words: &[&str],
    asked: Asked<'_>,
    reader: &mut Reader,
    source: &mut S,
    sink: &mut K,
) -> Status
    requires asked { IsAsked (asked_in words.now) asked }
    requires fresh { (reader.old.rest ≡ []) × (reader.old.ended ≡ false) }
    ensures ends { EndsUnlinked (asked_in words.now) (passage S.left S.faults source.old source.new)
        (passage K.held K.faults sink.old sink.new) result }
    ensures read { FailsBy Status.ReadFault result (passage S.left S.faults source.old source.new) }
    ensures write { FailsBy Status.WriteFault result (passage K.held K.faults sink.old sink.new) }
{
    match take_front(alloc, words, reader, source, sink) {
        Ok(front) => run_behind(alloc, words, asked, front, reader, source, sink),
        Err(status) => status,
    }
}

/// Does what is asked of the network that comes before the records.
#[inline(never)]
pub fn run_network<S: Source, K: Sink>(
    alloc: Global,
    words: &[&str],
    asked: Asked<'_>,
    source: &mut S,
    sink: &mut K,
) -> Status
    requires { IsAsked (asked_in words.now) asked }
    ensures ends { EndsUnlinked (asked_in words.now) (passage S.left S.faults source.old source.new)
        (passage K.held K.faults sink.old sink.new) result }
    ensures read { FailsBy Status.ReadFault result (passage S.left S.faults source.old source.new) }
    ensures write { FailsBy Status.WriteFault result (passage K.held K.faults sink.old sink.new) }
{
    match new_reader(alloc) {
        Ok(mut reader) => run_read(alloc, words, asked, &mut *reader, source, sink),
        Err(_) => Status::OutOfMemory,
    }
}
