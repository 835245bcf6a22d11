//! The command `loop`: the network in front of its records gets its delay laws, and is run over a link.
ghost use Rattle.std.specs.Prelude.{◌≡◌, ◌≤ℤ◌, [], ℕ, Ok, Option, List, false, true};
ghost use Rattle.std.specs.Io.KnownBytes.{IsAtEnd};
ghost use Rattle.wrp_config.specs.Accepted.{IsAccepted};
ghost use Rattle.wrp_network_text.specs.Reading.{IsReadingOf};
ghost use Rattle.wrp_config.specs.Same.{IsSameNetwork};
ghost use Rattle.wrp_law.specs.Law.{IsNear};
ghost use Rattle.wrp_law.specs.LinkLaw.{IsSound, down_of, error_of, kind_of, least_of, most_of};
ghost use Rattle.wrp_records.specs.declared.status.Status.{Status};
ghost use Rattle.wrp_records.specs.Passages.{FailsBy, passage};
ghost use Rattle.wrp_run.specs.Asked.{IsFront};
ghost use Rattle.wrp_network_world.specs.NetworkSetting.{setting_in};
ghost use Rattle.wrp_asked.specs.Ends.{Ends, begun_at};
ghost use Rattle.wrp_loop.specs.LoopPasses.{IsUncalled, LoopPasses};
ghost use Rattle.wrp_asked.specs.Tasks.{IsLooping};
ghost use Rattle.wrp_words.specs.Requests.{asked_in};

use crate::front::{Front, new_reader, take_front};
use std::alloc::Global;
use wrp_config::Network;
use wrp_io::{Link, Sink, Source};
use wrp_law::DelayLaw;
use wrp_loop::run_over;
use wrp_network_world::count_of;
use wrp_records::{Reader, Status};
use wrp_replay::{Replayed, asked, kept_if, law_above};

// Runs a network over a link by the records that a reader gives. The laws look into one network, and the
// world has a copy of it. All of them are one closure, which is made here.
fn run_on<S: Source, K: Sink, N: Link>(
    alloc: Global,
    net: &Network,
    own: Box<Network>,
    seed: u64,
    reader: &mut Reader,
    source: &mut S,
    sink: &mut K,
    link: &mut N,
) -> Status
    requires at_end { reader.old.ended ≡ true → IsAtEnd (S.left source.old) }
    requires accepted { IsAccepted net.now.cfg net.now.db }
    requires own { IsAccepted own.value.cfg own.value.db }
    requires same { IsSameNetwork net.now own.value }
    ensures passes { LoopPasses (setting_in own.value) seed
        (passage S.left S.faults source.old source.new) (passage K.held K.faults sink.old sink.new)
        (passage N.told N.faults link.old link.new)
        reader.old.rest reader.old.ended reader.new.ended result }
    ensures unstarted { IsUncalled result → link.new ≡ link.old }
{
    let count = count_of(net);
    let mut laws = Vec::new(alloc);
    let mut n: u8 = 0;
    while n < count {
        let above = law_above(Replayed { net, node: n });
        let asked_law = asked(above);
        let law = DelayLaw::new(
            move |x: i64|
                requires sound { IsSound asked_law }
                requires lo { least_of asked_law ≤ℤ x }
                requires hi { x ≤ℤ most_of asked_law }
                // The floor of the fraction, or the table's value if the link has a table.
                ensures down { result ≡ down_of asked_law.entry x }
                ensures near { IsNear (kind_of asked_law.entry) (error_of asked_law.entry) x result }
            { asked_law.down(x) },
            asked_law.kind(),
            asked_law.lo(),
            asked_law.hi(),
            asked_law.err(),
        );
        match laws.push(kept_if(above.is_some(), law)) {
            Ok(()) => n += 1,
            Err(_) => return Status::OutOfMemory,
        }
    }
    run_over(alloc, own, laws, seed, reader, source, sink, link)
}

// Runs the network in front of the records over a link. The world gets a copy of it.
fn run_behind<S: Source, K: Sink, N: Link>(
    alloc: Global,
    words: &[&str],
    front: Front,
    seed: u64,
    reader: &mut Reader,
    source: &mut S,
    sink: &mut K,
    link: &mut N,
) -> Status
    requires at_end { reader.old.ended ≡ true → IsAtEnd (S.left source.old) }
    requires reads { IsReadingOf front.text.items (Ok front.net.value) }
    requires accepted { IsAccepted front.net.value.cfg front.net.value.db }
    requires asks { IsLooping (asked_in words.now) seed }
    ensures ends { (first : Option (List ℕ))
        → IsFront first (S.left source.old) front.text.items reader.old front.net.value
        → Ends (record {
          asked = asked_in words.now;
          source = begun_at first (passage S.left S.faults source.old source.new);
          sink = passage K.held K.faults sink.old sink.new;
          link = passage N.told N.faults link.old link.new;
        }) result }
    ensures read { FailsBy Status.ReadFault result (passage S.left S.faults source.old source.new) }
    ensures write { FailsBy Status.WriteFault result (passage K.held K.faults sink.old sink.new) }
    ensures linked { FailsBy Status.LinkFault result (passage N.told N.faults link.old link.new) }
    ensures unstarted { IsUncalled result → link.new ≡ link.old }
{
    let _words = words;
    let own = match front.net.copied(alloc) {
        Ok(own) => own,
        Err(_) => return Status::OutOfMemory,
    };
    run_on(alloc, &*front.net, own, seed, reader, source, sink, link)
}

// Runs the network that comes before the records over a link, with a reader that has taken nothing.
fn run_read<S: Source, K: Sink, N: Link>(
    alloc: Global,
    words: &[&str],
    seed: u64,
    reader: &mut Reader,
    source: &mut S,
    sink: &mut K,
    link: &mut N,
) -> Status
    requires asks { IsLooping (asked_in words.now) seed }
    requires fresh { (reader.old.rest ≡ []) × (reader.old.ended ≡ false) }
    ensures ends { Ends (record {
      asked = asked_in words.now;
      source = passage S.left S.faults source.old source.new;
      sink = passage K.held K.faults sink.old sink.new;
      link = passage N.told N.faults link.old link.new;
    }) result }
    ensures read { FailsBy Status.ReadFault result (passage S.left S.faults source.old source.new) }
    ensures write { FailsBy Status.WriteFault result (passage K.held K.faults sink.old sink.new) }
    ensures linked { FailsBy Status.LinkFault result (passage N.told N.faults link.old link.new) }
    ensures unstarted { IsUncalled result → link.new ≡ link.old }
{
    match take_front(alloc, words, reader, source, sink) {
        Ok(front) => run_behind(alloc, words, front, seed, reader, source, sink, link),
        Err(status) => status,
    }
}

/// Runs the network that comes before the records over a link, from a seed.
#[inline(never)]
pub fn run_loop<S: Source, K: Sink, N: Link>(
    alloc: Global,
    words: &[&str],
    seed: u64,
    source: &mut S,
    sink: &mut K,
    link: &mut N,
) -> Status
    requires { IsLooping (asked_in words.now) seed }
    ensures ends { Ends (record {
      asked = asked_in words.now;
      source = passage S.left S.faults source.old source.new;
      sink = passage K.held K.faults sink.old sink.new;
      link = passage N.told N.faults link.old link.new;
    }) result }
    ensures read { FailsBy Status.ReadFault result (passage S.left S.faults source.old source.new) }
    ensures write { FailsBy Status.WriteFault result (passage K.held K.faults sink.old sink.new) }
    ensures linked { FailsBy Status.LinkFault result (passage N.told N.faults link.old link.new) }
    ensures unstarted { IsUncalled result → link.new ≡ link.old }
{
    match new_reader(alloc) {
        Ok(mut reader) => run_read(alloc, words, seed, &mut *reader, source, sink, link),
        Err(_) => Status::OutOfMemory,
    }
}
