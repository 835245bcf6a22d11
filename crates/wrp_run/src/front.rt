//! What comes before the records of a command on a network: the network text.
ghost use Rattle.std.specs.Prelude.{◌≡◌, Err, IfErr, IfOk, List, Ok, OnOk, [], false, ℕ};
ghost use Rattle.std.specs.Io.KnownBytes.{IsAtEnd};
ghost use Rattle.wrp_config.specs.Accepted.{IsAccepted};
ghost use Rattle.wrp_network_text.specs.Reading.{IsReadingOf};
ghost use Rattle.wrp_records.specs.declared.status.Status.{Status};
ghost use Rattle.wrp_records.specs.Passages.{FailsBy, passage};
ghost use Rattle.wrp_asked.specs.Answer.{IsNetworked};
ghost use Rattle.wrp_run.specs.Asked.{IsFront};
ghost use Rattle.wrp_asked.specs.Ends.{EndsUnlinked};
ghost use Rattle.wrp_words.specs.Requests.{asked_in};

use std::alloc::{AllocError, Global};
use wrp_asked::{HowItEnded, NetworkText, take_network};
use wrp_base::ConfFault;
use wrp_config::Network;
use wrp_io::{Sink, Source};
use wrp_network_text::ReadNetwork;
use wrp_records::{Reader, Status, TOO_LARGE_LINE, answer, refuse_network};

/// The network that comes before the records, and its text.
#[derive(Drop)]
pub struct Front {
    /// The network, on the heap, because it is large.
    pub net: Box<Network>,
    /// Its text.
    pub text: Vec<u8>,
}

/// A reader that has taken nothing, on the heap: no frame of a caller has room for its piece.
/// `AllocError` if the heap has no room for it.
#[inline(never)]
pub fn new_reader(alloc: Global) -> Result<Box<Reader>, AllocError>
    ensures { IfOk result (λ reader. (reader.value.rest ≡ []) × (reader.value.ended ≡ false)) }
{
    Ok(Box::new(alloc, Reader::new())?)
}

/// Reads a network, and keeps it on the heap. No frame of a caller has room for one. The error is
/// the first fault that the text has as a network file, or that memory ran out.
#[inline(never)]
pub fn read_network(alloc: Global, text: &[u8]) -> Result<Box<Network>, ConfFault>
    ensures reads { IfOk result (λ net. IsReadingOf text.now (Ok net.value)) }
    ensures refused { IfErr result (λ fault. IsReadingOf text.now (Err fault)) }
    ensures accepted { IfOk result (λ net. IsAccepted net.value.cfg net.value.db) }
{
    match Network::read(alloc, text) {
        Ok(net) => match Box::new(alloc, net) {
            Ok(net) => Ok(net),
            Err(_) => Err(ConfFault::Memory(AllocError)),
        },
        Err(fault) => Err(fault),
    }
}

/// Takes the network text from a source, and reads it. If the text is refused or cannot be taken, the run ends
/// with this status.
pub fn take_front<S: Source, K: Sink>(
    alloc: Global,
    words: &[&str],
    reader: &mut Reader,
    source: &mut S,
    sink: &mut K,
) -> Result<Front, Status>
    requires fresh { (reader.old.rest ≡ []) × (reader.old.ended ≡ false) }
    requires networked { IsNetworked (asked_in words.now) }
    ensures front { IfOk result (λ front. IsFront (S.left source.old) (S.left source.new)
        front.text.items reader.new front.net.value) }
    ensures accepted { IfOk result (λ front. IsAccepted front.net.value.cfg front.net.value.db) }
    ensures source { OnOk result (S.faults source.new ≡ S.faults source.old) }
    ensures sink { OnOk result (sink.new ≡ sink.old) }
    ensures ends { IfErr result (EndsUnlinked (asked_in words.now)
        (passage S.left S.faults source.old source.new) (passage K.held K.faults sink.old sink.new)) }
    ensures read { IfErr result (λ status. FailsBy Status.ReadFault status
        (passage S.left S.faults source.old source.new)) }
    ensures write { IfErr result (λ status. FailsBy Status.WriteFault status
        (passage K.held K.faults sink.old sink.new)) }
{
    let _words = words;
    let NetworkText { text, end } = take_network(alloc, reader, source);
    match end {
        HowItEnded::TooLong => return Err(answer(
            sink,
            Status::TooLarge,
            TOO_LARGE_LINE.as_bytes(),
        )),
        HowItEnded::Failed => return Err(Status::ReadFault),
        HowItEnded::Memory => return Err(Status::OutOfMemory),
        HowItEnded::Whole => {}
    }
    match read_network(alloc, &text) {
        Ok(net) => Ok(Front { net, text }),
        Err(fault) => Err(refuse_network(alloc, sink, &fault)),
    }
}
