//! The inspection of a capture that comes from a source in pieces: its packets are taken as they come,
//! and their lines are written, once for what is held, before the source is asked for more.
ghost use Rattle.std.specs.Prelude.{◌≡◌, ◌≢◌, ◌⊎◌, ℕ, ◌+◌, ◌^◌, ◌<◌, ◌≤◌, ◌++◌, ◌∷◌, Bool, true, false, codes, MatchOption, [], List, length, OnOk, OnErr};
ghost use Rattle.wrp_io.specs.Faults.{Rose};
ghost use Rattle.wrp_records.specs.Engine.{Finishes};
ghost use Rattle.std.specs.Fmt.{decimal};
ghost use Rattle.wrp_records.specs.Stream.{large_line};
ghost use Rattle.wrp_records.specs.Words.{line_of};
ghost use Rattle.wrp_pcap.specs.PacketLines.{sum_line};
ghost use Rattle.wrp_records.specs.Passages.{FailsBy, Passes, PassesAll, passage};
ghost use Rattle.wrp_pcap.specs.declared.capture.Order.{Order};
ghost use Rattle.wrp_pcap.specs.declared.content.Content.{Content};
ghost use Rattle.wrp_pcap.specs.Capture.{HasPacketFault, IsCut};
ghost use Rattle.wrp_pcap.specs.Inspected.{bad_capture_line, capture};
ghost use Rattle.wrp_pcap.specs.InspectionAt.{HasTaken, packets_taken};
ghost use Rattle.wrp_pcap.specs.Inspecting.{FillsHeader, IsBehindHeader, Stops};
ghost use Rattle.wrp_pcap.specs.Inspecting.{TellsBehind, TellsHeader, piece_limit};

use crate::capture::{CaptureFault, Front, HEADER_LENGTH, Order, header, in_front};
use crate::inspection::Inspection;
use crate::pieces::{Pieces, Refilled};
use crate::taking::{Stop, is_more, take_held};
use itoa::Buffer;
use std::alloc::{AllocError, Global};
use wrp_io::{Sink, Source};
use wrp_records::{Status, append_large, append_words, write_all};

// The number that no packet may have.
const TOO_GREAT: u64 = 4_294_967_296;

// Appends the line that names the refusal of a capture. If there is no memory for it, the text keeps
// its octets.
fn append_bad_capture(
    text: &mut Vec<u8>,
    packet: u32,
    fault: CaptureFault,
) -> Result<(), AllocError>
    ensures ok { OnOk result (text.new.items ≡ text.old.items
        ++ bad_capture_line (record { packet = packet; fault = fault })) }
    ensures err { OnErr result (text.new.items ≡ text.old.items) }
{
    append_refusal(text, packet, fault.number(), fault.name())
}

// Appends the line of a refusal at a packet, by its number and its name.
fn append_refusal(text: &mut Vec<u8>, packet: u32, number: u8, name: &str) -> Result<(), AllocError>
    ensures ok { OnOk result (text.new.items ≡ text.old.items ++ line_of
        (codes "bad-capture" ∷ decimal packet ∷ decimal number ∷ name.now ∷ [])) }
    ensures err { OnErr result (text.new.items ≡ text.old.items) }
{
    let mut packets = Buffer::new();
    let mut numbers = Buffer::new();
    append_words(
        text,
        &[
            "bad-capture",
            packets.format(packet),
            numbers.format(number),
            name,
        ],
    )
}

// Names the fault of the packet after this many packets.
fn tell_fault(waiting: &mut Vec<u8>, packets: u32, fault: CaptureFault) -> Status
    requires { packets + 1 < 2 ^ 32 }
    ensures told { result ≡ Status.BadCapture → waiting.new.items ≡ waiting.old.items
        ++ bad_capture_line (record { packet = packets + 1; fault = fault }) }
    ensures memory { result ≡ Status.OutOfMemory → waiting.new.items ≡ waiting.old.items }
    ensures either { (result ≡ Status.BadCapture) ⊎ (result ≡ Status.OutOfMemory) }
{
    match append_bad_capture(waiting, packets + 1, fault) {
        Ok(()) => Status::BadCapture,
        Err(_) => Status::OutOfMemory,
    }
}

// Names the packet with too great a number.
fn tell_large(alloc: Global, waiting: &mut Vec<u8>) -> Status
    ensures told { result ≡ Status.TooLarge
        → waiting.new.items ≡ waiting.old.items ++ large_line (2 ^ 32) }
    ensures memory { result ≡ Status.OutOfMemory → waiting.new.items ≡ waiting.old.items }
    ensures either { (result ≡ Status.TooLarge) ⊎ (result ≡ Status.OutOfMemory) }
{
    match append_large(alloc, waiting, TOO_GREAT) {
        Ok(()) => Status::TooLarge,
        Err(_) => Status::OutOfMemory,
    }
}

// Names what stops the inspection before the end of the input, after this many packets.
fn tell_stop(alloc: Global, waiting: &mut Vec<u8>, packets: u32, stop: Stop) -> Status
    requires { stop ≡ Stop.Long → packets + 1 < 2 ^ 32 }
    ensures tells { (order : Order) (rest : List ℕ) (contents : List Content)
        → packets ≡ length contents → Stops order packets rest stop
        → TellsBehind order contents rest false result waiting.old.items waiting.new.items }
    ensures never { result ≢ Status.WriteFault }
{
    match stop {
        Stop::Long => tell_fault(waiting, packets, CaptureFault::Long),
        Stop::TooLarge => tell_large(alloc, waiting),
        Stop::More | Stop::Memory => Status::OutOfMemory,
    }
}

// Appends the counts of the packets.
fn tell_sum(inspection: &Inspection, waiting: &mut Vec<u8>) -> Status
    ensures told { (contents : List Content) → result ≡ Status.Done → HasTaken inspection.now contents
        → waiting.new.items ≡ waiting.old.items ++ sum_line contents }
    ensures memory { result ≡ Status.OutOfMemory → waiting.new.items ≡ waiting.old.items }
    ensures either { (result ≡ Status.Done) ⊎ (result ≡ Status.OutOfMemory) }
{
    match inspection.append_sum(waiting) {
        Ok(()) => Status::Done,
        Err(_) => Status::OutOfMemory,
    }
}

// The fault of octets that are less than a packet, if the input ended after them; None if there are
// none.
fn fault_at_end(order: Order, held: &[u8]) -> Option<CaptureFault>
    requires { IsCut order held.now }
    ensures { MatchOption result (held.now ≡ []) (λ fault. HasPacketFault fault order held.now) }
{
    match in_front(order, held, true) {
        Front::Refused(fault) => Some(fault),
        Front::End => None,
        Front::Whole(_) => None,
        Front::More => None,
    }
}

// Appends what is written last if the input ended after the octets that are held, which are no whole
// packet.
fn tell_end(order: Order, held: &[u8], inspection: &Inspection, waiting: &mut Vec<u8>) -> Status
    requires more { Stops order (packets_taken inspection.now) held.now Stop.More }
    ensures tells { (contents : List Content) → HasTaken inspection.now contents
        → TellsBehind order contents held.now true result waiting.old.items waiting.new.items }
    ensures never { result ≢ Status.WriteFault }
{
    match fault_at_end(order, held) {
        Some(fault) => tell_fault(waiting, inspection.packets(), fault),
        None => tell_sum(inspection, waiting),
    }
}

// Writes what waits, and answers the status that it goes with, or WriteFault.
fn finish<K: Sink>(sink: &mut K, waiting: &[u8], status: Status) -> Status
    requires { status ≢ Status.WriteFault }
    ensures how { Finishes status result (K.held sink.old) (K.held sink.new) waiting.now }
    ensures write { FailsBy Status.WriteFault result (passage K.held K.faults sink.old sink.new) }
{
    if write_all(sink, waiting) {
        status
    } else {
        Status::WriteFault
    }
}

// Names the fault of a header.
fn refuse_header<K: Sink>(alloc: Global, sink: &mut K, fault: CaptureFault) -> Status
    ensures how { TellsHeader fault result (K.held sink.old) (K.held sink.new) }
    ensures write { FailsBy Status.WriteFault result (passage K.held K.faults sink.old sink.new) }
{
    let mut line = Vec::new(alloc);
    match append_bad_capture(&mut line, 0, fault) {
        Ok(()) => finish(sink, &line, Status::BadCapture),
        Err(_) => Status::OutOfMemory,
    }
}

// Takes pieces until as many octets are held as a header has.
fn fill_header<S: Source>(pieces: &mut Pieces, source: &mut S) -> Refilled
    requires { pieces.old ≡ [] }
    ensures fills { FillsHeader (S.left source.old) (S.left source.new) pieces.new result }
    ensures rose { result ≡ Refilled.Failed → Rose (S.faults source.old) (S.faults source.new) }
    ensures kept { (result ≡ Refilled.Failed → ⊥) → S.faults source.new ≡ S.faults source.old }
{
    'pieces: loop {
        if pieces.held().len() >= HEADER_LENGTH {
            return Refilled::Piece;
        }
        match pieces.refill(source) {
            Refilled::Piece => {}
            Refilled::End => return Refilled::End,
            Refilled::Failed => return Refilled::Failed,
            Refilled::Memory => return Refilled::Memory,
        }
    }
}

// Inspects what follows the header: the octets that are held, and what the source has left.
fn inspect_packets<S: Source, K: Sink>(
    alloc: Global,
    order: Order,
    pieces: &mut Pieces,
    source: &mut S,
    sink: &mut K,
) -> Status
    ensures passes { (start : List ℕ) → IsBehindHeader order start pieces.old
        → (ended : Bool) × Passes capture (passage S.left S.faults source.old source.new)
        (passage K.held K.faults sink.old sink.new) start false ended [] result }
{
    let mut inspection = Inspection::new(alloc);
    let mut waiting = Vec::new(alloc);
    'pieces: loop {
        let stop = take_held(order, pieces, &mut inspection, &mut waiting);
        if !is_more(stop) {
            let status = tell_stop(alloc, &mut waiting, inspection.packets(), stop);
            return finish(sink, &waiting, status);
        }
        if !write_all(sink, &waiting) {
            return Status::WriteFault;
        }
        waiting.clear();
        match pieces.refill(source) {
            Refilled::Piece => {}
            Refilled::End => {
                let status = tell_end(order, pieces.held(), &inspection, &mut waiting);
                return finish(sink, &waiting, status);
            }
            Refilled::Failed => return Status::ReadFault,
            Refilled::Memory => return Status::OutOfMemory,
        }
    }
}

// Inspects a capture of which at least as many octets are held as a header has.
fn inspect_held<S: Source, K: Sink>(
    alloc: Global,
    pieces: &mut Pieces,
    source: &mut S,
    sink: &mut K,
) -> Status
    requires whole { 24 ≤ length pieces.old }
    requires piece { length pieces.old ≤ 24 + piece_limit }
    ensures passes { (ended : Bool) × Passes capture
        (passage S.left S.faults source.old source.new)
        (passage K.held K.faults sink.old sink.new) pieces.old false ended [] result }
{
    match header(pieces.held()) {
        Ok(order) => {
            pieces.pass(HEADER_LENGTH);
            inspect_packets(alloc, order, pieces, source, sink)
        }
        Err(fault) => refuse_header(alloc, sink, fault),
    }
}

/// Inspects the capture that a source gives: takes its packets as they come, and writes the lines of each
/// before it asks the source for more.
pub fn inspect<S: Source, K: Sink>(alloc: Global, source: &mut S, sink: &mut K) -> Status
    ensures passes { PassesAll capture (passage S.left S.faults source.old source.new)
        (passage K.held K.faults sink.old sink.new) result }
{
    let mut pieces = Pieces::new(alloc);
    match fill_header(&mut pieces, source) {
        Refilled::Piece => inspect_held(alloc, &mut pieces, source, sink),
        Refilled::End => refuse_header(alloc, sink, CaptureFault::Magic),
        Refilled::Failed => Status::ReadFault,
        Refilled::Memory => Status::OutOfMemory,
    }
}
