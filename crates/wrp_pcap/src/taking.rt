//! The held packets of a capture, taken one after the other.
ghost use Rattle.std.specs.Prelude.{◌≡◌, ℕ, ◌+◌, ◌^◌, ◌<◌, ◌≤◌, true, List, length, IsOk};
ghost use Rattle.wrp_pcap.specs.Capture.{IsWhole};
ghost use Rattle.wrp_pcap.specs.InspectionAt.{packets_taken};
ghost use Rattle.wrp_pcap.specs.Inspecting.{IsNextStep, Reached, Stops, weight};

use crate::capture::{Front, NUMBERS_LENGTH, Order, captured_len, in_front};
use crate::inspection::Inspection;
use crate::pieces::Pieces;
use std::alloc::AllocError;

// What comes next in the octets that are held.
#[derive(Clone, Copy)]
enum Step {
    // A whole packet.
    Packet,
    // Less than a packet.
    More,
    // A packet that is too long.
    Long,
    // A packet with too great a number.
    TooLarge,
}

/// Why no more of the held octets is taken.
#[derive(Clone, Copy)]
pub(crate) enum Stop {
    /// Less than a packet is left.
    More,
    /// The next packet is too long.
    Long,
    /// The next packet has too great a number.
    TooLarge,
    /// Memory ran out.
    Memory,
}

// What comes next after this many packets.
fn next_step(order: Order, held: &[u8], packets: u32) -> Step
    ensures { IsNextStep order packets held.now result }
{
    if packets == u32::MAX {
        return if held.is_empty() {
            Step::More
        } else {
            Step::TooLarge
        };
    }
    match in_front(order, held, false) {
        Front::Whole(_) => Step::Packet,
        Front::Refused(_) => Step::Long,
        Front::More => Step::More,
        Front::End => Step::More,
    }
}

/// Whether less than a packet is left.
pub(crate) fn is_more(stop: Stop) -> bool
    ensures { result ≡ true → stop ≡ Stop.More }
{
    match stop {
        Stop::More => true,
        Stop::Long => false,
        Stop::TooLarge => false,
        Stop::Memory => false,
    }
}

// Takes the packet with which the held octets begin, and appends its lines to what waits. If memory
// runs out, nothing is taken.
fn take_first(
    order: Order,
    pieces: &mut Pieces,
    inspection: &mut Inspection,
    waiting: &mut Vec<u8>,
) -> Result<(), AllocError>
    requires whole { IsWhole order pieces.old }
    requires room { packets_taken inspection.old + 1 < 2 ^ 32 }
    ensures stands { (taken out : List ℕ)
        → Reached order taken out inspection.old pieces.old waiting.old.items
        → Reached order taken out inspection.new pieces.new waiting.new.items }
    ensures fewer { IsOk result → length pieces.new < length pieces.old }
    ensures few { packets_taken inspection.new < 2 ^ 32 }
    ensures weight { weight inspection.old pieces.old ≤ weight inspection.new pieces.new }
{
    let size = captured_len(order, pieces.held()) as usize;
    let packet = &pieces.held()[NUMBERS_LENGTH..NUMBERS_LENGTH + size];
    inspection.take_packet(packet, waiting)?;
    pieces.pass(NUMBERS_LENGTH + size);
    Ok(())
}

/// Takes the packets that are held, one after the other, up to the first that is not whole.
pub(crate) fn take_held(
    order: Order,
    pieces: &mut Pieces,
    inspection: &mut Inspection,
    waiting: &mut Vec<u8>,
) -> Stop
    ensures stands { (taken out : List ℕ)
        → Reached order taken out inspection.old pieces.old waiting.old.items
        → Reached order taken out inspection.new pieces.new waiting.new.items }
    ensures stops { Stops order (packets_taken inspection.new) pieces.new result }
    ensures few { packets_taken inspection.new < 2 ^ 32 }
    ensures weight { weight inspection.old pieces.old ≤ weight inspection.new pieces.new }
{
    'packets: loop {
        match next_step(order, pieces.held(), inspection.packets()) {
            Step::Packet => {
                if take_first(order, pieces, inspection, waiting).is_err() {
                    return Stop::Memory;
                }
            }
            Step::More => return Stop::More,
            Step::Long => return Stop::Long,
            Step::TooLarge => return Stop::TooLarge,
        }
    }
}
