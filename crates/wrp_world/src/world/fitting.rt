//! The numbers of an event, and what its octets spell.
ghost use Rattle.std.specs.Prelude.{◌≤◌, length};
ghost use Rattle.wrp_base.specs.Octets.{AreOctets};
ghost use Rattle.wrp_course.specs.EventAt.{FitsEvent};
ghost use Rattle.wrp_course.specs.Run.{IsSaid};
ghost use Rattle.wrp_frame.specs.Saying.{Says};

use wrp_base::{Frame, PtpMsg};
use wrp_course::Event;
use wrp_frame::{FrameFault, decode};

// Octets are below 256.
fn are_octets(octets: &[u8])
    ensures { AreOctets octets.now }
{
    let _count = octets.len();
}

// The octets of a frame are below 256, and a frame has at most 256 of them.
fn octets_fit(bytes: &Frame)
    ensures { AreOctets bytes.now.items × (length bytes.now.items ≤ 256) }
{
    are_octets(bytes.as_slice());
}

/// An event's numbers fit the types that hold them.
pub(super) fn event_fits(event: &Event)
    ensures { FitsEvent event.now }
{
    match event {
        Event::Sample { bits, .. } => {
            let _bits = *bits;
        }
        Event::Depart { port, .. } => {
            let _port = *port;
        }
        Event::Arrive { frame, .. } | Event::Deliver { frame } => {
            let _frame = *frame;
        }
        Event::Noise { port, bytes, .. } => {
            let _port = *port;
            octets_fit(bytes);
        }
        Event::Up { swaps, .. } => {
            let _count = swaps.len();
        }
        _ => {}
    }
}

// What octets spell.
fn read(bytes: &Frame) -> Result<PtpMsg, FrameFault>
    ensures { Says bytes.now.items result }
{
    decode(bytes.as_slice())
}

/// What the octets of an event spell that the peer did not send. A fault if the event has no such
/// octets.
pub(super) fn said(event: &Event) -> Result<PtpMsg, FrameFault>
    ensures { IsSaid event.now result }
{
    match event {
        Event::Noise { bytes, .. } => read(bytes),
        _ => Err(FrameFault::Short),
    }
}
