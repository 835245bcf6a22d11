//! What a packet of a capture carries.
ghost use Rattle.wrp_pcap.specs.Content.{HasContent};

use crate::ethernet::message_in;
use wrp_base::PtpMsg;
use wrp_frame::FrameFault;

/// What a packet carries.
#[derive(Clone, Copy, Debug, PartialEq, Eq)]
pub enum Content {
    /// No PTP frame.
    Other,
    /// A PTP message.
    Message(PtpMsg),
    /// A PTP frame that is no message, for this first fault.
    Fault(FrameFault),
}

/// What a packet carries.
pub fn content_of(packet: &[u8]) -> Content
    ensures { HasContent packet.now result }
{
    match message_in(packet) {
        None => Content::Other,
        Some(Ok(message)) => Content::Message(message),
        Some(Err(fault)) => Content::Fault(fault),
    }
}
