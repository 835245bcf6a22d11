//! What is counted of the packets of a capture.
ghost use Rattle.std.specs.Prelude.{◌≡◌, ◌+◌, ◌-◌, ◌^◌, min, if◌then◌else◌, ◌<◌, ◌++◌, ◌∷◌, [], List, length, OnOk, OnErr};
ghost use Rattle.wrp_pcap.specs.declared.content.Content.{Content};
ghost use Rattle.wrp_pcap.specs.Content.{messages_of};
ghost use Rattle.wrp_pcap.specs.InspectionAt.{AreCounts};
ghost use Rattle.wrp_pcap.specs.PacketLines.{is_complete, told_of, sum_line};

use crate::{Content, Verdict8};
use itoa::Buffer;
use std::alloc::AllocError;
use wrp_records::append_words;

/// How many packets there are, how many of them carry a message, no PTP frame, or a frame that is no
/// message, and for how many the verdict is `complete`.
#[derive(Clone, Copy, Debug, PartialEq, Eq)]
pub(crate) struct Counts {
    pub packets: u32,
    pub messages: u32,
    pub others: u32,
    pub faults: u32,
    pub complete: u32,
}

impl Counts {
    /// No packets yet.
    pub fn new() -> Counts
        ensures { AreCounts result [] }
    {
        Counts {
            packets: 0,
            messages: 0,
            others: 0,
            faults: 0,
            complete: 0,
        }
    }

    /// With one more packet, by what it carries and the verdict on it.
    pub fn with(self, content: &Content, told: Option<Verdict8>) -> Counts
        requires { self.packets + 1 < 2 ^ 32 }
        ensures counts { (before : List Content) → AreCounts self before
            → told ≡ told_of (length before + 1) (messages_of before) content.now
            → AreCounts result (content.now ∷ before) }
        ensures packets { result.packets ≡ self.packets + 1 }
    {
        let counts = Counts {
            packets: self.packets + 1,
            complete: self.complete_with(told),
            ..self
        };
        match content {
            Content::Message(_) => Counts {
                messages: self.messages.saturating_add(1),
                ..counts
            },
            Content::Fault(_) => Counts {
                faults: self.faults.saturating_add(1),
                ..counts
            },
            Content::Other => Counts {
                others: self.others.saturating_add(1),
                ..counts
            },
        }
    }

    // For how many packets the verdict is `complete`, with this one.
    fn complete_with(self, told: Option<Verdict8>) -> u32
        ensures { result ≡ (if is_complete told then min (self.complete + 1) (2 ^ 32 - 1) else self.complete) }
    {
        match told {
            Some(Verdict8::Complete(_)) => self.complete.saturating_add(1),
            _ => self.complete,
        }
    }

    /// Appends the line after the last packet. `AllocError` if there is no memory for it; the text
    /// keeps its octets.
    pub fn append(self, text: &mut Vec<u8>) -> Result<(), AllocError>
        ensures ok { (contents : List Content) → AreCounts self contents
            → OnOk result (text.new.items ≡ text.old.items ++ sum_line contents) }
        ensures err { OnErr result (text.new.items ≡ text.old.items) }
    {
        let mut packets = Buffer::new();
        let mut messages = Buffer::new();
        let mut others = Buffer::new();
        let mut faults = Buffer::new();
        let mut complete = Buffer::new();
        append_words(
            text,
            &[
                "sum",
                packets.format(self.packets),
                messages.format(self.messages),
                others.format(self.others),
                faults.format(self.faults),
                complete.format(self.complete),
            ],
        )
    }
}
