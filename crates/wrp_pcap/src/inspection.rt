//! The packets of a capture as they come: the lines of each, and what is kept of them.
ghost use Rattle.std.specs.Prelude.{◌≡◌, ◌+◌, ◌^◌, ◌<◌, ◌++◌, [], List, IsOk, IsErr, OnOk, OnErr};
ghost use Rattle.wrp_pcap.specs.declared.content.Content.{Content};
ghost use Rattle.wrp_pcap.specs.Content.{messages_of};
ghost use Rattle.wrp_pcap.specs.InspectionAt.{HasTaken, Took, KeepsContent, packets_taken};
ghost use Rattle.wrp_pcap.specs.PacketLines.{told_of, sum_line};

use crate::content::content_of;
use crate::counts::Counts;
use crate::packet_lines::append_content;
use crate::pairs::Pairs;
use crate::{Content, Verdict8};
use std::alloc::{AllocError, Global};

/// The packets of a capture that were taken: the messages that a later WR_MODE_ON needs, and counts.
#[derive(Debug, Drop)]
pub struct Inspection {
    pairs: Pairs,
    counts: Counts,
    lines: Vec<u8>,
}

impl Inspection {
    /// No packets yet.
    pub fn new(alloc: Global) -> Inspection
        ensures taken { HasTaken result [] }
        ensures packets { packets_taken result ≡ 0 }
    {
        Inspection {
            pairs: Pairs::new(alloc),
            counts: Counts::new(),
            lines: Vec::new(alloc),
        }
    }

    /// How many packets were taken.
    pub fn packets(&self) -> u32
        ensures { result ≡ packets_taken self.now }
    {
        self.counts.packets
    }

    /// Takes the octets of the next packet, and appends its lines. An error means that memory ran out;
    /// the packet is then not taken, and the text is as it was.
    pub fn take_packet(&mut self, packet: &[u8], text: &mut Vec<u8>) -> Result<(), AllocError>
        requires { packets_taken self.old + 1 < 2 ^ 32 }
        ensures taken { IsOk result
            → Took packet.now self.old self.new text.old.items text.new.items }
        ensures packets { IsOk result → packets_taken self.new ≡ packets_taken self.old + 1 }
        ensures kept { (before : List Content) → IsErr result → HasTaken self.old before
            → HasTaken self.new before }
        ensures same { IsErr result → text.new.items ≡ text.old.items }
        ensures none { IsErr result → packets_taken self.new ≡ packets_taken self.old }
    {
        let number = self.counts.packets + 1;
        let content = content_of(packet);
        let told = self.told(number, &content);
        self.lines.clear();
        append_content(&mut self.lines, number, &content, told)?;
        let size = text.len();
        text.extend_from_slice(&self.lines)?;
        match self.keep(number, &content) {
            Ok(()) => {
                self.counts = self.counts.with(&content, told);
                Ok(())
            }
            Err(error) => {
                text.truncate(size);
                Err(error)
            }
        }
    }

    // The verdict on what the next packet carries, if there is one.
    fn told(&self, number: u32, content: &Content) -> Option<Verdict8>
        ensures { (before : List Content) → HasTaken self.now before
            → result ≡ told_of number (messages_of before) content.now }
    {
        match content {
            Content::Message(message) => self.pairs.told(number, message),
            _ => None,
        }
    }

    // Keeps what the next packet carries for later ones.
    fn keep(&mut self, number: u32, content: &Content) -> Result<(), AllocError>
        ensures ok { IsOk result → KeepsContent number content.now self.old.pairs self.new.pairs }
        ensures err { (before : List Content) → IsErr result → HasTaken self.old before
            → HasTaken self.new before }
        ensures counts { self.new.counts ≡ self.old.counts }
        ensures lines { self.new.lines ≡ self.old.lines }
    {
        match content {
            Content::Message(message) => self.pairs.keep(number, message),
            _ => Ok(()),
        }
    }

    /// Appends the line after the last packet. `AllocError` if there is no memory for it; the text
    /// keeps its octets.
    pub fn append_sum(&self, text: &mut Vec<u8>) -> Result<(), AllocError>
        ensures ok { (contents : List Content) → HasTaken self.now contents
            → OnOk result (text.new.items ≡ text.old.items ++ sum_line contents) }
        ensures err { OnErr result (text.new.items ≡ text.old.items) }
    {
        self.counts.append(text)
    }
}
