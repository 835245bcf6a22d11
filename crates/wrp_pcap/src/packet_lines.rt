//! The lines of what the packets of a capture carry. If there is no memory for a line, a part of it may
//! have been appended.
ghost use Rattle.std.specs.Prelude.{◌≡◌, ◌++◌, ◌∷◌, [], map, codes, OnOk};
ghost use Rattle.std.specs.Fmt.{decimal};
ghost use Rattle.byteorder.specs.Endian.{big_bytes};
ghost use Rattle.hex.specs.Hex.{encode_lower};
ghost use Rattle.wrp_pcap.specs.PacketLines.{identity, message_words, fault_words};
ghost use Rattle.wrp_records.specs.Words.{line_of};
ghost use Rattle.wrp_pcap.specs.PacketLines.{verdict_words, verdict_line, lines_with, spaced};

use crate::words::{frame_fault_word, kind_word, message_word};
use crate::{Content, Verdict8};
use itoa::Buffer;
use std::alloc::AllocError;
use wrp_base::{Body, PortIdentity, PtpMsg};
use wrp_frame::FrameFault;

// Appends a number.
fn append_number(text: &mut Vec<u8>, number: u32) -> Result<(), AllocError>
    ensures { OnOk result (text.new.items ≡ text.old.items ++ decimal number) }
{
    let mut digits = Buffer::new();
    text.extend_from_slice(digits.format(number).as_bytes())?;
    Ok(())
}

// Appends a space and a word.
fn append_word(text: &mut Vec<u8>, word: &[u8]) -> Result<(), AllocError>
    ensures { OnOk result (text.new.items ≡ text.old.items ++ 32 ∷ word.now) }
{
    text.push(b' ')?;
    text.extend_from_slice(word)?;
    Ok(())
}

// Appends a space and a number.
fn append_number_word(text: &mut Vec<u8>, number: u32) -> Result<(), AllocError>
    ensures { OnOk result (text.new.items ≡ text.old.items ++ 32 ∷ decimal number) }
{
    text.push(b' ')?;
    append_number(text, number)
}

// Appends the end of a line.
fn append_end(text: &mut Vec<u8>) -> Result<(), AllocError>
    ensures { OnOk result (text.new.items ≡ text.old.items ++ 10 ∷ []) }
{
    text.push(b'\n')?;
    Ok(())
}

// The hex digits of a clock.
fn hex_of(clock: u64) -> [u8; 16]
    ensures { result ≡ encode_lower (big_bytes 8 clock) }
{
    let mut digits = [0; 16];
    let _ = hex::encode_to_slice(clock.to_be_bytes(), &mut digits);
    digits
}

// Appends a space and a portIdentity.
fn append_identity(text: &mut Vec<u8>, port: PortIdentity) -> Result<(), AllocError>
    ensures { OnOk result (text.new.items ≡ text.old.items ++ 32 ∷ identity port) }
{
    append_word(text, &hex_of(port.clock))?;
    text.push(b':')?;
    append_number(text, u32::from(port.port))
}

// Appends the line of a message.
fn append_message(text: &mut Vec<u8>, number: u32, message: &PtpMsg) -> Result<(), AllocError>
    ensures { OnOk result (
        text.new.items ≡ text.old.items ++ line_of (message_words number message.now)) }
{
    append_number(text, number)?;
    append_word(text, kind_word(message).as_bytes())?;
    append_identity(text, message.head.source)?;
    append_number_word(text, u32::from(message.head.seq))?;
    if let Some(word) = message_word(message) {
        append_word(text, word.as_bytes())?;
    }
    append_end(text)
}

// Appends the line of a frame that is no message.
fn append_fault(text: &mut Vec<u8>, number: u32, fault: FrameFault) -> Result<(), AllocError>
    ensures { OnOk result (
        text.new.items ≡ text.old.items ++ line_of (fault_words number fault)) }
{
    append_number(text, number)?;
    append_word(text, b"fault")?;
    append_number_word(text, u32::from(fault.number()))?;
    append_word(text, frame_fault_word(fault).as_bytes())?;
    append_end(text)
}

// Appends numbers, a space before each.
fn append_numbers(text: &mut Vec<u8>, numbers: &[u32]) -> Result<(), AllocError>
    ensures { OnOk result (text.new.items ≡ text.old.items ++ spaced (map decimal numbers.now)) }
{
    for number in numbers {
        append_number_word(text, *number)?;
    }
    Ok(())
}

// Appends the words of a verdict, a space before each.
fn append_verdict(text: &mut Vec<u8>, verdict: Verdict8) -> Result<(), AllocError>
    ensures { OnOk result (text.new.items ≡ text.old.items ++ spaced (verdict_words verdict)) }
{
    match verdict {
        Verdict8::Complete(numbers) => {
            append_word(text, b"complete")?;
            append_numbers(text, &numbers)
        }
        Verdict8::Restarted(number) => {
            append_word(text, b"restarted")?;
            append_number_word(text, number)
        }
        Verdict8::Missing(place) => {
            append_word(text, b"missing")?;
            append_number_word(text, u32::from(place))
        }
    }
}

// Appends the line of the verdict on a message from one port to another.
fn append_link(
    text: &mut Vec<u8>,
    number: u32,
    source: PortIdentity,
    target: PortIdentity,
    verdict: Verdict8,
) -> Result<(), AllocError>
    ensures { OnOk result (text.new.items ≡ text.old.items ++ line_of (decimal number
        ∷ codes "link" ∷ identity source ∷ identity target ∷ verdict_words verdict)) }
{
    append_number(text, number)?;
    append_word(text, b"link")?;
    append_identity(text, source)?;
    append_identity(text, target)?;
    append_verdict(text, verdict)?;
    append_end(text)?;
    Ok(())
}

// Appends the line of the verdict on a message, if there is one.
fn append_told(
    text: &mut Vec<u8>,
    number: u32,
    message: &PtpMsg,
    told: Option<Verdict8>,
) -> Result<(), AllocError>
    ensures { OnOk result (text.new.items ≡ text.old.items
        ++ verdict_line number message.now.head.source message.now.body told) }
{
    match (message.body, told) {
        (Body::Signal { target, .. }, Some(verdict)) => {
            append_link(text, number, message.head.source, target, verdict)
        }
        _ => Ok(()),
    }
}

/// Appends the lines of what the packet with this number carries, with the verdict on it.
pub(crate) fn append_content(
    text: &mut Vec<u8>,
    number: u32,
    content: &Content,
    told: Option<Verdict8>,
) -> Result<(), AllocError>
    ensures { OnOk result (
        text.new.items ≡ text.old.items ++ lines_with number content.now told) }
{
    match content {
        Content::Other => Ok(()),
        Content::Message(message) => {
            append_message(text, number, message)?;
            append_told(text, number, message, told)
        }
        Content::Fault(fault) => append_fault(text, number, *fault),
    }
}
