//! Octets in a line, as hex digits.
ghost use Rattle.std.specs.Prelude.{◌≡◌, ◌≤◌, length};
ghost use Rattle.wrp_trace.specs.Digits.{octets_of, frame_of, bits_of};

use byteorder::{BigEndian, ByteOrder};
use wrp_base::{FRAME_ROOM, Frame};

// The octets of BITS.
const BITS_ROOM: usize = 8;

/// The octets of HEX: two digits of either case for each, at most 256. None if the text is not such
/// hex.
#[tactic(auto, using(crate::proofs::DigitLemmas::too_long))]
pub fn octets(text: &[u8]) -> Option<Frame>
    ensures { result ≡ frame_of text.now }
{
    let size = text.len() / 2;
    if size > FRAME_ROOM {
        return None;
    }
    let mut room = [0u8; FRAME_ROOM];
    let octets = &mut room[..size];
    if hex::decode_to_slice(text, octets).is_err() {
        return None;
    }
    Some(frame(octets))
}

// A frame of some octets.
fn frame(octets: &[u8]) -> Frame
    requires { length octets.now ≤ 256 }
    ensures { result.items ≡ octets.now }
{
    let mut frame = Frame::new();
    let _fits = frame.try_extend_from_slice(octets);
    frame
}

/// The number of BITS: 16 digits of either case, the most significant first. None if the text is
/// anything else.
#[tactic(auto, using(crate::proofs::DigitLemmas::not_eight))]
pub fn bits(text: &[u8]) -> Option<u64>
    ensures { result ≡ bits_of text.now }
{
    let mut octets = [0u8; BITS_ROOM];
    if hex::decode_to_slice(text, octets.as_mut_slice()).is_err() {
        return None;
    }
    Some(BigEndian::read_u64(octets.as_slice()))
}
