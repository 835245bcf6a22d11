//! What an Ethernet packet carries (IEEE 802.3, IEEE 802.1Q).
ghost use Rattle.std.specs.Prelude.{◌≡◌, ◌↔◌, ◌≤◌, ◌+◌, ℕ, List, length, IsNone, Some, Ok, Err, option_map};
ghost use Rattle.wrp_pcap.specs.Ethernet.{type_at, Carries, CarriesNone};
ghost use Rattle.wrp_pcap.specs.Ethernet.{CarriesMessage, CarriesFault};

use byteorder::{BigEndian, ByteOrder};
use wrp_base::PtpMsg;
use wrp_frame::{FrameFault, decode};

// After the two addresses: the place of the EtherType, or of a VLAN tag.
const TYPE_AT: usize = 12;
// The place of the EtherType after a VLAN tag.
const TAGGED_TYPE_AT: usize = 16;
// The octets of an EtherType.
const TYPE_LENGTH: usize = 2;
// The EtherType of a VLAN tag.
const VLAN_TAG: u16 = 0x8100;
// The EtherType of PTP.
const PTP: u16 = 0x88F7;

/// The PTP frame that a packet carries, which may have no octets, or more than a frame has room for;
/// None if and only if its EtherType is another one, or cut. One VLAN tag is skipped.
pub fn frame_of(packet: &[u8]) -> Option<&[u8]>
    ensures { (frame : List ℕ)
        → (option_map (λ octets. octets.now) result ≡ Some frame) ↔ Carries packet.now frame }
{
    if packet.len() < TYPE_AT + TYPE_LENGTH {
        return None;
    }
    let at = if type_at(packet, TYPE_AT) == VLAN_TAG {
        TAGGED_TYPE_AT
    } else {
        TYPE_AT
    };
    if packet.len() < at + TYPE_LENGTH || type_at(packet, at) != PTP {
        return None;
    }
    Some(&packet[at + TYPE_LENGTH..])
}

/// The message in the PTP frame that a packet carries, or the first fault of that frame; None if and
/// only if the packet carries no PTP frame.
pub fn message_in(packet: &[u8]) -> Option<Result<PtpMsg, FrameFault>>
    ensures message { (message : PtpMsg)
        → (result ≡ Some (Ok message)) ↔ CarriesMessage packet.now message }
    ensures fault { (fault : FrameFault)
        → (result ≡ Some (Err fault)) ↔ CarriesFault packet.now fault }
    ensures none { IsNone result ↔ CarriesNone packet.now }
{
    match frame_of(packet) {
        Some(frame) => Some(decode(frame)),
        None => None,
    }
}

// The EtherType at a place.
fn type_at(packet: &[u8], at: usize) -> u16
    requires { at + 2 ≤ length packet.now }
    ensures { result ≡ type_at at packet.now }
{
    BigEndian::read_u16(&packet[at..])
}
