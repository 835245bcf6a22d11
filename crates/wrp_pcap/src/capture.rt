//! The octets of a classic libpcap capture file: its header, and what the remaining octets begin with.
ghost use Rattle.std.specs.Prelude.{◌≡◌, ◌↔◌, ◌≤◌, ◌+◌, length, IfOk, IfErr};
ghost use Rattle.wrp_pcap.specs.Capture.{order_by, number_at, captured, number_of, name_of};
ghost use Rattle.wrp_pcap.specs.Capture.{HasHeader, HasHeaderFault, IsFront};

use byteorder::{BigEndian, ByteOrder, LittleEndian};

/// The octets of a capture's header.
pub const HEADER_LENGTH: usize = 24;
/// The octets of the four numbers in front of a packet's own octets.
pub const NUMBERS_LENGTH: usize = 16;
/// The most octets that a packet may have.
pub const LONGEST: u32 = 262_144;

// The place of the link type in the header.
const LINK_TYPE_AT: usize = 20;
// The link type of Ethernet.
const ETHERNET: u32 = 1;
// The place of the captured length among a packet's numbers.
const CAPTURED_AT: usize = 8;

/// The order of the octets of each number of a capture.
#[derive(Clone, Copy, Debug, PartialEq, Eq)]
pub enum Order {
    /// The highest octet first.
    Big,
    /// The lowest octet first.
    Little,
}

/// Why octets are no capture.
#[derive(Clone, Copy, Debug, PartialEq, Eq)]
pub enum CaptureFault {
    /// 1: there are fewer than the 24 octets of the header, or it begins with no magic.
    Magic,
    /// 2: the link type is not Ethernet.
    LinkType,
    /// 3: 1 to 15 octets are left, too few for a packet's numbers.
    Header,
    /// 4: fewer octets are left than the packet's captured length.
    Packet,
    /// 5: the captured length is over 262,144.
    Long,
}

impl CaptureFault {
    /// The number of the fault: 1 to 5.
    pub fn number(self) -> u8
        ensures { result ≡ number_of self }
    {
        match self {
            CaptureFault::Magic => 1,
            CaptureFault::LinkType => 2,
            CaptureFault::Header => 3,
            CaptureFault::Packet => 4,
            CaptureFault::Long => 5,
        }
    }

    /// The name of the fault.
    pub fn name(self) -> &'static str
        ensures { result.now ≡ name_of self }
    {
        match self {
            CaptureFault::Magic => "Magic",
            CaptureFault::LinkType => "LinkType",
            CaptureFault::Header => "Header",
            CaptureFault::Packet => "Packet",
            CaptureFault::Long => "Long",
        }
    }
}

/// What the remaining octets of a capture begin with, after its header or after a whole packet.
#[derive(Clone, Copy, Debug, PartialEq, Eq)]
pub enum Front {
    /// The end: nothing is left, and nothing follows.
    End,
    /// A whole packet: 16 octets of numbers, and then this many.
    Whole(u32),
    /// Octets that are refused, whatever follows them.
    Refused(CaptureFault),
    /// Less than a packet: what follows decides.
    More,
}

/// The packet at which a capture is refused, and why.
#[derive(Clone, Copy, Debug, PartialEq, Eq)]
pub struct Refusal {
    /// The packet, counted from 1; 0 for the header.
    pub packet: usize,
    /// The fault.
    pub fault: CaptureFault,
}

// The order that the first four octets give; `magic` is their number, the highest octet first.
fn order_by(magic: u32) -> Option<Order>
    ensures { result ≡ order_by magic }
{
    match magic {
        0xA1B2_C3D4 | 0xA1B2_3C4D => Some(Order::Big),
        0xD4C3_B2A1 | 0x4D3C_B2A1 => Some(Order::Little),
        _ => None,
    }
}

// The number in the 4 octets from `at` on.
fn number_at(order: Order, octets: &[u8], at: usize) -> u32
    requires { at + 4 ≤ length octets.now }
    ensures { result ≡ number_at order at octets.now }
{
    match order {
        Order::Big => BigEndian::read_u32(&octets[at..]),
        Order::Little => LittleEndian::read_u32(&octets[at..]),
    }
}

/// The order of all numbers of the capture that begins with these octets. `Magic` if they are fewer
/// than 24, or begin with no magic; otherwise `LinkType` if the link type is not Ethernet.
pub fn header(octets: &[u8]) -> Result<Order, CaptureFault>
    ensures ok { (order : Order) → (result ≡ Ok order) ↔ HasHeader order octets.now }
    ensures refused { (fault : CaptureFault)
        → (result ≡ Err fault) ↔ HasHeaderFault fault octets.now }
{
    read_header(octets)
}

// Reads the magic, then the link type.
fn read_header(octets: &[u8]) -> Result<Order, CaptureFault>
    ensures ok { IfOk result (λ order. HasHeader order octets.now) }
    ensures err { IfErr result (λ fault. HasHeaderFault fault octets.now) }
{
    if octets.len() < HEADER_LENGTH {
        return Err(CaptureFault::Magic);
    }
    let Some(order) = order_by(BigEndian::read_u32(octets)) else {
        return Err(CaptureFault::Magic);
    };
    if number_at(order, octets, LINK_TYPE_AT) != ETHERNET {
        return Err(CaptureFault::LinkType);
    }
    Ok(order)
}

/// The captured length of a packet, by the 16 octets of its numbers.
pub fn captured_len(order: Order, octets: &[u8]) -> u32
    requires { 16 ≤ length octets.now }
    ensures { result ≡ captured order octets.now }
{
    number_at(order, octets, CAPTURED_AT)
}

/// What the remaining octets begin with, after the header or after a whole packet. `ended` says that
/// nothing follows them.
pub fn in_front(order: Order, octets: &[u8], ended: bool) -> Front
    ensures { (front : Front) → (result ≡ front) ↔ IsFront order ended octets.now front }
{
    read_front(order, octets, ended)
}

// The numbers first, then the captured length, then the packet's octets.
fn read_front(order: Order, octets: &[u8], ended: bool) -> Front
    ensures { IsFront order ended octets.now result }
{
    if octets.len() < NUMBERS_LENGTH {
        return if !ended {
            Front::More
        } else if octets.is_empty() {
            Front::End
        } else {
            Front::Refused(CaptureFault::Header)
        };
    }
    let captured = captured_len(order, octets);
    if captured > LONGEST {
        return Front::Refused(CaptureFault::Long);
    }
    if octets.len() - NUMBERS_LENGTH < captured as usize {
        return if ended {
            Front::Refused(CaptureFault::Packet)
        } else {
            Front::More
        };
    }
    Front::Whole(captured)
}
