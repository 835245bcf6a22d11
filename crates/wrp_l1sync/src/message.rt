//! The message of an L1_SYNC TLV, read and appended.
ghost use Rattle.std.specs.Prelude.{◌≡◌, ◌<◌, ◌≤◌, ◌+◌, ◌++◌, Some, drop, length};
ghost use Rattle.wrp_l1sync.specs.Message.{read_of, tlv_of};

use wrp_base::Frame;

/// What an end of a link requires and what holds there, each 0 to 7. Bit 0 is transmit coherent, bit 1
/// receive coherent, bit 2 congruent (Annex L of IEEE 1588-2019).
#[derive(Clone, Copy, Debug, Default, PartialEq, Eq)]
pub struct L1Msg {
    /// The bits that are required.
    pub req: u8,
    /// The bits that hold.
    pub is: u8,
}

/// What the value of an L1_SYNC TLV says; None if and only if it has fewer than 2 octets. Bits 3 to 7
/// and further octets are ignored.
pub fn l1_of(value: &[u8]) -> Option<L1Msg>
    ensures { result ≡ read_of value.now }
{
    match value {
        [req, is, ..] => Some(L1Msg {
            req: *req % 8,
            is: *is % 8,
        }),
        _ => None,
    }
}

/// Appends the TLV of a message: `8001`, `0002`, `req`, `is`.
pub fn put_l1(m: &L1Msg, out: &mut Frame)
    requires { length out.old.items + 6 ≤ 256 }
    ensures items { out.new.items ≡ out.old.items ++ tlv_of m.now }

    // Its value is read as the message.
    ensures read_back { m.now.req < 8 → m.now.is < 8 → read_of (drop 4 (tlv_of m.now)) ≡ Some m.now }
{
    let octets = [0x80, 0x01, 0x00, 0x02, m.req, m.is];
    let _fits = out.try_extend_from_slice(&octets);
}
