//! The TLV at a place of the octets (IEEE 1588-2019).
ghost use Rattle.std.specs.Prelude.{◌≡◌, ◌<◌, ◌≤◌, ◌+◌, ◌↔◌, length};
ghost use Rattle.wrp_tlv.specs.Octets.{number_at};
ghost use Rattle.wrp_tlv.specs.TlvAt.{StandsAt};

use crate::numbers::u16_at;

/// The octets of a TLV's tlvType and lengthField, before its value.
pub const TLV_HEADER: usize = 4;
/// tlvType ORGANIZATION_EXTENSION.
pub const ORGANIZATION_EXTENSION: u16 = 0x0003;
/// A TLV among octets: its type, and where its value begins and ends. The next one begins at `to`.
#[derive(Clone, Copy, Debug, PartialEq, Eq)]
pub struct Tlv {
    /// tlvType.
    pub kind: u16,
    /// The place of the value's first octet.
    pub from: usize,
    /// The place after the value's last octet.
    pub to: usize,
}

/// Why there is no whole TLV at a place.
#[derive(Clone, Copy, Debug, PartialEq, Eq)]
pub enum TlvFault {
    /// 1: fewer than the 4 octets of tlvType and lengthField are left.
    TlvShort,
    /// 2: the value would run past the end.
    TlvOverrun,
}

/// The TLV at `n`. `TlvShort` if fewer than 4 octets are left there, `TlvOverrun` if the value
/// would run past the end.
pub fn tlv_at(bytes: &[u8], n: usize) -> Result<Tlv, TlvFault>
    requires { n < length bytes.now }
    ensures ok { (tlv : Tlv) → (result ≡ Ok tlv) ↔ StandsAt bytes.now n tlv }
    ensures short { (result ≡ Err TlvFault.TlvShort) ↔ (length bytes.now < n + 4) }
    ensures overrun { (result ≡ Err TlvFault.TlvOverrun)
        ↔ ((n + 4 ≤ length bytes.now)
        × (length bytes.now < n + 4 + number_at (n + 2) 2 bytes.now)) }
{
    if bytes.len() - n < TLV_HEADER {
        return Err(TlvFault::TlvShort);
    }
    let from = n + TLV_HEADER;
    let length = usize::from(u16_at(bytes, n + 2));
    if bytes.len() - from < length {
        return Err(TlvFault::TlvOverrun);
    }
    Ok(Tlv {
        kind: u16_at(bytes, n),
        from,
        to: from + length,
    })
}
