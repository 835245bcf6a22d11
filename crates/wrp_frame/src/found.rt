//! Walks the TLVs after a body, and keeps what they say of White Rabbit.
ghost use Rattle.std.specs.Prelude.{◌≡◌, ◌<◌, length, IfOk, IfErr};
ghost use Rattle.wrp_frame.specs.Found.{IsFoundAmong};
ghost use Rattle.wrp_tlv.specs.TlvAt.{HasNoTlvAt, StandsAt};
ghost use Rattle.wrp_tlv.specs.TlvList.{IsFilledByNone};
ghost use Rattle.wrp_tlv.specs.WhiteRabbitList.{read_of};

use crate::FrameFault;
use wrp_base::WrMsg;
use wrp_tlv::{ORGANIZATION_EXTENSION, Tlv, WrRead, tlv_at, wr_of};

/// What a list of TLVs says of White Rabbit.
#[derive(Clone, Copy, Default)]
pub struct Found {
    /// The first White Rabbit message.
    pub message: Option<WrMsg>,
    /// The wrFlags of the first White Rabbit suffix.
    pub suffix: Option<u16>,
    /// Whether a White Rabbit TLV has no id, or not the length of its id.
    pub bad: bool,
}

impl Found {
    ghost use Rattle.wrp_frame.specs.declared.found.Found.{Found};
    ghost use Rattle.wrp_frame.specs.Found.{joined, with_first};

    /// What is found after one more TLV: what came first counts.
    pub fn add(self, read: WrRead) -> Found
        ensures { (later : Found) → joined result later ≡ joined self (with_first read later) }
    {
        match read {
            WrRead::Wr(message) => Found {
                message: self.message.or(Some(message)),
                ..self
            },
            WrRead::Suffix(flags) => Found {
                suffix: self.suffix.or(Some(flags)),
                ..self
            },
            WrRead::BadWr => Found { bad: true, ..self },
            WrRead::Other => self,
        }
    }
}

// What a TLV of this type and value says: only an ORGANIZATION_EXTENSION says something.
fn read_value(kind: u16, value: &[u8]) -> WrRead
    ensures { result ≡ read_of (record { kind = kind; value = value.now }) }
{
    if kind == ORGANIZATION_EXTENSION {
        wr_of(value)
    } else {
        WrRead::Other
    }
}

// The whole TLV at a place of the part.
fn whole_tlv_at(part: &[u8], at: usize) -> Result<Tlv, FrameFault>
    requires { at < length part.now }
    ensures ok { IfOk result (StandsAt part.now at) }
    ensures err { IfErr result (λ fault. (fault ≡ FrameFault.Tlv) × HasNoTlvAt part.now at) }
{
    match tlv_at(part, at) {
        Ok(tlv) => Ok(tlv),
        Err(_) => Err(FrameFault::Tlv),
    }
}

/// What the TLVs that fill the part say of White Rabbit. `Tlv` if no list of whole TLVs fills it.
#[tactic(auto, using(crate::proofs::Walk::walks))]
pub fn read_tlvs(part: &[u8]) -> Result<Found, FrameFault>
    ensures ok { IfOk result (IsFoundAmong part.now) }
    ensures err { IfErr result (λ fault. (fault ≡ FrameFault.Tlv) × IsFilledByNone part.now) }
{
    let mut found = Found::default();
    let mut at = 0;
    while at < part.len() {
        let tlv = whole_tlv_at(part, at)?;
        found = found.add(read_value(tlv.kind, &part[tlv.from..tlv.to]));
        at = tlv.to;
    }
    Ok(found)
}
