//! `decode`: the message that octets spell, or the first fault that they have.
ghost use Rattle.std.specs.Prelude.{◌≡◌, ◌↔◌, IfOk, IfErr};
ghost use Rattle.wrp_base.specs.Message.{IsSound};
ghost use Rattle.wrp_frame.specs.Faults.{IsFirstFault};
ghost use Rattle.wrp_frame.specs.Grammar.{Spells, SpellOneMessage};

use crate::FrameFault;
use crate::body::{body_of, check_time, check_tlvs, check_two_step};
use crate::header::{head_of, message_end, message_type_of};
use wrp_base::PtpMsg;

/// The message that the octets spell, which is sound. Octets after messageLength are padding, TLVs
/// of unknown types are passed over, and reserved places are free.
///
/// Refused with the first fault, in the order of [`FrameFault`], that the octets have, and accepted
/// if they have none.
pub fn decode(bytes: &[u8]) -> Result<PtpMsg, FrameFault>
    ensures spelled { (message : PtpMsg) → (result ≡ Ok message) ↔ Spells bytes.now message }
    ensures refused { (fault : FrameFault) → (result ≡ Err fault) ↔ IsFirstFault fault bytes.now }
    ensures sound { IfOk result IsSound }
{
    read_message(bytes)
}

/// No octets spell two messages.
pub fn one_message()
    ensures { SpellOneMessage }
{}

// Reads the header, then the body, then the TLVs, each after its tests.
#[tactic(auto, using(crate::proofs::Exact::spelled))]
fn read_message(octets: &[u8]) -> Result<PtpMsg, FrameFault>
    ensures ok { IfOk result (Spells octets.now) }
    ensures err { IfErr result (λ fault. IsFirstFault fault octets.now) }
{
    let kind = message_type_of(octets)?;
    let end = message_end(octets, kind)?;
    check_time(octets, kind)?;
    let found = check_tlvs(octets, kind, end)?;
    check_two_step(octets, kind, &found)?;
    Ok(PtpMsg {
        head: head_of(octets),
        body: body_of(octets, kind, &found),
    })
}
