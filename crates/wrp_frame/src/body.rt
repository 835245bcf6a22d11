//! Reads the body of each kind, and tests what is in it and after it.
ghost use Rattle.std.specs.Prelude.{◌≡◌, ◌≤◌, false, true, length, List, IfOk, IfErr, OnOk};
ghost use Rattle.wrp_frame.specs.Body.{body_at, announce_at};
ghost use Rattle.wrp_frame.specs.Faults.{IsFirstFault};
ghost use Rattle.wrp_frame.specs.Found.{HasFound, found_in};
ghost use Rattle.wrp_frame.specs.Grammar.{HasLength, HasTime, IsTwoStep};
ghost use Rattle.wrp_frame.specs.Header.{HasHeader, message_length};
ghost use Rattle.wrp_frame.specs.MessageTypes.{least_length};
ghost use Rattle.wrp_tlv.specs.TlvList.{TypedValue};
ghost use Rattle.wrp_frame.specs.declared.message_type.MessageType.TheVariants.{Sync};

use crate::FrameFault;
use crate::fields::{read_identity, read_timestamp};
use crate::found::{Found, read_tlvs};
use crate::message_type::MessageType;
use crate::places::{
    FLAGS_AT, GRANDMASTER_AT, NANOS_PER_SECOND, NANOS_WITHIN, PRIORITY1_AT, PRIORITY2_AT,
    QUALITY_AT, REQUESTING_AT, STEPS_AT, TARGET_AT, TIME_SOURCE_AT, TIMESTAMP_AT, TWO_STEP,
    UTC_OFFSET_AT,
};
use wrp_base::Body;
use wrp_tlv::numbers::{i16_at, u16_at, u32_at, u64_at};

/// Tests that the nanosecondsField of a kind that has one is below a second. `Time` if it is not.
#[tactic(auto, using(crate::proofs::FirstFaults::first_time))]
pub fn check_time(octets: &[u8], kind: MessageType) -> Result<(), FrameFault>
    requires header { HasHeader kind octets.now }
    requires sized { HasLength kind octets.now }
    ensures ok { OnOk result (HasTime kind octets.now) }
    ensures err { IfErr result (λ fault. IsFirstFault fault octets.now) }
{
    if kind.has_timestamp() && u32_at(octets, TIMESTAMP_AT + NANOS_WITHIN) >= NANOS_PER_SECOND {
        return Err(FrameFault::Time);
    }
    Ok(())
}

/// What the TLVs after the body say of White Rabbit: `end` is messageLength. `Tlv` if no list of
/// whole TLVs fills the octets up to there. `BadWr` if the kind is Announce or Signaling, and a
/// White Rabbit TLV has no id or not the length of its id.
#[tactic(auto, using(crate::proofs::FirstFaults::tlv_faults))]
pub fn check_tlvs(octets: &[u8], kind: MessageType, end: usize) -> Result<Found, FrameFault>
    requires header { HasHeader kind octets.now }
    requires sized { HasLength kind octets.now }
    requires time { HasTime kind octets.now }
    requires end { end ≡ message_length octets.now }
    ensures ok { IfOk result (HasFound kind octets.now) }
    ensures err { IfErr result (λ fault. IsFirstFault fault octets.now) }
{
    let found = read_tlvs(&octets[kind.least_length()..end])?;
    if kind.reads_white_rabbit() && found.bad {
        return Err(FrameFault::BadWr);
    }
    Ok(found)
}

/// Tests that a Sync has twoStepFlag. `OneStep` if it does not; any other kind passes.
#[tactic(auto, using(crate::proofs::FirstFaults::first_one_step))]
pub fn check_two_step(octets: &[u8], kind: MessageType, found: &Found) -> Result<(), FrameFault>
    requires header { HasHeader kind octets.now }
    requires sized { HasLength kind octets.now }
    requires time { HasTime kind octets.now }
    requires found { HasFound kind octets.now found.now }
    ensures ok { OnOk result (kind ≡ Sync → IsTwoStep octets.now) }
    ensures err { IfErr result (λ fault. IsFirstFault fault octets.now) }
{
    if kind == MessageType::Sync && u16_at(octets, FLAGS_AT) & TWO_STEP == 0 {
        return Err(FrameFault::OneStep);
    }
    Ok(())
}

/// The body of the kind, with what its TLVs say.
pub fn body_of(octets: &[u8], kind: MessageType, found: &Found) -> Body
    requires { least_length kind ≤ length octets.now }
    ensures { (tlvs : List TypedValue)
        → found.now ≡ found_in tlvs → result ≡ body_at kind tlvs octets.now }
{
    match kind {
        MessageType::Sync => Body::Sync {
            origin: read_timestamp(octets, TIMESTAMP_AT),
        },
        MessageType::DelayReq => Body::DelayReq {
            origin: read_timestamp(octets, TIMESTAMP_AT),
        },
        MessageType::FollowUp => Body::FollowUp {
            precise: read_timestamp(octets, TIMESTAMP_AT),
        },
        MessageType::DelayResp => Body::DelayResp {
            receive: read_timestamp(octets, TIMESTAMP_AT),
            requesting: read_identity(octets, REQUESTING_AT),
        },
        MessageType::Announce => announce_of(octets, found.suffix),
        MessageType::Signaling => Body::Signal {
            target: read_identity(octets, TARGET_AT),
            wr: found.message,
        },
    }
}

// The body of an Announce, with the wrFlags of its suffix.
fn announce_of(octets: &[u8], suffix: Option<u16>) -> Body
    requires { 64 ≤ length octets.now }
    ensures { result ≡ announce_at suffix octets.now }
{
    Body::Announce {
        origin: read_timestamp(octets, TIMESTAMP_AT),
        utc: i16_at(octets, UTC_OFFSET_AT),
        p1: octets[PRIORITY1_AT],
        quality: u32_at(octets, QUALITY_AT),
        p2: octets[PRIORITY2_AT],
        gm: u64_at(octets, GRANDMASTER_AT),
        steps: u16_at(octets, STEPS_AT),
        source: octets[TIME_SOURCE_AT],
        suffix,
    }
}
