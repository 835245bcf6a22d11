//! Reads the common header, and tests it and the length that it gives.
ghost use Rattle.std.specs.Prelude.{◌≡◌, ◌≤◌, ◌+◌, length, IfOk, IfErr, OnOk};
ghost use Rattle.wrp_frame.specs.Header.{HasHeader, head_at, message_length};
ghost use Rattle.wrp_frame.specs.Grammar.{HasLength};
ghost use Rattle.wrp_frame.specs.Faults.{IsFirstFault};

use crate::FrameFault;
use crate::fields::read_identity;
use crate::message_type::MessageType;
use crate::places::{
    CORRECTION_AT, DOMAIN_AT, FLAGS_AT, HEADER_LENGTH, INTERVAL_AT, MESSAGE_LENGTH_AT,
    MESSAGE_TYPE_AT, PTP_VERSION, SEQUENCE_AT, SOURCE_AT, VERSION_AT,
};
use wrp_base::Head;
use wrp_tlv::numbers::{i64_at, u16_at};

/// The kind of the message whose header the octets begin with. `Short` if they are fewer than 34,
/// else `Version` if versionPTP is not 2, else `Kind` if messageType is none that is read.
#[tactic(auto, using(crate::proofs::FirstFaults::header_faults))]
pub fn message_type_of(octets: &[u8]) -> Result<MessageType, FrameFault>
    ensures ok { IfOk result (λ kind. HasHeader kind octets.now) }
    ensures err { IfErr result (λ fault. IsFirstFault fault octets.now) }
{
    if octets.len() < HEADER_LENGTH {
        return Err(FrameFault::Short);
    }
    if octets[VERSION_AT] & 0x0F != PTP_VERSION {
        return Err(FrameFault::Version);
    }
    match MessageType::of_number(octets[MESSAGE_TYPE_AT] & 0x0F) {
        Some(kind) => Ok(kind),
        None => Err(FrameFault::Kind),
    }
}

/// messageLength, the end of the message among the octets: at most their number. `Length` if it is
/// below the least of its kind, or above the number of octets.
#[tactic(auto, using(crate::proofs::FirstFaults::header_faults))]
pub fn message_end(octets: &[u8], kind: MessageType) -> Result<usize, FrameFault>
    requires { HasHeader kind octets.now }
    ensures sized { IfOk result (λ end. HasLength kind octets.now) }
    ensures end { IfOk result (λ end. end ≡ message_length octets.now) }
    ensures err { IfErr result (λ fault. IsFirstFault fault octets.now) }
{
    let end = usize::from(u16_at(octets, MESSAGE_LENGTH_AT));
    if end < kind.least_length() || octets.len() < end {
        return Err(FrameFault::Length);
    }
    Ok(end)
}

/// The fields of the header that a node keeps.
pub fn head_of(octets: &[u8]) -> Head
    requires { 34 ≤ length octets.now }
    ensures { result ≡ head_at octets.now }
{
    Head {
        domain: octets[DOMAIN_AT],
        flags: u16_at(octets, FLAGS_AT),
        correction: i64_at(octets, CORRECTION_AT),
        source: read_identity(octets, SOURCE_AT),
        seq: u16_at(octets, SEQUENCE_AT),
        interval: octets[INTERVAL_AT],
    }
}
