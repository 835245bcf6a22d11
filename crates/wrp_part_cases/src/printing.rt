//! A message in lines: its kind, and a line for each field, which has the standard's name. Flags, qualities, octets and
//! identities are in hex. Each call appends its lines to a text.
use crate::messages::push_message;
use std::alloc::{AllocError, Global};
use wrp_base::{Body, PortIdentity, PtpMsg, Ts, WrMsg};

// The name of the kind of a message.
fn kind_text(body: &Body) -> &'static str {
    match body {
        Body::Sync { .. } => "Sync",
        Body::DelayReq { .. } => "Delay_Req",
        Body::FollowUp { .. } => "Follow_Up",
        Body::DelayResp { .. } => "Delay_Resp",
        Body::Announce { .. } => "Announce",
        Body::Signal { .. } => "Signaling",
    }
}

// A line with the name of a field, and a number of seconds and one of nanoseconds.
fn push_time(text: &mut String, field: &str, time: &Ts) -> Result<(), AllocError> {
    let Ts { seconds, nanos } = *time;
    write!(text, "{field} {seconds} {nanos}\n")
}

// A line with the name of a field, a clockIdentity and a portNumber.
fn push_identity(
    text: &mut String,
    field: &str,
    identity: &PortIdentity,
) -> Result<(), AllocError> {
    let PortIdentity { clock, port } = *identity;
    write!(text, "{field} {clock:016x} {port}\n")
}

/// The line of the White Rabbit message, or of its absence.
pub fn push_wr(text: &mut String, message: Option<&WrMsg>) -> Result<(), AllocError> {
    let Some(message) = message else {
        return text.push_str("message none\n");
    };
    text.push_str("message ")?;
    push_message(text, message)?;
    text.push('\n')
}

/// The line of a suffix, or of its absence.
pub fn push_suffix(text: &mut String, suffix: Option<u16>) -> Result<(), AllocError> {
    match suffix {
        Some(flags) => write!(text, "wrFlags {flags:04x}\n"),
        None => text.push_str("wrFlags none\n"),
    }
}

/// The line of the octets that something is sent as.
pub fn push_octets(alloc: Global, text: &mut String, octets: &[u8]) -> Result<(), AllocError> {
    let digits = hex::encode(alloc, octets)?;
    write!(text, "octets {digits}\n")
}

/// The kind of a message, and the lines of its header.
pub fn push_head(text: &mut String, message: &PtpMsg) -> Result<(), AllocError> {
    let kind = kind_text(&message.body);
    let head = &message.head;
    let (domain, flags, correction) = (head.domain, head.flags, head.correction);
    let (seq, interval) = (head.seq, head.interval);
    let PortIdentity { clock, port } = head.source;
    write!(
        text,
        "{kind}\n\
         domainNumber {domain}\n\
         flagField {flags:04x}\n\
         correctionField {correction}\n\
         sourcePortIdentity {clock:016x} {port}\n\
         sequenceId {seq}\n\
         logMessageInterval {interval:02x}\n"
    )
}

// The lines of an Announce, and nothing of any other kind.
fn push_announce(text: &mut String, body: &Body) -> Result<(), AllocError> {
    let Body::Announce {
        origin,
        utc,
        p1,
        quality,
        p2,
        gm,
        steps,
        source,
        suffix,
    } = body
    else {
        return Ok(());
    };
    push_time(text, "originTimestamp", origin)?;
    write!(
        text,
        "currentUtcOffset {utc}\n\
         grandmasterPriority1 {p1}\n\
         grandmasterClockQuality {quality:08x}\n\
         grandmasterPriority2 {p2}\n\
         grandmasterIdentity {gm:016x}\n\
         stepsRemoved {steps}\n\
         timeSource {source:02x}\n"
    )?;
    push_suffix(text, *suffix)
}

/// The lines of a body.
pub fn push_body(text: &mut String, body: &Body) -> Result<(), AllocError> {
    match body {
        Body::Sync { origin } | Body::DelayReq { origin } => {
            push_time(text, "originTimestamp", origin)
        }
        Body::FollowUp { precise } => push_time(text, "preciseOriginTimestamp", precise),
        Body::DelayResp {
            receive,
            requesting,
        } => {
            push_time(text, "receiveTimestamp", receive)?;
            push_identity(text, "requestingPortIdentity", requesting)
        }
        Body::Announce { .. } => push_announce(text, body),
        Body::Signal { target, wr } => {
            push_identity(text, "targetPortIdentity", target)?;
            push_wr(text, wr.as_ref())
        }
    }
}
