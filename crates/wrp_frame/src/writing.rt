//! `encode`: the octets of a message, field after field.
ghost use Rattle.std.specs.Prelude.{◌≡◌, ◌↔◌, Result, ◌<◌, ◌^◌, ◌++◌};
ghost use Rattle.std.specs.Int.{w16, cast_signed, cast_unsigned};
ghost use Rattle.byteorder.specs.Endian.{big_bytes};
ghost use Rattle.wrp_base.specs.Message.{IsSound, FitsTimestamp, HasFittingTimes};
ghost use Rattle.wrp_tlv.specs.Appending.{Appends, HasRoom};
ghost use Rattle.wrp_frame.specs.Fitting.{FitsHead, FitsTime, FitsIdentity, FitsBody};
ghost use Rattle.wrp_frame.specs.Fitting.{IsReadBack, IsSuffixReadBack, IsMessageReadBack};
ghost use Rattle.wrp_frame.specs.Grammar.{Spells};
ghost use Rattle.wrp_frame.specs.Sent.{IsFrameOf};
ghost use Rattle.wrp_frame.specs.SentOctets.{timestamp_octets, identity_octets, head_octets};
ghost use Rattle.wrp_frame.specs.SentOctets.{body_octets, octets_of_tlvs, octets_of, size_of};
ghost use Rattle.wrp_frame.specs.SentOctets.{tlvs_of, suffix_tlvs, message_tlvs};

use crate::FrameFault;
use crate::message_type::MessageType;
use crate::places::PTP_VERSION;
use wrp_base::{Body, Frame, Head, PortIdentity, PtpMsg, Ts, WrMsg};
use wrp_tlv::appending::{put_i16, put_i64, put_u8, put_u16, put_u32, put_u48, put_u64};
use wrp_tlv::{SUFFIX_TLV_LENGTH, put_suffix, put_wr, wr_length};

/// The frame of a sound message, 44 to 78 octets: as many as messageLength says, 0 in each reserved
/// place, the kind's own controlField, and no TLV except the TLV of the White Rabbit message or
/// suffix. A message is sound if each timestamp has seconds below `2^48` and nanoseconds below
/// `10^9`, and a Sync has twoStepFlag.
pub fn encode(m: &PtpMsg) -> Frame
    requires { IsSound m.now }
    ensures spelled { Spells result.items m.now }
    ensures frame { IsFrameOf m.now result.items }
    ensures octets { result.items ≡ octets_of m.now }

    // `decode` answers these octets with the message again.
    ensures read_back { (answer : Result PtpMsg FrameFault)
        → ((message : PtpMsg) → (answer ≡ Ok message) ↔ Spells result.items message)
        → answer ≡ Ok m.now }
{
    frame_of(m)
}

// Appends a Timestamp: 10 octets.
fn put_timestamp(t: &Ts, out: &mut Frame)
    requires room { HasRoom 10 out.old }
    requires fits { FitsTimestamp t.now }
    ensures items { Appends out.old (timestamp_octets t.now) out.new }
    ensures fits { FitsTime t.now }
{
    put_u48(t.seconds, out);
    put_u32(t.nanos, out);
}

// Appends a PortIdentity: 10 octets.
fn put_identity(identity: &PortIdentity, out: &mut Frame)
    requires { HasRoom 10 out.old }
    ensures items { Appends out.old (identity_octets identity.now) out.new }
    ensures fits { FitsIdentity identity.now }
{
    put_u64(identity.clock, out);
    put_u16(identity.port, out);
}

// Appends the header: 34 octets.
fn put_head(kind: MessageType, size: u16, head: &Head, out: &mut Frame)
    requires { HasRoom 34 out.old }
    ensures items { Appends out.old (head_octets kind size head.now) out.new }
    ensures fits { FitsHead head.now }
{
    put_u8(kind.number(), out);
    put_u8(PTP_VERSION, out);
    put_u16(size, out);
    put_u8(head.domain, out);
    put_u8(0, out);
    put_u16(head.flags, out);
    put_i64(head.correction, out);
    put_u32(0, out);
    put_identity(&head.source, out);
    put_u16(head.seq, out);
    put_u8(kind.control(), out);
    put_u8(head.interval, out);
}

// Appends currentUtcOffset to grandmasterPriority2 of an Announce: 9 octets.
fn put_quality(utc: i16, p1: u8, quality: u32, p2: u8, out: &mut Frame)
    requires { HasRoom 9 out.old }
    ensures items { Appends out.old (big_bytes 2 (cast_unsigned w16 utc) ++ big_bytes 1 0
        ++ big_bytes 1 p1 ++ big_bytes 4 quality ++ big_bytes 1 p2) out.new }
    ensures utc { cast_unsigned w16 utc < 256 ^ 2 }
    ensures signed { cast_signed w16 (cast_unsigned w16 utc) ≡ utc }
    ensures p1 { p1 < 256 ^ 1 }
    ensures quality { quality < 256 ^ 4 }
    ensures p2 { p2 < 256 ^ 1 }
{
    put_i16(utc, out);
    put_u8(0, out);
    put_u8(p1, out);
    put_u32(quality, out);
    put_u8(p2, out);
}

// Appends grandmasterIdentity, stepsRemoved and timeSource of an Announce: 11 octets.
fn put_grandmaster(gm: u64, steps: u16, source: u8, out: &mut Frame)
    requires { HasRoom 11 out.old }
    ensures items { Appends out.old
        (big_bytes 8 gm ++ big_bytes 2 steps ++ big_bytes 1 source) out.new }
    ensures gm { gm < 256 ^ 8 }
    ensures steps { steps < 256 ^ 2 }
    ensures source { source < 256 ^ 1 }
{
    put_u64(gm, out);
    put_u16(steps, out);
    put_u8(source, out);
}

// Appends the body: 10 to 30 octets.
fn put_body(body: &Body, out: &mut Frame)
    requires room { HasRoom 30 out.old }
    requires times { HasFittingTimes body.now }
    ensures items { Appends out.old (body_octets body.now) out.new }
    ensures fits { FitsBody body.now }
{
    match body {
        Body::Sync { origin } => put_timestamp(origin, out),
        Body::DelayReq { origin } => put_timestamp(origin, out),
        Body::FollowUp { precise } => put_timestamp(precise, out),
        Body::DelayResp {
            receive,
            requesting,
        } => {
            put_timestamp(receive, out);
            put_identity(requesting, out);
        }
        Body::Announce {
            origin,
            utc,
            p1,
            quality,
            p2,
            gm,
            steps,
            source,
            ..
        } => {
            put_timestamp(origin, out);
            put_quality(*utc, *p1, *quality, *p2, out);
            put_grandmaster(*gm, *steps, *source, out);
        }
        Body::Signal { target, .. } => put_identity(target, out),
    }
}

// Appends the TLV of the body's White Rabbit message or suffix, if it has one.
fn put_tlvs(body: &Body, out: &mut Frame)
    requires { HasRoom 28 out.old }
    ensures items { Appends out.old (octets_of_tlvs (tlvs_of body.now)) out.new }
    ensures read_back { IsReadBack body.now }
{
    match body {
        Body::Announce { suffix, .. } => put_suffix_of(*suffix, out),
        Body::Signal { wr, .. } => put_message_of(*wr, out),
        _ => {}
    }
}

// Appends the TLV of the suffix, if there is one.
fn put_suffix_of(suffix: Option<u16>, out: &mut Frame)
    requires { HasRoom 28 out.old }
    ensures items { Appends out.old (octets_of_tlvs (suffix_tlvs suffix)) out.new }
    ensures read_back { IsSuffixReadBack suffix }
{
    if let Some(flags) = suffix {
        put_suffix(flags, out);
    }
}

// Appends the TLV of the White Rabbit message, if there is one.
fn put_message_of(wr: Option<WrMsg>, out: &mut Frame)
    requires { HasRoom 28 out.old }
    ensures items { Appends out.old (octets_of_tlvs (message_tlvs wr)) out.new }
    ensures read_back { IsMessageReadBack wr }
{
    if let Some(message) = wr {
        put_wr(&message, out);
    }
}

// messageLength of a body: 44 to 78.
fn message_size(body: &Body) -> u16
    ensures size { result ≡ size_of body.now }
    ensures fits { result < 256 ^ 2 }
{
    let tlvs = match body {
        Body::Announce {
            suffix: Some(_),
            ..
        } => SUFFIX_TLV_LENGTH,
        Body::Signal {
            wr: Some(message),
            ..
        } => wr_length(message),
        _ => 0,
    };
    (MessageType::of_body(body).least_length() + tlvs) as u16
}

// The octets of a message, with the ranges of its numbers.
fn frame_of(m: &PtpMsg) -> Frame
    requires { IsSound m.now }
    ensures items { result.items ≡ octets_of m.now }
    ensures size { size_of m.now.body < 256 ^ 2 }
    ensures head { FitsHead m.now.head }
    ensures body { FitsBody m.now.body }
    ensures read_back { IsReadBack m.now.body }
{
    let mut out = Frame::new();
    put_head(
        MessageType::of_body(&m.body),
        message_size(&m.body),
        &m.head,
        &mut out,
    );
    put_body(&m.body, &mut out);
    put_tlvs(&m.body, &mut out);
    out
}
