//! Messages that come to a port, in words:
//!
//!     announce FLAGS SUFFIX                     SUFFIX is `-` if there is none
//!     sync SEQ CORRECTION STAMP SAMPLE          the reading of its reception, and the newest sample at it
//!     follow-up SEQ CORRECTION SECONDS
//!     delay-req SEQ CORRECTION STAMP
//!     delay-resp PORT SEQ CORRECTION SECONDS    PORT is the requesting port
//!     signal PORT MESSAGE                       PORT is the target, MESSAGE a White Rabbit message or `-`
ghost use Rattle.std.specs.Prelude.{◌≡◌, IfSome};
ghost use Rattle.wrp_base.specs.Message.{FitsTimestamp, HasFittingTimes, HasTwoStepFlag, IsSound};
ghost use Rattle.wrp_port.specs.PortAt.{IsFit, IsStamp};

use super::inputs::{identity_of, stamp_of};
use wrp_base::{Body, Head, PortIdentity, PtpMsg, Stamp, Ts, WrMsg};
use wrp_port::PortIn;

/// Whose a message is.
#[derive(Clone, Copy)]
pub struct Origin {
    /// domainNumber.
    pub domain: u8,
    /// sourcePortIdentity.
    pub source: PortIdentity,
}

const ZERO: Ts = Ts {
    seconds: 0,
    nanos: 0,
};

// A stamp that nothing asks for.
const NO_STAMP: Stamp = Stamp {
    value: 0,
    sample: 0,
};

const TWO_STEP: u16 = 0x0200;

const CALIBRATE: WrMsg = WrMsg::Calibrate {
    pattern: 0,
    retry: 0,
    period: 0,
};

// A header.
fn head_of(origin: Origin, flags: u16, seq: &str, correction: &str) -> Option<Head>
    ensures { IfSome result (λ head. head.flags ≡ flags) }
{
    let seq = seq.parse::<u16>().ok()?;
    let correction = correction.parse::<i64>().ok()?;
    Some(Head {
        domain: origin.domain,
        flags,
        correction,
        source: origin.source,
        seq,
        interval: 0,
    })
}

// A message that comes.
fn came(head: Head, body: Body, stamp: Stamp) -> PortIn
    requires times { HasFittingTimes body }
    requires two_step { HasTwoStepFlag head.flags body }
    requires stamp { IsStamp stamp }
    ensures { IsFit result }
{
    PortIn::Msg {
        msg: PtpMsg { head, body },
        stamp,
        tick: 7,
    }
}

// Whole seconds.
fn seconds_of(word: &str) -> Option<Ts>
    ensures { IfSome result FitsTimestamp }
{
    let seconds = word.parse::<u32>().ok()?;
    Some(Ts {
        seconds: u64::from(seconds),
        nanos: 0,
    })
}

// An Announce.
fn announce(origin: Origin, flags: &str, suffix: &str) -> Option<PortIn>
    ensures { IfSome result IsFit }
{
    let head = head_of(origin, flags.parse::<u16>().ok()?, "0", "0")?;
    let suffix = match suffix {
        "-" => None,
        _ => Some(suffix.parse::<u16>().ok()?),
    };
    let body = Body::Announce {
        origin: ZERO,
        utc: 0,
        p1: 0x80,
        quality: 0xf8fe_ffff,
        p2: 0x80,
        gm: 0x001b_c5ff_fe00_0001,
        steps: 1,
        source: 0xa0,
        suffix,
    };
    Some(came(head, body, NO_STAMP))
}

// A Sync.
fn sync(origin: Origin, seq: &str, correction: &str, value: &str, sample: &str) -> Option<PortIn>
    ensures { IfSome result IsFit }
{
    let head = head_of(origin, TWO_STEP, seq, correction)?;
    let stamp = stamp_of(value, sample)?;
    Some(came(head, Body::Sync { origin: ZERO }, stamp))
}

// A Follow_Up.
fn follow_up(origin: Origin, seq: &str, correction: &str, seconds: &str) -> Option<PortIn>
    ensures { IfSome result IsFit }
{
    let head = head_of(origin, 0, seq, correction)?;
    let precise = seconds_of(seconds)?;
    Some(came(head, Body::FollowUp { precise }, NO_STAMP))
}

// A Delay_Req.
fn delay_req(origin: Origin, seq: &str, correction: &str, value: &str) -> Option<PortIn>
    ensures { IfSome result IsFit }
{
    let head = head_of(origin, 0, seq, correction)?;
    let stamp = stamp_of(value, "0")?;
    Some(came(head, Body::DelayReq { origin: ZERO }, stamp))
}

// A Delay_Resp.
fn delay_resp(
    origin: Origin,
    port: &str,
    seq: &str,
    correction: &str,
    seconds: &str,
) -> Option<PortIn>
    ensures { IfSome result IsFit }
{
    let head = head_of(origin, 0, seq, correction)?;
    let receive = seconds_of(seconds)?;
    let requesting = identity_of(port)?;
    let body = Body::DelayResp {
        receive,
        requesting,
    };
    Some(came(head, body, NO_STAMP))
}

// The White Rabbit message of these words.
fn message_of(words: &[&str]) -> Option<WrMsg> {
    match *words {
        ["present"] => Some(WrMsg::Present),
        ["lock"] => Some(WrMsg::Lock),
        ["locked"] => Some(WrMsg::Locked),
        ["calibrate"] => Some(CALIBRATE),
        ["calibrated", tx, rx] => Some(WrMsg::Calibrated {
            tx: tx.parse::<u64>().ok()?,
            rx: rx.parse::<u64>().ok()?,
        }),
        ["mode-on"] => Some(WrMsg::ModeOn),
        _ => None,
    }
}

// A Signaling.
fn signal(origin: Origin, port: &str, message: &[&str]) -> Option<PortIn>
    ensures { IfSome result IsFit }
{
    let head = head_of(origin, 0, "0", "0")?;
    let target = identity_of(port)?;
    let wr = match *message {
        ["-"] => None,
        _ => Some(message_of(message)?),
    };
    Some(came(head, Body::Signal { target, wr }, NO_STAMP))
}

/// The message of these words.
pub fn heard_by(origin: Origin, words: &[&str]) -> Option<PortIn>
    ensures { IfSome result IsFit }
{
    match *words {
        ["announce", flags, suffix] => announce(origin, flags, suffix),
        ["sync", seq, correction, value, sample] => sync(origin, seq, correction, value, sample),
        ["follow-up", seq, correction, seconds] => follow_up(origin, seq, correction, seconds),
        ["delay-req", seq, correction, value] => delay_req(origin, seq, correction, value),
        ["delay-resp", port, seq, correction, seconds] => {
            delay_resp(origin, port, seq, correction, seconds)
        }
        ["signal", port, ref message @ ..] => signal(origin, port, message),
        _ => None,
    }
}
