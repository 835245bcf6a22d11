//! The messages that a port sends.
ghost use Rattle.std.specs.Prelude.{◌≡◌, ℤ, pos, ◌≤◌, ◌≤ℤ◌, ◌^◌, [], length, unsigned_abs};
ghost use Rattle.wrp_base.specs.Message.{IsSound};
ghost use Rattle.wrp_port.specs.Messages.{head_of, next_id, signal_of, signals_of, suffix_by, announce_of, sync_of, request_of, follow_up_of, response_of};

use crate::setting::Setting;
use crate::wire::{corrected_field, rest, timestamp};
use arrayvec::ArrayVec;
use wrp_base::{Body, Head, LinkState, PtpMsg, Stamp, Ts, WrMsg};
use wrp_data::{WrPortDs, announce_of, suffix_of};
use wrp_link::Link;

/// The messages of one answer.
pub type Sends = ArrayVec<PtpMsg, 4>;

/// twoStepFlag.
const TWO_STEP: u16 = 0x0200;

/// synchronizationUncertain.
const UNCERTAIN: u16 = 0x0040;

/// logMessageInterval of a message that is sent at no fixed interval.
const NO_INTERVAL: u8 = 0x7F;

// The header of a message of the port.
fn head(set: &Setting, flags: u16, correction: i64, seq: u16, interval: u8) -> Head
    ensures { result ≡ head_of set.now flags correction seq interval }
{
    Head {
        domain: set.own.domain,
        flags,
        correction,
        source: set.ds.own,
        seq,
        interval,
    }
}

// A White Rabbit message, as a Signaling to the peer.
fn signal(set: &Setting, seq: u16, message: WrMsg) -> PtpMsg
    ensures { result ≡ signal_of set.now seq message }
{
    PtpMsg {
        head: head(set, 0, 0, seq, NO_INTERVAL),
        body: Body::Signal {
            target: set.ds.peer,
            wr: Some(message),
        },
    }
}

/// Sends White Rabbit messages in their order, from a sequenceId on.
pub fn send_signals(set: &Setting, first: u16, messages: &ArrayVec<WrMsg, 2>, sends: &mut Sends)
    requires { sends.old.items ≡ [] }
    ensures value { sends.new.items ≡ signals_of set.now first messages.now.items }
    ensures room { length sends.new.items ≤ 2 }
{
    let mut seq = first;
    for message in messages.as_slice() {
        sends.push(signal(set, seq, *message));
        seq = seq.wrapping_add(1);
    }
}

// The wrFlags of the port's suffix; a link without White Rabbit has none.
fn suffix(set: &Setting, link: &Link) -> Option<u16>
    ensures { result ≡ suffix_by set.now link.now }
{
    if set.ds.wr {
        Some(suffix_of(&WrPortDs {
            known: link.own_module().is_some(),
            on: link.state() == LinkState::LinkOn,
        }))
    } else {
        None
    }
}

/// An Announce of a port with this link.
pub fn announce(set: &Setting, link: &Link, certain: bool, seq: u16) -> PtpMsg
    ensures value { result ≡ announce_of set.now link.now certain seq }
    ensures sound { IsSound result }
{
    let flags = if certain { 0 } else { UNCERTAIN };
    PtpMsg {
        head: head(set, flags, 0, seq, 0),
        body: announce_of(&set.own, suffix(set, link)),
    }
}

/// A two-step Sync.
pub fn sync(set: &Setting, seq: u16) -> PtpMsg
    ensures value { result ≡ sync_of set.now seq }
    ensures sound { IsSound result }
{
    PtpMsg {
        head: head(set, TWO_STEP, 0, seq, 0),
        body: Body::Sync {
            origin: Ts::default(),
        },
    }
}

/// A Delay_Req.
pub fn request(set: &Setting, seq: u16) -> PtpMsg
    ensures value { result ≡ request_of set.now seq }
    ensures sound { IsSound result }
{
    PtpMsg {
        head: head(set, 0, 0, seq, NO_INTERVAL),
        body: Body::DelayReq {
            origin: Ts::default(),
        },
    }
}

/// The Follow_Up of a Sync whose sending has this stamp.
pub fn follow_up(set: &Setting, seq: u16, stamp: Stamp) -> PtpMsg
    requires { unsigned_abs stamp.value ≤ 2 ^ 93 }
    ensures value { result ≡ follow_up_of set.now seq stamp }
    ensures sound { IsSound result }
{
    PtpMsg {
        head: head(set, 0, rest(stamp.value), seq, 0),
        body: Body::FollowUp {
            precise: timestamp(stamp.value),
        },
    }
}

/// The Delay_Resp to a Delay_Req with this header, whose reception has this stamp.
pub fn response(set: &Setting, asked: &Head, stamp: Stamp) -> PtpMsg
    requires { unsigned_abs stamp.value ≤ 2 ^ 93 }
    ensures value { result ≡ response_of set.now asked.now stamp }
    ensures sound { IsSound result }
{
    let correction = corrected_field(asked.correction, stamp.value);
    PtpMsg {
        head: head(set, 0, correction, asked.seq, 0),
        body: Body::DelayResp {
            receive: timestamp(stamp.value),
            requesting: asked.source,
        },
    }
}
