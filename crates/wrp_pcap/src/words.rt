//! The words of PTP messages, of the White Rabbit messages that they carry, and of frames that are no
//! message.
ghost use Rattle.std.specs.Prelude.{◌≡◌, option_map};
ghost use Rattle.wrp_pcap.specs.Words.{kind_word, wr_word, message_word, frame_fault_word};

use wrp_base::{Body, PtpMsg, WrMsg};
use wrp_frame::FrameFault;

/// The word of a message's kind.
pub fn kind_word(message: &PtpMsg) -> &'static str
    ensures { result.now ≡ kind_word message.now.body }
{
    match message.body {
        Body::Sync { .. } => "sync",
        Body::DelayReq { .. } => "delay-req",
        Body::FollowUp { .. } => "follow-up",
        Body::DelayResp { .. } => "delay-resp",
        Body::Announce { .. } => "announce",
        Body::Signal { .. } => "signaling",
    }
}

/// The word of the White Rabbit message that a Signaling carries; None if and only if it carries none,
/// or the message is of another kind.
pub fn message_word(message: &PtpMsg) -> Option<&'static str>
    ensures { option_map (λ word. word.now) result ≡ message_word message.now.body }
{
    match message.body {
        Body::Signal { wr: Some(wr), .. } => Some(wr_word(wr)),
        _ => None,
    }
}

// The word of a White Rabbit message.
fn wr_word(message: WrMsg) -> &'static str
    ensures { result.now ≡ wr_word message }
{
    match message {
        WrMsg::Present => "present",
        WrMsg::Lock => "lock",
        WrMsg::Locked => "locked",
        WrMsg::Calibrate { .. } => "calibrate",
        WrMsg::Calibrated { .. } => "calibrated",
        WrMsg::ModeOn => "mode-on",
    }
}

/// The word of what is wrong with a frame that is no message.
pub fn frame_fault_word(fault: FrameFault) -> &'static str
    ensures { result.now ≡ frame_fault_word fault }
{
    match fault {
        FrameFault::Short => "short",
        FrameFault::Version => "version",
        FrameFault::Kind => "kind",
        FrameFault::Length => "length",
        FrameFault::Time => "time",
        FrameFault::Tlv => "tlv",
        FrameFault::BadWr => "badwr",
        FrameFault::OneStep => "onestep",
    }
}
