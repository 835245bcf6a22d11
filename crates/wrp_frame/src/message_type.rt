//! The kinds of message, by their messageType (IEEE 1588-2019).
ghost use Rattle.std.specs.Prelude.{◌≡◌};
ghost use Rattle.wrp_frame.specs.MessageTypes.{number_of, kind_numbered, kind_of_body, control_of};
ghost use Rattle.wrp_frame.specs.MessageTypes.{least_length, has_timestamp, reads_white_rabbit};

use wrp_base::Body;

/// The kind of a message.
#[derive(Clone, Copy, PartialEq, Eq)]
pub enum MessageType {
    /// messageType 0x0.
    Sync,
    /// messageType 0x1.
    DelayReq,
    /// messageType 0x8.
    FollowUp,
    /// messageType 0x9.
    DelayResp,
    /// messageType 0xB.
    Announce,
    /// messageType 0xC.
    Signaling,
}

impl MessageType {
    /// The kind whose body it is.
    pub fn of_body(body: &Body) -> MessageType
        ensures { result ≡ kind_of_body body.now }
    {
        match body {
            Body::Sync { .. } => MessageType::Sync,
            Body::DelayReq { .. } => MessageType::DelayReq,
            Body::FollowUp { .. } => MessageType::FollowUp,
            Body::DelayResp { .. } => MessageType::DelayResp,
            Body::Announce { .. } => MessageType::Announce,
            Body::Signal { .. } => MessageType::Signaling,
        }
    }

    /// The messageType.
    pub fn number(self) -> u8
        ensures { result ≡ number_of self }
    {
        match self {
            MessageType::Sync => 0x0,
            MessageType::DelayReq => 0x1,
            MessageType::FollowUp => 0x8,
            MessageType::DelayResp => 0x9,
            MessageType::Announce => 0xB,
            MessageType::Signaling => 0xC,
        }
    }

    /// The controlField that the kind is sent with.
    pub fn control(self) -> u8
        ensures { result ≡ control_of self }
    {
        match self {
            MessageType::Sync => 0,
            MessageType::DelayReq => 1,
            MessageType::FollowUp => 2,
            MessageType::DelayResp => 3,
            MessageType::Announce | MessageType::Signaling => 5,
        }
    }

    /// The kind that a messageType means; None for one that is not read.
    pub fn of_number(number: u8) -> Option<MessageType>
        ensures { result ≡ kind_numbered number }
    {
        match number {
            0x0 => Some(MessageType::Sync),
            0x1 => Some(MessageType::DelayReq),
            0x8 => Some(MessageType::FollowUp),
            0x9 => Some(MessageType::DelayResp),
            0xB => Some(MessageType::Announce),
            0xC => Some(MessageType::Signaling),
            _ => None,
        }
    }

    /// The octets that each message of the kind has at least: header and body.
    pub fn least_length(self) -> usize
        ensures { result ≡ least_length self }
    {
        match self {
            MessageType::Sync
            | MessageType::DelayReq
            | MessageType::FollowUp
            | MessageType::Signaling => 44,
            MessageType::DelayResp => 54,
            MessageType::Announce => 64,
        }
    }

    /// Whether the body begins with a Timestamp.
    pub fn has_timestamp(self) -> bool
        ensures { result ≡ has_timestamp self }
    {
        !matches!(self, MessageType::Signaling)
    }

    /// Whether White Rabbit TLVs of the kind are read.
    pub fn reads_white_rabbit(self) -> bool
        ensures { result ≡ reads_white_rabbit self }
    {
        matches!(self, MessageType::Announce | MessageType::Signaling)
    }
}
