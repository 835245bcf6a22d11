//! PTP messages of the six kinds that a White Rabbit node exchanges (IEEE 1588-2019), with the
//! White Rabbit message or suffix that a Signaling or an Announce carries (White Rabbit
//! Specification 2.0).
ghost use Rattle.std.specs.Prelude.{◌≡◌};

use crate::Ts;
use arrayvec::ArrayVec;

/// How many octets a frame has room for (this project's profile).
pub const FRAME_ROOM: usize = 256;

/// The octets of one frame, from majorSdoId and messageType on: at most 256.
pub type Frame = ArrayVec<u8, 256>;

/// A portIdentity: one port of one clock.
#[derive(Clone, Copy, Debug, Default, PartialEq, Eq)]
pub struct PortIdentity {
    /// clockIdentity, the eight octets read as one number.
    pub clock: u64,
    /// portNumber: 1 to 18 in this project's profile; 65,535 means every port.
    pub port: u16,
}

/// The portIdentity of all ones, which means every port of every clock (IEEE 1588-2019).
pub const EVERY_PORT: PortIdentity = PortIdentity {
    clock: u64::MAX,
    port: u16::MAX,
};

/// A White Rabbit message of link setup, carried by a Signaling.
#[derive(Clone, Copy, Debug, Default, PartialEq, Eq)]
pub enum WrMsg {
    /// SLAVE_PRESENT.
    #[default]
    Present,
    /// LOCK.
    Lock,
    /// LOCKED.
    Locked,
    /// CALIBRATE.
    Calibrate {
        /// calSendPattern.
        pattern: u8,
        /// calRetry.
        retry: u8,
        /// calPeriod, in microseconds.
        period: u32,
    },
    /// CALIBRATED.
    Calibrated {
        /// deltaTx, the sender's fixed transmission delay, in tau.
        tx: u64,
        /// deltaRx, the sender's fixed reception delay, in tau.
        rx: u64,
    },
    /// WR_MODE_ON.
    ModeOn,
}

/// The fields of the common header that a node keeps.
#[derive(Clone, Copy, Debug, Default, PartialEq, Eq)]
pub struct Head {
    /// domainNumber.
    pub domain: u8,
    /// flagField, its first octet high: twoStepFlag is 0x0200, synchronizationUncertain 0x0040.
    pub flags: u16,
    /// correctionField, in units of `2^-16` ns, which are 1,000 tau.
    pub correction: i64,
    /// sourcePortIdentity.
    pub source: PortIdentity,
    /// sequenceId.
    pub seq: u16,
    /// logMessageInterval, as the octet that is sent.
    pub interval: u8,
}

/// What follows the header, by the kind of the message.
#[derive(Clone, Copy, Debug, PartialEq, Eq)]
pub enum Body {
    /// Sync, messageType 0x0.
    Sync {
        /// originTimestamp.
        origin: Ts,
    },
    /// Delay_Req, messageType 0x1.
    DelayReq {
        /// originTimestamp.
        origin: Ts,
    },
    /// Follow_Up, messageType 0x8.
    FollowUp {
        /// preciseOriginTimestamp.
        precise: Ts,
    },
    /// Delay_Resp, messageType 0x9.
    DelayResp {
        /// receiveTimestamp.
        receive: Ts,
        /// requestingPortIdentity.
        requesting: PortIdentity,
    },
    /// Announce, messageType 0xB.
    Announce {
        /// originTimestamp.
        origin: Ts,
        /// currentUtcOffset, in s.
        utc: i16,
        /// grandmasterPriority1.
        p1: u8,
        /// grandmasterClockQuality: clockClass, clockAccuracy and offsetScaledLogVariance.
        quality: u32,
        /// grandmasterPriority2.
        p2: u8,
        /// grandmasterIdentity.
        gm: u64,
        /// stepsRemoved, in links.
        steps: u16,
        /// timeSource.
        source: u8,
        /// The wrFlags of the first White Rabbit suffix, if there is one.
        suffix: Option<u16>,
    },
    /// Signaling, messageType 0xC.
    Signal {
        /// targetPortIdentity.
        target: PortIdentity,
        /// The first White Rabbit message, if there is one.
        wr: Option<WrMsg>,
    },
}

impl Default for Body {
    ghost use Rattle.wrp_base.specs.Message.{empty_body};

    ghost is_default = { λ body. body ≡ empty_body };

    fn default() -> Body {
        Body::Sync {
            origin: Ts::default(),
        }
    }
}

/// One PTP message.
#[derive(Clone, Copy, Debug, Default, PartialEq, Eq)]
pub struct PtpMsg {
    /// The common header.
    pub head: Head,
    /// The fields of the message's kind.
    pub body: Body,
}
