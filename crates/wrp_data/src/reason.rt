//! Why a frame, or a piece of a measurement, is dropped.
ghost use Rattle.std.specs.Prelude.{◌≡◌, ◌≤◌, ◌↔◌, IsSome, IfSome};
ghost use Rattle.wrp_data.specs.Reason.{number_of, name_of, reasons};

/// Why a port drops what came to it (this project's profile). If several reasons apply, the one with
/// the lowest number is reported.
#[derive(Clone, Copy, Debug, PartialEq, Eq)]
pub enum Reason {
    /// 1: there are fewer octets than a header has.
    Short = 1,
    /// 2: versionPTP is not 2.
    Version,
    /// 3: messageType is none that is read.
    Kind,
    /// 4: messageLength is below the least of its messageType, or above the number of octets.
    Length,
    /// 5: a nanosecondsField is `10^9` or more.
    Time,
    /// 6: what follows the body is no list of whole TLVs.
    Tlv,
    /// 7: a White Rabbit TLV has no id, or not the length of its id.
    BadWr,
    /// 8: a Sync without twoStepFlag.
    OneStep,
    /// 9: domainNumber is not the node's.
    Domain,
    /// 10: sourcePortIdentity is not the peer's.
    Stranger,
    /// 11: a Signaling whose targetPortIdentity is neither this port nor every port, or a Delay_Resp
    /// whose requestingPortIdentity is not this port.
    NotForUs,
    /// 12: the port has no carrier, or is in its quiet time.
    Quiet,
    /// 13: a message that this end of the link has no use for.
    Unmatched,
    /// 14: a delay is out of the range of the link's delay law.
    Range,
    /// 15: a phase sample is glitched, or not newer than the one before.
    Sample,
}

impl Reason {
    /// Every reason, in the order of their numbers.
    pub const ALL: [Reason; 15] = [
        Reason::Short,
        Reason::Version,
        Reason::Kind,
        Reason::Length,
        Reason::Time,
        Reason::Tlv,
        Reason::BadWr,
        Reason::OneStep,
        Reason::Domain,
        Reason::Stranger,
        Reason::NotForUs,
        Reason::Quiet,
        Reason::Unmatched,
        Reason::Range,
        Reason::Sample,
    ];

    /// The number of the reason: 1 to 15.
    pub fn number(self) -> u8
        ensures value { result ≡ number_of self }
        ensures at_least { 1 ≤ result }
        ensures at_most { result ≤ 15 }
    {
        self as u8
    }

    /// The reason of this number; None if and only if it is outside 1 to 15.
    pub fn from_number(number: u8) -> Option<Reason>
        ensures listed { IsSome result ↔ ((1 ≤ number) × (number ≤ 15)) }
        ensures value { IfSome result (λ reason. number_of reason ≡ number) }
    {
        match number {
            1 => Some(Reason::Short),
            2 => Some(Reason::Version),
            3 => Some(Reason::Kind),
            4 => Some(Reason::Length),
            5 => Some(Reason::Time),
            6 => Some(Reason::Tlv),
            7 => Some(Reason::BadWr),
            8 => Some(Reason::OneStep),
            9 => Some(Reason::Domain),
            10 => Some(Reason::Stranger),
            11 => Some(Reason::NotForUs),
            12 => Some(Reason::Quiet),
            13 => Some(Reason::Unmatched),
            14 => Some(Reason::Range),
            15 => Some(Reason::Sample),
            _ => None,
        }
    }

    /// The name of the reason, as lines and documents write it.
    pub fn name(self) -> &'static str
        ensures { result.now ≡ name_of self }
    {
        match self {
            Reason::Short => "short",
            Reason::Version => "version",
            Reason::Kind => "kind",
            Reason::Length => "length",
            Reason::Time => "time",
            Reason::Tlv => "tlv",
            Reason::BadWr => "badwr",
            Reason::OneStep => "onestep",
            Reason::Domain => "domain",
            Reason::Stranger => "stranger",
            Reason::NotForUs => "notforus",
            Reason::Quiet => "quiet",
            Reason::Unmatched => "unmatched",
            Reason::Range => "range",
            Reason::Sample => "sample",
        }
    }
}

impl Default for Reason {
    ghost use Rattle.std.specs.Prelude.{◌≡◌};
    ghost use Rattle.wrp_data.specs.declared.reason.Reason.TheVariants.{Short};

    ghost is_default = { λ reason. reason ≡ Short };

    // The first reason; it fills the unused places of a list.
    fn default() -> Reason {
        Reason::Short
    }
}
