//! Why octets are no message, in the order in which the causes are reported.
ghost use Rattle.std.specs.Prelude.{◌≡◌, ◌≤◌};
ghost use Rattle.wrp_frame.specs.Faults.{fault_number};

/// The first cause, in the order below, that octets are not a message which a node reads.
#[derive(Clone, Copy, Debug, PartialEq, Eq)]
pub enum FrameFault {
    /// 1: there are fewer than the 34 octets of a header.
    Short = 1,
    /// 2: versionPTP is not 2.
    Version,
    /// 3: messageType is none that is read.
    Kind,
    /// 4: messageLength is below the least of its messageType, or above the number of octets.
    Length,
    /// 5: a nanosecondsField is `10^9` or more.
    Time,
    /// 6: what follows the body, up to messageLength, is no list of whole TLVs.
    Tlv,
    /// 7: a White Rabbit TLV of an Announce or a Signaling has no id, or not the length of its id.
    BadWr,
    /// 8: a Sync without twoStepFlag.
    OneStep,
}

impl FrameFault {
    /// The number of the fault: 1 to 8.
    pub fn number(self) -> u8
        ensures value { result ≡ fault_number self }
        ensures at_least { 1 ≤ result }
        ensures at_most { result ≤ 8 }
    {
        self as u8
    }
}
