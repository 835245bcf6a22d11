//! What holds of every capture. The functions here do nothing: their contracts are laws, and their
//! proofs show that the laws hold.
ghost use Rattle.wrp_pcap.specs.CaptureReading.{FilesHaveOneReading, CapturesAreTheirPackets};
ghost use Rattle.wrp_pcap.specs.CaptureReading.{StayWhateverComes, ReadingsGoOn};
ghost use Rattle.wrp_pcap.specs.CaptureRows.{CapturesAreRows};

/// The octets of a file hold these packets, up to the end or to this refusal, and no others.
pub fn files_have_one_reading()
    ensures { FilesHaveOneReading }
{}

/// A capture is its header and its packets, one after another, and nothing else.
pub fn captures_are_their_packets()
    ensures { CapturesAreTheirPackets }
{}

/// A header, its fault, whole packets and a packet that is too long stay, whatever follows.
pub fn packets_stay()
    ensures { StayWhateverComes }
{}

/// A reading goes on after the packets that were read.
pub fn readings_go_on()
    ensures { ReadingsGoOn }
{}

/// Captures worked out octet by octet: of no packet and of one, cut, too long, of each magic and of
/// none, with and without a VLAN tag.
pub fn worked_captures()
    ensures { CapturesAreRows }
{}
