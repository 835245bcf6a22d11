//! What holds of every inspection. The functions here do nothing: their contracts are laws, and their
//! proofs show that the laws hold.
ghost use Rattle.std.specs.Prelude.{ℕ, List};
ghost use Rattle.wrp_pcap.specs.Handshakes.{CompleteNamesHandshake};
ghost use Rattle.wrp_pcap.specs.InspectAim.{CutsAreFirst, JudgesHandshakes, VerdictsAreDue};
ghost use Rattle.wrp_pcap.specs.InspectLaws.{OneIsDue, RefusalsStay, CompleteIsJudged};
ghost use Rattle.wrp_pcap.specs.InspectLaws.{PacketsAreLimited};
ghost use Rattle.wrp_pcap.specs.WorkedInspection.{WorkedInspection};

/// For each input one status and one text are expected.
pub fn one_is_due()
    ensures { OneIsDue }
{}

/// If a whole header is refused, or a packet that is too long or one too many, what is expected stays
/// expected however the input goes on.
pub fn refusals_stay()
    ensures { RefusalsStay }
{}

/// A capture of up to 4,294,967,295 packets is inspected to its end. If a byte follows so many, the lines
/// of these packets are expected, and then `too-large 4294967296`.
pub fn packets_are_limited()
    ensures { PacketsAreLimited }
{}

/// The numbers of each `complete` that is printed rise, and by the marks of these numbers both ends are in
/// the same handshake.
pub fn complete_is_judged()
    ensures { CompleteIsJudged }
{}

/// The eight numbers of each `complete` that is printed rise, and the packets with these numbers carry the
/// eight messages of a handshake of one master and its slave, each from the port that sends it to the other.
pub fn complete_names_handshake()
    ensures { CompleteNamesHandshake }
{}

/// Each verdict that is printed is the one expected after the messages of the packets before it, and
/// each WR_MODE_ON has a verdict.
pub fn verdicts_are_due()
    ensures { VerdictsAreDue }
{}

/// Whatever the octets are, each verdict on one of the packets that they begin with is the expected
/// one, and each `complete` names eight of their packets that carry the messages of one handshake.
pub fn handshakes_are_judged()
    ensures { (input : List ℕ) → JudgesHandshakes input }
{}

/// If the source failed, the lines that an inspection leaves are the lines of the first packets,
/// however the input goes on.
pub fn cuts_are_first()
    ensures { CutsAreFirst }
{}

/// An inspected capture of one packet: what is left when it was read whole, when the source failed,
/// when there was no memory, and when a write failed.
pub fn worked_inspection()
    ensures { WorkedInspection }
{}
