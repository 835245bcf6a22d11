//! Laws of certificates. The functions here do nothing: the contract of each is a law, and its proof shows
//! that the law holds.
ghost use Rattle.wrp_pcap.specs.Laws.{CertificateIsDue, CompleteRises};
ghost use Rattle.wrp_pcap.specs.Worked.{WorkedCertificates};
ghost use Rattle.wrp_pcap.specs.WorkedMarks.{MarksOfEight};

/// The verdict on a WR_MODE_ON, without the recursion that finds it: each message is the last of its
/// kind before the next one of the handshake; the missing place is the greatest of which there is no
/// message; and the first SLAVE_PRESENT after the LOCK began the handshake again.
pub fn certificate_is_due()
    ensures { CertificateIsDue }
{}

/// The numbers of a complete certificate rise.
pub fn complete_rises()
    ensures { CompleteRises }
{}

/// The verdicts in certain captures.
pub fn worked_certificates()
    ensures { WorkedCertificates }
{}

/// The marks that a handshake in the packets 1 to 8 leaves at the slave and at the master, written out.
pub fn marks_of_eight()
    ensures { MarksOfEight }
{}
