//! The laws of one link. Each function here does nothing: its contract is a law, and its proof shows that it
//! holds after every list of changes that may come, if `quiet - 1` ticks of the least length are longer than
//! two lives of a frame, at both ends.
ghost use Rattle.wrp_handshake_laws.specs.Laws.{MarksAreAHistory, MasterStaysFromLock, OnInTheSameHandshake};
ghost use Rattle.wrp_handshake_laws.specs.Laws.{OnWithTheDeltas, QuietTimeOutlivesFrames, SlaveOnWithItsMaster};
ghost use Rattle.wrp_handshake_laws.specs.Laws.{CarrierWithItsModule, SlaveStaysFromLocked};
ghost use Rattle.wrp_handshake_laws.specs.Worked.{WorkedHandshake};

/// A port in WR_LINK_ON is in the same handshake as its peer.
pub fn on_in_the_same_handshake()
    ensures { OnInTheSameHandshake }
{}

/// A slave in WR_LINK_ON knows the deltas of the modules in place at both ends, with which the carriers last
/// came, and the peer's deltas came in the slave's present stretch.
pub fn on_with_the_deltas()
    ensures { OnWithTheDeltas }
{}

/// A port that has its carrier has the module in place.
pub fn carrier_with_its_module()
    ensures { CarrierWithItsModule }
{}

/// The marks of a port are a history: each is a change of the state to which those before it led. The port
/// is in the state to which they all lead.
pub fn marks_are_a_history()
    ensures { MarksAreAHistory }
{}

/// A port that has its carrier and whose quiet time is over got the carrier, and left its last stretch,
/// more than two lives of a frame ago.
pub fn quiet_time_outlives_frames()
    ensures { QuietTimeOutlivesFrames }
{}

/// From the sending of the LOCK that moved a slave on, its master begins no new stretch while the slave
/// stays in its own.
pub fn master_stays_from_lock()
    ensures { MasterStaysFromLock }
{}

/// From the sending of the LOCKED that moved a master on, its slave comes from PRESENT to S_LOCK in no
/// other stretch while the master stays in its own.
pub fn slave_stays_from_locked()
    ensures { SlaveStaysFromLocked }
{}

/// A slave in WR_LINK_ON whose master has its carrier has its master in WR_LINK_ON.
pub fn slave_on_with_its_master()
    ensures { SlaveOnWithItsMaster }
{}

/// The laws are not empty: a handshake worked out from the first carrier to WR_LINK_ON at both ends is one
/// that can be, and with one state of the master's history exchanged it is not the same handshake.
pub fn worked_handshake()
    ensures { WorkedHandshake }
{}
