//! What the handshake table ensures. Each function here does nothing: its contract is a law over all
//! lists of inputs, and its proof shows that the law holds.
ghost use Rattle.wrp_link.specs.Laws.{EachStateInItsTurn, IdleKeepsNoDeltas, OneMessageTurnsOn, QuietTimeLasts, UnheardFails};

/// A port passes the states of its role in their order, and leaves none out: since it was last in IDLE
/// it passed exactly the states up to its own. So a slave is in WR_LINK_ON only after PRESENT, S_LOCK,
/// LOCKED, RESP_CALIB_REQ, CALIBRATION and CALIBRATED, a master only after M_LOCK, CALIBRATION,
/// CALIBRATED and RESP_CALIB_REQ.
pub fn each_state_in_its_turn()
    ensures { EachStateInItsTurn }
{}

/// Only one message brings a port to WR_LINK_ON: WR_MODE_ON for a slave in CALIBRATED, CALIBRATED for a
/// master in RESP_CALIB_REQ.
pub fn one_message_turns_on()
    ensures { OneMessageTurnsOn }
{}

/// A port in IDLE keeps no deltas of its peer.
pub fn idle_keeps_no_deltas()
    ensures { IdleKeepsNoDeltas }
{}

/// A port in quiet time reports it for exactly the ticks that are left of it, and plain PTP after that.
pub fn quiet_time_lasts()
    ensures { QuietTimeLasts }
{}

/// A port in a waiting state that is given only ticks, with the lock detector not locked, stays there
/// for the ticks of its timer and a whole wait for each retry that is left, and fails at the last of
/// them.
pub fn unheard_fails()
    ensures { UnheardFails }
{}
