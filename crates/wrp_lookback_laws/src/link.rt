//! What a port's link counts, by looking back over the list of its inputs. The function here computes nothing:
//! its contract is the law.
ghost use Rattle.wrp_lookback_laws.specs.OnTicks.{CountIsHeld, WholeCountDecides};

/// A link's count of ticks in WR_LINK_ON is the count of all ticks since the state was entered, held at
/// 4,294,967,295. Holding it there has no effect: after every list of inputs each further one has the row of the
/// handshake table that it has with the whole count, for every quiet time below `2^32`.
pub fn ticks_are_whole()
    ensures count { CountIsHeld }
    ensures rows { WholeCountDecides }
{}
