//! A link with good delivery comes up within a stated time: laws over one link, its two ports and the messages
//! between them. The functions do nothing; their contracts are the laws. The names of messages and states are the
//! names of the White Rabbit Specification 2.0; the handshake table, its timers and its retries are this project's
//! profile.
#![tactic(auto)]

ghost use Rattle.wrp_link_up_laws.specs.Again.{WorkedAgain};
ghost use Rattle.wrp_link_up_laws.specs.Alone.{NeedsOrder, NeedsRetries};
ghost use Rattle.wrp_link_up_laws.specs.Laws.{ComesUp, ComesUpInTurn};
ghost use Rattle.wrp_link_up_laws.specs.Rest.{ComesUpFromRest, ComesUpFromRestInTurn};
ghost use Rattle.wrp_link_up_laws.specs.Slow.{NoSooner};
ghost use Rattle.wrp_link_up_laws.specs.Worked.{NoSoonerInTurn, WorkedUp};

/// A link with good delivery is in WR_LINK_ON at both ends within a stated time of its carriers. All times
/// are in tau, all counts in ticks.
pub fn comes_up()
    ensures { ComesUp }
{}

/// The same if no CALIBRATED overtakes a CALIBRATE: the link is up sooner, and needs no retries.
pub fn comes_up_in_turn()
    ensures { ComesUpInTurn }
{}

/// A link with good delivery comes up from rest as from new carriers: both its ends are in IDLE, as after a failed
/// handshake, in quiet time or in holdoff, and the longer rest takes the place of the longer quiet time.
pub fn comes_up_from_rest()
    ensures { ComesUpFromRest }
{}

/// The same if no CALIBRATED overtakes a CALIBRATE.
pub fn comes_up_from_rest_in_turn()
    ensures { ComesUpFromRestInTurn }
{}

/// The laws are not empty: there is a worked example of a link, from its carriers to past both stated times, of
/// which all holds that the laws require.
pub fn worked_up()
    ensures { WorkedUp }
{}

/// Nor are the laws from rest: there is a worked example of a link whose first handshake fails, because both its
/// messages are lost, and which comes up after the holdoff of its slave, with all that the two laws require.
pub fn worked_again()
    ensures { WorkedAgain }
{}

/// The time of the first law cannot be lowered: a link of which all holds that the law requires is not up yet just
/// after that time.
pub fn no_sooner()
    ensures { NoSooner }
{}

/// Nor can the time of the second law.
pub fn no_sooner_in_turn()
    ensures { NoSoonerInTurn }
{}

/// The first law needs its retries: a link without them, of which all else holds that the law requires, is still
/// not up after the stated time.
pub fn needs_retries()
    ensures { NeedsRetries }
{}

/// The second law needs its order: a link in which a CALIBRATED overtakes a CALIBRATE, and of which all else holds
/// that the law requires, is still not up after the stated time.
pub fn needs_order()
    ensures { NeedsOrder }
{}
