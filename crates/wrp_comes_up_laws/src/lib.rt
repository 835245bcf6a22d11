//! A link of a world with good delivery comes up within a stated time of its carriers: laws over every run of an
//! accepted network. The functions do nothing; their contracts are the laws.
#![tactic(auto)]

ghost use Rattle.wrp_comes_up_laws.specs.Laws.{ComesUp, ComesUpInTurn, TimesInCounts};
ghost use Rattle.wrp_comes_up_laws.specs.Rest.{ComesUpFromRest, ComesUpFromRestInTurn};

use wrp_config::child_is_deeper;
use wrp_course::{
    frames_were_put_out, link_on_in_the_same_handshake, ticks_are_apart, time_never_falls,
};
use wrp_handshake_laws::slave_on_with_its_master;
use wrp_link_up_laws::{
    comes_up, comes_up_from_rest, comes_up_from_rest_in_turn, comes_up_in_turn,
};
use wrp_node::{ends_are_set, signals_are_of_link, step_gives_links};

/// A link whose carriers came, and which is served well since, is in WR_LINK_ON at both ends within a stated
/// time. All times are in tau, all counts in ticks.
pub fn link_comes_up()
    ensures { ComesUp }
{
    step_gives_links();
    signals_are_of_link();
    ends_are_set();
    child_is_deeper();
    frames_were_put_out();
    ticks_are_apart();
    time_never_falls();
    slave_on_with_its_master();
    link_on_in_the_same_handshake();
    comes_up();
}

/// The same if no CALIBRATED overtakes a CALIBRATE: the link is up sooner, and needs no retries.
pub fn link_comes_up_in_turn()
    ensures { ComesUpInTurn }
{
    step_gives_links();
    signals_are_of_link();
    ends_are_set();
    child_is_deeper();
    frames_were_put_out();
    ticks_are_apart();
    time_never_falls();
    slave_on_with_its_master();
    link_on_in_the_same_handshake();
    comes_up_in_turn();
}

/// A link whose ends both rest in IDLE, as after a failed handshake, in quiet time or in holdoff, and which is
/// served well since, is in WR_LINK_ON at both ends within a stated time.
pub fn link_comes_up_from_rest()
    ensures { ComesUpFromRest }
{
    step_gives_links();
    signals_are_of_link();
    ends_are_set();
    child_is_deeper();
    frames_were_put_out();
    ticks_are_apart();
    time_never_falls();
    slave_on_with_its_master();
    link_on_in_the_same_handshake();
    comes_up_from_rest();
}

/// The same if no CALIBRATED overtakes a CALIBRATE.
pub fn link_comes_up_from_rest_in_turn()
    ensures { ComesUpFromRestInTurn }
{
    step_gives_links();
    signals_are_of_link();
    ends_are_set();
    child_is_deeper();
    frames_were_put_out();
    ticks_are_apart();
    time_never_falls();
    slave_on_with_its_master();
    link_on_in_the_same_handshake();
    comes_up_from_rest_in_turn();
}

/// Both times in the counts of the network file: `(quiet + 2 * wait + 2 + announce) * dmax + 7 * delay + lock`,
/// and `2 * wait * dmax` less if no CALIBRATED overtakes a CALIBRATE.
pub fn times_in_counts()
    ensures { TimesInCounts }
{}
