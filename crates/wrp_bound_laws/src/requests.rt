//! A slave's Delay_Reqs and their Delay_Resps, in a run. The function here computes nothing: its contract is
//! the law.
ghost use Rattle.wrp_bound_laws.specs.Exchanges.{DelaysTell};

use crate::chains::chain_has_constant;
use crate::clocks::fibres_keep_their_share;
use crate::leases::lease_has_source;
use crate::sequence_ids::{ids_come_again_late, one_timed_an_event};
use wrp_course::{
    frames_are_stamped, frames_have_times, frames_were_put_out, link_on_in_the_same_handshake,
    modules_stay, ticks_are_apart,
};
use wrp_node::{ends_are_set, step_gives_links, step_settles};
use wrp_servo::{chain_has_signals, chain_since, phase_is_sum};
use wrp_stamp::merged_within_tag;
use wrp_tracking_laws::stamps_tell_constant;

/// While a slave's servo has a chain, the delay pair that its exchange kept at any moment of the chain is of
/// one Delay_Req that departed in the chain: it gives the chain's constant and both ways, as they were at
/// that departure, and its tick is the node's tick at that departure.
pub fn delays_tell()
    ensures { DelaysTell }
{
    step_gives_links();
    step_settles();
    ends_are_set();
    ticks_are_apart();
    link_on_in_the_same_handshake();
    modules_stay();
    frames_were_put_out();
    frames_have_times();
    frames_are_stamped();
    chain_has_signals();
    chain_since();
    phase_is_sum();
    merged_within_tag();
    lease_has_source();
    fibres_keep_their_share();
    chain_has_constant();
    one_timed_an_event();
    ids_come_again_late();
    stamps_tell_constant();
}
