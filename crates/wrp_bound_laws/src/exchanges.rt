//! What the exchange of a slave keeps in a chain of its servo. Each function here computes nothing: its
//! contract is the law.
ghost use Rattle.wrp_bound_laws.specs.Exchanges.{SyncsTell};

use crate::chains::chain_has_constant;
use crate::clocks::fibres_keep_their_share;
use crate::flights::frames_follow_the_source;
use crate::sequence_ids::{ids_come_again_late, one_timed_an_event};
use wrp_course::{
    frames_are_stamped, frames_have_times, frames_were_put_out, link_on_in_the_same_handshake,
    modules_stay, ticks_are_apart,
};
use wrp_handshake_laws::slave_on_with_its_master;
use wrp_node::{ends_are_set, step_gives_links, step_settles};
use wrp_servo::{
    chain_has_signals, chain_since, holdover_since, phase_is_sum, track_is_near, track_since,
};
use wrp_stamp::merged_within_tag;
use wrp_tracking_laws::stamps_tell_constant;

/// While the servo below a link has a chain, the Sync pair that the slave's exchange kept at any event
/// of the chain gives the chain's constant: its Follow_Up carried the stamp of the departure of the
/// very Sync that the exchange held, since a sequenceId does not come again so soon.
pub fn syncs_tell()
    ensures { SyncsTell }
{
    chain_has_constant();
    fibres_keep_their_share();
    frames_follow_the_source();
    ids_come_again_late();
    one_timed_an_event();
    slave_on_with_its_master();
    ends_are_set();
    step_gives_links();
    step_settles();
    chain_has_signals();
    chain_since();
    holdover_since();
    phase_is_sum();
    track_is_near();
    track_since();
    merged_within_tag();
    stamps_tell_constant();
    frames_are_stamped();
    frames_have_times();
    frames_were_put_out();
    link_on_in_the_same_handshake();
    modules_stay();
    ticks_are_apart();
}
