//! Which pieces are of one and the same Sync, or Delay_Req, in a run. The function here computes nothing: its
//! contract is the laws.
ghost use Rattle.wrp_bound_laws.specs.OneMessage.{OnlySuchComeStill, PiecesAreOfOneMessage};

use crate::chains::chain_has_constant;
use crate::clocks::fibres_keep_their_share;
use crate::flights::frames_follow_the_source;
use crate::leases::lease_has_source;
use crate::sequence_ids::{ids_come_again_late, one_timed_an_event};
use wrp_course::{
    frames_are_stamped, frames_have_times, frames_were_put_out, link_on_in_the_same_handshake,
    modules_stay, ticks_are_apart,
};
use wrp_handshake_laws::slave_on_with_its_master;
use wrp_node::{ends_are_set, step_gives_links, step_settles};
use wrp_servo::{
    chain_has_signals, chain_since, holdover_since, phase_is_sum, track_is_near, track_since,
};
use wrp_stamp::merged_within_tag;
use wrp_tracking_laws::stamps_tell_constant;

/// After every event a pending Sync whose sample is still in the ring, and every Follow_Up of its sequenceId
/// that can still be delivered, are of one and the same Sync. A slave's newest Delay_Req, a sending reported
/// with its sequenceId, and every Delay_Resp of that sequenceId that can still be delivered are of one and
/// the same Delay_Req. Only such frames are delivered.
pub fn pieces_are_of_one_message()
    ensures one { PiecesAreOfOneMessage }
    ensures come { OnlySuchComeStill }
{
    chain_has_constant();
    fibres_keep_their_share();
    frames_follow_the_source();
    lease_has_source();
    ids_come_again_late();
    one_timed_an_event();
    slave_on_with_its_master();
    ends_are_set();
    step_gives_links();
    step_settles();
    chain_has_signals();
    chain_since();
    holdover_since();
    phase_is_sum();
    track_is_near();
    track_since();
    merged_within_tag();
    stamps_tell_constant();
    frames_are_stamped();
    frames_have_times();
    frames_were_put_out();
    link_on_in_the_same_handshake();
    modules_stay();
    ticks_are_apart();
}
