//! What holds of chains, TRACK and HOLDOVER after every event of every run, so that a node is within its bound of
//! true time. Each function here computes nothing: its contract is the law.
ghost use Rattle.wrp_bound_laws.specs.Holding.{HoldoverCameWithinPath};
ghost use Rattle.wrp_bound_laws.specs.Limits.{TrackKeepsLimits};
ghost use Rattle.wrp_bound_laws.specs.UnbrokenChains.{ChainStaysUnbroken};

use crate::bounds::offsets_keep_bounds;
use crate::chains::chain_has_constant;
use crate::clocks::fibres_keep_their_share;
use crate::flights::frames_follow_the_source;
use crate::holdovers::{holdover_is_from_track, holdover_is_short};
use wrp_course::{
    frames_are_stamped, frames_have_times, frames_were_put_out, link_on_in_the_same_handshake,
    modules_stay, ticks_are_apart,
};
use wrp_node::{
    chain_is_unbroken, commands_are_held, ends_are_set, step_gives_links, step_settles,
    ticks_are_counted,
};
use wrp_servo::{
    chain_has_signals, chain_since, holdover_since, no_step_in_track, phase_is_sum, told_last,
    track_is_near, track_since,
};
use wrp_stamp::merged_within_tag;
use wrp_tracking_laws::{stamps_tell_constant, track_is_young};

/// While the servo below a link has a chain: after the event that started it, and after each since, the node's
/// lock detector was locked, and in none of them did the node or its parent take a step; its good samples came at
/// most `gap + 1` longest ticks apart; and each Sync that the slave's exchange kept departed no sooner than the
/// parent put out the Announce that had last renewed the lease when the chain began.
pub fn chain_stays_unbroken()
    ensures { ChainStaysUnbroken }
{
    chain_has_constant();
    chain_is_unbroken();
    fibres_keep_their_share();
    frames_follow_the_source();
    commands_are_held();
    ends_are_set();
    step_gives_links();
    step_settles();
    chain_has_signals();
    chain_since();
    holdover_since();
    no_step_in_track();
    phase_is_sum();
    track_is_near();
    track_since();
    merged_within_tag();
    stamps_tell_constant();
    frames_are_stamped();
    frames_have_times();
    frames_were_put_out();
    link_on_in_the_same_handshake();
    modules_stay();
    ticks_are_apart();
}

/// In TRACK the servo holds a measurement whose four was at most `age` ticks old at the node's last tick; the
/// loop's error that the last good sample left is within `loop_tau`, and the residual that this sample and the
/// last measurement left is within `track_tau`.
pub fn track_keeps_limits()
    ensures { TrackKeepsLimits }
{
    told_last();
    track_is_near();
    track_is_young();
}

/// A node in HOLDOVER entered it in an event before which it was up, in TRACK, and within its path of true time,
/// and which did not move it. Since then it took no step in any event, and it ticked fewer times than HOLDOVER
/// lasts.
pub fn holdover_came_within_path()
    ensures { HoldoverCameWithinPath }
{
    holdover_is_short();
    holdover_is_from_track();
    offsets_keep_bounds();
    commands_are_held();
    ticks_are_counted();
    holdover_since();
    no_step_in_track();
    track_is_near();
    track_since();
    ticks_are_apart();
}
