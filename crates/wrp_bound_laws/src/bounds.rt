//! How far the nodes of a network are from true time. Each function here computes nothing: its contract is
//! the law.
ghost use Rattle.wrp_bound_laws.specs.Bounds.{EstimatesAreNear, OffsetsKeepBounds, TrackReportsAreTrue};
ghost use Rattle.wrp_bound_laws.specs.Hops.{SiblingsAgree, TracksAddUp, TracksFollow};

use crate::chains::chain_has_constant;
use crate::clocks::clocks_move_slowly;
use crate::fours::{four_holds_in_track, kept_is_reckoned};
use crate::holdovers::{holdover_is_from_track, holdover_is_short};
use crate::leases::lease_has_source;
use crate::port_delays::fibre_holds_while_on;
use wrp_servo::track_is_near;
use wrp_tracking_laws::{held_within_motion, hop_holds, track_gives, tree_sum};

/// The estimate of a node in TRACK is within its error of the node's true offset from its parent.
pub fn estimates_are_near()
    ensures { EstimatesAreNear }
{
    chain_has_constant();
    four_holds_in_track();
    kept_is_reckoned();
    fibre_holds_while_on();
    track_is_near();
    track_gives();
    hop_holds();
}

/// A node that is up is within its path of true time in TRACK, and within its bound there in HOLDOVER.
pub fn offsets_keep_bounds()
    ensures { OffsetsKeepBounds }
{
    chain_has_constant();
    four_holds_in_track();
    kept_is_reckoned();
    fibre_holds_while_on();
    track_is_near();
    track_gives();
    hop_holds();
    lease_has_source();
    clocks_move_slowly();
    holdover_is_short();
    holdover_is_from_track();
    tree_sum();
    held_within_motion();
}

/// A node that reports TRACK with an estimate is within its path of true time, and the estimate is within
/// its error of the node's true offset from its parent.
pub fn reports_are_within()
    ensures { TrackReportsAreTrue }
{
    offsets_keep_bounds();
    estimates_are_near();
    lease_has_source();
    track_is_near();
}

/// A node in TRACK is within its hop of its parent, which is up, and is the grandmaster, or in TRACK or HOLDOVER. Two
/// nodes in TRACK below one parent are within the sum of their hops of each other. Where all nodes on the way to the
/// grandmaster are in TRACK, the offset is within the sum of their hops, with no motion of HOLDOVER. All in tau.
pub fn hops_are_kept()
    ensures follows { TracksFollow }
    ensures siblings { SiblingsAgree }
    ensures way { TracksAddUp }
{
    chain_has_constant();
    four_holds_in_track();
    kept_is_reckoned();
    fibre_holds_while_on();
    track_is_near();
    track_gives();
    hop_holds();
    lease_has_source();
    clocks_move_slowly();
}
