//! The measurement that a servo holds, in a run. Each function here computes nothing: its contract is the
//! law.
ghost use Rattle.wrp_bound_laws.specs.Fours.{FourHoldsInTrack, KeptIsReckoned};

use crate::clocks::ticks_are_on_time;
use crate::exchanges::syncs_tell;
use crate::leases::lease_has_source;
use crate::requests::delays_tell;
use wrp_node::step_gives_links;
use wrp_servo::{chain_has_signals, told_last, track_is_near};
use wrp_tracking_laws::{ticks_tell_time, track_is_young};

/// In TRACK the four that the servo holds is true of the chain: its Sync gives the chain's constant, and
/// its Delay_Req the constant and both ways, as they were when it departed, at most an age ago.
pub fn four_holds_in_track()
    ensures { FourHoldsInTrack }
{
    syncs_tell();
    delays_tell();
    lease_has_source();
    ticks_are_on_time();
    ticks_tell_time();
    told_last();
    track_is_near();
    track_is_young();
}

/// The delay of the measurement that the servo holds was computed from the deltas that the port holds
/// now, with an answer of the link's law.
pub fn kept_is_reckoned()
    ensures { KeptIsReckoned }
{
    step_gives_links();
    chain_has_signals();
    told_last();
}
