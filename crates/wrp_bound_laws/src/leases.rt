//! What a lease says of the node above. Each function here computes nothing: its contract is the law.
ghost use Rattle.wrp_bound_laws.specs.Leases.{ChainHasSource, LeaseHasSource, TrackHasSource};

use wrp_course::{frames_were_put_out, link_on_in_the_same_handshake, ticks_are_apart};
use wrp_node::{ends_are_set, step_gives_links, step_settles};
use wrp_servo::{chain_has_signals, holdover_since, track_is_near, track_since};

/// If the lease of a slave is fresh, the last Announce that renewed it was put out by its parent, certain
/// of its time, at most a lease and a frame's life ago; and at every event since, the parent was the
/// grandmaster, or in TRACK or HOLDOVER, and their link had its carrier. The same holds while the slave's
/// servo has a chain, and so in TRACK.
pub fn lease_has_source()
    ensures lease { LeaseHasSource }
    ensures chain { ChainHasSource }
    ensures track { TrackHasSource }
{
    step_gives_links();
    step_settles();
    ends_are_set();
    ticks_are_apart();
    link_on_in_the_same_handshake();
    frames_were_put_out();
    track_since();
    holdover_since();
    track_is_near();
    chain_has_signals();
}
