//! What a node's servo gives to the bound of its hop. Each function here computes nothing: its contract is
//! the law.
ghost use Rattle.wrp_tracking_laws.specs.ServoGives.{KeptIsMeasured, TrackGives, TrackIsYoung};

/// What `wrp_servo` proves of TRACK, in the hop's numbers: the servo holds a measurement, by which the
/// loop's error and the residual are within their limits.
pub fn track_gives()
    ensures { TrackGives }
{}

/// The measurement that the servo holds was brought by a call, in a chain and in the law's range, with the
/// law's answer.
pub fn kept_is_measured()
    ensures { KeptIsMeasured }
{}

/// In TRACK the four that the servo holds is at most `age` ticks old, if no four is older than the one
/// before: from what `wrp_servo` proves of TRACK.
pub fn track_is_young()
    ensures { TrackIsYoung }
{}
