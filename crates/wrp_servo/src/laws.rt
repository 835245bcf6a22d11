//! Laws over all lists of calls. Each function here computes nothing: its contract is the law.
ghost use Rattle.wrp_servo.specs.Laws.{TrackSince, ChainSince, LeaseSince, TrackHasChain, TrackIsNear, ChainIsHeld, ChainHasSignals, ChainKeepsGap, PhaseMovesByTags, NoStepInTrack};
ghost use Rattle.wrp_servo.specs.Holdover.{HoldoverSince};
ghost use Rattle.wrp_servo.specs.Tags.{PhaseIsSum};
ghost use Rattle.wrp_servo.specs.Told.{CountsOneTick, ToldLast};

/// The state is TRACK if and only if a call entered it and no later call left it.
pub fn track_since()
    ensures { TrackSince }
{}

/// There is a chain if and only if a call started it and no later call ended it.
pub fn chain_since()
    ensures { ChainSince }
{}

/// The lease is fresh if and only if a call gave a fresh lease, and no later call gave a lapsed one or was a reset.
pub fn lease_since()
    ensures { LeaseSince }
{}

/// The state is HOLDOVER if and only if a call other than a reset left TRACK, and since then there were
/// no reset and fewer than `holdover` ticks.
pub fn holdover_since()
    ensures { HoldoverSince }
{}

/// In TRACK there are a chain and a four, and the loop's error and the residual are within their limits.
pub fn track_is_near()
    ensures chain { TrackHasChain }
    ensures near { TrackIsNear }
{}

/// With a chain the state is not HOLDOVER, and the lock detector is locked, or the loop restarted since
/// its last good sample.
pub fn chain_is_held()
    ensures { ChainIsHeld }
{}

/// With a chain there are a carrier, a link that is on and a fresh lease, as last given.
pub fn chain_has_signals()
    ensures { ChainHasSignals }
{}

/// With a chain at most `gap` ticks passed since the last good sample.
pub fn chain_keeps_gap()
    ensures { ChainKeepsGap }
{}

/// u is the sum of the wrapped differences of the good tags since the loop's last restart, and changes
/// by the next good tag alone.
pub fn phase_is_sum()
    ensures sum { PhaseIsSum }
    ensures moves { PhaseMovesByTags }
{}

/// No step is commanded in TRACK or HOLDOVER.
pub fn no_step_in_track()
    ensures { NoStepInTrack }
{}

/// The carrier, the link, the lease and the ticks are the ones that the list of calls last gave.
pub fn told_last()
    ensures { ToldLast }
{}

/// A call counts at most one tick.
pub fn counts_one_tick()
    ensures { CountsOneTick }
{}
