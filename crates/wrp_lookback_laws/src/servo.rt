//! What a servo holds, by looking back over the list of all its calls. Each function here computes nothing:
//! its contract is the law. Of the servo's running values the definitions use only its state and its setpoint,
//! and the definitions of TRACK and HOLDOVER also the calm count.
ghost use Rattle.wrp_lookback_laws.specs.Chains.{ChainLooksBack, FirstLooksBack};
ghost use Rattle.wrp_lookback_laws.specs.Detector.{DetectorLooksBack};
ghost use Rattle.wrp_lookback_laws.specs.Fours.{FourLooksBack};
ghost use Rattle.wrp_lookback_laws.specs.Holdovers.{HoldoverLooksBack};
ghost use Rattle.wrp_lookback_laws.specs.Tracks.{TrackLooksBack};

use wrp_servo::{
    chain_has_signals, chain_is_held, chain_since, holdover_since, phase_is_sum, told_last,
    track_is_near, track_since,
};

/// The lock detector is locked if and only if the errors of the good samples since its last restart lock it.
/// It restarts at a reset, at a carrier that goes, at one that comes outside HOLDOVER, at a good sample out of
/// range, and when HOLDOVER is entered or left.
pub fn detector_looks_back()
    ensures { DetectorLooksBack }
{
    told_last();
    phase_is_sum();
}

/// There is a chain if and only if a good sample that may begin one came, and neither it nor any call since
/// ended it. The chain's number is the number of the sample at which it began.
pub fn chain_looks_back()
    ensures stands { ChainLooksBack }
    ensures first { FirstLooksBack }
{
    told_last();
    phase_is_sum();
    chain_since();
    track_since();
    chain_is_held();
    track_is_near();
}

/// The four that the servo holds is the newest measurement of the chain, in the law's range, with no end of
/// the chain and no step since.
pub fn four_looks_back()
    ensures { FourLooksBack }
{
    told_last();
    phase_is_sum();
    chain_since();
    track_since();
    chain_is_held();
    chain_has_signals();
    track_is_near();
}

/// The servo is in TRACK if and only if a measurement entered it and no call since left it: by an end of the
/// chain, by a loop error or a residual past its limit, or by a four that is too old.
pub fn track_looks_back()
    ensures { TrackLooksBack }
{
    told_last();
    phase_is_sum();
    chain_since();
    track_since();
    chain_is_held();
    chain_has_signals();
    track_is_near();
}

/// The servo is in HOLDOVER if and only if a call other than a reset left TRACK, by these causes, and since
/// then there were no reset and fewer than `holdover` ticks.
pub fn holdover_looks_back()
    ensures { HoldoverLooksBack }
{
    told_last();
    phase_is_sum();
    chain_since();
    track_since();
    holdover_since();
    chain_is_held();
    chain_has_signals();
    track_is_near();
}
