//! A link's history, and a node's ticks in it. Each function here computes nothing: its contract is the
//! law.
ghost use Rattle.wrp_tracking_laws.specs.Moment.{SlowBetween};
ghost use Rattle.wrp_tracking_laws.specs.Ticks.{TicksAtLeast, TicksAtMost, WithinTicks};

/// What moves at most at a rate in each step of a history does so between any two of its moments.
pub fn slow_between()
    ensures { SlowBetween }
{}

/// Counts of ticks bound the time that passed, from above and from below.
pub fn ticks_tell_time()
    ensures most { TicksAtMost }
    ensures least { TicksAtLeast }
    ensures within { WithinTicks }
{}
