//! What a measurement is worth, which events are taken, and what the lines of the command are, as laws.
ghost use Rattle.wrp_plain.specs.Exact.{EventsAreTakenExactly, MeasurementsAreExact};
ghost use Rattle.wrp_plain.specs.LineTruth.{OutputTellsTruth, RecordsTellTruth};
ghost use Rattle.wrp_plain.specs.ReportLines.{ReportsHaveLines};
ghost use Rattle.wrp_plain.specs.Said.{OutputHoldsUntilTick};
ghost use Rattle.wrp_plain.specs.Steered.{ReportsHoldUntilTick};
ghost use Rattle.wrp_plain.specs.Truth.{MeasuredWithinBound};

/// The error statement of a measurement, for all settings, delays, offsets and stamps: if the stamps
/// keep the settings, the round trip is not short, and the true offset is within the bound of the
/// measured one. It does nothing when it runs.
pub fn measured_within_bound()
    ensures { MeasuredWithinBound }
{}

/// A measurement's offset is half of the difference of its two ways, rounded down; its bound has half of the
/// round trip, rounded up; a move is rounded up to a whole tau. Of the kept measurements the one with the
/// least bound is reported, and of several the newest. It does nothing when it runs.
pub fn measurements_are_exact()
    ensures { MeasurementsAreExact }
{}

/// An event breaks no premise if and only if it keeps all six. At its limit each is kept: with exactly
/// DMAX since the last tick, a delay of exactly LEAST, a stamp off by exactly twice ERR. It does
/// nothing when it runs.
pub fn events_are_taken_exactly()
    ensures { EventsAreTakenExactly }
{}

/// What the records of the command are worth, whatever they say: each report that is printed is within
/// its bound of the true offset that is printed with it, that bound is the least that a kept measurement
/// gives, and no exchange is ever Short. It does nothing when it runs.
pub fn records_tell_truth()
    ensures { RecordsTellTruth }
{}

/// What the output of the command is worth, whatever the input is, and wherever the output ends: each
/// line in it that reads `TICK plain EST BOUND true OFF` has an estimate that is at most the bound from
/// the true offset. It does nothing when it runs.
pub fn output_tells_truth()
    ensures { OutputTellsTruth }
{}

/// Each report of an event has its line among those that the records write: the tick count, the estimate,
/// the bound and the true offset. This holds whatever follows what they write. So the law above speaks of
/// some line wherever there is a report. It does nothing when it runs.
pub fn reports_have_lines()
    ensures { ReportsHaveLines }
{}

/// What a command does to the true offset, and for how long a report holds, whatever the records say.
/// The command of an exchange takes the whole estimate back if that is at most STEP, and otherwise is
/// STEP towards 0; the command moves the true offset, and nothing else does but its drift. If the
/// command takes the whole estimate back, the true offset is at most the bound afterwards. And each
/// report, moved with the commands since, is within its bound of the true offset until the next tick.
/// It does nothing when it runs.
pub fn reports_hold_until_tick()
    ensures { ReportsHoldUntilTick }
{}

/// What the printed lines show of the true offset between ticks, whatever the input is and wherever its
/// output ends. The records write the lines of reports, and after each at most one step line, which is
/// the command against the estimate. If a step takes the whole estimate back, the true offset with that
/// step is at most the bound. And each report, moved with the printed steps, is within its bound of
/// each true offset that is printed up to the next tick, including the true offset of that tick's
/// report. It does nothing when it runs.
pub fn output_holds_until_tick()
    ensures { OutputHoldsUntilTick }
{}
