//! The command that calibrates.
ghost use Rattle.wrp_calib.specs.LinesMeaning.{calibration};
ghost use Rattle.wrp_records.specs.ByLines.{of_lines};
ghost use Rattle.wrp_records.specs.Passages.{PassesAll, passage};

use crate::lines::CalibLines;
use std::alloc::Global;
use wrp_io::{Sink, Source};
use wrp_records::{Status, run_all_lines};

/// Reads the lines of a calibration from a source to its end, and writes the answer to a sink, or the
/// line that says why there is none.
pub fn calibrate<S: Source, K: Sink>(alloc: Global, source: &mut S, sink: &mut K) -> Status
    ensures passes { PassesAll (of_lines calibration) (passage S.left S.faults source.old source.new)
        (passage K.held K.faults sink.old sink.new) result }
{
    let mut lines = CalibLines::new();
    run_all_lines(alloc, &mut lines, source, sink)
}
