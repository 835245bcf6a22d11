//! Calibration of a link from swapped runs: from measured runs over a patch cord, over two strands and
//! over the same strands exchanged, the port delays, the strands' delays and the asymmetry, each as an
//! interval that holds the truth (this project's profile).
#![tactic(auto)]

mod calibrating;
mod calibration;
mod laws;
mod lines;
mod run;
mod span;

pub use calibrating::calibrate;
pub use calibration::{Calib, CalibFault, CalibOut, Unknown};
pub use laws::{
    conflicts_are_real, each_input_has_answer, inputs_tell_truth, intervals_are_tight,
    lines_tell_truth,
};
pub use lines::CalibLines;
pub use run::RunKind;
pub use span::Span;
