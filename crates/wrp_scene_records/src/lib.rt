//! The scenario that record lines say, and how a run by it ends: what `simulate` and `loop` share (this project's profile).
#![tactic(auto)]

mod ending;
mod scenario;

pub use ending::{overrun, write_waiting};
pub use scenario::ScenarioLines;
