//! Test suites as data: files of cases, each of which makes one call of a program of cases, and says what is
//! expected. A program of cases names the calls that it can make (`Kinds`) and hands its words to `run_files`.
//! docs/CASES.md gives the format.
#![tactic(auto)]

mod answer;
mod case;
mod difference;
mod fault;
mod pieces;
mod running;
mod suite;

pub use answer::Answer;
pub use case::{Case, Setting};
pub use fault::Fault;
pub use running::{Kinds, run_files};
pub use suite::Suite;
