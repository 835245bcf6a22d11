//! The lines that a run writes: one for each output of a node, and one for each counter of dropped
//! frames that is not 0 at the end (this project's profile).
#![tactic(auto)]

mod counts;
mod outputs;
mod sums;
mod words;

pub use counts::{append_count_line, count_line};
pub use outputs::{append_line, append_output_line, output_line};
pub use sums::{Sum, append_sum_line};
