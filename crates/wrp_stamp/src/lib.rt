//! Receive stamps, exact to the last tau. A port notes an arriving frame by two counters of whole
//! periods, one on each edge of the clock, and by a phase tag; `merge` makes one reading of the three.
//! The rule and its error statement are this project's profile.
#![tactic(auto)]

mod error_statement;
mod merging;
mod transition;

pub use error_statement::merged_within_tag;
pub use merging::merge;
pub use transition::transition_of;
