//! A plain PTP servo with a bound of its own: what a network without White Rabbit can promise. The
//! asymmetry is unknown, and the bound is half of what the round trip leaves open (this project's
//! profile).
#![tactic(auto)]

mod event;
mod kept;
mod law;
pub mod lines;
mod numbers;
mod premises;
mod servo;
mod settings;
mod world;

pub use event::{PlainBroken, PlainEvent, PlainSeen};
pub use law::{
    events_are_taken_exactly, measured_within_bound, measurements_are_exact,
    output_holds_until_tick, output_tells_truth, records_tell_truth, reports_have_lines,
    reports_hold_until_tick,
};
pub use servo::Plain;
pub use settings::{PlainOut, PlainReport, PlainSet, PlainStart};
pub use world::PlainWorld;
