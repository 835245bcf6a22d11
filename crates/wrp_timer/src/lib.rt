//! The two counts of a waiting state: a timer in ticks, and the retries that are left. A timer
//! reports its end once, at the tick that brings it to 0. Both are this project's own.
#![tactic(auto)]

mod retry;
mod timer;

pub use retry::Retry;
pub use timer::Timer;
