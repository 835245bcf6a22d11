//! The integer loop that drives a White Rabbit slave's oscillator: a proportional and integral
//! controller of its DAC, and the lock detector that watches its errors. Both are exact recurrences of
//! this project's profile. A frozen loop is one that is not updated.
#![tactic(auto)]

mod control;
mod lock;

pub use control::Pi;
pub use lock::LockDet;
