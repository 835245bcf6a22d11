//! The two-step exchange of a slave port: from Sync, Follow_Up, Delay_Req and Delay_Resp that may be
//! lost, late, repeated or of an earlier chain, the newest four stamps that belong together (IEEE
//! 1588-2019, two-step clocks and the delay request-response mechanism; which stamps are kept, and
//! the phase that goes with two of them, are this project's profile).
#![tactic(auto)]

mod delay;
mod exchange;
mod ring;
mod sync;

pub use exchange::Exchange;
