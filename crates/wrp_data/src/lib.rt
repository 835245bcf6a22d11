//! What a port keeps of itself and of the frames that it dropped: the datasets from which it makes
//! its Announce (IEEE 1588-2019) and its White Rabbit suffix (White Rabbit Specification 2.0), and
//! one counter for each reason for which a frame is dropped. The values that are sent, and the reasons
//! with their order, are this project's profile.
#![tactic(auto)]

mod announcing;
mod counters;
mod datasets;
mod reason;

pub use announcing::{announce_of, suffix_of};
pub use counters::Counters;
pub use datasets::{DefaultDs, PortDs, WrPortDs};
pub use reason::Reason;
