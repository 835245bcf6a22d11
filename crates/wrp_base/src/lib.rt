//! What every crate of `wrnet` uses: true and read time, PTP messages with their White Rabbit parts, the states of a
//! link and of a servo, and exact arithmetic on tau. Names are those of IEEE 1588-2019 and of the White Rabbit
//! Specification 2.0; the ranges are this project's profile.
#![tactic(auto)]

mod exact;
mod fault;
mod link;
mod measurement;
mod message;
mod numbers;
mod time;

pub use exact::{ceil_div, circ, difference, floor_div, hold, narrow, product, sum, trunc_div};
pub use fault::{ConfFault, TraceFault};
pub use link::{Deltas, Fibre, LinkState, LinkWord, Mark, Module, Role, ServoState};
pub use measurement::{ChainNews, Four};
pub use message::{Body, EVERY_PORT, FRAME_ROOM, Frame, Head, PortIdentity, PtpMsg, WrMsg};
pub use numbers::constants_are_those_of_the_definitions;
pub use time::{Clock, Raw, STEPS_OF_PERIOD, Stamp, Tau, Ts};
