//! One port of a node, in either role: what it is handed, what it sends and when, what it drops and
//! why, and what it measures. It joins the link setup of the White Rabbit Specification 2.0, the
//! two-step exchange of IEEE 1588-2019, the lease of its parent's time and the schedule of its own
//! messages; reasons, schedule, lease and sent values are this project's profile.
#![tactic(auto)]

mod hearing;
mod interface;
mod line;
mod messages;
mod port;
mod setting;
mod wire;

pub use interface::{PortIn, PortOut, Sched};
pub use port::Port;
