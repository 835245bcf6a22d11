//! A whole White Rabbit node except its hardware: octets and stamps in, frames, clock commands and
//! reports out (IEEE 1588-2019 and the White Rabbit Specification 2.0 in this project's profile).
#![tactic(auto)]

mod control;
mod inputs;
mod interface;
mod laws;
mod node;
mod order;
mod parts;
mod place;
mod ports;
mod set;
mod set_laws;
mod step_laws;
mod told;

pub use interface::{Input, NodeSet, Output, Outputs, Report};
pub use laws::{
    chain_is_unbroken, dropped_leaves_a_count, one_run, sends_are_put_out, signals_are_of_link,
    step_gives_links, step_settles,
};
pub use node::Node;
pub use ports::{PortState, PortStates};
pub use set::node_set;
pub use set_laws::{ends_are_set, sets_of_three_nodes};
pub use step_laws::{commands_are_held, only_frames_say, sends_are_few, ticks_are_counted};
