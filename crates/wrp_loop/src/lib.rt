//! A network over a link: the simulator makes its events, the frames that arrive go over the link as
//! datagrams, and what the link gives is handled as frames that are handed over, as forged ones, or as noise.
//! Whatever the link does, no premise of the world is broken, and the calls of the link and their answers
//! determine all that is written (this project's profile).
#![tactic(auto)]

mod arrival;
mod between;
mod carrying;
mod crossing;
mod datagrams;
mod fate;
mod index;
mod laws;
mod lines;
mod looping;
mod network;
mod outcome;
mod plain;
mod rounds;
mod routes;
mod running;

pub use arrival::{Taken, exchange};
pub use fate::Fate;
pub use index::{Came, Index};
pub use laws::{
    events_are_numbered, index_chooses, loop_is_audited, loop_keeps_the_bounds, one_frame, one_loop,
};
pub use lines::append_forged;
pub use looping::{start_loop, take_round};
pub use network::{LoopCourse, LoopedNetwork};
pub use outcome::{LoopFault, Rounded};
pub use routes::{Route, route_of};
pub use running::run_over;
