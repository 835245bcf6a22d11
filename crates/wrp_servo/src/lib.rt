//! The servo of a slave port: from phase samples and fours of stamps to steps, DAC values and a state.
//! Each call is pinned by its row over what the servo holds, and TRACK, the chain, the lease and
//! HOLDOVER are what one finds by looking back over the list of all calls (this project's profile).
#![tactic(auto)]

mod chain;
mod interface;
mod laws;
mod machine;
mod measuring;
mod phase_loop;
mod sampling;
mod servo;
mod valid;

pub use interface::{ServoOut, ServoSet};
pub use laws::{
    chain_has_signals, chain_is_held, chain_keeps_gap, chain_since, counts_one_tick,
    holdover_since, lease_since, no_step_in_track, phase_is_sum, told_last, track_is_near,
    track_since,
};
pub use machine::{Core, Measurement, Signals};
pub use phase_loop::PhaseLoop;
pub use servo::Servo;
pub use wrp_base::ChainNews;
