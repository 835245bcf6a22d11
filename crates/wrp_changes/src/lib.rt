//! What an event changes by itself in a world without its nodes, which inputs it gives to the nodes, and how the step
//! of a node changes the rest (this project's profile).
#![tactic(auto)]

mod beginning;
mod changing;
mod giving;
mod moves;
mod room;
mod telling;

pub use beginning::begin;
pub use giving::put_out_at;
pub use moves::spans::all_stay;
pub use telling::{News, told};
