//! How far a node is from its parent and from the grandmaster: laws over one node, its parent and the link
//! between them, from what the two keep. The functions do nothing; their contracts are the laws. All rules
//! are this project's profile.
#![tactic(auto)]

mod chain;
mod error_sum;
mod history;
mod invariant;
mod pieces;
mod servo;
mod tree;

pub use chain::{chain_is_kept, hop_holds, stamps_tell_constant};
pub use error_sum::{estimate_is_near, hop_sum, worked_hop};
pub use history::{slow_between, ticks_tell_time};
pub use invariant::{moment_keeps_track, parts_give_bound};
pub use pieces::{delay_half_is_kept, four_tells, sync_half_is_kept};
pub use servo::{kept_is_measured, track_gives, track_is_young};
pub use tree::{held_within_motion, reference_bounds, tree_sum};
