//! How far the nodes of a network are from true time, in every run of its world: laws over lists of
//! events, from the laws of one hop and of one node. The functions do nothing; their contracts are the
//! laws. All rules are this project's profile.
#![tactic(auto)]

mod bounds;
mod chains;
mod clocks;
mod exchanges;
mod flights;
mod fours;
mod holdovers;
mod leases;
mod one_message;
mod port_delays;
mod requests;
mod safety;
mod sequence_ids;

pub use bounds::{estimates_are_near, hops_are_kept, offsets_keep_bounds, reports_are_within};
pub use chains::{chain_has_constant, chain_passes_slowly};
pub use clocks::{clocks_move_slowly, fibres_keep_their_share, ticks_are_on_time};
pub use exchanges::syncs_tell;
pub use flights::{frames_follow_the_source, frames_keep_order};
pub use fours::{four_holds_in_track, kept_is_reckoned};
pub use holdovers::{holdover_is_from_track, holdover_is_short};
pub use leases::lease_has_source;
pub use one_message::pieces_are_of_one_message;
pub use port_delays::fibre_holds_while_on;
pub use requests::delays_tell;
pub use safety::{chain_stays_unbroken, holdover_came_within_path, track_keeps_limits};
pub use sequence_ids::{ids_come_again_late, one_timed_an_event};
