//! The course of a world: what a network of nodes over true time is, what each event changes of it and gives its
//! nodes, the thirteen premises under which an event may come, and what holds in every run of such events (this
//! project's profile). This crate has the definitions, the laws, and the few types that they name: the code of a
//! world is in the crates above.
#![tactic(auto)]

mod breach;
mod clocks;
mod event;
mod fibres;
mod laws;
mod node_out;
mod place;
mod run_laws;

pub use breach::Breach;
pub use clocks::ClockState;
pub use event::{Event, Swap};
pub use fibres::FibreState;
pub use laws::{
    accepted_is_unbroken, arrival_keeps_stamp_bound, new_world_is_still, sample_keeps_beat_pattern,
    worked_rows,
};
pub use node_out::NodeOut;
pub use place::{Place, other_of, place_of, sends_nm};
pub use run_laws::{
    dropped_frames_leave_a_count, frames_are_stamped, frames_have_times, frames_may_come,
    frames_were_put_out, link_on_in_the_same_handshake, modules_stay, peers_stay_in_the_handshake,
    ports_are_judged, ports_wake_late, reported_link_on_is_earned, ticks_are_apart,
    time_never_falls,
};
