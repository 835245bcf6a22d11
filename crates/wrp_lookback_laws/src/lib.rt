//! Running values as what one finds by looking back over a whole list. The functions do nothing; their
//! contracts are the laws: on every list the value that is kept call by call is the one that looking back
//! finds, and a drop at a node changes only a counter. All rules are this project's profile.
#![tactic(auto)]

mod fibres;
mod link;
mod node;
mod servo;

pub use fibres::fibres_look_back;
pub use link::ticks_are_whole;
pub use node::drops_only_count;
pub use servo::{
    chain_looks_back, detector_looks_back, four_looks_back, holdover_looks_back, track_looks_back,
};
