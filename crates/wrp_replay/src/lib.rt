//! The replay of a node: the record lines of its inputs, what each makes the node put out, and the counters that
//! close them; and the delay law of the link above a node, as its network gives it. Lines are this project's
//! profile.
#![tactic(auto)]

mod counting;
mod law;
mod replayed;
mod replayed_node;
mod replaying;

pub use counting::append_counts;
pub use law::{asked, kept_if, law_above};
pub use replayed::Replayed;
pub use replayed_node::name_of;
pub use replaying::replay;
