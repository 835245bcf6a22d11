//! The delay law of a link: how much of the delay both ways the way down takes. A law is kept as a
//! closure with its range and its error, and the layers above know it by that alone. The closure gives
//! the exact fraction rounded down, or the value of a table of points (this project's profile).
#![tactic(auto)]

mod delay;
mod floor;
mod link_law;
mod table;

pub use delay::{DelayLaw, LawKind};
pub use floor::floor_of;
pub use link_law::LinkLaw;
pub use table::{on_table, table_never_falls};
