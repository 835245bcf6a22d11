//! The commands of `wrnet`, without their words: what a command line may ask for. The words of each are in `wrp_words`, and what a
//! run is expected to do is in `wrp_asked`. The commands are this project's profile.
#![tactic(auto)]

mod alone;
mod command;

pub use alone::Alone;
pub use command::{Asked, Command};
