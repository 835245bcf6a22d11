//! Frames that departed, kept as a window: a frame's octets and stamp are kept while it is on a fibre or if
//! it was put out at most a life ago; for an older frame only the time at which it was put out is kept (this
//! project's profile).
#![tactic(auto)]

mod ages;
mod departed;
mod frames;
mod losing;
mod next;
mod puts;

pub use departed::{Departed, Reception};
pub use frames::Frames;
