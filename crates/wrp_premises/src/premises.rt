//! The thirteen premises under which an event may come. Each function returns the first of its
//! comparisons that fails, if one fails.
pub mod beat;
pub mod fibres;
pub mod life;
pub mod modules;
pub mod rates;
pub mod stamps;
pub mod ticks;
