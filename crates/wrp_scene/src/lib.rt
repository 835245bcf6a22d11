//! A scenario of a network: for how long it runs, with which fibres, clocks, losses and faults, and what its lines say (this project's
//! profile).
#![tactic(auto)]

mod scene;

pub use scene::{Fault, FaultKind, LAST_EVENT, Scene, SceneKind};
