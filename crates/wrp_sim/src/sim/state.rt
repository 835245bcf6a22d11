//! What a simulator holds.
use crate::draws::Draws;
use crate::ticks::Ticks;
use wrp_scene::{Fault, Scene};

/// The frame that arrived last.
#[derive(Clone, Copy)]
pub struct Handed {
    /// Its number; 0 before any frame.
    pub frame: u32,
    /// How often it is still handed over.
    pub times: u8,
}

/// What a simulator holds: its scenario, and what has been drawn and done.
#[derive(Drop)]
pub struct State {
    /// The scenario.
    pub scene: Scene,
    /// The numbers that are drawn.
    pub draws: Draws,
    /// How many events of the start have come.
    pub begun: u16,
    /// The faults that are left, in the order of their lines.
    pub faults: Vec<Fault>,
    /// When each node ticks next, in true time.
    pub tick_at: Ticks,
    /// The node whose tick came last, if no other event came since.
    pub ticked: Option<u8>,
    /// The frame that arrived last.
    pub arrived: Handed,
}
