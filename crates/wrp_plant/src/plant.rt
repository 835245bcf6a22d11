//! A world without its nodes: true time, clocks, fibres, ends of links and frames in flight.
mod carriers;
mod clocks;
mod links;
pub mod new;
mod parts;
mod putting;
mod tops;
mod views;

use crate::ends::Span;
use wrp_base::Tau;
use wrp_config::Network;
use wrp_course::ClockState;
use wrp_flights::Frames;

/// A world without its nodes.
#[derive(Debug, Drop)]
pub struct Plant {
    /// The network.
    pub net: Network,
    /// True time, in tau.
    pub time: Tau,
    /// How many events have come so far.
    pub events: u32,
    /// The clock of each node, in file order.
    pub clocks: Vec<ClockState>,
    /// The state of each link, in file order.
    pub spans: Vec<Span>,
    /// The frames that departed.
    pub frames: Frames,
    /// How many more steps of nodes each end of each link has room for.
    pub spare: u8,
    /// No waiting frame was put out later than this, in tau.
    pub last_put: Tau,
    /// The grandmaster, the node with no link above it.
    pub top: u8,
}
