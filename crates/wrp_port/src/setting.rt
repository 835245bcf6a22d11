//! What a port is set to for good.
use crate::Sched;
use wrp_data::{DefaultDs, PortDs};
use wrp_link::LinkSet;

/// The setting of a port.
#[derive(Clone, Copy, Debug)]
pub struct Setting {
    /// What its node knows of itself.
    pub own: DefaultDs,
    /// What it knows of itself and of its peer.
    pub ds: PortDs,
    /// What its link is set to.
    pub link: LinkSet,
    /// The counts of its schedule and of its lease.
    pub sched: Sched,
    /// How many good samples its exchange knows.
    pub ring: usize,
}
