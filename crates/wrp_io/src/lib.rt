//! The outside of `wrnet` as three traits, each with a meaning that contracts can cite: a `Source` of
//! octets, a `Sink` of octets and a `Link` that carries frames between the ends of a network's links.
//! Objects in memory report what they hold, and fail if and only if they are set to. The adapters over
//! std's readers and writers, and the link over sockets, are the trusted edge. All of this is this
//! project's profile.
#![tactic(auto)]

mod adapters;
mod calls;
mod link;
mod memory_link;
mod memory_sink;
mod memory_source;
mod queue;
mod sink;
mod source;
mod udp_link;

pub use adapters::{StdSink, StdSource};
pub use link::{Link, LinkCall, StartFault};
pub use memory_link::MemLink;
pub use memory_sink::MemSink;
pub use memory_source::MemSource;
pub use sink::Sink;
pub use source::{Failed, Source};
pub use udp_link::UdpLink;
