//! Which inputs can come to a node.
ghost use Rattle.std.specs.Prelude.{◌≡◌, ◌↔◌, IsTrue, true};
ghost use Rattle.wrp_node.specs.Node.{FitsInput};
ghost use Rattle.wrp_node.specs.Parts.{FitsRaw, is_among};
ghost use Rattle.wrp_port.specs.PortAt.{IsStamp};

use super::Node;
use crate::Input;
use wrp_base::{Raw, Stamp};

impl<F: Fn(i64) -> i64> Node<F> {
    /// Whether an input can come: its port is one of the node's, the base of a sample is below 16384, a
    /// raw stamp has counters of 1 to `2^63 - 1` and a tag below 16384, a stamp is 0 to `2^93`, and fewer
    /// than `2^32 - 1` ticks came since the last reset.
    pub fn fits(&self, x: &Input) -> bool
        ensures { IsTrue result ↔ FitsInput self.now x.now }
    {
        match x {
            Input::Tick => self.parts.ticks < u32::MAX,
            Input::Sample { base, .. } => *base < 16_384,
            Input::Frame { port, raw, .. } => self.parts.has_port(*port) && fits_raw(raw),
            Input::Sent { port, stamp, .. } => self.parts.has_port(*port) && is_stamp(stamp),
            Input::Carrier { port, .. } => self.parts.has_port(*port),
            Input::Reset => true,
        }
    }
}

// Whether the numbers of a raw stamp are in their ranges.
fn fits_raw(raw: &Raw) -> bool
    ensures { IsTrue result ↔ FitsRaw raw.now }
{
    let counters = 0 < raw.rising
        && raw.rising < 1 << 63
        && 0 < raw.falling
        && raw.falling < 1 << 63;
    counters && raw.tag < 16_384
}

// Whether a stamp is in its range.
fn is_stamp(stamp: &Stamp) -> bool
    ensures { IsTrue result ↔ IsStamp stamp.now }
{
    0 <= stamp.value && stamp.value <= 1 << 93
}
