//! The line that sums up the run of a node.
ghost use Rattle.std.specs.Prelude.{◌≡◌, ◌∷◌, ◌++◌, OnOk, OnErr};
ghost use Rattle.wrp_lines.specs.Lines.{sum_line_of, sum_words};
ghost use Rattle.wrp_records.specs.Words.{line_of};

use crate::words::text_of_servo;
use itoa::Buffer;
use std::alloc::AllocError;
use wrp_base::{ServoState, Tau};
use wrp_records::append_words;

/// What sums up the run of a node.
#[derive(Clone, Copy, Debug, PartialEq, Eq)]
pub struct Sum {
    /// Its tick count.
    pub ticks: u32,
    /// How many track lines it has.
    pub tracks: u64,
    /// The greatest distance of its true offset from 0 at one of them, in tau.
    pub worst: u128,
    /// Its bound in TRACK, in tau.
    pub bound: Tau,
    /// The state of its servo.
    pub state: ServoState,
}

/// Appends to `text` the line that sums up the run of the node with this name. `AllocError` if
/// memory runs out: `text` keeps its octets.
pub fn append_sum_line(name: &str, sum: Sum, text: &mut Vec<u8>) -> Result<(), AllocError>
    ensures ok { OnOk result (text.new.items ≡ text.old.items
        ++ sum_line_of name.now sum.ticks sum.tracks sum.worst sum.bound sum.state) }
    ensures err { OnErr result (text.new.items ≡ text.old.items) }
{
    append_sum(name, sum, text_of_servo(sum.state), text)
}

// The same, by the name of the servo's state.
fn append_sum(name: &str, sum: Sum, state: &str, text: &mut Vec<u8>) -> Result<(), AllocError>
    ensures ok { OnOk result (text.new.items ≡ text.old.items
        ++ line_of (name.now ∷ sum_words sum.ticks sum.tracks sum.worst sum.bound state.now)) }
    ensures err { OnErr result (text.new.items ≡ text.old.items) }
{
    let mut ticks = Buffer::new();
    let mut tracks = Buffer::new();
    let mut worst = Buffer::new();
    let mut bounds = Buffer::new();
    let ticks = ticks.format(sum.ticks);
    let tracks = tracks.format(sum.tracks);
    let worst = worst.format(sum.worst);
    let bound = bounds.format(sum.bound);
    append_words(text, &[name, "sum", ticks, tracks, worst, bound, state])
}
