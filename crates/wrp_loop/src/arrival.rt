//! The calls of a link at an arrival.
ghost use Rattle.std.specs.Prelude.{◌≡◌, ◌≤◌, ℕ, List, IfOk, OnOk, OnErr, length};
ghost use Rattle.wrp_io.specs.declared.link.LinkCall.{LinkCall};
ghost use Rattle.wrp_io.specs.Faults.{Rose};
ghost use Rattle.std.specs.List.{AllByRecursion};
ghost use Rattle.wrp_base.specs.Octets.{AreOctets};
ghost use Rattle.wrp_loop.specs.Calls.{Grew, AreCutCalls, AreCutTaken, IsFrame, IsFrameCall, arrival_calls, receptions};

use arrayvec::ArrayVec;
use wrp_base::Frame;
use wrp_io::{Failed, Link};

// The most datagrams that are taken at one arrival.
const MOST_TAKEN: usize = 16;

/// The datagrams that were taken at one arrival.
pub type Taken = ArrayVec<Frame, 16>;

// Octets are below 256.
fn are_octets(octets: &[u8])
    ensures { AreOctets octets.now }
{
    let _count = octets.len();
}

// The octets of a frame are below 256, and a frame has room for 256 octets.
fn frame_fits(frame: &Frame)
    ensures { IsFrame frame.now }
{
    are_octets(frame.as_slice());
}

// Takes what waits at an end, up to the first reception that gives nothing.
fn take_all<N: Link>(link: &mut N, to: u32) -> Result<Taken, Failed>
    ensures most { IfOk result (λ got. length got.items ≤ 16) }
    ensures frames { IfOk result (λ got. AllByRecursion IsFrame got.items) }
    ensures calls { IfOk result (λ got.
        Grew (N.told link.old) (N.told link.new) (receptions to 16 got.items)) }
    ensures cut { OnErr result ((calls : List LinkCall)
        × Grew (N.told link.old) (N.told link.new) calls × AreCutTaken to calls
        × AllByRecursion IsFrameCall calls) }
    ensures rose { OnErr result (Rose (N.faults link.old) (N.faults link.new)) }
    ensures kept { OnOk result (N.faults link.new ≡ N.faults link.old) }
{
    let mut got = Taken::new();
    'taking: while got.len() < MOST_TAKEN {
        let mut frame = Frame::new();
        if !link.recv(to, &mut frame)? {
            return Ok(got);
        }
        frame_fits(&frame);
        got.push(frame);
    }
    Ok(got)
}

/// Sends a frame's octets from an end, and takes what then waits at the other end. At most 16
/// frames are taken. `Failed` if a call of the link failed: its count of faults rose, and the calls
/// before the failed one were answered.
pub fn exchange<N: Link>(link: &mut N, from: u32, to: u32, octets: &[u8]) -> Result<Taken, Failed>
    requires { length octets.now ≤ 256 }
    ensures most { IfOk result (λ got. length got.items ≤ 16) }
    ensures frames { IfOk result (λ got. AllByRecursion IsFrame got.items) }
    ensures calls { IfOk result (λ got.
        Grew (N.told link.old) (N.told link.new) (arrival_calls from to octets.now got.items)) }
    ensures cut { OnErr result ((calls : List LinkCall)
        × Grew (N.told link.old) (N.told link.new) calls × AreCutCalls from to octets.now calls
        × AllByRecursion IsFrameCall calls) }
    ensures rose { OnErr result (Rose (N.faults link.old) (N.faults link.new)) }
    ensures kept { OnOk result (N.faults link.new ≡ N.faults link.old) }
{
    link.send(from, octets)?;
    take_all(link, to)
}
