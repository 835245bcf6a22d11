//! What carries frames between the ends of a network's links.
ghost use Rattle.std.specs.Prelude.{ℕ, List, Option, None, Some, Ok, true, length, ◌≡◌, ◌≢◌, ◌≤◌};
ghost use Rattle.wrp_io.specs.Faults.{HasCause, HasStartCause};

use crate::source::Failed;
use std::alloc::AllocError;
use wrp_base::Frame;

/// Why a link did not start.
#[derive(Debug, Drop)]
pub enum StartFault {
    /// The link failed, and its count of faults rose.
    Failed,
    /// Memory ran out.
    Memory(AllocError),
}

/// A call of a link that answered `Ok`, with its answer.
#[derive(Debug, Drop)]
pub enum LinkCall {
    /// `start` with this number of ends.
    Start(u32),
    /// `send` from this end, of these octets.
    Send(u32, Frame),
    /// `recv` at this end, with the octets that it gave if its answer was true.
    Receive(u32, Option<Frame>),
}

/// What carries frames. Link number k of a network has the end 2k above and the end 2k + 1 below. A
/// link may report its calls, and what waits at its ends.
pub trait Link {
    ghost use Rattle.wrp_io.specs.declared.link.LinkCall.{LinkCall};
    ghost use Rattle.wrp_io.specs.declared.link.LinkCall.TheVariants.{Start, Send, Receive};
    ghost use Rattle.wrp_io.specs.Link.{frame_of, answered, Tells, SameWaits, Sends, Receives};

    /// How often the link has failed. The count is a u64, and stays at its greatest value.
    ghost faults: { Self → ℕ };

    /// The calls that answered `Ok`, the oldest first, if the link reports them.
    ghost told: { Self → Option (List LinkCall) } = { λ _. None };

    /// The octets that wait at an end, the longest waiting first, if the link reports them.
    ghost waiting: { Self → ℕ → Option (List (List ℕ)) } = { λ _ _. None };

    /// Makes `ends` ends, numbered from 0. On any error the call is not reported and the same frames
    /// wait. `StartFault::Failed` if the link failed: its count of faults rose. `StartFault::Memory` if
    /// memory ran out: the count is as before.
    fn start(&mut self, ends: u32) -> Result<(), StartFault>
        ensures cause { HasStartCause (faults self.old) (faults self.new) result }
        ensures tells { Tells (told self.old) (told self.new) result (λ _. Start ends) }
        ensures waits { SameWaits (waiting self.old) (waiting self.new) };

    /// Sends the octets of one frame from an end: at most 256. They wait at the other end of that link.
    /// `Failed` if the link failed: its count of faults rose, the call is not reported, and the same
    /// frames wait as before.
    fn send(&mut self, end: u32, bytes: &[u8]) -> Result<(), Failed>
        requires { length bytes.now ≤ 256 }
        ensures cause { HasCause (faults self.old) (faults self.new) result }
        ensures tells { Tells (told self.old) (told self.new) result
            (λ _. Send end (frame_of bytes.now)) }
        ensures waits { Sends (waiting self.old) (waiting self.new) result end bytes.now };

    /// Answers whether a frame waited at an end. If one did, `out` then holds the octets of the one
    /// that waited longest, in place of what it held, and they wait no more. `Failed` if the link
    /// failed: its count of faults rose, the call is not reported, and `out` and what waits are as
    /// before.
    fn recv(&mut self, end: u32, out: &mut Frame) -> Result<bool, Failed>
        ensures cause { HasCause (faults self.old) (faults self.new) result }
        ensures tells { Tells (told self.old) (told self.new) result
            (λ answer. Receive end (answered answer out.new.items)) }
        ensures waits { Receives (waiting self.old) (waiting self.new) result end out.new.items }
        ensures stays { result ≢ Ok true → out.new ≡ out.old };
}
