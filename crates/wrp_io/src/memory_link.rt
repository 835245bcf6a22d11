//! A link in memory, with a limit on its calls and a list of those that fail.
ghost use Rattle.std.specs.Prelude.{Option, Some, Ok, true, ◌≡◌, ◌≢◌, ◌↔◌, ◌≤◌, [], IsTrue, IfOk, IfErr, IsErr, OnOk, OnErr, length, vec_capacity};
ghost use Rattle.wrp_io.specs.Faults.{HasCause, HasStartCause};
ghost use Rattle.wrp_io.specs.Link.{frame_of, answered, Tells, SameWaits, Sends, Receives};
ghost use Rattle.wrp_io.specs.FramesWaiting.{frames_waiting, IsNext, Moves};
ghost use Rattle.wrp_io.specs.Queue.{Keeps};
ghost use Rattle.wrp_io.specs.Memory.{MemLinkAt, LinkFails, new_link, with_call, with_fault};

use crate::calls::Calls;
use crate::link::{Link, LinkCall, StartFault};
use crate::queue::{Held, copied, copy_of, first_held, move_frame, put_into};
use crate::source::Failed;
use std::alloc::{AllocError, Global};
use std::marker::Model;
use wrp_base::Frame;

/// A link that takes a number of calls, and carries what is sent from one end of a link to its other
/// end. It reports its calls, and what waits at its ends.
#[derive(Drop)]
pub struct MemLink {
    told: Vec<LinkCall>,
    queue: Vec<Held>,
    room: u32,
    calls: Calls,
}

impl Model for MemLink {
    ghost Value = { MemLinkAt };

    ghost view = { λ s. record { told = s.told.items; room = s.room; calls = s.calls } };

    ghost invariant = { λ s. Keeps s.told.items s.queue.items s.calls.made s.room
        (vec_capacity s.told) (vec_capacity s.queue) };
}

impl MemLink {
    ghost use Rattle.wrp_io.specs.declared.link.LinkCall.TheVariants.{Receive};

    /// A link that takes `calls` calls, of which those with a number in `fails`, counted from 1, fail.
    /// It takes all the memory that it will need. `AllocError` if there is not that much: then no link
    /// is made.
    pub fn new(alloc: Global, calls: u32, fails: Vec<u32>) -> Result<MemLink, AllocError>
        ensures { IfOk result (λ link. link ≡ new_link calls fails.items) }
    {
        Ok(MemLink {
            told: Vec::with_capacity(alloc, calls as usize)?,
            queue: Vec::with_capacity(alloc, calls as usize)?,
            room: calls,
            calls: Calls::new(fails),
        })
    }

    /// The calls that answered `Ok`, the oldest first.
    pub fn told(&self) -> &[LinkCall]
        ensures { result.now ≡ self.now.told }
    {
        &self.told
    }

    // Whether the link was called as often as it takes.
    fn is_used_up(&self) -> bool
        ensures { IsTrue result ↔ (self.now.room ≤ self.now.calls.made) }
    {
        self.calls.made() >= u64::from(self.room)
    }

    // The frame that has waited longest at this end, if one waits there.
    fn next_frame(&self, end: u32) -> Option<Frame>
        ensures { IsNext self.now.told (Receive end result) }
    {
        first_held(&self.queue, end)
    }

    // Makes a call, whose frame waits at the other end from now on, or waits no more.
    fn make(&mut self, call: LinkCall) -> Result<(), Failed>
        requires { IsNext self.old.told call }
        ensures cause { HasCause self.old.calls.faults self.new.calls.faults result }
        ensures fails { IsErr result ↔ LinkFails self.old }
        ensures good { OnOk result (self.new ≡ with_call self.old call) }
        ensures bad { OnErr result (self.new ≡ with_fault self.old) }
        ensures moves { OnOk result
            (Moves (frames_waiting self.old.told) (frames_waiting self.new.told) call) }
    {
        let used_up = self.is_used_up();
        self.calls.next(used_up)?;
        move_frame(&mut self.queue, &call);
        self.told.push(call).unwrap();
        Ok(())
    }
}

impl Link for MemLink {
    ghost use Rattle.wrp_io.specs.declared.link.LinkCall.TheVariants.{Start, Send, Receive};

    ghost faults = { λ s. s.calls.faults };

    ghost told = { λ s. Some s.told };

    ghost waiting = { λ s. frames_waiting s.told };

    fn start(&mut self, ends: u32) -> Result<(), StartFault>
        ensures cause { HasStartCause self.old.calls.faults self.new.calls.faults result }
        ensures tells { Tells (Some self.old.told) (Some self.new.told) result (λ _. Start ends) }
        ensures waits { SameWaits (frames_waiting self.old.told) (frames_waiting self.new.told) }

        // It fails if and only if the call is listed or the link was called as often as it takes, and
        // never because memory runs out.
        ensures fails { IsErr result ↔ LinkFails self.old }
        ensures failed { IfErr result (λ fault. fault ≡ StartFault.Failed) }
        ensures good { OnOk result (self.new ≡ with_call self.old (Start ends)) }
        ensures bad { OnErr result (self.new ≡ with_fault self.old) }
    {
        match self.make(LinkCall::Start(ends)) {
            Ok(()) => Ok(()),
            Err(Failed) => Err(StartFault::Failed),
        }
    }

    fn send(&mut self, end: u32, bytes: &[u8]) -> Result<(), Failed>
        requires { length bytes.now ≤ 256 }
        ensures cause { HasCause self.old.calls.faults self.new.calls.faults result }
        ensures tells { Tells (Some self.old.told) (Some self.new.told) result
            (λ _. Send end (frame_of bytes.now)) }
        ensures waits { Sends (frames_waiting self.old.told) (frames_waiting self.new.told)
            result end bytes.now }

        // It fails if and only if the call is listed or the link was called as often as it takes.
        ensures fails { IsErr result ↔ LinkFails self.old }
        ensures good { OnOk result (self.new ≡ with_call self.old (Send end (frame_of bytes.now))) }
        ensures bad { OnErr result (self.new ≡ with_fault self.old) }
    {
        self.make(LinkCall::Send(end, copy_of(bytes)))
    }

    fn recv(&mut self, end: u32, out: &mut Frame) -> Result<bool, Failed>
        ensures cause { HasCause self.old.calls.faults self.new.calls.faults result }
        ensures tells { Tells (Some self.old.told) (Some self.new.told) result
            (λ answer. Receive end (answered answer out.new.items)) }
        ensures waits { Receives (frames_waiting self.old.told) (frames_waiting self.new.told)
            result end out.new.items }
        ensures stays { result ≢ Ok true → out.new ≡ out.old }

        // It fails if and only if the call is listed or the link was called as often as it takes.
        ensures fails { IsErr result ↔ LinkFails self.old }
        ensures good { IfOk result (λ answer.
            self.new ≡ with_call self.old (Receive end (answered answer out.new.items))) }
        ensures bad { OnErr result (self.new ≡ with_fault self.old) }
    {
        let frame = self.next_frame(end);
        self.make(LinkCall::Receive(end, copied(&frame)))?;
        Ok(put_into(out, frame))
    }
}
