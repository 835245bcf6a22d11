//! A sink in memory, with a limit on its octets and a list of calls that fail.
ghost use Rattle.std.specs.Prelude.{Option, Some, ◌≡◌, ◌⊎◌, ◌↔◌, ◌+◌, ◌-◌, ◌<◌, ◌≤◌, ℕ, List, [], length, min, vec_len, vec_capacity, IfOk, IsErr, OnOk, OnErr};
ghost use Rattle.std.specs.Io.KnownBytes.{WriteAppends};
ghost use Rattle.wrp_io.specs.Faults.{HasCause};
ghost use Rattle.wrp_io.specs.Calls.{IsListed, no_calls, after_good, after_fault};
ghost use Rattle.wrp_io.specs.Memory.{MemSinkAt, SinkFails, room_left};

use crate::calls::Calls;
use crate::sink::Sink;
use crate::source::Failed;
use std::alloc::{AllocError, Global};
use std::marker::Model;

/// A sink that keeps what it is given, up to its room. It reports its octets.
#[derive(Drop)]
pub struct MemSink {
    octets: Vec<u8>,
    room: usize,
    calls: Calls,
}

impl Model for MemSink {
    ghost Value = { MemSinkAt };

    ghost view = { λ s. record { held = s.octets.items; room = s.room; calls = s.calls } };

    ghost invariant = { λ s. (vec_len s.octets ≤ s.room) × (s.room ≤ vec_capacity s.octets) };
}

impl MemSink {
    /// A sink with room for `room` octets, whose calls with a number in `fails`, counted from 1, fail.
    /// It takes all the memory that it will need. `AllocError` if there is not that much: then no sink
    /// is made.
    pub fn new(alloc: Global, room: usize, fails: Vec<u32>) -> Result<MemSink, AllocError>
        ensures { IfOk result (λ sink.
            sink ≡ record { held = []; room = room; calls = no_calls fails.items }) }
    {
        Ok(MemSink {
            octets: Vec::with_capacity(alloc, room)?,
            room,
            calls: Calls::new(fails),
        })
    }

    /// The octets that the sink holds.
    pub fn octets(&self) -> &[u8]
        ensures { result.now ≡ self.now.held }
    {
        &self.octets
    }
}

impl Sink for MemSink {
    ghost held = { λ s. Some s.held };

    ghost faults = { λ s. s.calls.faults };

    fn write(&mut self, piece: &[u8]) -> Result<usize, Failed>
        ensures bound { IfOk result (λ n. n ≤ length piece.now) }
        ensures some { 0 < length piece.now → IfOk result (λ n. 0 < n) }
        ensures octets { WriteAppends (Some self.old.held) (Some self.new.held) result piece.now }
        ensures cause { HasCause self.old.calls.faults self.new.calls.faults result }

        // It fails if and only if the call is listed, or the piece has octets and the room is used up;
        // otherwise it takes all that there is room for.
        ensures fails { IsErr result ↔ SinkFails self.old piece.now }
        ensures takes { IfOk result (λ n. n ≡ min (length piece.now) (room_left self.old)) }
        ensures room { self.new.room ≡ self.old.room }
        ensures good { OnOk result (self.new.calls ≡ after_good self.old.calls) }
        ensures bad { OnErr result (self.new.calls ≡ after_fault self.old.calls) }
    {
        let free = self.room - self.octets.len();
        self.calls.next(!piece.is_empty() && free == 0)?;
        let taken = piece.len().min(free);
        self.octets.extend_from_slice(&piece[..taken]).unwrap();
        Ok(taken)
    }
}
