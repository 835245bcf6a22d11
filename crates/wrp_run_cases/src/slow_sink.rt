//! A sink that takes a few octets a call.
ghost use Rattle.std.specs.Prelude.{◌≡◌, ◌≤◌, length};

use std::alloc::Global;
use wrp_io::{Failed, Sink};

/// A sink with room for so many octets, that takes at most so many at a call, and whose call of one number, counted
/// from 1, fails. So does a call of which it can take nothing.
#[derive(Drop)]
pub struct SlowSink {
    taken: Vec<u8>,
    // How many octets it held before each call that did not fail.
    before: Vec<usize>,
    room: usize,
    most: usize,
    fails: u32,
    calls: u32,
    faults: u64,
}

impl SlowSink {
    /// A sink that has taken nothing.
    pub fn new(alloc: Global, room: usize, most: usize, fails: u32) -> SlowSink {
        SlowSink {
            taken: Vec::new(alloc),
            before: Vec::new(alloc),
            room,
            most,
            fails,
            calls: 0,
            faults: 0,
        }
    }

    /// What it took, and how many octets it held before each call that did not fail.
    pub fn into_parts(self) -> (Vec<u8>, Vec<usize>) {
        let SlowSink { taken, before, .. } = self;
        (taken, before)
    }

    // Takes octets, if there is memory for them. Returns whether there is.
    fn keep(&mut self, octets: &[u8]) -> bool
        ensures { self.new.faults ≡ self.old.faults }
    {
        let held = self.taken.len();
        self.before.push(held).is_ok() && self.taken.extend_from_slice(octets).is_ok()
    }

    // How many octets of a piece it can take.
    fn count_of(&self, piece: &[u8]) -> usize
        ensures { result ≤ length piece.now }
    {
        let free = self.room.saturating_sub(self.taken.len());
        piece.len().min(free).min(self.most)
    }
}

impl Sink for SlowSink {
    ghost faults = { λ s. s.faults };

    fn write(&mut self, piece: &[u8]) -> Result<usize, Failed> {
        let faults = self.faults;
        self.calls = self.calls.saturating_add(1);
        let count = self.count_of(piece);
        let fails = self.calls == self.fails || count == 0 && !piece.is_empty();
        if fails || !self.keep(&piece[..count]) {
            self.faults = faults.saturating_add(1);
            return Err(Failed);
        }
        Ok(count)
    }
}
