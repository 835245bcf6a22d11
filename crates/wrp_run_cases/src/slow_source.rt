//! A source that gives a few octets a call.
ghost use Rattle.std.specs.Prelude.{◌≤◌, length};

use wrp_io::{Failed, Source};

/// A source of octets, that gives at most so many at a call, and whose call of one number, counted from 1, fails. If
/// it breaks off, each call fails that comes when all octets were given.
#[derive(Drop)]
pub struct SlowSource<'a> {
    octets: &'a [u8],
    most: usize,
    fails: u32,
    breaks: bool,
    calls: u32,
    faults: u64,
}

impl<'a> SlowSource<'a> {
    /// A source of these octets.
    pub fn new(octets: &'a [u8], most: usize, fails: u32, breaks: bool) -> SlowSource<'a> {
        SlowSource {
            octets,
            most,
            fails,
            breaks,
            calls: 0,
            faults: 0,
        }
    }

    /// How many octets are left.
    pub fn left(&self) -> usize {
        self.octets.len()
    }

    /// How many calls came.
    pub fn calls(&self) -> u32 {
        self.calls
    }
}

// Moves the first octets of a slice into a buffer, as many as both have, and at most so many.
fn give<'a>(octets: &'a [u8], buf: &mut [u8], most: usize) -> (&'a [u8], usize)
    ensures { result.1 ≤ length buf.new }
{
    let count = buf.len().min(octets.len()).min(most);
    let (given, left) = octets.split_at(count);
    buf[..count].copy_from_slice(given);
    (left, count)
}

impl<'a> Source for SlowSource<'a> {
    ghost faults = { λ s. s.faults };

    fn read(&mut self, buf: &mut [u8]) -> Result<usize, Failed> {
        let faults = self.faults;
        self.calls = self.calls.saturating_add(1);
        if self.calls == self.fails || self.breaks && self.octets.is_empty() {
            self.faults = faults.saturating_add(1);
            return Err(Failed);
        }
        let (left, count) = give(self.octets, buf, self.most);
        self.octets = left;
        Ok(count)
    }
}
