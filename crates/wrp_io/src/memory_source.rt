//! A source in memory, with a list of calls that fail.
ghost use Rattle.std.specs.Prelude.{Option, Some, ◌≡◌, ◌⊎◌, ◌↔◌, ◌+◌, ◌<◌, ◌≤◌, ℕ, List, length, min, take, drop, IfOk, IsErr, OnOk, OnErr};
ghost use Rattle.std.specs.Io.KnownBytes.{ReadConsumes};
ghost use Rattle.wrp_io.specs.Faults.{HasCause};
ghost use Rattle.wrp_io.specs.Calls.{IsListed, no_calls, after_good, after_fault};
ghost use Rattle.wrp_io.specs.Memory.{MemSourceAt};

use crate::calls::Calls;
use crate::source::{Failed, Source};
use std::marker::Model;

/// A source of the octets that it was given. It reports them.
#[derive(Drop)]
pub struct MemSource {
    bytes: Vec<u8>,
    at: usize,
    calls: Calls,
}

impl Model for MemSource {
    ghost Value = { MemSourceAt };

    ghost view = { λ s. record { left = drop s.at s.bytes.items; calls = s.calls } };

    ghost invariant = { λ s. s.at ≤ length s.bytes.items };
}

impl MemSource {
    /// A source that gives `bytes`, and whose calls with a number in `fails`, counted from 1, fail.
    pub fn new(bytes: Vec<u8>, fails: Vec<u32>) -> MemSource
        ensures { result ≡ record { left = bytes.items; calls = no_calls fails.items } }
    {
        MemSource {
            bytes,
            at: 0,
            calls: Calls::new(fails),
        }
    }

    /// The octets that are left.
    pub fn left(&self) -> &[u8]
        ensures { result.now ≡ self.now.left }
    {
        &self.bytes[self.at..]
    }
}

// Puts as many of the octets as there is room for at the front of the buffer.
fn fill(buf: &mut [u8], octets: &[u8]) -> usize
    ensures count { result ≡ min (length buf.old) (length octets.now) }
    ensures copied { take result buf.new ≡ take result octets.now }
    ensures beyond { drop result buf.new ≡ drop result buf.old }
    ensures size { length buf.new ≡ length buf.old }
{
    let count = buf.len().min(octets.len());
    buf[..count].copy_from_slice(&octets[..count]);
    count
}

impl Source for MemSource {
    ghost left = { λ s. Some s.left };

    ghost faults = { λ s. s.calls.faults };

    fn read(&mut self, buf: &mut [u8]) -> Result<usize, Failed>
        ensures bound { IfOk result (λ n. n ≤ length buf.new) }
        ensures octets { ReadConsumes (Some self.old.left) (Some self.new.left) result buf.new }
        ensures cause { HasCause self.old.calls.faults self.new.calls.faults result }

        // It fails if and only if the call is listed; otherwise it gives all that the buffer holds.
        ensures fails { IsErr result ↔ IsListed self.old.calls }
        ensures gives { IfOk result (λ n. n ≡ min (length buf.old) (length self.old.left)) }
        ensures beyond { IfOk result (λ n. drop n buf.new ≡ drop n buf.old) }
        ensures good { OnOk result (self.new.calls ≡ after_good self.old.calls) }
        ensures bad { OnErr result (self.new.calls ≡ after_fault self.old.calls) }
        ensures untouched { OnErr result (buf.new ≡ buf.old) }
    {
        self.calls.next(false)?;
        let given = fill(buf, self.left());
        self.at += given;
        Ok(given)
    }
}
