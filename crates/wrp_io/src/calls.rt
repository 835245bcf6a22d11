//! The numbered calls of an object in memory, of which listed ones fail.
ghost use Rattle.std.specs.Prelude.{◌≡◌, ◌⊎◌, ◌↔◌, ℕ, List, IsTrue, IsErr, OnOk, OnErr, Contains};
ghost use Rattle.wrp_io.specs.Faults.{HasCause};
ghost use Rattle.wrp_io.specs.Calls.{CallsAt, IsListed, no_calls, after_good, after_fault};

use crate::source::Failed;
use std::marker::Model;

/// How many calls were made, which of them fail, and how many failed. Both counts stay at their
/// greatest value.
#[derive(Drop)]
pub struct Calls {
    made: u64,
    fails: Vec<u32>,
    faults: u64,
}

impl Model for Calls {
    ghost Value = { CallsAt };

    ghost view = { λ c. record { made = c.made; fails = c.fails.items; faults = c.faults } };
}

impl Calls {
    /// No calls yet. Those with a number in `fails`, counted from 1, fail.
    pub fn new(fails: Vec<u32>) -> Calls
        ensures { result ≡ no_calls fails.items }
    {
        Calls {
            made: 0,
            fails,
            faults: 0,
        }
    }

    /// How many calls were made.
    pub fn made(&self) -> u64
        ensures { result ≡ self.now.made }
    {
        self.made
    }

    /// Counts one more call. `Failed` if and only if it is listed or the object's room is used up: the
    /// call is counted all the same, and so is its fault.
    pub fn next(&mut self, used_up: bool) -> Result<(), Failed>
        ensures cause { HasCause self.old.faults self.new.faults result }
        ensures fails { IsErr result ↔ (IsListed self.old ⊎ IsTrue used_up) }
        ensures good { OnOk result (self.new ≡ after_good self.old) }
        ensures bad { OnErr result (self.new ≡ after_fault self.old) }
    {
        let faults = self.faults;
        self.made = self.made.saturating_add(1);
        if used_up || is_listed(&self.fails, self.made) {
            self.faults = faults.saturating_add(1);
            return Err(Failed);
        }
        Ok(())
    }
}

// Whether a call of this number is one that fails.
fn is_listed(fails: &[u32], number: u64) -> bool
    ensures { IsTrue result ↔ Contains fails.now number }
{
    fails.iter().any(|listed| u64::from(*listed) == number)
}
