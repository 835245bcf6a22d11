//! How often a port dropped something, by reason.
ghost use Rattle.std.specs.Prelude.{◌≡◌, ◌≤◌, []};
ghost use Rattle.wrp_base.specs.Calls.{Adds};
ghost use Rattle.wrp_data.specs.Counters.{no_counts, count_at, counts_after, nonzero_counts, StandsFor};

use crate::Reason;
use arrayvec::ArrayVec;
use std::marker::Model;

/// One counter for each of the 15 reasons. A counter that has reached the greatest u32 stays there.
#[derive(Debug, Drop, PartialEq, Eq)]
pub struct Counters {
    numbers: [u32; 15],
}

impl Model for Counters {
    ghost use Rattle.std.specs.Prelude.{ℕ, List};

    ghost Value = { List ℕ };

    ghost view = { λ c. c.numbers };

    ghost inverse = { λ numbers. record { numbers = numbers } };
}

impl Counters {
    /// Counters that are all 0.
    pub fn new() -> Counters
        ensures value { result ≡ no_counts }
        ensures stands { StandsFor result [] }
    {
        Counters { numbers: [0; 15] }
    }

    /// Adds one to the counter of the reason of this number, 1 to 15, and to no other. At the greatest
    /// u32 it stays.
    pub fn count(&mut self, reason: u8)
        requires at_least { 1 ≤ reason }
        requires at_most { reason ≤ 15 }
        ensures raises { self.new ≡ counts_after self.old reason }

        // The counters stand for the list of the reasons that were counted.
        ensures stands { Adds StandsFor self.old self.new reason }
    {
        let counter = &mut self.numbers[reason as usize - 1];
        *counter = counter.saturating_add(1);
    }

    /// The counter of the reason of this number: 1 to 15.
    pub fn get(&self, reason: u8) -> u32
        requires at_least { 1 ≤ reason }
        requires at_most { reason ≤ 15 }
        ensures { result ≡ count_at self.now reason }
    {
        self.numbers[reason as usize - 1]
    }

    /// The counters that are not 0, in the order of their reasons.
    pub fn nonzero(&self) -> ArrayVec<(Reason, u32), 15>
        ensures { result.items ≡ nonzero_counts self.now }
    {
        let mut counts = ArrayVec::new();
        for reason in &Reason::ALL {
            let times = self.get(reason.number());
            if times > 0 {
                counts.push((*reason, times));
            }
        }
        counts
    }
}

impl Default for Counters {
    ghost is_default = { λ counters. counters ≡ no_counts };

    fn default() -> Counters {
        Counters::new()
    }
}
