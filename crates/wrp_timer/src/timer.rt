//! A timer that counts ticks down to its end.
ghost use Rattle.std.specs.Prelude.{◌≡◌, ◌-◌, ◌≤◌, ◌↔◌, IsTrue};

use std::marker::Model;

/// A timer: the ticks that it still runs. At 0 it has ended.
#[derive(Debug, Drop)]
pub struct Timer {
    rest: u32,
}

impl Model for Timer {
    ghost use Rattle.std.specs.Prelude.{ℕ};

    ghost Value = { ℕ };

    ghost view = { λ t. t.rest };
}

impl Timer {
    /// A timer that ends at the given tick from now: 1 or more.
    pub fn new(ticks: u32) -> Timer
        requires { 1 ≤ ticks }
        ensures { result ≡ ticks }
    {
        Timer { rest: ticks }
    }

    /// Counts one tick, and says whether the timer ended with it. A timer that has ended stays so,
    /// and reports no further end.
    pub fn tick(&mut self) -> bool
        ensures ends { IsTrue result ↔ (self.old ≡ 1) }
        ensures counts { self.new ≡ self.old - 1 }
    {
        let ends = self.rest == 1;
        self.rest = self.rest.saturating_sub(1);
        ends
    }
}
