//! A count of retries.
ghost use Rattle.std.specs.Prelude.{◌≡◌, ◌-◌, ◌<◌, ◌↔◌, IsTrue};

use std::marker::Model;

/// The retries that are left.
#[derive(Debug, Drop)]
pub struct Retry {
    left: u32,
}

impl Model for Retry {
    ghost use Rattle.std.specs.Prelude.{ℕ};

    ghost Value = { ℕ };

    ghost view = { λ r. r.left };
}

impl Retry {
    /// This many retries: 0 or more.
    pub fn new(times: u32) -> Retry
        ensures { result ≡ times }
    {
        Retry { left: times }
    }

    /// Takes one retry, and says whether there was one to take.
    pub fn take(&mut self) -> bool
        ensures taken { IsTrue result ↔ (0 < self.old) }
        ensures left { self.new ≡ self.old - 1 }
    {
        let taken = self.left > 0;
        self.left = self.left.saturating_sub(1);
        taken
    }
}
