//! The lock detector: a count of small errors, with hysteresis.
ghost use Rattle.std.specs.Prelude.{◌≡◌, ◌<◌, ◌≤◌, []};
ghost use Rattle.wrp_base.specs.Calls.{Adds};
ghost use Rattle.wrp_pi.specs.Lock.{next_count, is_locked_at, rested, updated, StandsFor};

use std::marker::Model;

/// Decides whether the loop is locked, from the errors that it is given.
#[derive(Clone, Copy, Debug, PartialEq, Eq)]
pub struct LockDet {
    threshold: u32,
    lock: u32,
    delock: u32,
    count: u32,
    locked: bool,
}

impl Model for LockDet {
    ghost use Rattle.std.specs.Prelude.{ℕ, ◌<◌, ◌≤◌};
    ghost use Rattle.wrp_pi.specs.Lock.{Limits, Detector};

    ghost Value = { Detector };

    ghost view = { λ d. record { limits = record { threshold = d.threshold; lock = d.lock; delock = d.delock }; count = d.count; locked = d.locked } };

    ghost invariant = { λ d. (d.delock < d.lock) × (d.count ≤ d.lock) };

    ghost inverse = { λ v. record { threshold = v.limits.threshold; lock = v.limits.lock; delock = v.limits.delock; count = v.count; locked = v.locked } };
}

impl LockDet {
    /// An unlocked detector. An error of at most `threshold` counts; it locks at a count of `lock`, and
    /// unlocks at `delock`.
    pub fn new(threshold: u32, lock: u32, delock: u32) -> LockDet
        requires { delock < lock }
        ensures value { result
            ≡ rested (record { threshold = threshold; lock = lock; delock = delock }) }
        ensures stands { StandsFor result [] }
    {
        LockDet {
            threshold,
            lock,
            delock,
            count: 0,
            locked: false,
        }
    }

    /// Sets the count to 0, and unlocks.
    pub fn restart(&mut self)
        ensures value { self.new ≡ rested self.old.limits }
        ensures stands { StandsFor self.new [] }
    {
        self.count = 0;
        self.locked = false;
    }

    /// Whether the detector is locked.
    pub fn locked(&self) -> bool
        ensures { result ≡ self.now.locked }
    {
        self.locked
    }

    /// Takes a phase error, and returns whether the detector is locked after it.
    ///
    /// An error within the threshold raises the count by one, up to `lock`; there it is locked. Any other
    /// error makes a count above `delock` fall by one; a count then at or below `delock` becomes 0, and
    /// the detector is unlocked.
    pub fn update(&mut self, e: i32) -> bool
        ensures value { self.new ≡ updated self.old e }
        ensures stands { Adds StandsFor self.old self.new e }
        ensures locked { result ≡ self.new.locked }
    {
        let count = self.next_count(e);
        self.locked = self.is_locked_at(count);
        self.count = count;
        self.locked
    }

    // The count after one more error.
    fn next_count(&self, e: i32) -> u32
        ensures value { result ≡ next_count self.now.limits self.now.count e }
        ensures most { result ≤ self.now.limits.lock }
    {
        if e.unsigned_abs() <= self.threshold {
            return self.count.saturating_add(1).min(self.lock);
        }
        let fallen = if self.count > self.delock {
            self.count - 1
        } else {
            self.count
        };
        if fallen <= self.delock { 0 } else { fallen }
    }

    // Whether it is locked at this next count: from `lock` on, until the count is 0.
    fn is_locked_at(&self, count: u32) -> bool
        ensures { result ≡ is_locked_at self.now count }
    {
        count == self.lock || (self.locked && count > 0)
    }
}
