//! The half of an exchange that comes down the link: Sync and Follow_Up.
ghost use Rattle.std.specs.Prelude.{◌≡◌, ℕ, pos, ◌^◌, ◌<◌, ◌+ℤ◌, ◌*ℤ◌, unsigned_abs};

use crate::ring::{SampleRing, phase_of};
use wrp_base::Tau;

/// A Sync that was kept, and waits for its Follow_Up.
#[derive(Clone, Copy, Debug)]
pub struct HeldSync {
    /// sequenceId.
    pub seq: u16,
    /// correctionField, in units of 1,000 tau.
    pub correction: i64,
    /// Its reception, in tau.
    pub t2: Tau,
    /// The sample that the stamp latched.
    pub sample: u32,
    /// The phase at that sample, in tau.
    pub u2: i64,
    /// The tick at which it was handed over.
    pub tick: u32,
}

/// A Sync with its Follow_Up.
#[derive(Clone, Copy, Debug)]
pub struct SyncPair {
    /// The master's sending, both corrections included, in tau.
    pub t1: Tau,
    /// The slave's reception, in tau.
    pub t2: Tau,
    /// The phase at the reception's sample, in tau.
    pub u2: i64,
    /// The tick at which the Sync was handed over.
    pub tick: u32,
}

/// What is kept of Sync and Follow_Up.
#[derive(Clone, Copy, Debug)]
pub struct SyncHalf {
    /// The Sync that waits for its Follow_Up.
    pub pending: Option<HeldSync>,
    /// The newest pair.
    pub pair: Option<SyncPair>,
}

impl SyncHalf {
    ghost use Rattle.std.specs.Prelude.{◌≡◌, ℕ, ◌^◌, ◌<◌, unsigned_abs, None};
    ghost use Rattle.std.specs.Option.{is_some, option_or};
    ghost use Rattle.wrp_exch.specs.SyncHalf.{left_pending, new_sync_pair, HasSyncTimes};

    /// Nothing kept.
    pub fn new() -> SyncHalf
        ensures value { result ≡ record { pending = None; pair = None } }
        ensures times { HasSyncTimes result }
    {
        SyncHalf {
            pending: None,
            pair: None,
        }
    }

    /// Keeps a Sync in place of an earlier one.
    pub fn hold(&mut self, sync: HeldSync)
        requires old { HasSyncTimes self.old }
        requires t2 { unsigned_abs sync.t2 < 2 ^ 104 }
        ensures value { self.new ≡ record { pending = Some sync; pair = self.old.pair } }
        ensures times { HasSyncTimes self.new }
    {
        self.pending = Some(sync);
    }

    /// Takes a Follow_Up: the pending Sync of its id is no longer pending, and makes a pair if the ring
    /// still has its sample. Returns whether a pair was made.
    pub fn follow_up(&mut self, seq: u16, precise: Tau, ring: &SampleRing) -> bool
        requires old { HasSyncTimes self.old }
        requires precise { unsigned_abs precise < 2 ^ 104 }
        ensures made { result ≡ is_some (new_sync_pair self.old ring.now.items seq precise) }
        ensures pending { self.new.pending ≡ left_pending self.old seq }
        ensures pair { self.new.pair
            ≡ option_or (new_sync_pair self.old ring.now.items seq precise) self.old.pair }
        ensures times { HasSyncTimes self.new }
    {
        match self.pending {
            Some(sync) if sync.seq == seq => {
                self.pending = None;
                match phase_of(ring, sync.sample) {
                    Some(_) => {
                        self.pair = Some(sync.pair_with(precise));
                        true
                    }
                    None => false,
                }
            }
            _ => false,
        }
    }
}

impl HeldSync {
    ghost use Rattle.std.specs.Prelude.{◌≡◌, ℕ, ◌^◌, ◌<◌, unsigned_abs};
    ghost use Rattle.wrp_exch.specs.SyncPair.{pair_of_sync};

    // The pair that this Sync makes with its Follow_Up, whose preciseOriginTimestamp is given with
    // its own correction, in tau.
    fn pair_with(&self, precise: Tau) -> SyncPair
        requires precise { unsigned_abs precise < 2 ^ 104 }
        ensures value { result ≡ pair_of_sync self.now precise }
        ensures t1 { unsigned_abs result.t1 < 2 ^ 105 }
    {
        SyncPair {
            t1: corrected_time(precise, self.correction),
            t2: self.t2,
            u2: self.u2,
            tick: self.tick,
        }
    }
}

// A time with a correctionField added, in tau.
fn corrected_time(precise: Tau, correction: i64) -> Tau
    requires { unsigned_abs precise < 2 ^ 104 }
    ensures value { result ≡ precise +ℤ (pos 1000 *ℤ correction) }
    ensures size { unsigned_abs result < 2 ^ 105 }
{
    precise + 1000 * i128::from(correction)
}
