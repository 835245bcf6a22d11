//! What a servo holds, and what the calls that bring no sample and no measurement do to it.
ghost use Rattle.std.specs.Prelude.{◌≡◌, ℕ, pos, ◌^◌, ◌<◌, ◌≤◌, ◌+◌, unsigned_abs};
ghost use Rattle.wrp_servo.specs.Table.{ended, by_reset, by_carrier, by_link, by_lease, by_tick, new_core};

use crate::ServoSet;
use crate::phase_loop::PhaseLoop;
use wrp_base::{Deltas, Four, ServoState, Tau};

/// The carrier, the link and the lease, as last given.
#[derive(Clone, Copy, Debug, PartialEq, Eq)]
pub struct Signals {
    /// Whether there is a carrier.
    pub carrier: bool,
    /// The fixed delays of the link, if it is on.
    pub link: Option<Deltas>,
    /// Whether the lease is fresh.
    pub lease: bool,
}

/// The kept four, with the delay down that the law gave for it.
#[derive(Clone, Copy, Debug, PartialEq, Eq)]
pub struct Measurement {
    /// The four.
    pub four: Four,
    /// The delay down, in tau.
    pub delay: Tau,
}

/// What a servo holds.
#[derive(Clone, Copy, Debug)]
pub struct Core {
    /// Its settings.
    pub set: ServoSet,
    /// Its state.
    pub state: ServoState,
    /// The carrier, the link and the lease, as last given.
    pub signals: Signals,
    /// The number of the chain's first sample, if there is a chain.
    pub first: Option<u32>,
    /// The kept four.
    pub kept: Option<Measurement>,
    /// The greatest number of a sample so far.
    pub last: u32,
    /// How many good samples in a row were calm in WAIT_STABLE.
    pub calm: u32,
    /// The ticks since the last reset.
    pub ticks: u32,
    /// The ticks at the last good sample.
    pub good_tick: u32,
    /// The ticks at which TRACK was left last.
    pub left_tick: u32,
    /// The phase loop.
    pub phase: PhaseLoop,
}

impl Core {
    /// A servo before its first call.
    pub fn new(set: ServoSet) -> Core
        requires { set.delock_samples < set.lock_samples }
        ensures { result ≡ new_core set }
    {
        Core {
            set,
            state: ServoState::Uninit,
            signals: Signals {
                carrier: false,
                link: None,
                lease: false,
            },
            first: None,
            kept: None,
            last: 0,
            calm: 0,
            ticks: 0,
            good_tick: 0,
            left_tick: 0,
            phase: PhaseLoop::new(&set),
        }
    }

    /// Everything but the settings is as in a new servo.
    pub fn reset(&mut self)
        requires { self.old.set.delock_samples < self.old.set.lock_samples }
        ensures { self.new ≡ by_reset self.old }
    {
        *self = Core::new(self.set);
    }

    /// A carrier came: outside HOLDOVER the loop restarts. It went: the lock detector restarts, the
    /// chain ends, and outside HOLDOVER the state is UNINIT.
    pub fn carrier(&mut self, up: bool)
        ensures { self.new ≡ by_carrier self.old up }
    {
        self.signals.carrier = up;
        if up {
            if self.state != ServoState::Holdover {
                self.phase.restart();
            }
        } else {
            self.phase.unlock();
            self.end();
            self.leave_to_uninit();
        }
    }

    /// The link is on: UNINIT goes to SYNC_TAI. It is off: the chain ends, and outside HOLDOVER the
    /// state is UNINIT.
    pub fn link(&mut self, on: Option<Deltas>)
        ensures { self.new ≡ by_link self.old on }
    {
        self.signals.link = on;
        match on {
            Some(_) => {
                if self.state == ServoState::Uninit {
                    self.state = ServoState::SyncTai;
                }
            }
            None => {
                self.end();
                self.leave_to_uninit();
            }
        }
    }

    /// The lease is fresh, or lapsed: then the chain ends.
    pub fn lease(&mut self, fresh: bool)
        ensures { self.new ≡ by_lease self.old fresh }
    {
        self.signals.lease = fresh;
        if !fresh {
            self.end();
        }
    }

    /// In HOLDOVER a tick is only counted. Elsewhere the chain ends past `gap`, and TRACK is left if the
    /// four is too old.
    pub fn tick(&mut self)
        requires { self.old.ticks + 1 < 2 ^ 32 }
        ensures { self.new ≡ by_tick self.old }
    {
        self.ticks += 1;
        if self.state == ServoState::Holdover {
            self.tick_in_holdover();
        } else {
            self.end_past_gap();
            self.end_past_age();
        }
    }
}
