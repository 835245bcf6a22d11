//! The machine with what always holds of it, so that its user owes nothing but the ranges of a call.
ghost use Rattle.std.specs.Prelude.{◌≡◌, ◌<◌, ◌+◌, ◌^◌, Some};
ghost use Rattle.wrp_servo.specs.Table.{by_reset, by_carrier, by_link, by_lease, by_tick, new_core, ended};
ghost use Rattle.wrp_servo.specs.Sampling.{by_sample, heard_as, est_of};
ghost use Rattle.wrp_servo.specs.Measuring.{deltas_in_chain, placed, kept_of, cycles_in};
ghost use Rattle.wrp_servo.specs.Servo.{est_now};
ghost use Rattle.wrp_servo.specs.Sizes.{FitsTimes, FitsServoSet, FitsFour};

use crate::ServoSet;
use crate::machine::{Core, Measurement};
use crate::measuring::delay_by;
use crate::sampling::{Heard, est};
use std::marker::Model;
use wrp_base::{Deltas, Four, ServoState, Tau};

/// A core of which holds what always holds.
#[derive(Drop)]
pub struct Machine {
    core: Core,
}

impl Model for Machine {
    ghost use Rattle.wrp_servo.specs.declared.machine.Core.{Core};

    ghost Value = { Core };

    ghost view = { λ m. m.core };

    ghost use Rattle.wrp_servo.specs.Valid.{IsValid};

    ghost invariant = { λ m. IsValid m.core };
}

impl Machine {
    /// A machine before its first call.
    pub fn new(set: ServoSet) -> Machine
        requires { FitsServoSet set }
        ensures { result ≡ new_core set }
    {
        Machine {
            core: Core::new(set),
        }
    }

    /// reset
    pub fn reset(&mut self)
        ensures { self.new ≡ by_reset self.old }
    {
        self.core.reset();
    }

    /// Takes a sample, and returns what became of it; `Core::sample` says what each case leaves.
    pub fn sample(&mut self, n: u32, base: u16, bits: u64) -> Heard
        requires { base < 16384 }
        ensures state { self.new ≡ by_sample self.old n base bits }
        ensures heard { result ≡ heard_as self.old n base bits }
    {
        self.core.sample(n, base, bits)
    }

    /// tick
    pub fn tick(&mut self)
        requires { self.old.ticks + 1 < 2 ^ 32 }
        ensures { self.new ≡ by_tick self.old }
    {
        self.core.tick();
    }

    /// carrier
    pub fn carrier(&mut self, up: bool)
        ensures { self.new ≡ by_carrier self.old up }
    {
        self.core.carrier(up);
    }

    /// link
    pub fn link(&mut self, on: Option<Deltas>)
        ensures { self.new ≡ by_link self.old on }
    {
        self.core.link(on);
    }

    /// lease
    pub fn lease(&mut self, fresh: bool)
        ensures { self.new ≡ by_lease self.old fresh }
    {
        self.core.lease(fresh);
    }

    /// The fixed delays of the link, in tau, by which a four is measured. None if there is no chain,
    /// or the link is off. The machine stays as it is.
    pub fn deltas_in_chain(&self) -> Option<Deltas>
        ensures { result ≡ deltas_in_chain self.now }
    {
        self.core.deltas_in_chain()
    }

    /// A measurement whose x is out of the law's range.
    pub fn refuse(&mut self)
        ensures { self.new ≡ ended self.old }
    {
        self.core.end();
    }

    /// Keeps a four with the law's answer, and returns the commanded periods.
    pub fn take_four(&mut self, four: &Four, deltas: &Deltas, answer: i64) -> i64
        requires four { FitsTimes four.now }
        requires deltas_in_chain { deltas_in_chain self.old ≡ Some deltas.now }
        ensures value { self.new ≡ placed self.old (kept_of four.now deltas.now answer) }
        ensures cycles { result ≡ cycles_in self.old
            (est_of self.old.phase.u (kept_of four.now deltas.now answer)) self.old.state }
    {
        self.core.place(kept_by(four, deltas, answer))
    }

    /// The number of the chain's first sample; None if there is no chain.
    pub fn first(&self) -> Option<u32>
        ensures { result ≡ self.now.first }
    {
        self.core.first
    }

    /// The state.
    pub fn state(&self) -> ServoState
        ensures { result ≡ self.now.state }
    {
        self.core.state
    }

    /// The unwrapped phase.
    pub fn u(&self) -> i64
        ensures { result ≡ self.now.phase.u }
    {
        self.core.phase.u
    }

    /// The DAC value.
    pub fn dac(&self) -> u16
        ensures { result ≡ self.now.phase.dac }
    {
        self.core.phase.dac
    }

    /// Whether the detector is locked.
    pub fn locked(&self) -> bool
        ensures { result ≡ self.now.phase.lock.locked }
    {
        self.core.phase.lock.locked()
    }

    /// The offset of the slave's clock, in tau, by the four that is kept and the phase since; None
    /// if there is no four. The machine stays as it is.
    pub fn est(&self) -> Option<Tau>
        ensures { result ≡ est_now self.now }
    {
        match self.core.kept {
            Some(kept) => Some(est(self.core.phase.u, &kept)),
            None => None,
        }
    }
}

// The four with the delay down.
fn kept_by(four: &Four, deltas: &Deltas, answer: i64) -> Measurement
    requires { FitsTimes four.now }
    ensures value { result ≡ kept_of four.now deltas.now answer }
    ensures fits { FitsFour result }
{
    Measurement {
        four: *four,
        delay: delay_by(deltas, answer),
    }
}
