//! The controller: from a phase error to a DAC value.
ghost use Rattle.std.specs.Prelude.{◌≡◌, ℤ, ◌^◌, ◌≤◌, unsigned_abs, if◌then◌else◌, List, []};
ghost use Rattle.std.specs.Int.{saturate_unsigned, w16};
ghost use Rattle.wrp_base.specs.Calls.{Adds};
ghost use Rattle.wrp_pi.specs.Loop.{raised, drive, is_frozen, dac_value, rested, updated, value_at, StandsFor};

use std::marker::Model;
use wrp_base::{floor_div, product, sum};

/// The bound on the accumulated error, on either side.
const MOST_ACCUMULATED: i64 = 1 << 40;

/// The greatest DAC value.
const DAC_MOST: i128 = 65535;

/// A gain of one.
const UNIT_GAIN: i128 = 4096;

/// A proportional and integral controller in whole numbers.
#[derive(Clone, Copy, Debug, PartialEq, Eq)]
pub struct Pi {
    kp: u16,
    ki: u16,
    bias: u16,
    accumulated: i64,
}

impl Model for Pi {
    ghost use Rattle.std.specs.Prelude.{ℕ, ◌≤◌, ◌^◌, unsigned_abs};
    ghost use Rattle.wrp_pi.specs.Loop.{Gains, Loop};

    ghost Value = { Loop };

    ghost view = { λ p. record { gains = record { kp = p.kp; ki = p.ki; bias = p.bias }; accumulated = p.accumulated } };

    ghost invariant = { λ p. unsigned_abs p.accumulated ≤ 2 ^ 40 };

    ghost inverse = { λ v. record { kp = v.gains.kp; ki = v.gains.ki; bias = v.gains.bias; accumulated = v.accumulated } };
}

impl Pi {
    /// A loop at rest. `kp` and `ki` are the proportional and the integral gain in `1/4096`; `bias` is
    /// the DAC value at rest.
    pub fn new(kp: u16, ki: u16, bias: u16) -> Pi
        ensures value { result ≡ rested (record { kp = kp; ki = ki; bias = bias }) }
        ensures stands { StandsFor result [] }
    {
        Pi {
            kp,
            ki,
            bias,
            accumulated: 0,
        }
    }

    /// Sets the accumulated error to 0.
    pub fn restart(&mut self)
        ensures value { self.new ≡ rested self.old.gains }
        ensures stands { StandsFor self.new [] }
    {
        self.accumulated = 0;
    }

    /// Takes a phase error, in 1,000 tau, and returns the DAC value, 0 to 65535.
    ///
    /// The error is added to the accumulated one, which is held within `2^40` on either side, and stays
    /// as it was if the DAC is out of its range and the error would drive it further out.
    pub fn update(&mut self, e: i32) -> u16
        requires { unsigned_abs e ≤ 2 ^ 20 }
        ensures value { self.new ≡ updated self.old e }
        ensures dac { result ≡ value_at self.old e }
        ensures stands { Adds StandsFor self.old self.new e }
        ensures drives { (errors : List ℤ) → StandsFor self.old errors →
            result ≡ dac_value self.old.gains errors e }
    {
        let raised = raise(self.accumulated, e);
        let drive = self.drive(raised, e);
        self.accumulated = keep(self.accumulated, raised, drive, e);
        within_range(drive)
    }

    // Where an accumulated error and an error drive the DAC, before it is held within its range.
    fn drive(&self, raised: i64, e: i32) -> i128
        requires raised { unsigned_abs raised ≤ 2 ^ 40 }
        requires e { unsigned_abs e ≤ 2 ^ 20 }
        ensures { result ≡ drive self.now.gains raised e }
    {
        let integral = product(i128::from(raised), i128::from(self.ki));
        let proportional = product(i128::from(e), i128::from(self.kp));
        let quotient = floor_div(sum(integral, proportional), UNIT_GAIN);
        sum(quotient, i128::from(self.bias))
    }
}

// The accumulated error with one more error, held within its bound.
fn raise(accumulated: i64, e: i32) -> i64
    requires accumulated { unsigned_abs accumulated ≤ 2 ^ 40 }
    requires e { unsigned_abs e ≤ 2 ^ 20 }
    ensures value { result ≡ raised accumulated e }
    ensures size { unsigned_abs result ≤ 2 ^ 40 }
{
    (accumulated + i64::from(e))
        .min(MOST_ACCUMULATED)
        .max(-MOST_ACCUMULATED)
}

// The accumulated error that is kept: the old one if the error would drive the DAC further out.
fn keep(before: i64, raised: i64, drive: i128, e: i32) -> i64
    ensures { result ≡ (if is_frozen drive e then before else raised) }
{
    if is_out(drive, e) { before } else { raised }
}

// Whether the error would drive the DAC further out of its range.
fn is_out(drive: i128, e: i32) -> bool
    ensures { result ≡ is_frozen drive e }
{
    (drive > DAC_MOST && e > 0) || (drive < 0 && e < 0)
}

// The DAC value next to a drive.
fn within_range(drive: i128) -> u16
    ensures { result ≡ saturate_unsigned w16 drive }
{
    if drive < 0 {
        0
    } else if drive > DAC_MOST {
        u16::MAX
    } else {
        drive as u16
    }
}
