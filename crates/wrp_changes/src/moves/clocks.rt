//! Clocks that drift away from true time.
ghost use Rattle.std.specs.Prelude.{◌≡◌, ◌<◌, ◌≤◌, ◌+◌, ◌+ℤ◌, ◌^◌, length, unsigned_abs};
ghost use Rattle.wrp_course.specs.Moved.{drift_of};
ghost use Rattle.wrp_changes.specs.Moves.{At, ComesUp, Drifts, GoesDown, Samples, EachBecame};
ghost use Rattle.wrp_plant.specs.Plant.{Each};
ghost use Rattle.wrp_plant.specs.Sizes.{IsOff};

use wrp_base::{Tau, sum};
use wrp_course::ClockState;

// How far a clock drifts, in tau, if it has an entry in `drifts`.
fn drift_at(drifts: &[i64], n: usize) -> i64
    requires { n < length drifts.now }
    ensures value { result ≡ drift_of drifts.now n }
    ensures size { unsigned_abs result ≤ 2 ^ 63 }
{
    drifts[n]
}

// A clock drifts.
fn drift_by(clock: &mut ClockState, drift: i64)
    requires { IsOff clock.old.off }
    ensures { clock.new ≡ record clock.old { off = clock.old.off +ℤ drift } }
{
    clock.off = sum(clock.off, i128::from(drift));
}

// A clock drifts by its entry in `drifts`.
fn drift_one(clock: &mut ClockState, drifts: &[i64], n: usize)
    requires off { IsOff clock.old.off }
    requires own { n < length drifts.now }
    ensures { Drifts drifts.now n clock.old clock.new }
{
    drift_by(clock, drift_at(drifts, n));
}

// The same for a list of clocks. A clock without an entry in `drifts` stays: the loop ends before it.
fn drift_all(clocks: &mut [ClockState], drifts: &[i64])
    requires { Each (λ n clock. IsOff clock.off) clocks.old }
    ensures { EachBecame (Drifts drifts.now) clocks.old clocks.new }
{
    let count = clocks.len().min(drifts.len());
    for n in 0..count {
        drift_one(&mut clocks[n], drifts, n);
    }
}

/// Each clock drifts by its entry in `drifts`.
pub fn drift(clocks: &mut Vec<ClockState>, drifts: &[i64])
    requires { Each (λ n clock. IsOff clock.off) clocks.old.items }
    ensures { EachBecame (Drifts drifts.now) clocks.old.items clocks.new.items }
{
    drift_all(clocks.as_mut_slice(), drifts);
}

/// A node's clock counts one more sample.
pub fn sampled(clocks: &mut Vec<ClockState>, n: u8)
    requires node { n < length clocks.old.items }
    requires few { Each (λ k clock. clock.samples + 1 < 2 ^ 32) clocks.old.items }
    ensures { EachBecame (At n Samples) clocks.old.items clocks.new.items }
{
    clocks[usize::from(n)].samples += 1;
}

/// A node's clock goes down.
pub fn go_down(clocks: &mut Vec<ClockState>, n: u8)
    requires { n < length clocks.old.items }
    ensures { EachBecame (At n GoesDown) clocks.old.items clocks.new.items }
{
    clocks[usize::from(n)].up = false;
}

/// A node's clock comes up with this offset, in tau.
pub fn come_up(clocks: &mut Vec<ClockState>, n: u8, off: Tau, now: Tau)
    requires { n < length clocks.old.items }
    ensures { EachBecame (At n (ComesUp off now)) clocks.old.items clocks.new.items }
{
    clocks[usize::from(n)] = ClockState {
        up: true,
        off,
        ticked: now,
        samples: 0,
    };
}
