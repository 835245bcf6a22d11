//! A clock that is stepped and that ticks.
ghost use Rattle.std.specs.Prelude.{◌≡◌, ◌<◌, ◌≤◌, ◌+ℤ◌, ◌*ℤ◌, ◌^◌, pos, length, unsigned_abs, if◌then◌else◌};
ghost use Rattle.wrp_base.specs.Clock.{period_of};
ghost use Rattle.wrp_changes.specs.Moves.{At, EachBecame};
ghost use Rattle.wrp_plant.specs.Plant.{Each};
ghost use Rattle.wrp_changes.specs.PlantTold.{Steps};
ghost use Rattle.wrp_plant.specs.Sizes.{IsOff};

use wrp_base::{Clock, Tau, product, sum};
use wrp_course::ClockState;

// This many periods, in tau.
fn periods(cycles: i64, clock: Clock) -> Tau
    ensures value { result ≡ cycles *ℤ pos (period_of clock) }
    ensures size { unsigned_abs result ≤ 2 ^ 125 }
{
    product(i128::from(cycles), clock.period())
}

// Steps a clock.
fn step_one(clock: &mut ClockState, cycles: i64, kind: Clock)
    requires { IsOff clock.old.off }
    ensures { clock.new ≡ record clock.old { off = clock.old.off +ℤ (cycles *ℤ pos (period_of kind)) } }
{
    clock.off = sum(clock.off, periods(cycles, kind));
}

// Notes a tick, if there is one.
fn note(clock: &mut ClockState, ticked: bool, now: Tau)
    ensures { clock.new ≡ record clock.old { ticked = if ticked then now else clock.old.ticked } }
{
    if ticked {
        clock.ticked = now;
    }
}

// Steps a clock, and notes its tick.
fn told_one(clock: &mut ClockState, cycles: i64, kind: Clock, ticked: bool, now: Tau)
    requires { IsOff clock.old.off }
    ensures { Steps cycles now (period_of kind) ticked clock.old clock.new }
{
    step_one(clock, cycles, kind);
    note(clock, ticked, now);
}

/// Steps a node's clock, and notes its tick.
pub fn step(clocks: &mut Vec<ClockState>, n: u8, cycles: i64, kind: Clock, ticked: bool, now: Tau)
    requires node { n < length clocks.old.items }
    requires off { Each (λ n clock. IsOff clock.off) clocks.old.items }
    ensures { EachBecame (At n (Steps cycles now (period_of kind) ticked)) clocks.old.items clocks.new.items }
{
    told_one(&mut clocks[usize::from(n)], cycles, kind, ticked, now);
}
