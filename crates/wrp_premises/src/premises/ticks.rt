//! When a node may tick: premises 1 and 2.
ghost use Rattle.std.specs.Prelude.{◌≡◌, ◌-ℤ◌, [], ◌∷◌, map};
ghost use Rattle.wrp_course.specs.Checks.{told_of, at_least, at_most};
ghost use Rattle.wrp_plant.specs.Plant.{Each};
ghost use Rattle.wrp_course.specs.Premises.{early_by, late_by};
ghost use Rattle.wrp_plant.specs.Sizes.{IsTime};

use crate::checks::{at_least, at_most};
use wrp_base::{Tau, difference};
use wrp_course::{Breach, ClockState};

// Checks that at least this much time has passed since a tick.
fn late_enough(least: Tau, now: Tau, ticked: Tau) -> Option<Breach>
    requires now { IsTime now }
    requires ticked { IsTime ticked }
    ensures { result ≡ told_of (at_least 1 (now -ℤ ticked) least ∷ []) }
{
    at_least(1, difference(now, ticked), least)
}

/// Premise 1: no tick comes too early. `now` is its true time, and `least` the shortest time from one
/// tick to the next, in tau. `None` if it is late enough, or the node is down; otherwise the time since
/// the last tick against `least`.
pub fn tick_early(least: Tau, now: Tau, clock: &ClockState) -> Option<Breach>
    requires least { IsTime least }
    requires now { IsTime now }
    requires ticked { IsTime clock.now.ticked }
    ensures { result ≡ told_of (early_by least now clock.now ∷ []) }
{
    if clock.up {
        late_enough(least, now, clock.ticked)
    } else {
        None
    }
}

// Checks that at most this much time has passed since a tick.
fn soon_enough(most: Tau, after: Tau, ticked: Tau) -> Option<Breach>
    requires after { IsTime after }
    requires ticked { IsTime ticked }
    ensures { result ≡ told_of (at_most 2 (after -ℤ ticked) most ∷ []) }
{
    at_most(2, difference(after, ticked), most)
}

// Checks that the next tick of one clock is not too late by then.
fn tick_late(most: Tau, after: Tau, clock: &ClockState) -> Option<Breach>
    requires most { IsTime most }
    requires after { IsTime after }
    requires ticked { IsTime clock.now.ticked }
    ensures { result ≡ told_of (late_by most after clock.now ∷ []) }
{
    if clock.up {
        soon_enough(most, after, clock.ticked)
    } else {
        None
    }
}

/// Premise 2: time does not pass so far that a node ticks too late. `after` is the true time that is
/// reached, and `most` the longest time from one tick to the next, in tau. `None` if it holds;
/// otherwise, for the first node that is up and would tick too late, the time since its last tick
/// against `most`.
pub fn ticks_late(most: Tau, after: Tau, clocks: &[ClockState]) -> Option<Breach>
    requires most { IsTime most }
    requires after { IsTime after }
    requires ticked { Each (λ n clock. IsTime clock.ticked) clocks.now }
    ensures { result ≡ told_of (map (late_by most after) clocks.now) }
{
    for clock in clocks {
        if let Some(breach) = tick_late(most, after, clock) {
            return Some(breach);
        }
    }
    None
}
