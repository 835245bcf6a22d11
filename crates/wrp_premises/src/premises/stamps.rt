//! Which stamps a frame may have: premises 7 and 8.
ghost use Rattle.std.specs.Prelude.{◌≡◌, pos, ◌/◌, ◌^◌, ◌<◌, ◌≤◌, ◌-ℤ◌, ◌+ℤ◌, unsigned_abs, [], ◌∷◌};
ghost use Rattle.std.specs.Int.{int_rem_euclid};
ghost use Rattle.wrp_base.specs.Circle.{distance_round};
ghost use Rattle.wrp_base.specs.Clock.{period_of, steps_of_period};
ghost use Rattle.wrp_base.specs.Division.{floor_quotient};
ghost use Rattle.wrp_node.specs.Parts.{FitsRaw};
ghost use Rattle.wrp_stamp.specs.Merge.{place_of};
ghost use Rattle.wrp_stamp.specs.StampBound.{true_place};
ghost use Rattle.wrp_course.specs.Checks.{told_of, size_of, only_where};
ghost use Rattle.wrp_course.specs.Checks as spec;
ghost use Rattle.wrp_course.specs.Premises as premise;
ghost use Rattle.wrp_plant.specs.Sizes.{IsTime, IsReading};

use crate::checks::{at_most, size};
use wrp_base::{Clock, Raw, STEPS_OF_PERIOD, Tau, circ, difference, floor_div, sum};
use wrp_course::Breach;

/// Premise 7: the stamp of a frame that is sent is within `e_tx` of the node's reading. All are in
/// tau, the stamp within `2^93` either way. `None` if it holds; otherwise the difference against
/// `e_tx`.
pub fn stamp_kept(stamp: Tau, reading: Tau, e_tx: u64) -> Option<Breach>
    requires stamp { unsigned_abs stamp ≤ 2 ^ 93 }
    requires reading { IsReading reading }
    ensures { result ≡ told_of (spec.at_most 7 (size_of (stamp -ℤ reading)) (pos e_tx) ∷ []) }
{
    at_most(7, size(difference(stamp, reading)), i128::from(e_tx))
}

/// Premise 8: a frame arrives at the true time when it is due; both are in tau. `None` if it does;
/// otherwise the difference against 0.
pub fn on_time(now: Tau, due: Tau) -> Option<Breach>
    requires now { IsTime now }
    requires due { IsTime due }
    ensures { result ≡ told_of (spec.at_most 8 (size_of (now -ℤ due)) (pos 0) ∷ []) }
{
    at_most(8, size(difference(now, due)), 0)
}

// A quarter of the period.
fn quarter(clock: Clock) -> u64
    ensures value { result ≡ period_of clock / 4 }
    ensures most { result < 2 ^ 29 }
{
    match clock {
        Clock::Mhz125 => 131_072_000,
        Clock::Mhz62 => 262_144_000,
    }
}

// The place in the period that a tag shows.
fn told_place(clock: Clock, tag: u16, transition: u16) -> Tau
    requires tag { tag < steps_of_period }
    requires transition { transition < steps_of_period }
    ensures value { result ≡ pos (place_of clock tag transition) }
    ensures size { unsigned_abs result ≤ 2 ^ 100 }
{
    let steps = (tag + STEPS_OF_PERIOD - transition) % STEPS_OF_PERIOD;
    (clock.step().unsigned_abs() * u128::from(steps)) as i128
}

// The true place of a reading in its period.
fn true_place(clock: Clock, reading: Tau) -> u64
    ensures value { result ≡ true_place clock reading }
    ensures most { result < 2 ^ 31 }
{
    reading.rem_euclid(clock.period()).unsigned_abs() as u64
}

// Checks that a tag is near the true place.
fn tag_kept(clock: Clock, e_tag: u64, told: Tau, place: u64) -> Option<Breach>
    requires told { unsigned_abs told ≤ 2 ^ 100 }
    ensures { result ≡ told_of (spec.at_most 8 (pos (distance_round clock told (pos place))) (pos e_tag) ∷ []) }
{
    at_most(8, circ(told, i128::from(place), clock), i128::from(e_tag))
}

// The whole periods of a reading.
fn periods(clock: Clock, reading: Tau) -> Tau
    requires { unsigned_abs reading ≤ 2 ^ 126 }
    ensures value { result ≡ floor_quotient reading (pos (period_of clock)) }
    ensures size { unsigned_abs result ≤ 2 ^ 100 }
{
    floor_div(reading, clock.period())
}

// Checks that a counter has the value that it should have.
fn counter_kept(counter: u64, due: Tau) -> Option<Breach>
    requires { unsigned_abs due ≤ 2 ^ 100 }
    ensures { result ≡ told_of (premise.counter_check counter due ∷ []) }
{
    at_most(8, size(difference(i128::from(counter), due)), 0)
}

// Checks the rising counter if a merge may use it.
fn rising_kept(clock: Clock, e_tag: u64, place: u64, reading: Tau, rising: u64) -> Option<Breach>
    requires e_tag { e_tag ≤ 65_535_999 }
    requires place { place < 2 ^ 31 }
    requires reading { IsReading reading }
    ensures { result ≡ told_of (only_where (premise.may_rise clock e_tag place)
        (premise.counter_check rising (floor_quotient reading (pos (period_of clock)))) ∷ []) }
{
    let quarter = quarter(clock);
    if quarter <= place + e_tag && place < 3 * quarter + e_tag {
        counter_kept(rising, periods(clock, reading))
    } else {
        None
    }
}

// Half a period after a reading.
fn half_later(clock: Clock, reading: Tau) -> Tau
    requires { IsReading reading }
    ensures value { result ≡ reading +ℤ pos (period_of clock / 2) }
    ensures size { unsigned_abs result ≤ 2 ^ 126 }
{
    let half = 2 * quarter(clock);
    sum(reading, i128::from(half))
}

// Checks the falling counter if a merge may use it.
fn falling_kept(clock: Clock, e_tag: u64, place: u64, reading: Tau, falling: u64) -> Option<Breach>
    requires e_tag { e_tag ≤ 65_535_999 }
    requires place { place < 2 ^ 31 }
    requires reading { IsReading reading }
    ensures { result ≡ told_of (only_where (premise.may_fall clock e_tag place)
        (premise.counter_check falling
        (floor_quotient (reading +ℤ pos (period_of clock / 2)) (pos (period_of clock)))) ∷ []) }
{
    let quarter = quarter(clock);
    if place < quarter + e_tag || 3 * quarter <= place + e_tag {
        counter_kept(falling, periods(clock, half_later(clock, reading)))
    } else {
        None
    }
}

/// Premise 8: a raw stamp is near the node's reading: its tag, and each counter if a merge may use
/// it. `transition` is the receiving module's and below 16,384; `reading` and `e_tag` are in tau,
/// `e_tag` below 65,536,000. `None` if it holds; otherwise the first comparison that fails: the
/// tag's distance in tau against `e_tag`, or how far a counter is off against 0.
pub fn raw_kept(
    clock: Clock,
    e_tag: u64,
    transition: u16,
    reading: Tau,
    raw: &Raw,
) -> Option<Breach>
    requires e_tag { e_tag ≤ 65_535_999 }
    requires transition { transition < steps_of_period }
    requires reading { IsReading reading }
    requires raw { FitsRaw raw.now }
    ensures { result ≡ told_of (premise.raw_checks clock e_tag transition reading raw.now) }
{
    let place = true_place(clock, reading);
    let told = told_place(clock, raw.tag, transition);
    tag_kept(clock, e_tag, told, place)
        .or(rising_kept(clock, e_tag, place, reading, raw.rising))
        .or(falling_kept(clock, e_tag, place, reading, raw.falling))
}
