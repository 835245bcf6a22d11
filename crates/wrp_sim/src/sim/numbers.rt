//! The numbers that stand in the events of the simulator.
ghost use Rattle.std.specs.Prelude.{◌≡◌, ◌<◌, ◌≤◌, ◌≤ℤ◌, ◌^◌, ◌-ℤ◌, ◌*ℤ◌, ◌*◌, pos, unsigned_abs, IfSome};
ghost use Rattle.std.specs.Int.Signed.{le_z};
ghost use Rattle.std.specs.Ordering.{int_eq};
ghost use Rattle.wrp_base.specs.Clock.{period_of, steps_of_period};
ghost use Rattle.wrp_base.specs.Held.{held_within};
ghost use Rattle.wrp_phase.specs.BeatPattern as beat;
ghost use Rattle.wrp_sim.specs.Numbers as number;
ghost use Rattle.wrp_sim.specs.Numbers.{IsSlow};

use wrp_base::{Clock, Raw, Tau, product, sum, trunc_div};

/// Rates are in `10^-12`.
const PARTS: i128 = 1_000_000_000_000;

/// The same, in 64 bits.
const PARTS_64: i64 = 1_000_000_000_000;

/// How much one step of the DAC slows a clock, in `10^-12`.
const DAC_RATE: i64 = 10;

/// The detector's step in which a true phase lies, 0 to 16383: the phase in tau, taken round the period and
/// rounded down to a whole step.
pub fn true_step(clock: Clock, phase: Tau) -> u16
    ensures value { result ≡ beat.true_step clock phase }
    ensures most { result < steps_of_period }
{
    let place = phase.rem_euclid(clock.period()).unsigned_abs();
    (place / clock.step().unsigned_abs()) as u16
}

/// The base that lies 32 steps before a step of the detector, round the 16,384 steps of the period.
pub fn base_before(step: u16) -> u16
    requires { step < steps_of_period }
    ensures { result ≡ number.base_before step }
{
    (step + (16_384 - 32)) % 16_384
}

/// The beat bits of a window whose first `zeros` steps read 0 and whose others read 1, the first step highest.
pub fn bits_behind(zeros: u32) -> u64
    requires least { 1 ≤ zeros }
    requires most { zeros ≤ 63 }
    ensures { result ≡ number.bits_behind zeros }
{
    (1u64 << (64 - zeros)) - 1
}

// The greatest reading that a stamp can have, in tau: `2^62` periods.
fn greatest_reading(clock: Clock) -> Tau
    ensures { result ≡ pos (2 ^ 62 * period_of clock) }
{
    match clock {
        Clock::Mhz125 => 524_288_000 << 62,
        Clock::Mhz62 => 1_048_576_000 << 62,
    }
}

// The least reading that a stamp can have, in tau: two periods.
fn least_reading(clock: Clock) -> Tau
    ensures { result ≡ pos (2 * period_of clock) }
{
    match clock {
        Clock::Mhz125 => 1_048_576_000,
        Clock::Mhz62 => 2_097_152_000,
    }
}

/// Whether a stamp can have a reading, in tau: from 2 to `2^62` periods.
pub fn is_within(clock: Clock, at: Tau) -> bool
    ensures { result ≡ number.is_within clock at }
{
    least_reading(clock) <= at && at <= greatest_reading(clock)
}

// A reading in whole 1,000 tau, rounded down.
fn whole_thousands(at: Tau) -> Tau
    requires least { pos 0 ≤ℤ at }
    requires most { unsigned_abs at ≤ 2 ^ 92 }
    ensures value { result ≡ number.whole_thousands at }
    ensures size { unsigned_abs result ≤ 2 ^ 92 }
{
    (at.unsigned_abs() / 1_000 * 1_000) as i128
}

/// The stamp of a reading, in tau: the reading rounded down to a multiple of 1,000 tau, and `more` times
/// 1,000 tau added.
pub fn stamp_at(at: Tau, more: i128) -> Tau
    requires least { pos 0 ≤ℤ at }
    requires most { unsigned_abs at ≤ 2 ^ 92 }
    requires more { unsigned_abs more ≤ 2 ^ 61 }
    ensures { result ≡ number.stamp_at at more }
{
    sum(whole_thousands(at), product(1_000, more))
}

/// How many times 1,000 tau a stamp may be off: `e_tx`, in tau, in whole thousands, less one for the rounding
/// of the stamp.
pub fn thousands(e_tx: u64) -> u64
    requires { 1_000 ≤ e_tx }
    ensures value { result ≡ number.thousands e_tx }
    ensures most { result ≤ e_tx }
{
    e_tx / 1_000 - 1
}

// A reading in whole periods, rounded down.
fn periods(clock: Clock, at: Tau) -> u64
    requires least { pos 0 ≤ℤ at }
    requires most { unsigned_abs at < 2 ^ 63 * period_of clock }
    ensures { result ≡ number.periods_in clock at }
{
    (at.unsigned_abs() / clock.period().unsigned_abs()) as u64
}

// Half a period after a reading, in tau.
fn half_later(clock: Clock, at: Tau) -> Tau
    requires least { pos 0 ≤ℤ at }
    requires most { unsigned_abs at ≤ 2 ^ 62 * period_of clock }
    ensures value { result ≡ number.half_later clock at }
    ensures least { pos 0 ≤ℤ result }
    ensures most { unsigned_abs result < 2 ^ 63 * period_of clock }
{
    let half = match clock {
        Clock::Mhz125 => 262_144_000,
        Clock::Mhz62 => 524_288_000,
    };
    at + half
}

// The tag of a reading, in detector steps, over a module with this transition: its place in the period,
// rounded down to a step, and the transition added round the period.
fn tag_at(clock: Clock, transition: u16, at: Tau) -> u16
    ensures { result ≡ number.tag_at clock transition at }
{
    let step = true_step(clock, at);
    ((u32::from(step) + u32::from(transition)) % 16_384) as u16
}

/// The raw stamp of a reading: the true counters, and the true tag over a module with this transition.
pub fn raw_at(clock: Clock, transition: u16, at: Tau) -> Raw
    requires least { pos 0 ≤ℤ at }
    requires most { unsigned_abs at ≤ 2 ^ 62 * period_of clock }
    ensures { result ≡ number.raw_at clock transition at }
{
    Raw {
        rising: periods(clock, at),
        falling: periods(clock, half_later(clock, at)),
        tag: tag_at(clock, transition, at),
    }
}

// How far a value of the DAC is above the bias, in steps of the DAC.
fn above_bias(dac: u16, bias: i64) -> i64
    requires { unsigned_abs bias ≤ 65_535 }
    ensures value { result ≡ pos dac -ℤ bias }
    ensures size { unsigned_abs result ≤ 200_000 }
{
    i64::from(dac) - bias
}

// How much so many steps of the DAC slow a clock, in `10^-12`.
fn slowed_by(steps: i64) -> i64
    requires { unsigned_abs steps ≤ 200_000 }
    ensures value { result ≡ pos 10 *ℤ steps }
    ensures size { unsigned_abs result ≤ 2_000_000 }
{
    DAC_RATE * steps
}

// A rate less another one, in `10^-12`.
fn less(rate: i64, by: i64) -> i64
    requires rate { unsigned_abs rate ≤ 100_000 }
    requires by { unsigned_abs by ≤ 2_000_000 }
    ensures value { result ≡ rate -ℤ by }
    ensures size { unsigned_abs result ≤ 1_000_000_000 }
{
    rate - by
}

/// The rate of a clock by itself, in `10^-12`: a higher value of the DAC slows it.
pub fn own_rate(free: i64, dac: u16, bias: i64) -> i64
    requires free { unsigned_abs free ≤ 100_000 }
    requires bias { unsigned_abs bias ≤ 65_535 }
    ensures value { result ≡ number.own_rate free dac bias }
    ensures size { unsigned_abs result ≤ 1_000_000_000 }
{
    less(free, slowed_by(above_bias(dac, bias)))
}

// A rate held within another one, of either sign, in `10^-12`.
fn hold_rate(most: i64, rate: i64) -> i64
    requires { pos 0 ≤ℤ most }
    ensures value { result ≡ held_within most rate }
    ensures size { unsigned_abs result ≤ unsigned_abs most }
{
    rate.min(most).max(-most)
}

/// A rate, in `10^-12`, held within the one that a clock keeps, if it keeps one.
pub fn held_to(kept: Option<u64>, rate: i64) -> i64
    requires kept { IfSome kept (λ most. most ≤ 1_000_000_000) }
    requires rate { unsigned_abs rate ≤ 1_000_000_000 }
    ensures value { result ≡ number.held_to kept rate }
    ensures size { unsigned_abs result ≤ 1_000_000_000 }
{
    match kept {
        Some(most) => hold_rate(most as i64, rate),
        None => rate,
    }
}

// As `drift_at`, where the product of both may need more than 64 bits.
#[cold]
#[inline(never)]
fn drift_far(dt: i64, rate: i64) -> i64
    requires { unsigned_abs rate ≤ 1_000_000_000 }
    ensures { result ≡ number.drift_at dt rate }
{
    trunc_div(product(i128::from(dt), i128::from(rate)), PARTS) as i64
}

// How far a clock of this rate, in `10^-12`, moves in a time in tau: the product over `10^12`, in tau, rounded
// towards zero.
fn drift_at(dt: i64, rate: i64) -> i64
    requires { unsigned_abs rate ≤ 1_000_000_000 }
    ensures { result ≡ number.drift_at dt rate }
{
    match dt.checked_mul(rate) {
        Some(scaled) => scaled / PARTS_64,
        None => drift_far(dt, rate),
    }
}

/// A slow rate for a time in tau, in `10^-12`: the product of the time and of a rate that is no greater in size
/// needs no more than 64 bits.
pub fn slow_rate(dt: i64) -> i64
    ensures { IsSlow dt result }
{
    ((1u64 << 62) / (dt.unsigned_abs() + 1)) as i64
}

// The product of a time and of a slow rate.
fn slow_product(dt: i64, most: i64, rate: i64) -> i64
    requires slow { IsSlow dt most }
    requires rate { unsigned_abs rate ≤ unsigned_abs most }
    ensures { result ≡ dt *ℤ rate }
{
    dt * rate
}

// As `drift_at`, at a slow rate.
fn slow_drift(dt: i64, most: i64, rate: i64) -> i64
    requires slow { IsSlow dt most }
    requires rate { unsigned_abs rate ≤ unsigned_abs most }
    ensures { result ≡ number.drift_at dt rate }
{
    slow_product(dt, most, rate) / PARTS_64
}

/// As `drift_at`, if it is known which rates are slow for the time: then fewer steps tell that 64 bits will do.
pub fn drift_by(dt: i64, most: i64, rate: i64) -> i64
    requires rate { unsigned_abs rate ≤ 1_000_000_000 }
    requires slow { IsSlow dt most }
    ensures { result ≡ number.drift_at dt rate }
{
    if -most <= rate && rate <= most {
        slow_drift(dt, most, rate)
    } else {
        drift_at(dt, rate)
    }
}

/// Whether a moment, in tau of true time, has come.
pub fn is_by(moment: Tau, now: Tau) -> bool
    ensures { result ≡ le_z moment now }
{
    moment <= now
}

/// Whether a moment, in tau of true time, is now.
pub fn is_at(moment: Tau, now: Tau) -> bool
    ensures { result ≡ int_eq moment now }
{
    moment == now
}
