//! Which beat bits a sample may have: premise 9.
ghost use Rattle.std.specs.Prelude.{◌≡◌, ◌<◌, ◌≤◌, ◌==◌, ◌&&◌, ◌+ℤ◌, ◌-ℤ◌, ◌<ℤ◌, ◌≤ℤ◌, ◌*◌, ◌^◌, ℕ, pos, unsigned_abs, not, true, false, map, [], ◌∷◌};
ghost use Rattle.std.specs.Int.{int_rem_euclid};
ghost use Rattle.std.specs.Int.Signed.{le_z, lt_z};
ghost use Rattle.wrp_base.specs.Clock.{period_of, step_of, steps_of_period};
ghost use Rattle.wrp_phase.specs.Beat.{beat_bit};
ghost use Rattle.wrp_phase.specs.BeatPattern.{true_step, steps_past};
ghost use Rattle.wrp_course.specs.Checks.{told_of};
ghost use Rattle.wrp_course.specs.Premises as premise;
ghost use Rattle.wrp_course.specs.Setting.{from_on};

use wrp_base::{Clock, Tau};
use wrp_course::Breach;

// One step of the phase detector, in tau.
fn step(clock: Clock) -> u64
    ensures value { result ≡ step_of clock }
    ensures whole { period_of clock ≡ 16384 * result }
    ensures least { 1 ≤ result }
{
    match clock {
        Clock::Mhz125 => 32_000,
        Clock::Mhz62 => 64_000,
    }
}

// The place of a true phase in its period, in tau.
fn place(clock: Clock, phase: Tau) -> u64
    ensures value { result ≡ unsigned_abs (int_rem_euclid phase (pos (period_of clock))) }
    ensures most { result < period_of clock }
{
    phase.rem_euclid(clock.period()).unsigned_abs() as u64
}

// The detector step of a true phase.
fn true_step(clock: Clock, phase: Tau) -> u16
    ensures value { result ≡ true_step clock phase }
    ensures most { result < steps_of_period }
{
    (place(clock, phase) / step(clock)) as u16
}

// How many steps this is past the base, from -8192 to 8191.
fn steps_past(step: u16, base: u16) -> i32
    requires step { step < steps_of_period }
    requires base { base < steps_of_period }
    ensures value { result ≡ steps_past step base }
    ensures size { unsigned_abs result ≤ 8192 }
{
    (i32::from(step) - i32::from(base) + 8_192).rem_euclid(16_384) - 8_192
}

// A beat bit, the most significant first.
fn beat_bit(bits: u64, i: u8) -> u64
    requires { i < 64 }
    ensures { result ≡ beat_bit bits i }
{
    (bits >> (63 - i)) & 1
}

// The first place at which a beat bit may be 1.
fn first_one(steps: i32, beat: u16) -> i32
    requires { unsigned_abs steps ≤ 8192 }
    ensures { result ≡ steps -ℤ pos beat }
{
    steps - i32::from(beat)
}

// The first place at which a beat bit may not be 0.
fn first_sure(steps: i32, beat: u16) -> i32
    requires { unsigned_abs steps ≤ 8192 }
    ensures value { result ≡ steps +ℤ pos beat }
    ensures size { unsigned_abs result ≤ 2 ^ 17 }
{
    steps + i32::from(beat)
}

// Whether a 1 comes too early.
fn is_early(first: i32, bit: u64, i: u8) -> bool
    ensures { result ≡ (lt_z (pos i) first && not (bit == 0)) }
{
    i32::from(i) < first && bit != 0
}

// Whether a 0 comes too late.
fn is_late(sure: i32, bit: u64, i: u8) -> bool
    ensures { result ≡ (le_z sure (pos i) && not (bit == 1)) }
{
    sure <= i32::from(i) && bit != 1
}

// Whether a beat bit is wrong.
fn is_wrong(steps: i32, beat: u16, bits: u64, i: u8) -> bool
    requires steps { unsigned_abs steps ≤ 8192 }
    requires i { i < 64 }
    ensures { result ≡ premise.is_wrong steps beat bits i }
{
    let bit = beat_bit(bits, i);
    is_early(first_one(steps, beat), bit, i) || is_late(first_sure(steps, beat), bit, i)
}

// Checks one beat bit.
fn bit_kept(steps: i32, beat: u16, bits: u64, i: u8) -> Option<Breach>
    requires steps { unsigned_abs steps ≤ 8192 }
    requires i { i < 64 }
    ensures { result ≡ told_of (premise.bit_check steps beat bits i ∷ []) }
{
    if is_wrong(steps, beat, bits, i) {
        Some(Breach {
            premise: 9,
            shown: i128::from(i),
            bound: i128::from(steps),
        })
    } else {
        None
    }
}

// Whether the bits have so many leading zeros that all beat bits before this place are 0.
fn is_blank_before(first: i32, bits: u64) -> bool
    ensures { result ≡ true → (i : ℕ) → i < 64 → pos i <ℤ first → beat_bit bits i ≡ 0 }
{
    first < 0 || first.unsigned_abs() <= bits.leading_zeros()
}

// Whether the bits have so many trailing ones that all beat bits from this place on are 1. If all bits are 1, the answer
// is false.
fn is_set_from(sure: i32, bits: u64) -> bool
    requires { unsigned_abs sure ≤ 2 ^ 17 }
    ensures { result ≡ true → (i : ℕ) → i < 64 → sure ≤ℤ pos i → beat_bit bits i ≡ 1 }
{
    0 <= sure && bits < u64::MAX && 64 <= sure.unsigned_abs() + bits.trailing_ones()
}

// Whether the leading zeros and the trailing ones show that no beat bit is wrong.
fn are_right(steps: i32, beat: u16, bits: u64) -> bool
    requires { unsigned_abs steps ≤ 8192 }
    ensures { result ≡ true → (i : ℕ) → i < 64 → premise.is_wrong steps beat bits i ≡ false }
{
    is_blank_before(first_one(steps, beat), bits) && is_set_from(first_sure(steps, beat), bits)
}

// The first beat bit that is wrong. The bits are looked at one by one.
#[cold]
#[inline(never)]
fn first_wrong(steps: i32, beat: u16, bits: u64) -> Option<Breach>
    requires { unsigned_abs steps ≤ 8192 }
    ensures { result ≡ told_of (map (premise.bit_check steps beat bits) (from_on 64 0)) }
{
    for i in 0..64u8 {
        if let Some(breach) = bit_kept(steps, beat, bits, i) {
            return Some(breach);
        }
    }
    None
}

// Checks that no beat bit is wrong if the true step is this many steps past the base.
fn bits_kept(steps: i32, beat: u16, bits: u64) -> Option<Breach>
    requires { unsigned_abs steps ≤ 8192 }
    ensures { result ≡ told_of (map (premise.bit_check steps beat bits) (from_on 64 0)) }
{
    if are_right(steps, beat, bits) {
        None
    } else {
        first_wrong(steps, beat, bits)
    }
}

/// Premise 9: no beat bit of a sample is wrong if the true phase is `phase`, in tau. `base` is
/// below 16,384; `base` and `beat` are in detector steps. `None` if it holds; otherwise the number
/// of the first wrong bit, and the distance of the true step from the base.
pub fn beat_kept(clock: Clock, beat: u16, base: u16, bits: u64, phase: Tau) -> Option<Breach>
    requires { base < steps_of_period }
    ensures { result ≡ told_of (premise.beat_by clock beat base bits phase) }
{
    bits_kept(steps_past(true_step(clock, phase), base), beat, bits)
}
