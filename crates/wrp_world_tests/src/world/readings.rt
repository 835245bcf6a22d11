//! What a node is given for true readings: stamps, tags, counters and beat bits, as they truly are, or at
//! an end of what they may be.
use super::networks::{E_TAG, E_TX};
use wrp_base::{Raw, Tau};

// The period of the clocks, and a step of the phase detector, in tau.
const PERIOD: Tau = 524_288_000;

const STEP: Tau = 32_000;

// Rates are in 10^-12.
const PARTS: i128 = 1_000_000_000_000;

/// Where a given value lies in what it may be.
#[derive(Clone, Copy)]
pub enum At {
    /// It is the least.
    Least,
    /// It is true, except for the grain in which it is given.
    True,
    /// It is the greatest.
    Most,
}

// A reading that is given as the multiple of a grain below it, moved so that the given value lies there.
fn moved(reading: Tau, at: At, most: Tau, grain: Tau) -> Tau {
    match at {
        At::Least => reading
            .wrapping_sub(most)
            .wrapping_add(grain)
            .wrapping_sub(1),
        At::True => reading,
        At::Most => reading.wrapping_add(most),
    }
}

/// The stamp of a sending.
pub fn stamp_of(reading: Tau, at: At) -> Tau {
    let told = moved(reading, at, E_TX, 1000);
    told.wrapping_sub(told.rem_euclid(1000))
}

// How far a counter is off that may be wrong.
fn slip(at: At) -> i128 {
    match at {
        At::Least => -1,
        At::True => 0,
        At::Most => 1,
    }
}

// The counter of the periods up to a reading, wrong where it may be.
fn counter(reading: Tau, at: At, is_right: bool) -> u64 {
    let periods = reading.div_euclid(PERIOD);
    let slip = if is_right { 0 } else { slip(at) };
    u64::try_from(periods.wrapping_add(slip)).unwrap_or(0)
}

/// The raw stamp of a reading: all modules begin a period at tag 0. A counter is wrong where it may be, if
/// the tag is not the true one.
pub fn raw_of(reading: Tau, at: At) -> Raw {
    let place = reading.rem_euclid(PERIOD);
    let quarter = PERIOD / 4;
    let rises = quarter - E_TAG <= place && place < 3 * quarter + E_TAG;
    let stays = quarter + E_TAG <= place && place < 3 * quarter - E_TAG;
    let tag = moved(reading, at, E_TAG, STEP).rem_euclid(PERIOD) / STEP;
    Raw {
        rising: counter(reading, at, rises),
        falling: counter(reading.wrapping_add(PERIOD / 2), at, !stays),
        tag: u16::try_from(tag).unwrap_or(0),
    }
}

/// The base and the beat bits of a phase: the true step is 32 after the base.
pub fn sample_of(phase: Tau, at: At) -> (u16, u64) {
    let step = u16::try_from(phase.rem_euclid(PERIOD) / STEP).unwrap_or(0);
    let bits = match at {
        At::Least => u64::MAX >> 28,
        At::True => u64::MAX >> 32,
        At::Most => u64::MAX >> 36,
    };
    (step.wrapping_sub(32) % 16_384, bits)
}

/// How far something moves in a time at this rate.
pub fn moved_in(dt: i64, rate: i128) -> i64 {
    i64::try_from(rate.wrapping_mul(i128::from(dt)) / PARTS).unwrap_or(0)
}
