//! `numbers`: each line of the input is a call by its name with its numbers, and its answer is expected:
//!
//!     floor_div A B · ceil_div A B · trunc_div A B · hold A B · product A B · sum A B · difference A B · narrow A
//!     circ A B PERIOD                             the distance round a period, which is given in ps
//!     merge PERIOD TRANSITION TAG RISING FALLING  a reading
//!     deglitch BASE BITS                          a tag, or `none`; the bits in hex
//!     floor_of KAPPA X                            the exact fraction of a law, rounded down
ghost use Rattle.std.specs.Prelude.{◌<◌, ◌^◌, ◌↔◌, IsTrue};

use crate::arithmetic::{apart, narrowed, of_two};
use crate::words::{Words, input_of};
use std::alloc::Global;
use wrp_base::{Raw, STEPS_OF_PERIOD, Tau};
use wrp_law::floor_of;
use wrp_phase::deglitch;
use wrp_stamp::merge;
use wrp_suite::{Answer, Case, Fault};

// Whether a counter has a number that `merge` takes.
fn counts(counter: u64) -> bool
    ensures { IsTrue result ↔ ((0 < counter) × (counter < 2 ^ 63)) }
{
    0 < counter && counter < 1 << 63
}

// A merged reading.
fn merged(words: &mut Words<'_>) -> Result<Tau, Fault> {
    let clock = words.clock()?;
    let (transition, tag) = words.pair::<u16, u16>()?;
    let (rising, falling) = words.pair::<u64, u64>()?;
    if STEPS_OF_PERIOD <= transition || STEPS_OF_PERIOD <= tag {
        return Err(Fault::Condition);
    }
    if !counts(rising) || !counts(falling) {
        return Err(Fault::Condition);
    }
    let raw = Raw {
        rising,
        falling,
        tag,
    };
    Ok(merge(&raw, transition, clock))
}

// A deglitched tag.
fn deglitched(words: &mut Words<'_>) -> Result<Option<i128>, Fault> {
    let base = words.number::<u16>()?;
    let Ok(bits) = u64::from_str_radix(words.word()?, 16) else {
        return Err(Fault::Number);
    };
    if STEPS_OF_PERIOD <= base {
        return Err(Fault::Condition);
    }
    Ok(deglitch(base, bits).map(i128::from))
}

// The fraction of a law.
fn fraction(words: &mut Words<'_>) -> Result<i64, Fault> {
    let (kappa, x) = words.pair::<i64, i64>()?;
    if kappa.unsigned_abs() > 1 << 38 || x.unsigned_abs() > 1 << 53 {
        return Err(Fault::Condition);
    }
    Ok(floor_of(kappa, x))
}

// The answer of a call.
fn called(name: &str, words: &mut Words<'_>) -> Result<Option<i128>, Fault> {
    match name {
        "narrow" => narrowed(words).map(i128::from).map(Some),
        "circ" => apart(words).map(Some),
        "merge" => merged(words).map(Some),
        "deglitch" => deglitched(words),
        "floor_of" => fraction(words).map(i128::from).map(Some),
        _ => of_two(name, words).map(Some),
    }
}

// Appends the answer of a line.
fn tell(text: &mut String, line: &str) -> Result<(), Fault> {
    let mut words = Words::of(line);
    let name = words.word()?;
    let found = called(name, &mut words)?;
    words.end()?;
    let pushed = match found {
        Some(number) => write!(text, "{number}\n"),
        None => text.push_str("none\n"),
    };
    pushed.map_err(Fault::from)
}

/// What the calls answer.
pub fn answer(alloc: Global, case: &Case) -> Result<Answer, Fault> {
    let input = input_of(case)?;
    let mut text = String::new(alloc);
    for line in input.split_terminator('\n') {
        tell(&mut text, line)?;
    }
    Ok(Answer::of(0, text))
}
