//! The settings of a plain servo, as the first line of a case has them: `set RATE ERR LEAST SPAN DMAX RING STEP`.
ghost use Rattle.std.specs.Prelude.{◌≤◌, ◌^◌, IfOk, unsigned_abs};
ghost use Rattle.wrp_plain.specs.Measurement.{HasRanges};

use crate::words::{from_to, natural, sized};
use wrp_plain::PlainSet;
use wrp_suite::Fault;

/// The settings of a line.
pub fn servo_setting_of(words: &[&str]) -> Result<PlainSet, Fault>
    ensures { IfOk result HasRanges }
{
    let ["set", rate, err, least, span, dmax, ring, step] = *words else {
        return Err(Fault::Input);
    };
    let rate = natural(rate, 0, 1_000_000_000)?;
    let err = natural(err, 0, 1_000_000_000)?;
    let least = from_to(least, 0, 1_000_000_000_000_000)?;
    let span = from_to(span, 0, 1_000_000_000_000_000)?;
    let dmax = from_to(dmax, 1, 1_000_000_000_000_000_000)?;
    let ring = natural(ring, 1, 64)? as usize;
    let step = from_to(step, 1, 1 << 60)?;
    Ok(PlainSet {
        rate,
        err,
        least,
        span,
        dmax,
        ring,
        step,
    })
}

/// A stamp of an exchange.
pub fn stamp_of(word: &str) -> Result<i64, Fault>
    ensures { IfOk result (λ n. unsigned_abs n ≤ 2 ^ 61) }
{
    sized(word, 1 << 61)
}
