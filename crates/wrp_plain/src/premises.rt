//! The premises of a world with a plain servo: the first that an event breaks, with both of its sides.
ghost use Rattle.std.specs.Prelude.{◌≡◌, ℕ, ℤ, pos, ◌+◌, ◌*◌, ◌^◌, ◌≤◌, ◌+ℤ◌, ◌-ℤ◌, ◌≤ℤ◌, unsigned_abs, [], ◌∷◌};
ghost use Rattle.wrp_plain.specs.Measurement.{HasRanges, moves_within};
ghost use Rattle.wrp_plain.specs.Event.{IsShort, HasFields, AreStamps, t1_of, t2_of, t3_of, t4_of};
ghost use Rattle.wrp_plain.specs.Premises.{over, below, first_broken, tick_late, rate_broken, span_broken, least_broken, move_broken, moves_broken, stamps_broken, down_error, up_error, broken_by, found_broken};

use crate::event::{PlainBroken, PlainEvent};
use crate::numbers::{RATE_UNIT, apart, moves_within};
use crate::settings::PlainSet;
use wrp_base::{difference, sum};

/// Judges an event, given the true offset `off` and the time `since` that passed since the last tick or
/// the start: the first premise that it breaks is refused. Ok if and only if it breaks none.
pub fn judge(set: &PlainSet, off: i128, since: u64, event: &PlainEvent) -> Result<(), PlainBroken>
    requires set { HasRanges set.now }
    requires off { unsigned_abs off ≤ 2 ^ 94 }
    requires since { since ≤ 10 ^ 18 }
    requires event { HasFields event.now }
    ensures { found_broken result ≡ broken_by set.now off since event.now }
{
    match event {
        PlainEvent::Pass { dt, drift } => judge_pass(set, since, *dt, *drift),
        PlainEvent::Tick => Ok(()),
        PlainEvent::Exch {
            span,
            dms,
            dsm,
            o2,
            o3,
            t,
        } => {
            judge_span(set, *span)?;
            judge_least(set, *dms, *dsm)?;
            judge_moves(set, off, *span, *o2, *o3)?;
            judge_stamps(set, down_error(t, *dms, *o2), up_error(t, *dsm, *o3))
        }
    }
}

// The tick may not be late, and the offset moves no faster than the rate.
fn judge_pass(set: &PlainSet, since: u64, dt: i64, drift: i64) -> Result<(), PlainBroken>
    requires set { HasRanges set.now }
    requires since { since ≤ 10 ^ 18 }
    requires dt { (pos 1 ≤ℤ dt) × (dt ≤ℤ pos (10 ^ 18)) }
    requires drift { unsigned_abs drift ≤ 2 ^ 60 }
    ensures { found_broken result ≡ first_broken (tick_late set.now since dt ∷ rate_broken set.now dt drift ∷ []) }
{
    over(1, time_since(since, dt), set.dmax.into())?;
    over(2, moved(drift), may_move(set.rate, dt))
}

// An exchange takes at most the span.
fn judge_span(set: &PlainSet, span: i64) -> Result<(), PlainBroken>
    ensures { found_broken result ≡ span_broken set.now span }
{
    over(3, span.into(), set.span.into())
}

// Neither delay is below the least.
fn judge_least(set: &PlainSet, dms: i64, dsm: i64) -> Result<(), PlainBroken>
    ensures { found_broken result ≡ least_broken set.now dms dsm }
{
    below(4, dms.into(), set.least.into())?;
    below(4, dsm.into(), set.least.into())
}

// At both stamps of the slave the offset is no further from what it is now than it may move.
fn judge_moves(set: &PlainSet, off: i128, span: i64, o2: i128, o3: i128) -> Result<(), PlainBroken>
    requires set { HasRanges set.now }
    requires off { unsigned_abs off ≤ 2 ^ 94 }
    requires o2 { unsigned_abs o2 ≤ 2 ^ 94 }
    requires o3 { unsigned_abs o3 ≤ 2 ^ 94 }
    ensures { found_broken result ≡ moves_broken set.now off span o2 o3 }
{
    judge_move(set, off, span, o2)?;
    judge_move(set, off, span, o3)
}

// At a stamp it is not.
fn judge_move(set: &PlainSet, off: i128, span: i64, at: i128) -> Result<(), PlainBroken>
    requires set { HasRanges set.now }
    requires off { unsigned_abs off ≤ 2 ^ 94 }
    requires at { unsigned_abs at ≤ 2 ^ 94 }
    ensures { found_broken result ≡ move_broken set.now off span at }
{
    over(5, distance(at, off), move_limit(set.rate, span))
}

// Each way is measured to within the errors of its two stamps.
fn judge_stamps(set: &PlainSet, down: i128, up: i128) -> Result<(), PlainBroken>
    requires set { HasRanges set.now }
    requires down { unsigned_abs down ≤ 2 ^ 125 }
    requires up { unsigned_abs up ≤ 2 ^ 125 }
    ensures { found_broken result ≡ stamps_broken set.now down up }
{
    let errors = two_errors(set.err);
    over(6, size(down), errors)?;
    over(6, size(up), errors)
}

// A premise is broken by what is over its limit.
fn over(premise: u8, shown: i128, bound: i128) -> Result<(), PlainBroken>
    ensures { found_broken result ≡ over premise shown bound }
{
    if shown > bound {
        return Err(PlainBroken {
            premise,
            shown,
            bound,
        });
    }
    Ok(())
}

// A premise is broken by what is below its limit.
fn below(premise: u8, shown: i128, bound: i128) -> Result<(), PlainBroken>
    ensures { found_broken result ≡ below premise shown bound }
{
    if shown < bound {
        return Err(PlainBroken {
            premise,
            shown,
            bound,
        });
    }
    Ok(())
}

// The time since the last tick, with what passes now.
fn time_since(since: u64, dt: i64) -> i128
    requires since { since ≤ 10 ^ 18 }
    ensures { result ≡ pos (unsigned_abs dt + since) }
{
    i128::from(dt.unsigned_abs()) + i128::from(since)
}

// By how much the offset moved, in the units of a rate.
fn moved(drift: i64) -> i128
    ensures { result ≡ pos (unsigned_abs drift * 10 ^ 12) }
{
    (u128::from(drift.unsigned_abs()) * RATE_UNIT) as i128
}

// By how much it may move in a time, in the units of a rate.
fn may_move(rate: u64, dt: i64) -> i128
    requires { rate ≤ 10 ^ 9 }
    ensures { result ≡ pos (rate * unsigned_abs dt) }
{
    (u128::from(rate) * u128::from(dt.unsigned_abs())) as i128
}

// By how much it may move in an exchange, in tau.
fn move_limit(rate: u64, span: i64) -> i128
    requires { rate ≤ 10 ^ 9 }
    ensures { result ≡ pos (moves_within rate (unsigned_abs span)) }
{
    moves_within(rate, u128::from(span.unsigned_abs())) as i128
}

// The errors of two stamps.
fn two_errors(err: u64) -> i128
    requires { err ≤ 10 ^ 9 }
    ensures { result ≡ pos (2 * err) }
{
    (2 * u128::from(err)) as i128
}

// How far an offset is from another one.
fn distance(a: i128, b: i128) -> i128
    requires a { unsigned_abs a ≤ 2 ^ 94 }
    requires b { unsigned_abs b ≤ 2 ^ 94 }
    ensures { result ≡ pos (unsigned_abs (a -ℤ b)) }
{
    size(difference(a, b))
}

// How large a number is, either sign.
fn size(a: i128) -> i128
    requires { unsigned_abs a ≤ 2 ^ 126 }
    ensures { result ≡ pos (unsigned_abs a) }
{
    a.unsigned_abs() as i128
}

// What the stamps of the way down are off by.
fn down_error(t: &[i64; 4], dms: i64, o2: i128) -> i128
    requires t { AreStamps t.now }
    requires o2 { unsigned_abs o2 ≤ 2 ^ 94 }
    ensures value { result ≡ down_error t.now dms o2 }
    ensures small { unsigned_abs result ≤ 2 ^ 125 }
{
    difference(way_error(t[0], t[1], dms), o2)
}

// What the stamps of the way up are off by.
fn up_error(t: &[i64; 4], dsm: i64, o3: i128) -> i128
    requires t { AreStamps t.now }
    requires o3 { unsigned_abs o3 ≤ 2 ^ 94 }
    ensures value { result ≡ up_error t.now dsm o3 }
    ensures small { unsigned_abs result ≤ 2 ^ 125 }
{
    sum(way_error(t[2], t[3], dsm), o3)
}

// By how much a way measured more than its delay.
fn way_error(first: i64, second: i64, delay: i64) -> i128
    requires first { unsigned_abs first ≤ 2 ^ 61 }
    requires second { unsigned_abs second ≤ 2 ^ 61 }
    ensures value { result ≡ (second -ℤ first) -ℤ delay }
    ensures small { unsigned_abs result ≤ 2 ^ 65 }
{
    difference(apart(first, second), delay.into())
}
