//! `exchange`: the word is how many samples the exchange knows, and each line of the input is a call:
//!
//!     start N · clear · reset                   the chain
//!     sample N U                                a good sample, and the unwrapped phase at it
//!     sync SEQ CORRECTION T2 SAMPLE TICK        a Sync
//!     follow_up SEQ PRECISE                     a Follow_Up
//!     req_out SEQ                               a Delay_Req
//!     req_sent SEQ T3 SAMPLE TICK               the sending of a Delay_Req
//!     resp SEQ T4                               a Delay_Resp
//!
//! For each piece `kept` or `not kept` is expected, and after each call that changes it the matched
//! four: `four T1 T2 T3 T4 U2 U3 TICK`, or `four none`. At first there is none.
ghost use Rattle.std.specs.Prelude.{◌^◌, ◌<◌, unsigned_abs, IfOk};

use crate::words::{Words, input_of, number_of, only_word};
use std::alloc::{AllocError, Global};
use wrp_base::{Four, Stamp, Tau};
use wrp_exch::Exchange;
use wrp_suite::{Answer, Case, Fault};

// The exchange that a word gives.
fn exchange_of(alloc: Global, word: &str) -> Result<Exchange, Fault> {
    let ring = number_of::<usize>(word)?;
    if ring < 1 || 4096 < ring {
        return Err(Fault::Condition);
    }
    Ok(Exchange::new(alloc, ring)?)
}

// A time that an exchange takes: below `2^104` tau on either side.
fn time_of(words: &mut Words<'_>) -> Result<Tau, Fault>
    ensures { IfOk result (λ time. unsigned_abs time < 2 ^ 104) }
{
    let time = words.number::<i128>()?;
    if time.unsigned_abs() < 1 << 104 {
        Ok(time)
    } else {
        Err(Fault::Condition)
    }
}

// A stamp: its time and its sample.
fn stamp_of(words: &mut Words<'_>) -> Result<Stamp, Fault>
    ensures { IfOk result (λ stamp. unsigned_abs stamp.value < 2 ^ 104) }
{
    let value = time_of(words)?;
    let sample = words.number::<u32>()?;
    Ok(Stamp { value, sample })
}

// A Sync.
fn sync(exchange: &mut Exchange, words: &mut Words<'_>) -> Result<bool, Fault> {
    let (seq, correction) = words.pair::<u16, i64>()?;
    let stamp = stamp_of(words)?;
    let tick = words.number::<u32>()?;
    Ok(exchange.sync(seq, correction, stamp, tick))
}

// The sending of a Delay_Req.
fn req_sent(exchange: &mut Exchange, words: &mut Words<'_>) -> Result<bool, Fault> {
    let seq = words.number::<u16>()?;
    let stamp = stamp_of(words)?;
    let tick = words.number::<u32>()?;
    Ok(exchange.req_sent(seq, stamp, tick))
}

// A Follow_Up.
fn follow_up(exchange: &mut Exchange, words: &mut Words<'_>) -> Result<bool, Fault> {
    let seq = words.number::<u16>()?;
    let precise = time_of(words)?;
    Ok(exchange.follow_up(seq, precise))
}

// A Delay_Resp.
fn resp(exchange: &mut Exchange, words: &mut Words<'_>) -> Result<bool, Fault> {
    let seq = words.number::<u16>()?;
    let t4 = time_of(words)?;
    Ok(exchange.resp(seq, t4))
}

// A piece: whether it was kept.
fn piece(exchange: &mut Exchange, name: &str, words: &mut Words<'_>) -> Result<bool, Fault> {
    match name {
        "sync" => sync(exchange, words),
        "follow_up" => follow_up(exchange, words),
        "req_sent" => req_sent(exchange, words),
        "resp" => resp(exchange, words),
        _ => Err(Fault::Input),
    }
}

// A good sample.
fn sample(exchange: &mut Exchange, words: &mut Words<'_>) -> Result<(), Fault> {
    let (number, phase) = words.pair::<u32, i64>()?;
    exchange.sample(number, phase);
    Ok(())
}

// Makes the call of a line. Returns whether its piece was kept, if it is one.
fn make(exchange: &mut Exchange, line: &str) -> Result<Option<bool>, Fault> {
    let mut words = Words::of(line);
    let mut kept = None;
    match words.word()? {
        "start" => exchange.start(words.number::<u32>()?),
        "clear" => exchange.clear(),
        "reset" => exchange.reset(),
        "sample" => sample(exchange, &mut words)?,
        "req_out" => exchange.req_out(words.number::<u16>()?),
        name => kept = Some(piece(exchange, name, &mut words)?),
    }
    words.end()?;
    Ok(kept)
}

// What is printed of a call: whether its piece was kept, if it is one.
fn kept_text(kept: Option<bool>) -> &'static str {
    match kept {
        Some(true) => "kept\n",
        Some(false) => "not kept\n",
        None => "",
    }
}

// Appends the line of the matched four, or of their absence.
fn push_four(text: &mut String, four: Option<Four>) -> Result<(), AllocError> {
    let Some(four) = four else {
        return text.push_str("four none\n");
    };
    let Four {
        t1,
        t2,
        t3,
        t4,
        u2,
        u3,
        tick,
    } = four;
    write!(text, "four {t1} {t2} {t3} {t4} {u2} {u3} {tick}\n")
}

// Makes the call of a line, and appends what it did.
fn tell(text: &mut String, exchange: &mut Exchange, line: &str) -> Result<(), Fault> {
    let before = exchange.four();
    text.push_str(kept_text(make(exchange, line)?))?;
    let after = exchange.four();
    if before != after {
        push_four(text, after)?;
    }
    Ok(())
}

/// What an `Exchange` answers.
pub fn answer(alloc: Global, case: &Case) -> Result<Answer, Fault> {
    let mut exchange = exchange_of(alloc, only_word(case)?)?;
    let input = input_of(case)?;
    let mut text = String::new(alloc);
    for line in input.split_terminator('\n') {
        tell(&mut text, &mut exchange, line)?;
    }
    Ok(Answer::of(0, text))
}
