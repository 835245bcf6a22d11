//! Cases on `L1Pair`: the input is a line `timing TIMEOUT INTERVAL DMAX LIFE`, and then a line for each event:
//! `pass DT`, `tick END`, `enable END`, `disable END`, `own END REQ IS` or `deliver END K`, where END is `a` or `b`. A
//! line is expected for each: what the end answers, as of an `L1Port` except for the state, or
//! `broken PREMISE SHOWN BOUND` and then `text` with the error's own text. At the end come `a STATE ticks N`, the same
//! of `b`, and `last K`, the number of the newest message.
ghost use Rattle.std.specs.Prelude.{◌≤◌, IfOk};
ghost use Rattle.wrp_l1sync.specs.Pair.{IsFit};

use crate::l1_port::{message_of, push_out, ticks_of, word_of};
use crate::machines::{Machine, take_all};
use crate::words::{first_line, from_to, natural, text_of, words_of};
use std::alloc::{AllocError, Global};
use wrp_l1sync::{L1Event, L1Out, L1Pair, L1Refused};
use wrp_suite::{Answer, Case, Fault};

// A pair with the times of a line.
fn pair_of(alloc: Global, words: &[&str]) -> Result<L1Pair, Fault> {
    let ["timing", timeout, interval, dmax, life] = *words else {
        return Err(Fault::Input);
    };
    let timeout = ticks_of(timeout)?;
    let interval = ticks_of(interval)?;
    let dmax = from_to(dmax, 1, i64::MAX)?;
    let life = from_to(life, 0, i64::MAX)?;
    Ok(L1Pair::new(alloc, timeout, interval, dmax, life))
}

// The number of an end.
fn end_of(word: &str) -> Result<u8, Fault>
    ensures { IfOk result (λ n. n ≤ 1) }
{
    match word {
        "a" => Ok(0),
        "b" => Ok(1),
        _ => Err(Fault::Input),
    }
}

// The number of a message.
fn number_of(word: &str) -> Result<u32, Fault> {
    Ok(natural(word, 0, 4_294_967_295)? as u32)
}

// The event of a line.
fn event_of(words: &[&str]) -> Result<L1Event, Fault>
    ensures { IfOk result IsFit }
{
    match *words {
        ["pass", dt] => Ok(L1Event::Pass {
            dt: from_to(dt, 1, i64::MAX)?,
        }),
        ["tick", end] => Ok(L1Event::Tick { end: end_of(end)? }),
        ["enable", end] => Ok(L1Event::Enable { end: end_of(end)? }),
        ["disable", end] => Ok(L1Event::Disable { end: end_of(end)? }),
        ["own", end, req, is] => Ok(L1Event::Own {
            end: end_of(end)?,
            msg: message_of(req, is)?,
        }),
        ["deliver", end, k] => Ok(L1Event::Deliver {
            end: end_of(end)?,
            k: number_of(k)?,
        }),
        _ => Err(Fault::Input),
    }
}

// Appends the line of what an end answers.
fn tell_out(text: &mut String, out: &L1Out) -> Result<(), AllocError> {
    push_out(text, out)?;
    text.push('\n')
}

// Appends the lines of a refused event: its numbers, and its text.
fn tell_refused(text: &mut String, refused: &L1Refused) -> Result<(), Fault> {
    match refused {
        L1Refused::Broken {
            premise,
            shown,
            bound,
        } => write!(text, "broken {premise} {shown} {bound}\ntext {refused}\n").map_err(
            Fault::from,
        ),
        L1Refused::Memory(_) => Err(Fault::Memory),
    }
}

// Gives the pair an event, and appends the lines of that.
fn step(text: &mut String, pair: &mut L1Pair, event: &L1Event) -> Result<(), Fault>
    requires { IsFit event.now }
{
    if pair.events() == u32::MAX {
        return Err(Fault::Condition);
    }
    match pair.step(event) {
        Ok(out) => tell_out(text, &out).map_err(Fault::from),
        Err(refused) => tell_refused(text, &refused),
    }
}

// Appends the lines of both ends, and of the newest message.
fn tell_ends(text: &mut String, pair: &L1Pair) -> Result<(), AllocError> {
    let (a, b) = (word_of(pair.state(0)), word_of(pair.state(1)));
    let (a_ticks, b_ticks, last) = (pair.ticks(0), pair.ticks(1), pair.last());
    write!(
        text,
        "a {a} ticks {a_ticks}\nb {b} ticks {b_ticks}\nlast {last}\n"
    )
}

impl Machine for L1Pair {
    // Takes the event of a line.
    fn take(&mut self, text: &mut String, words: &[&str]) -> Result<(), Fault> {
        step(text, self, &event_of(words)?)
    }
}

// Gives the pair events, and appends what it answers to them, and at the end.
fn tell_all(
    alloc: Global,
    text: &mut String,
    pair: &mut L1Pair,
    events: &str,
) -> Result<(), Fault> {
    take_all(alloc, text, pair, events)?;
    tell_ends(text, pair).map_err(Fault::from)
}

/// What a pair answers, event by event.
pub fn answer(alloc: Global, case: &Case) -> Result<Answer, Fault> {
    let (first, events) = first_line(text_of(case)?);
    let mut pair = pair_of(alloc, &words_of(alloc, first)?)?;
    let mut text = String::new(alloc);
    tell_all(alloc, &mut text, &mut pair, events)?;
    Ok(Answer::of(0, text))
}
