//! Cases on `L1Port`: the input is a line `timing TIMEOUT INTERVAL`, and then a line for each input: `enable`,
//! `disable`, `own REQ IS`, `msg REQ IS` or `tick`. A line is expected for each: the state if it changed, else `-`;
//! `send req REQ is IS` if a message is sent; and `state STATE`.
ghost use Rattle.std.specs.Prelude.{◌≤◌, IfOk};

use crate::machines::{Machine, answer_of};
use crate::words::{first_line, natural, text_of, words_of};
use std::alloc::{AllocError, Global};
use wrp_l1sync::{L1In, L1Msg, L1Out, L1Port, L1State};
use wrp_suite::{Answer, Case, Fault};

/// The word of a state.
pub fn word_of(state: L1State) -> &'static str {
    match state {
        L1State::Disabled => "disabled",
        L1State::Idle => "idle",
        L1State::LinkAlive => "link-alive",
        L1State::ConfigMatch => "config-match",
        L1State::Up => "up",
    }
}

/// Appends what an end answers, without the end of the line.
pub fn push_out(text: &mut String, out: &L1Out) -> Result<(), AllocError> {
    let moved = match out.moved {
        Some(state) => word_of(state),
        None => "-",
    };
    match out.send {
        Some(L1Msg { req, is }) => write!(text, "{moved} send req {req} is {is}"),
        None => text.push_str(moved),
    }
}

/// The ticks of a timeout, or of an interval.
pub fn ticks_of(word: &str) -> Result<u32, Fault>
    ensures least { IfOk result (λ n. 1 ≤ n) }
    ensures greatest { IfOk result (λ n. n ≤ 1_000_000) }
{
    Ok(natural(word, 1, 1_000_000)? as u32)
}

/// A message.
pub fn message_of(req: &str, is: &str) -> Result<L1Msg, Fault> {
    let req = natural(req, 0, 7)? as u8;
    let is = natural(is, 0, 7)? as u8;
    Ok(L1Msg { req, is })
}

// A port with the times of a line.
fn port_of(words: &[&str]) -> Result<L1Port, Fault> {
    match *words {
        ["timing", timeout, interval] => Ok(L1Port::new(ticks_of(timeout)?, ticks_of(interval)?)),
        _ => Err(Fault::Input),
    }
}

// The input of a line.
fn input_of(words: &[&str]) -> Result<L1In, Fault> {
    match *words {
        ["enable"] => Ok(L1In::Enable),
        ["disable"] => Ok(L1In::Disable),
        ["own", req, is] => message_of(req, is).map(L1In::Own),
        ["msg", req, is] => message_of(req, is).map(L1In::Msg),
        ["tick"] => Ok(L1In::Tick),
        _ => Err(Fault::Input),
    }
}

// Gives a port an input, and appends the line of that.
fn step(text: &mut String, port: &mut L1Port, input: L1In) -> Result<(), AllocError> {
    push_out(text, &port.step(input))?;
    let state = word_of(port.state());
    write!(text, " state {state}\n")
}

impl Machine for L1Port {
    // Takes the input of a line.
    fn take(&mut self, text: &mut String, words: &[&str]) -> Result<(), Fault> {
        let input = input_of(words)?;
        step(text, self, input).map_err(Fault::from)
    }
}

/// What one end answers, input by input.
pub fn answer(alloc: Global, case: &Case) -> Result<Answer, Fault> {
    let (first, inputs) = first_line(text_of(case)?);
    let mut port = port_of(&words_of(alloc, first)?)?;
    answer_of(alloc, &mut port, inputs)
}
