//! The lines that `l1sync` writes.
ghost use Rattle.std.specs.Prelude.{◌≡◌, ◌≤◌, ◌++◌, ◌∷◌, IfOk, List, length};
ghost use Rattle.std.specs.String.{string_bytes};
ghost use Rattle.wrp_l1sync.specs.declared.event.L1Event.{L1Event};
ghost use Rattle.wrp_l1sync.specs.LineText.{end_word, state_word, send_line, state_line, send_text, state_text, out_text, end_of_event, text_at, premise_name, breach_line};
ghost use Rattle.wrp_l1sync.specs.Pair.{IsFit, StandsFor, history, side_of};

use crate::event::Side;
use crate::{L1Event, L1Msg, L1Out, L1Pair, L1State};
use std::alloc::{AllocError, Global};
use wrp_base::Tau;
use wrp_records::append_broken_words;

// The word of an end.
fn end_word(side: Side) -> &'static str
    ensures { result.now ≡ end_word side }
{
    match side {
        Side::A => "a",
        Side::B => "b",
    }
}

// The word of a state.
fn state_word(state: L1State) -> &'static str
    ensures { result.now ≡ state_word state }
{
    match state {
        L1State::Disabled => "disabled",
        L1State::Idle => "idle",
        L1State::LinkAlive => "link-alive",
        L1State::ConfigMatch => "config-match",
        L1State::Up => "up",
    }
}

// The line of a message that an end sends.
fn send_line(
    alloc: Global,
    side: Side,
    tick: u32,
    number: u32,
    message: L1Msg,
) -> Result<String, AllocError>
    ensures { IfOk result (λ line. string_bytes line ≡ send_line side tick number message) }
{
    let end = end_word(side);
    let L1Msg { req, is } = message;
    format!(in alloc; "{end} {tick} send {number} {req} {is}\n")
}

// The line of a state that an end moves to.
fn state_line(alloc: Global, side: Side, tick: u32, state: L1State) -> Result<String, AllocError>
    ensures { IfOk result (λ line. string_bytes line ≡ state_line side tick state) }
{
    let end = end_word(side);
    let word = state_word(state);
    format!(in alloc; "{end} {tick} {word}\n")
}

// Appends the line of a message that an end sends, if it does.
fn append_send(
    alloc: Global,
    side: Side,
    tick: u32,
    number: u32,
    send: Option<L1Msg>,
    text: &mut Vec<u8>,
) -> Result<(), AllocError>
    ensures { IfOk result (λ _. text.new.items ≡ text.old.items ++ send_text side tick number send) }
{
    match send {
        Some(message) => {
            let line = send_line(alloc, side, tick, number, message)?;
            text.extend_from_slice(line.as_bytes())
        }
        None => Ok(()),
    }
}

// Appends the line of a state that an end moves to, if it does.
fn append_state(
    alloc: Global,
    side: Side,
    tick: u32,
    moved: Option<L1State>,
    text: &mut Vec<u8>,
) -> Result<(), AllocError>
    ensures { IfOk result (λ _. text.new.items ≡ text.old.items ++ state_text side tick moved) }
{
    match moved {
        Some(state) => {
            let line = state_line(alloc, side, tick, state)?;
            text.extend_from_slice(line.as_bytes())
        }
        None => Ok(()),
    }
}

// Appends the lines of what an end answers.
fn append_out(
    alloc: Global,
    side: Side,
    tick: u32,
    number: u32,
    out: &L1Out,
    text: &mut Vec<u8>,
) -> Result<(), AllocError>
    ensures { IfOk result (λ _. text.new.items
        ≡ text.old.items ++ out_text side tick number out.now) }
{
    append_send(alloc, side, tick, number, out.send, text)?;
    append_state(alloc, side, tick, out.moved, text)
}

// The end that an event is of.
fn end_of_event(event: &L1Event) -> Option<u8>
    ensures { result ≡ end_of_event event.now }
{
    match *event {
        L1Event::Pass { .. } => None,
        L1Event::Tick { end }
        | L1Event::Enable { end }
        | L1Event::Disable { end }
        | L1Event::Own { end, .. }
        | L1Event::Deliver { end, .. } => Some(end),
    }
}

// Appends the lines of what an end of a pair answered to the last event.
fn append_at(
    alloc: Global,
    pair: &L1Pair,
    end: u8,
    out: &L1Out,
    text: &mut Vec<u8>,
) -> Result<(), AllocError>
    requires { end ≤ 1 }
    ensures { (events : List L1Event) → StandsFor pair.now events → IfOk result (λ _. text.new.items
        ≡ text.old.items ++ text_at (Some end) (history pair.now.limits.interval events) out.now) }
{
    append_out(
        alloc,
        Side::of(end),
        pair.ticks(end),
        pair.last(),
        out,
        text,
    )
}

/// Appends the lines of what a pair answered to its last event. `AllocError` if memory runs out: then
/// nothing is known of `text`.
pub fn append_event(
    alloc: Global,
    pair: &L1Pair,
    event: &L1Event,
    out: &L1Out,
    text: &mut Vec<u8>,
) -> Result<(), AllocError>
    requires { IsFit event.now }
    ensures { (events : List L1Event) → StandsFor pair.now events → IfOk result (λ _. text.new.items
        ≡ text.old.items
        ++ text_at (end_of_event event.now) (history pair.now.limits.interval events) out.now) }
{
    match end_of_event(event) {
        Some(end) => append_at(alloc, pair, end, out, text),
        None => Ok(()),
    }
}

// The name of a premise, by its number.
#[tactic(auto, unfolding(crate::specs::LineText::premise_name))]
fn premise_name(premise: u8) -> &'static str
    ensures { result.now ≡ premise_name premise }
{
    match premise {
        1 => "TickLate",
        2 => "NotSent",
        3 => "TooOld",
        _ => "",
    }
}

/// Appends the line of a record that breaks a premise. `AllocError` if memory runs out: then nothing is
/// known of `text`.
pub fn append_breach(
    alloc: Global,
    number: u32,
    premise: u8,
    shown: Tau,
    bound: Tau,
    text: &mut Vec<u8>,
) -> Result<(), AllocError>
    ensures { IfOk result (λ _. text.new.items ≡ text.old.items
        ++ breach_line number (record { premise = premise; shown = shown; bound = bound })) }
{
    let name = premise_name(premise);
    append_broken_words(alloc, text, number, premise, name, shown, bound)
}
