//! What a servo answers, in lines:
//!
//!     step CYCLES                   the clock is to be stepped
//!     dac VALUE                     a value of the DAC
//!     phase PHASE                   the unwrapped phase
//!     chain started N | chain ended
//!     drop REASON                   a sample or a measurement is refused
//!
//! and its state, in one line: `servo STATE DETECTOR OFFSET DAC TRACKING`, where DETECTOR is `locked` or `open`,
//! OFFSET is `-` if there is no four, and TRACKING is `tracking` if the state is TRACK, else `-`.
use crate::names::{name_of_reason, name_of_servo};
use crate::told::Told;
use std::alloc::{AllocError, Global};
use wrp_base::{ChainNews, Tau};
use wrp_servo::{Servo, ServoOut};

// Appends the lines of a good sample.
fn tell_sample(alloc: Global, out: &ServoOut, told: &mut Told) -> Result<(), AllocError> {
    if let Some(value) = out.dac {
        let line = format!(in alloc; "dac {value}")?;
        told.push(line.as_str())?;
    }
    if let Some(phase) = out.unwrapped {
        let line = format!(in alloc; "phase {phase}")?;
        told.push(line.as_str())?;
    }
    Ok(())
}

/// Appends the lines of an answer.
pub fn tell(alloc: Global, out: &ServoOut, told: &mut Told) -> Result<(), AllocError> {
    let cycles = out.cycles;
    if cycles != 0 {
        let line = format!(in alloc; "step {cycles}")?;
        told.push(line.as_str())?;
    }
    tell_sample(alloc, out, told)?;
    match out.chain {
        ChainNews::Same => {}
        ChainNews::Started(n) => {
            let line = format!(in alloc; "chain started {n}")?;
            told.push(line.as_str())?;
        }
        ChainNews::Ended => told.push("chain ended")?,
    }
    if let Some(reason) = out.refused {
        let reason = name_of_reason(reason);
        let line = format!(in alloc; "drop {reason}")?;
        told.push(line.as_str())?;
    }
    told.end()
}

// The offset by the kept four.
fn text_of_offset(alloc: Global, offset: Option<Tau>) -> Result<String, AllocError> {
    match offset {
        Some(offset) => format!(in alloc; "{offset}"),
        None => "-".to_string(alloc),
    }
}

// One of two words.
fn word_by(is: bool, yes: &'static str, no: &'static str) -> &'static str {
    if is { yes } else { no }
}

/// Appends the line of the servo's state.
pub fn tell_state<F: Fn(i64) -> i64>(
    alloc: Global,
    servo: &Servo<F>,
    told: &mut Told,
) -> Result<(), AllocError> {
    let state = name_of_servo(servo.state());
    let detector = word_by(servo.locked(), "locked", "open");
    let offset = text_of_offset(alloc, servo.est())?;
    let dac = servo.dac();
    let tracking = word_by(servo.tracking(), "tracking", "-");
    let line = format!(in alloc; "servo {state} {detector} {offset} {dac} {tracking}")?;
    told.push(line.as_str())?;
    told.end()
}
