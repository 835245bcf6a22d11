//! A machine that takes lines, one after the other. Each line of a case's input after the lines that make the machine
//! is one, and what the machine answers to each is expected.
use crate::words::words_of;
use std::alloc::Global;
use wrp_suite::{Answer, Fault};

/// A machine that takes lines.
pub trait Machine {
    /// Takes the words of a line, and appends what it answers.
    fn take(&mut self, text: &mut String, words: &[&str]) -> Result<(), Fault>;
}

/// Gives lines to a machine, and appends what it answers to each.
pub fn take_all<M: Machine>(
    alloc: Global,
    text: &mut String,
    machine: &mut M,
    lines: &str,
) -> Result<(), Fault> {
    for line in lines.split_terminator('\n') {
        machine.take(text, &words_of(alloc, line)?)?;
    }
    Ok(())
}

/// What a machine answers to lines.
pub fn answer_of<M: Machine>(alloc: Global, machine: &mut M, lines: &str) -> Result<Answer, Fault> {
    let mut text = String::new(alloc);
    take_all(alloc, &mut text, machine, lines)?;
    Ok(Answer::of(0, text))
}
