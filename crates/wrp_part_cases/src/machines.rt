//! A machine that takes numbers, one after the other, and forgets them at a restart. Each line of a case's input is
//! `push N` or `restart`, and what the machine answers to each number is expected.
use crate::words::{Words, input_of};
use std::alloc::Global;
use wrp_suite::{Answer, Case, Fault};

/// A machine that takes numbers.
pub trait Machine {
    /// Takes a number.
    fn push(&mut self, number: i64) -> Result<i64, Fault>;

    /// Forgets the numbers.
    fn restart(&mut self);
}

// Appends what a line gives.
fn tell<M: Machine>(text: &mut String, machine: &mut M, line: &str) -> Result<(), Fault> {
    let mut words = Words::of(line);
    match words.word()? {
        "push" => {
            let answer = machine.push(words.number::<i64>()?)?;
            words.end()?;
            write!(text, "{answer}\n").map_err(Fault::from)
        }
        "restart" => {
            words.end()?;
            machine.restart();
            Ok(())
        }
        _ => Err(Fault::Input),
    }
}

/// What a machine answers.
pub fn answer_of<M: Machine>(alloc: Global, machine: &mut M, case: &Case) -> Result<Answer, Fault> {
    let input = input_of(case)?;
    let mut text = String::new(alloc);
    for line in input.split_terminator('\n') {
        tell(&mut text, machine, line)?;
    }
    Ok(Answer::of(0, text))
}
