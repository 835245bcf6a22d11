//! What a node puts out, in the lines of `replay` without node and tick; a `track` line ends with the offset.
ghost use Rattle.std.specs.Prelude.{◌≡◌, true, IsTrue};
ghost use Rattle.wrp_node.specs.Parts.{is_among};

use crate::names::{name_of_reason, name_of_servo, name_of_word};
use crate::told::Told;
use std::alloc::{AllocError, Global};
use wrp_node::{Input, Node, Output, Outputs, Report};

// The line of a report.
fn line_of_report(alloc: Global, report: &Report) -> Result<String, AllocError> {
    match *report {
        Report::Link { port, word } => {
            let word = name_of_word(word);
            format!(in alloc; "link {port} {word}")
        }
        Report::Servo(state) => {
            let state = name_of_servo(state);
            format!(in alloc; "servo {state}")
        }
        Report::Track { est } => format!(in alloc; "track {est}"),
    }
}

// The line of an output.
fn line_of(alloc: Global, output: &Output) -> Result<String, AllocError> {
    match output {
        Output::Send { port, frame } => {
            let octets = hex::encode(alloc, frame.as_slice())?;
            format!(in alloc; "send {port} {octets}")
        }
        Output::Step { cycles } => format!(in alloc; "step {cycles}"),
        Output::Dac { value } => format!(in alloc; "dac {value}"),
        Output::Report(report) => line_of_report(alloc, report),
    }
}

/// Appends the lines of the outputs of one input.
pub fn tell(alloc: Global, outs: &Outputs, told: &mut Told) -> Result<(), AllocError> {
    for output in outs.as_slice() {
        let line = line_of(alloc, output)?;
        told.push(line.as_str())?;
    }
    told.end()
}

// Whether a node has a port.
fn has_port<F: Fn(i64) -> i64>(node: &Node<F>, port: u16) -> bool
    ensures { IsTrue result → is_among port node.now.parts.ports ≡ true }
{
    node.fits(&Input::Carrier {
        port,
        up: false,
        module: None,
    })
}

// Appends the lines of the counters of a port that are not 0.
fn tell_port<F: Fn(i64) -> i64>(
    alloc: Global,
    node: &Node<F>,
    port: u16,
    told: &mut Told,
) -> Result<(), AllocError>
    requires { is_among port node.now.parts.ports ≡ true }
{
    for number in 1..=15u8 {
        let count = node.count(port, number);
        if count > 0 {
            let reason = name_of_reason(number);
            let line = format!(in alloc; "count {port} {reason} {count}")?;
            told.push(line.as_str())?;
            told.end()?;
        }
    }
    Ok(())
}

/// Appends the lines of the counters of a node that are not 0, by port and reason.
pub fn tell_counts<F: Fn(i64) -> i64>(
    alloc: Global,
    node: &Node<F>,
    told: &mut Told,
) -> Result<(), AllocError> {
    for port in 1..=18u16 {
        if has_port(node, port) {
            tell_port(alloc, node, port, told)?;
        }
    }
    Ok(())
}
