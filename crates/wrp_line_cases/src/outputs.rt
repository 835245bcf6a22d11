//! Cases on the lines that a run writes: each line after `---` is something of the node that the word names, and the
//! line that is written of it is expected.
//!
//!     TICK send PORT HEX, TICK step CYCLES, TICK dac VALUE         what it puts out at a tick
//!     TICK link PORT WORD, TICK servo STATE, TICK track EST        what it reports at a tick
//!     TICK .. true OFF                                             the same, if the true offset is known
//!     count PORT REASON VALUE                                      a counter; the reason is a number
//!     sum TICKS TRACKS WORST BOUND STATE                           what sums up its run
ghost use Rattle.std.specs.Prelude.{◌<◌};
ghost use Rattle.wrp_network.specs.Network.{node_count};
ghost use Rattle.wrp_config.specs.Accepted.{IsAccepted};

use crate::octets::frame_of;
use crate::parts::{halves, network_of, node_of};
use crate::words::{link_word, servo_state};
use std::alloc::{AllocError, Global};
use wrp_base::Tau;
use wrp_config::Network;
use wrp_lines::{Sum, append_sum_line, count_line, output_line};
use wrp_node::{Output, Report};
use wrp_suite::{Answer, Case, Fault};

// A frame that is sent.
fn send_of(alloc: Global, port: &str, digits: &str) -> Result<Output, Fault> {
    let port = port.parse::<u16>().ok().ok_or(Fault::Input)?;
    let frame = frame_of(alloc, digits)?;
    Ok(Output::Send { port, frame })
}

// A report.
fn report_of(words: &[&str]) -> Option<Report> {
    match words {
        ["link", port, word] => Some(Report::Link {
            port: port.parse::<u16>().ok()?,
            word: link_word(word)?,
        }),
        ["servo", state] => Some(Report::Servo(servo_state(state)?)),
        ["track", est] => Some(Report::Track {
            est: est.parse::<Tau>().ok()?,
        }),
        _ => None,
    }
}

// A command to the clock, or a report.
fn told_of(words: &[&str]) -> Option<Output> {
    match words {
        ["step", cycles] => Some(Output::Step {
            cycles: cycles.parse::<i64>().ok()?,
        }),
        ["dac", value] => Some(Output::Dac {
            value: value.parse::<u16>().ok()?,
        }),
        _ => Some(Output::Report(report_of(words)?)),
    }
}

// What a node puts out.
fn output_of(alloc: Global, words: &[&str]) -> Result<Output, Fault> {
    match words {
        ["send", port, digits] => send_of(alloc, port, digits),
        _ => told_of(words).ok_or(Fault::Input),
    }
}

// An output, and the true offset if it is known.
fn split_truth(said: &str) -> Result<(&str, Option<Tau>), Fault> {
    match said.split_once(" true ") {
        Some((said, truth)) => Ok((said, Some(truth.parse::<Tau>().ok().ok_or(Fault::Input)?))),
        None => Ok((said, None)),
    }
}

// The line of an output at a tick.
fn line_of_output(alloc: Global, net: &Network, node: u8, said: &str) -> Result<Vec<u8>, Fault>
    requires accepted { IsAccepted net.now.cfg net.now.db }
    requires node { node < node_count net.now.cfg }
{
    let (said, truth) = split_truth(said)?;
    let (tick, said) = said.split_once(' ').ok_or(Fault::Input)?;
    let tick = tick.parse::<u32>().ok().ok_or(Fault::Input)?;
    let output = output_of(alloc, &words_of(alloc, said)?)?;
    Ok(output_line(alloc, net, node, tick, &output, truth)?)
}

// A counter at a port.
#[derive(Clone, Copy, Debug, PartialEq, Eq)]
struct Count {
    port: u16,
    reason: u8,
    value: u32,
}

// The line of a counter.
fn line_of_count(alloc: Global, net: &Network, node: u8, count: &Count) -> Result<Vec<u8>, Fault>
    requires node { node < node_count net.now.cfg }
{
    let (port, reason, value) = (count.port, count.reason, count.value);
    if reason < 1 || reason > 15 {
        return Err(Fault::Condition);
    }
    Ok(count_line(alloc, net, node, port, reason, value)?)
}

// The counter of these words.
fn count_of(words: &[&str]) -> Option<Count> {
    match words {
        [port, reason, value] => Some(Count {
            port: port.parse::<u16>().ok()?,
            reason: reason.parse::<u8>().ok()?,
            value: value.parse::<u32>().ok()?,
        }),
        _ => None,
    }
}

// What sums up a run.
fn sum_of(words: &[&str]) -> Option<Sum> {
    match words {
        [ticks, tracks, worst, bound, state] => Some(Sum {
            ticks: ticks.parse::<u32>().ok()?,
            tracks: tracks.parse::<u64>().ok()?,
            worst: worst.parse::<u128>().ok()?,
            bound: bound.parse::<Tau>().ok()?,
            state: servo_state(state)?,
        }),
        _ => None,
    }
}

// The line that sums up a run.
fn line_of_sum(alloc: Global, name: &str, sum: Sum) -> Result<Vec<u8>, AllocError> {
    let mut line = Vec::new(alloc);
    append_sum_line(name, sum, &mut line)?;
    Ok(line)
}

// The words of a line.
fn words_of(alloc: Global, line: &str) -> Result<Vec<&str>, AllocError> {
    let mut words = Vec::new(alloc);
    for word in line.split(' ') {
        words.push(word)?;
    }
    Ok(words)
}

// The line that is written.
fn line_of(alloc: Global, net: &Network, node: u8, said: &str) -> Result<Vec<u8>, Fault>
    requires accepted { IsAccepted net.now.cfg net.now.db }
    requires node { node < node_count net.now.cfg }
{
    if let Some(said) = said.strip_prefix("count ") {
        let count = count_of(&words_of(alloc, said)?).ok_or(Fault::Input)?;
        return line_of_count(alloc, net, node, &count);
    }
    if let Some(said) = said.strip_prefix("sum ") {
        let sum = sum_of(&words_of(alloc, said)?).ok_or(Fault::Input)?;
        let name = net.cfg.nodes[usize::from(node)].name.as_str();
        return Ok(line_of_sum(alloc, name, sum)?);
    }
    line_of_output(alloc, net, node, said)
}

// The lines that are written.
fn lines_of(alloc: Global, net: &Network, name: &str, lines: &str) -> Result<Vec<u8>, Fault>
    requires accepted { IsAccepted net.now.cfg net.now.db }
{
    let node = node_of(net, name)?;
    if usize::from(node) >= net.cfg.nodes.len() {
        return Err(Fault::Condition);
    }
    let mut octets = Vec::new(alloc);
    for said in lines.split_terminator('\n') {
        let line = line_of(alloc, net, node, said)?;
        octets.extend_from_slice(&line)?;
    }
    Ok(octets)
}

/// What the calls answer that make lines.
pub fn answer(alloc: Global, case: &Case) -> Result<Answer, Fault> {
    let [name] = case.words.as_slice() else {
        return Err(Fault::Input);
    };
    let (text, lines) = halves(&case.input)?;
    let net = network_of(alloc, text)?;
    let octets = lines_of(alloc, &net, name.as_str(), lines)?;
    Ok(Answer { status: 0, octets })
}
