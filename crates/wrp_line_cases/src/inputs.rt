//! Cases on `read_input` and `input_line`: the lines after `---` are said to the node that the first word names. For
//! each, what it says is expected, and then the line that this is printed as; or why it is refused. If the second word
//! is `whole`, everything after `---` is one line.
ghost use Rattle.wrp_config.specs.Accepted.{IsAccepted};
ghost use Rattle.wrp_trace.specs.InputAt.{IsInputAt};
ghost use Rattle.wrp_trace.specs.LineSetting.{line_setting_of};

use crate::octets::digits_of;
use crate::parts::{halves, network_of, node_of, push_line, push_printed, push_refused};
use std::alloc::{AllocError, Global};
use wrp_base::{Frame, Module, Raw, Stamp};
use wrp_config::Network;
use wrp_node::Input;
use wrp_suite::{Answer, Case, Fault};
use wrp_trace::{input_line, read_input};

// A frame that came.
fn frame_words(
    alloc: Global,
    port: u16,
    octets: &Frame,
    raw: Raw,
    sample: u32,
) -> Result<String, AllocError> {
    let digits = digits_of(alloc, octets.as_slice())?;
    let digits = digits.as_str();
    let (rising, falling, tag) = (raw.rising, raw.falling, raw.tag);
    format!(in alloc;
        "frame port {port} octets {digits} rising {rising} falling {falling} tag {tag} sample {sample}"
    )
}

// A frame that was sent.
fn sent_words(
    alloc: Global,
    port: u16,
    seq: u16,
    delay: bool,
    stamp: Stamp,
) -> Result<String, AllocError> {
    let message = if delay { "delay" } else { "sync" };
    let (value, sample) = (stamp.value, stamp.sample);
    format!(in alloc; "sent port {port} {message} seq {seq} stamp {value} sample {sample}")
}

// A carrier that comes.
fn up_words(alloc: Global, port: u16, module: Option<Module>) -> Result<String, AllocError> {
    match module {
        Some(module) => {
            let (tx, rx) = (module.tx, module.rx);
            let (transition, err) = (module.transition, module.err);
            format!(in alloc; "up port {port} tx {tx} rx {rx} transition {transition} err {err}")
        }
        None => format!(in alloc; "up port {port} unlisted"),
    }
}

// What an input says.
fn input_words(alloc: Global, input: &Input) -> Result<String, AllocError> {
    match input {
        Input::Tick => "tick".to_string(alloc),
        Input::Sample { n, base, bits } => {
            format!(in alloc; "sample n {n} base {base} bits {bits:016x}")
        }
        Input::Frame {
            port,
            bytes,
            raw,
            sample,
        } => frame_words(alloc, *port, bytes, *raw, *sample),
        Input::Sent {
            port,
            seq,
            delay,
            stamp,
        } => sent_words(alloc, *port, *seq, *delay, *stamp),
        Input::Carrier { port, up, module } if *up => up_words(alloc, *port, *module),
        Input::Carrier { port, .. } => format!(in alloc; "down port {port}"),
        Input::Reset => "reset".to_string(alloc),
    }
}

// Appends what an input says, and its line.
fn push_input(
    alloc: Global,
    out: &mut Vec<u8>,
    net: &Network,
    node: u8,
    input: &Input,
) -> Result<(), AllocError>
    requires accepted { IsAccepted net.now.cfg net.now.db }
    requires printable { IsInputAt (line_setting_of net.now node) input.now }
{
    let words = input_words(alloc, input)?;
    push_line(out, words.as_str())?;
    let line = input_line(alloc, node, input, net)?;
    push_printed(out, &line)
}

// Appends what is printed of a line.
fn push_told(
    alloc: Global,
    out: &mut Vec<u8>,
    net: &Network,
    node: u8,
    line: &str,
) -> Result<(), Fault>
    requires accepted { IsAccepted net.now.cfg net.now.db }
{
    match read_input(alloc, line.as_bytes(), net, node) {
        Ok(input) => Ok(push_input(alloc, out, net, node, &input)?),
        Err(fault) => push_refused(alloc, out, &fault),
    }
}

// The name of the node, and whether everything after `---` is one line.
fn words_of(case: &Case) -> Result<(&str, bool), Fault> {
    match case.words.as_slice() {
        [name] => Ok((name.as_str(), false)),
        [name, how] if how.as_str() == "whole" => Ok((name.as_str(), true)),
        _ => Err(Fault::Input),
    }
}

/// What `read_input` and `input_line` answer.
pub fn answer(alloc: Global, case: &Case) -> Result<Answer, Fault> {
    let (name, is_whole) = words_of(case)?;
    let (text, lines) = halves(&case.input)?;
    let net = network_of(alloc, text)?;
    let node = node_of(&net, name)?;
    let mut octets = Vec::new(alloc);
    if is_whole {
        push_told(alloc, &mut octets, &net, node, lines)?;
        return Ok(Answer { status: 0, octets });
    }
    for line in lines.split_terminator('\n') {
        push_told(alloc, &mut octets, &net, node, line)?;
    }
    Ok(Answer { status: 0, octets })
}
