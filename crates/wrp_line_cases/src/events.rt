//! Cases on `read_event` and `event_line`: for each line after `---`, what happens is expected, and then the line
//! that this is printed as; or why it is refused. Nodes and links are named by their places in the network,
//! counted from 0.
ghost use Rattle.wrp_config.specs.Accepted.{IsAccepted};
ghost use Rattle.wrp_course.specs.EventAt.{IsEventOf};

use crate::octets::digits_of;
use crate::parts::{halves, network_of, push_line, push_printed, push_refused};
use std::alloc::{AllocError, Global};
use wrp_base::{Frame, Raw, Tau};
use wrp_config::Network;
use wrp_course::{Event, Swap};
use wrp_suite::{Answer, Case, Fault};
use wrp_trace::{event_line, read_event};

// A raw stamp.
fn raw_words(alloc: Global, raw: Raw) -> Result<String, AllocError> {
    let (rising, falling, tag) = (raw.rising, raw.falling, raw.tag);
    format!(in alloc; "rising {rising} falling {falling} tag {tag}")
}

// Time that passes, with the drift of each node and the moves of each link.
fn pass_words(
    alloc: Global,
    dt: i64,
    drifts: &[i64],
    moves: &[(i64, i64)],
) -> Result<String, AllocError> {
    let mut text = format!(in alloc; "pass dt {dt} drifts")?;
    for drift in drifts {
        write!(text, " {drift}")?;
    }
    text.push_str(" fibres")?;
    for (ms, sm) in moves {
        write!(text, " {ms}/{sm}")?;
    }
    Ok(text)
}

// A node that comes up, with the modules that were put in place.
fn up_words(alloc: Global, node: u8, off: Tau, swaps: &[Swap]) -> Result<String, AllocError> {
    let mut text = format!(in alloc; "up node {node} off {off}")?;
    for swap in swaps {
        let (port, tx, rx) = (swap.port, swap.tx, swap.rx);
        let name = swap.name.as_str();
        write!(text, " port {port} module {name} tx {tx} rx {rx}")?;
    }
    Ok(text)
}

// A frame that arrives.
fn arrive_words(alloc: Global, frame: u32, raw: Raw) -> Result<String, AllocError> {
    let raw = raw_words(alloc, raw)?;
    let raw = raw.as_str();
    format!(in alloc; "arrive frame {frame} {raw}")
}

// Octets that the peer did not send.
fn noise_words(
    alloc: Global,
    node: u8,
    port: u16,
    octets: &Frame,
    raw: Raw,
) -> Result<String, AllocError> {
    let digits = digits_of(alloc, octets.as_slice())?;
    let digits = digits.as_str();
    let raw = raw_words(alloc, raw)?;
    let raw = raw.as_str();
    format!(in alloc; "noise node {node} port {port} octets {digits} {raw}")
}

// What happens.
fn event_words(alloc: Global, event: &Event) -> Result<String, AllocError> {
    match event {
        Event::Pass { dt, drifts, fibres } => {
            pass_words(alloc, *dt, drifts.as_slice(), fibres.as_slice())
        }
        Event::Tick { node } => format!(in alloc; "tick node {node}"),
        Event::Sample { node, base, bits } => {
            format!(in alloc; "sample node {node} base {base} bits {bits:016x}")
        }
        Event::Depart { node, port, stamp } => {
            format!(in alloc; "depart node {node} port {port} stamp {stamp}")
        }
        Event::Arrive { frame, raw } => arrive_words(alloc, *frame, *raw),
        Event::Deliver { frame } => format!(in alloc; "deliver frame {frame}"),
        Event::Noise {
            node,
            port,
            bytes,
            raw,
        } => noise_words(alloc, *node, *port, bytes, *raw),
        Event::Down { node } => format!(in alloc; "down node {node}"),
        Event::Up { node, off, swaps } => up_words(alloc, *node, *off, swaps.as_slice()),
        Event::Cut { link } => format!(in alloc; "cut link {link}"),
        Event::Join { link, ms, sm } => format!(in alloc; "join link {link} ms {ms} sm {sm}"),
    }
}

// Appends what happens, and its line.
fn push_event(
    alloc: Global,
    out: &mut Vec<u8>,
    net: &Network,
    event: &Event,
) -> Result<(), AllocError>
    requires accepted { IsAccepted net.now.cfg net.now.db }
    requires printable { IsEventOf net.now.cfg event.now }
{
    let words = event_words(alloc, event)?;
    push_line(out, words.as_str())?;
    let line = event_line(alloc, event, net)?;
    push_printed(out, &line)
}

// Appends what is printed of a line.
fn push_told(alloc: Global, out: &mut Vec<u8>, net: &Network, line: &str) -> Result<(), Fault>
    requires accepted { IsAccepted net.now.cfg net.now.db }
{
    match read_event(alloc, line.as_bytes(), net) {
        Ok(event) => Ok(push_event(alloc, out, net, &event)?),
        Err(fault) => push_refused(alloc, out, &fault),
    }
}

/// What `read_event` and `event_line` answer.
pub fn answer(alloc: Global, case: &Case) -> Result<Answer, Fault> {
    if !case.words.is_empty() {
        return Err(Fault::Input);
    }
    let (text, lines) = halves(&case.input)?;
    let net = network_of(alloc, text)?;
    let mut octets = Vec::new(alloc);
    for line in lines.split_terminator('\n') {
        push_told(alloc, &mut octets, &net, line)?;
    }
    Ok(Answer { status: 0, octets })
}
