//! The lines of a node's outputs.
ghost use Rattle.std.specs.String.{string_bytes};
ghost use Rattle.std.specs.Prelude.{◌≡◌, ◌∷◌, ◌++◌, ◌<◌, ◌^◌, ◌≤ℤ◌, ◌<ℤ◌, pos, IfOk, OnOk, OnErr};
ghost use Rattle.hex.specs.Hex.{encode_lower};
ghost use Rattle.wrp_network.specs.Network.{HasRanges, IsTree, node_count};
ghost use Rattle.wrp_bounds.specs.Bounds.{path_of};
ghost use Rattle.wrp_lines.specs.Lines as lines;
ghost use Rattle.wrp_lines.specs.Lines.{dac_words, link_words, output_line_of, report_words, send_words, servo_words, step_words, track_words};
ghost use Rattle.wrp_records.specs.Words.{line_of};

use crate::words::{name_of_node, text_of_link, text_of_servo};
use itoa::Buffer;
use std::alloc::{AllocError, Global};
use wrp_base::{Frame, Tau};
use wrp_bounds::path;
use wrp_config::Network;
use wrp_network::NetCfg;
use wrp_node::{Output, Report};
use wrp_records::append_words;

/// The line of an output that the node gave at this tick, with its LF. `truth` is the true offset
/// in tau, if it is known. `AllocError` if memory runs out.
pub fn output_line(
    alloc: Global,
    net: &Network,
    node: u8,
    tick: u32,
    o: &Output,
    truth: Option<Tau>,
) -> Result<Vec<u8>, AllocError>
    requires ranges { HasRanges net.now.cfg }
    requires tree { IsTree net.now.cfg }
    requires node { node < node_count net.now.cfg }
    ensures { IfOk result (λ line. line.items ≡ lines.output_line net.now.cfg node tick o.now truth) }
{
    let mut line = Vec::new(alloc);
    append_output_line(alloc, net, node, tick, o, truth, &mut line)?;
    Ok(line)
}

/// Appends to `text` the line that `output_line` gives. `AllocError` if memory runs out: `text`
/// keeps its octets.
pub fn append_output_line(
    alloc: Global,
    net: &Network,
    node: u8,
    tick: u32,
    o: &Output,
    truth: Option<Tau>,
    text: &mut Vec<u8>,
) -> Result<(), AllocError>
    requires ranges { HasRanges net.now.cfg }
    requires tree { IsTree net.now.cfg }
    requires node { node < node_count net.now.cfg }
    ensures ok { OnOk result (
        text.new.items ≡ text.old.items ++ lines.output_line net.now.cfg node tick o.now truth) }
    ensures err { OnErr result (text.new.items ≡ text.old.items) }
{
    let name = name_of_node(&net.cfg, node);
    let bound = bound_of(&net.cfg, node);
    append_line(alloc, name, tick, o, bound, truth, text)
}

// How far a node in TRACK may be from the grandmaster, in tau.
fn bound_of(cfg: &NetCfg, node: u8) -> Tau
    requires ranges { HasRanges cfg.now }
    requires tree { IsTree cfg.now }
    requires node { node < node_count cfg.now }
    ensures value { result ≡ pos (path_of cfg.now node) }
    ensures range { (pos 0 ≤ℤ result) × (result <ℤ pos (2 ^ 100)) }
{
    path(cfg, node)
}

/// Appends to `text` the line of an output of the node with this name, whose bound in TRACK is
/// `bound`, in tau. So a run works out a node's bound once, and not for each line. `AllocError` if
/// memory runs out: `text` keeps its octets.
pub fn append_line(
    alloc: Global,
    name: &str,
    tick: u32,
    o: &Output,
    bound: Tau,
    truth: Option<Tau>,
    text: &mut Vec<u8>,
) -> Result<(), AllocError>
    ensures ok { OnOk result (
        text.new.items ≡ text.old.items ++ output_line_of name.now tick o.now bound truth) }
    ensures err { OnErr result (text.new.items ≡ text.old.items) }
{
    let mut ticks = Buffer::new();
    let tick = ticks.format(tick);
    match o {
        Output::Send { port, frame } => append_send(alloc, name, tick, *port, frame, text),
        Output::Step { cycles } => append_step(name, tick, *cycles, text),
        Output::Dac { value } => append_dac(name, tick, *value, text),
        Output::Report(report) => append_report(name, tick, *report, bound, truth, text),
    }
}

// Appends the line of a frame that is sent.
fn append_send(
    alloc: Global,
    name: &str,
    tick: &str,
    port: u16,
    frame: &Frame,
    text: &mut Vec<u8>,
) -> Result<(), AllocError>
    ensures ok { OnOk result (text.new.items ≡ text.old.items
        ++ line_of (name.now ∷ tick.now ∷ send_words port frame.now.items)) }
    ensures err { OnErr result (text.new.items ≡ text.old.items) }
{
    let octets = hex_of(alloc, frame)?;
    let mut ports = Buffer::new();
    append_words(
        text,
        &[name, tick, "send", ports.format(port), octets.as_str()],
    )
}

// The octets of a frame in hex.
fn hex_of(alloc: Global, frame: &Frame) -> Result<String, AllocError>
    ensures { IfOk result (λ text. string_bytes text ≡ encode_lower frame.now.items) }
{
    hex::encode(alloc, frame.as_slice())
}

// Appends the line of a step of the clock.
fn append_step(name: &str, tick: &str, cycles: i64, text: &mut Vec<u8>) -> Result<(), AllocError>
    ensures ok { OnOk result (text.new.items ≡ text.old.items
        ++ line_of (name.now ∷ tick.now ∷ step_words cycles)) }
    ensures err { OnErr result (text.new.items ≡ text.old.items) }
{
    let mut steps = Buffer::new();
    append_words(text, &[name, tick, "step", steps.format(cycles)])
}

// Appends the line of a DAC value.
fn append_dac(name: &str, tick: &str, value: u16, text: &mut Vec<u8>) -> Result<(), AllocError>
    ensures ok { OnOk result (text.new.items ≡ text.old.items
        ++ line_of (name.now ∷ tick.now ∷ dac_words value)) }
    ensures err { OnErr result (text.new.items ≡ text.old.items) }
{
    let mut values = Buffer::new();
    append_words(text, &[name, tick, "dac", values.format(value)])
}

// Appends the line of a report.
fn append_report(
    name: &str,
    tick: &str,
    report: Report,
    bound: Tau,
    truth: Option<Tau>,
    text: &mut Vec<u8>,
) -> Result<(), AllocError>
    ensures ok { OnOk result (text.new.items ≡ text.old.items
        ++ line_of (name.now ∷ tick.now ∷ report_words report bound truth)) }
    ensures err { OnErr result (text.new.items ≡ text.old.items) }
{
    match report {
        Report::Link { port, word } => {
            let mut ports = Buffer::new();
            append_link(name, tick, ports.format(port), text_of_link(word), text)
        }
        Report::Servo(state) => append_servo(name, tick, text_of_servo(state), text),
        Report::Track { est } => append_track(name, tick, est, bound, truth, text),
    }
}

// Appends the line of a port whose number and word are written in this way.
fn append_link(
    name: &str,
    tick: &str,
    port: &str,
    word: &str,
    text: &mut Vec<u8>,
) -> Result<(), AllocError>
    ensures ok { OnOk result (text.new.items ≡ text.old.items
        ++ line_of (name.now ∷ tick.now ∷ link_words port.now word.now)) }
    ensures err { OnErr result (text.new.items ≡ text.old.items) }
{
    append_words(text, &[name, tick, "link", port, word])
}

// Appends the line of a servo whose state is written in this way.
fn append_servo(name: &str, tick: &str, state: &str, text: &mut Vec<u8>) -> Result<(), AllocError>
    ensures ok { OnOk result (text.new.items ≡ text.old.items
        ++ line_of (name.now ∷ tick.now ∷ servo_words state.now)) }
    ensures err { OnErr result (text.new.items ≡ text.old.items) }
{
    append_words(text, &[name, tick, "servo", state])
}

// Appends the line of a node in TRACK.
fn append_track(
    name: &str,
    tick: &str,
    est: Tau,
    bound: Tau,
    truth: Option<Tau>,
    text: &mut Vec<u8>,
) -> Result<(), AllocError>
    ensures ok { OnOk result (text.new.items ≡ text.old.items
        ++ line_of (name.now ∷ tick.now ∷ track_words est bound truth)) }
    ensures err { OnErr result (text.new.items ≡ text.old.items) }
{
    let mut estimates = Buffer::new();
    let mut bounds = Buffer::new();
    let est = estimates.format(est);
    let bound = bounds.format(bound);
    match truth {
        None => append_words(text, &[name, tick, "track", est, bound]),
        Some(off) => {
            let mut offs = Buffer::new();
            let off = offs.format(off);
            append_words(text, &[name, tick, "track", est, bound, "true", off])
        }
    }
}
