//! Input lines, printed: what a node is given, as a line that reads back as the same.
ghost use Rattle.std.specs.Prelude.{◌≡◌, ◌<◌, ◌≤◌, ◌^◌, ◌++◌, ◌∷◌, [], IfOk, OnOk, OnErr, Ok, length};
ghost use Rattle.std.specs.String.{string_bytes};
ghost use Rattle.hex.specs.Hex.{encode_lower};
ghost use Rattle.wrp_base.specs.Octets.{AreOctets};
ghost use Rattle.wrp_config.specs.Accepted.{IsAccepted};
ghost use Rattle.wrp_trace.specs.Inputs.{read_of};
ghost use Rattle.wrp_trace.specs.InputAt.{IsInputAt, FitsTypes};
ghost use Rattle.wrp_trace.specs.Printing.{bits_text, message_text, joined, sample_texts, frame_texts, sent_texts, carrier_texts, line_of};
ghost use Rattle.wrp_trace.specs.LineSetting.{line_setting_of};

use crate::line_setting::module_name;
use std::alloc::{AllocError, Global};
use wrp_base::{Frame, Module, Raw, Stamp};
use wrp_config::Network;
use wrp_node::Input;

/// The line of an input at a node, without LF. `AllocError` if memory runs out.
pub fn input_line(alloc: Global, node: u8, x: &Input, net: &Network) -> Result<Vec<u8>, AllocError>
    requires accepted { IsAccepted net.now.cfg net.now.db }
    requires printable { IsInputAt (line_setting_of net.now node) x.now }
    ensures text { IfOk result (λ line. line.items ≡ line_of (line_setting_of net.now node) x.now) }
    ensures reads_back { IfOk result (λ line.
        read_of (line_setting_of net.now node) line.items ≡ Ok x.now) }
{
    let text = text_of(alloc, node, x, net)?;
    Ok(octets_of(text))
}

/// Appends to `text` the line of an input at a node, with its LF, whatever the input is.
/// `AllocError` if memory runs out: `text` keeps its octets.
pub fn append_input_line(
    alloc: Global,
    node: u8,
    x: &Input,
    net: &Network,
    text: &mut Vec<u8>,
) -> Result<(), AllocError>
    ensures ok { OnOk result (
        text.new.items ≡ text.old.items ++ (line_of (line_setting_of net.now node) x.now ++ 10 ∷ [])) }
    ensures err { OnErr result (text.new.items ≡ text.old.items) }
{
    let line = text_of(alloc, node, x, net)?;
    let line = line.as_str();
    let line = format!(in alloc; "{line}\n")?;
    text.extend_from_slice(line.as_bytes())
}

/// The octets of a text.
pub fn octets_of(text: String) -> Vec<u8>
    ensures { result.items ≡ string_bytes text }
{
    text.into_bytes()
}

// The same as text.
fn text_of(alloc: Global, node: u8, x: &Input, net: &Network) -> Result<String, AllocError>
    ensures text { IfOk result (λ text.
        string_bytes text ≡ line_of (line_setting_of net.now node) x.now) }
    ensures fits { FitsTypes x.now }
{
    match x {
        Input::Tick => String::from_str(alloc, "tick"),
        Input::Sample { n, base, bits } => sample_text(alloc, *n, *base, *bits),
        Input::Frame {
            port,
            bytes,
            raw,
            sample,
        } => frame_text(alloc, *port, bytes, *raw, *sample),
        Input::Sent {
            port,
            seq,
            delay,
            stamp,
        } => sent_text(alloc, *port, *seq, *delay, *stamp),
        Input::Carrier { port, up, module } => carrier_text(alloc, node, net, *port, *up, *module),
        Input::Reset => String::from_str(alloc, "reset"),
    }
}

// The line of a sample.
fn sample_text(alloc: Global, n: u32, base: u16, bits: u64) -> Result<String, AllocError>
    ensures text { IfOk result (λ text. string_bytes text ≡ joined (sample_texts n base bits)) }
    ensures fits { (n < 2 ^ 32) × (bits < 2 ^ 64) }
{
    let digits = bits_text(alloc, bits)?;
    let digits = digits.as_str();
    format!(in alloc; "sample,{n},{base},{digits}")
}

/// The 16 digits of BITS. `AllocError` if memory runs out.
pub fn bits_text(alloc: Global, bits: u64) -> Result<String, AllocError>
    ensures { IfOk result (λ text. string_bytes text ≡ bits_text bits) }
{
    let octets = bits.to_be_bytes();
    hex::encode(alloc, octets.as_slice())
}

/// The digits of HEX. `AllocError` if memory runs out.
pub fn octets_text(alloc: Global, octets: &[u8]) -> Result<String, AllocError>
    ensures text { IfOk result (λ text. string_bytes text ≡ encode_lower octets.now) }
    ensures octets { AreOctets octets.now }
{
    hex::encode(alloc, octets)
}

// The line of a frame.
fn frame_text(
    alloc: Global,
    port: u16,
    bytes: &Frame,
    raw: Raw,
    sample: u32,
) -> Result<String, AllocError>
    ensures text { IfOk result (λ text.
        string_bytes text ≡ joined (frame_texts port bytes.now.items raw sample)) }
    ensures numbers { (port < 2 ^ 16) × (sample < 2 ^ 32) }
    ensures octets { AreOctets bytes.now.items × (length bytes.now.items ≤ 256) }
{
    let digits = octets_text(alloc, bytes.as_slice())?;
    let digits = digits.as_str();
    let rising = raw.rising;
    let falling = raw.falling;
    let tag = raw.tag;
    format!(in alloc; "frame,{port},{digits},{rising},{falling},{tag},{sample}")
}

// How a sent message is named.
fn message_text(delay: bool) -> &'static str
    ensures { result.now ≡ message_text delay }
{
    if delay { "delay" } else { "sync" }
}

// The line of a sending.
fn sent_text(
    alloc: Global,
    port: u16,
    seq: u16,
    delay: bool,
    stamp: Stamp,
) -> Result<String, AllocError>
    ensures text { IfOk result (λ text.
        string_bytes text ≡ joined (sent_texts port seq delay stamp)) }
    ensures fits { (port < 2 ^ 16) × (seq < 2 ^ 16) × (stamp.sample < 2 ^ 32) }
{
    let message = message_text(delay);
    let value = stamp.value;
    let sample = stamp.sample;
    format!(in alloc; "sent,{port},{message},{seq},{value},{sample}")
}

// The line of a carrier that comes or goes.
fn carrier_text(
    alloc: Global,
    node: u8,
    net: &Network,
    port: u16,
    up: bool,
    module: Option<Module>,
) -> Result<String, AllocError>
    ensures text { IfOk result (λ text.
        string_bytes text ≡ joined (carrier_texts (line_setting_of net.now node) port up «module»)) }
    ensures fits { port < 2 ^ 16 }
{
    if up {
        let name = module_name(net, node, port, module);
        format!(in alloc; "up,{port},{name}")
    } else {
        format!(in alloc; "down,{port}")
    }
}
