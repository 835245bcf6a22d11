//! What happens at a node: the lines that `replay` takes, with three modules by name.
use std::alloc::Global;
use wrp_base::{Frame, Module, Raw, Stamp};
use wrp_node::Input;
use wrp_suite::Fault;

const BLUE: Module = Module {
    tx: 14_745_600_000,
    rx: 14_745_600_000,
    transition: 0,
    err: 1_310_720,
};

const VIOLET: Module = Module {
    tx: 14_811_136_000,
    rx: 14_876_672_000,
    transition: 0,
    err: 1_310_720,
};

// A module without delays.
const ZERO: Module = Module {
    tx: 0,
    rx: 0,
    transition: 0,
    err: 0,
};

// The module of a word.
fn module_of(word: &str) -> Option<Option<Module>> {
    match word {
        "blue" => Some(Some(BLUE)),
        "violet" => Some(Some(VIOLET)),
        "zero" => Some(Some(ZERO)),
        "unlisted" => Some(None),
        _ => None,
    }
}

// The octets of a frame.
fn frame_of(alloc: Global, digits: &str) -> Result<Frame, Fault> {
    let mut frame = Frame::new();
    match hex::decode(alloc, digits) {
        Ok(octets) => match frame.try_extend_from_slice(&octets) {
            Ok(()) => Ok(frame),
            Err(_) => Err(Fault::Input),
        },
        Err(hex::FromHexError::OutOfMemory) => Err(Fault::Memory),
        Err(_) => Err(Fault::Hex),
    }
}

// A raw stamp.
fn raw_of(rising: &str, falling: &str, tag: &str) -> Option<Raw> {
    Some(Raw {
        rising: rising.parse::<u64>().ok()?,
        falling: falling.parse::<u64>().ok()?,
        tag: tag.parse::<u16>().ok()?,
    })
}

// A frame that came.
fn came(
    alloc: Global,
    port: &str,
    digits: &str,
    raw: Option<Raw>,
    sample: &str,
) -> Result<Input, Fault> {
    Ok(Input::Frame {
        port: port.parse::<u16>().ok().ok_or(Fault::Input)?,
        bytes: frame_of(alloc, digits)?,
        raw: raw.ok_or(Fault::Input)?,
        sample: sample.parse::<u32>().ok().ok_or(Fault::Input)?,
    })
}

// The sending of a frame.
fn sent(port: &str, delay: bool, seq: &str, value: &str, sample: &str) -> Option<Input> {
    let value = value.parse::<i128>().ok()?;
    let sample = sample.parse::<u32>().ok()?;
    Some(Input::Sent {
        port: port.parse::<u16>().ok()?,
        seq: seq.parse::<u16>().ok()?,
        delay,
        stamp: Stamp { value, sample },
    })
}

// A sample.
fn sample(n: &str, base: &str, bits: &str) -> Option<Input> {
    Some(Input::Sample {
        n: n.parse::<u32>().ok()?,
        base: base.parse::<u16>().ok()?,
        bits: u64::from_str_radix(bits, 16).ok()?,
    })
}

// The carrier of a port comes, or goes.
fn carrier(port: &str, up: bool, module: Option<Module>) -> Option<Input> {
    Some(Input::Carrier {
        port: port.parse::<u16>().ok()?,
        up,
        module,
    })
}

// What happens beside frames.
fn plain_input(fields: &[&str]) -> Option<Input> {
    match *fields {
        ["tick"] => Some(Input::Tick),
        ["reset"] => Some(Input::Reset),
        ["sample", n, base, bits] => sample(n, base, bits),
        ["sent", port, "sync", seq, value, n] => sent(port, false, seq, value, n),
        ["sent", port, "delay", seq, value, n] => sent(port, true, seq, value, n),
        ["up", port, module] => carrier(port, true, module_of(module)?),
        ["down", port] => carrier(port, false, None),
        _ => None,
    }
}

/// What happens by a line.
pub fn input_of(alloc: Global, line: &str) -> Result<Input, Fault> {
    let fields: Vec<&str> = line.split(',').collect(alloc)?;
    match *fields.as_slice() {
        ["frame", port, digits, rising, falling, tag, sample] => {
            came(alloc, port, digits, raw_of(rising, falling, tag), sample)
        }
        _ => plain_input(&fields).ok_or(Fault::Input),
    }
}
