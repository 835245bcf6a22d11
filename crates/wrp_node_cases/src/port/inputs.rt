//! What happens at a port, in words:
//!
//!     up listed | up unlisted       the carrier comes, with the module of the constants or with none that is known
//!     down                          it goes
//!     tick | tick locked | tick doubtful      a tick: unlocked and certain; locked; or of a node that is not certain
//!     turn                          a turn of the lease
//!     sent sync SEQ STAMP           a Sync was sent; given at tick 8
//!     sent delay SEQ STAMP SAMPLE   the same of a Delay_Req
//!     sample N PHASE                a good sample
//!     chain same | chain ended | chain started N
//!     reset
//!     hear MESSAGE                  a message of the peer in the port's domain comes at tick 7 (`heard`)
//!     foreign DOMAIN PORT MESSAGE   the same of another domain or another port: own, peer, other or every
ghost use Rattle.std.specs.Prelude.{IfOk, IfSome};
ghost use Rattle.wrp_port.specs.PortAt.{IsFit, IsStamp};

use super::heard::{Origin, heard_by};
use std::alloc::Global;
use wrp_base::{ChainNews, EVERY_PORT, Module, PortIdentity, Stamp};
use wrp_port::PortIn;
use wrp_suite::Fault;

/// The domain of the port.
pub const DOMAIN: u8 = 7;

/// The port.
pub const OWN: PortIdentity = PortIdentity {
    clock: 0x001b_c5ff_fe00_0002,
    port: 1,
};

/// Its peer.
pub const PEER: PortIdentity = PortIdentity {
    clock: 0x001b_c5ff_fe00_0001,
    port: 3,
};

// Another port of the peer's clock.
const OTHER: PortIdentity = PortIdentity {
    clock: 0x001b_c5ff_fe00_0001,
    port: 4,
};

// The port's module.
const MODULE: Module = Module {
    tx: 11,
    rx: 12,
    transition: 0,
    err: 0,
};

/// The port of a word.
pub fn identity_of(word: &str) -> Option<PortIdentity> {
    match word {
        "own" => Some(OWN),
        "peer" => Some(PEER),
        "other" => Some(OTHER),
        "every" => Some(EVERY_PORT),
        _ => None,
    }
}

/// A stamp that is not negative.
pub fn stamp_of(value: &str, sample: &str) -> Option<Stamp>
    ensures { IfSome result IsStamp }
{
    let value = value.parse::<u64>().ok()?;
    let sample = sample.parse::<u32>().ok()?;
    Some(Stamp {
        value: i128::from(value),
        sample,
    })
}

// The sending of a frame.
fn sent(delay: bool, seq: &str, value: &str, sample: &str) -> Option<PortIn>
    ensures { IfSome result IsFit }
{
    let seq = seq.parse::<u16>().ok()?;
    let stamp = stamp_of(value, sample)?;
    Some(PortIn::Sent {
        delay,
        seq,
        stamp,
        tick: 8,
    })
}

// The carrier.
fn carrier(up: bool, module: Option<Module>) -> Option<PortIn>
    ensures { IfSome result IsFit }
{
    Some(PortIn::Carrier { up, module })
}

// A tick.
fn tick(locked: bool, certain: bool) -> Option<PortIn>
    ensures { IfSome result IsFit }
{
    Some(PortIn::Tick { locked, certain })
}

// A good sample.
fn sample(n: &str, phase: &str) -> Option<PortIn>
    ensures { IfSome result IsFit }
{
    let n = n.parse::<u32>().ok()?;
    let u = phase.parse::<i64>().ok()?;
    Some(PortIn::Sample { n, u })
}

// What became of the chain.
fn chain(words: &[&str]) -> Option<PortIn>
    ensures { IfSome result IsFit }
{
    match *words {
        ["same"] => Some(PortIn::Chain(ChainNews::Same)),
        ["ended"] => Some(PortIn::Chain(ChainNews::Ended)),
        ["started", n] => Some(PortIn::Chain(ChainNews::Started(n.parse::<u32>().ok()?))),
        _ => None,
    }
}

// A message of another domain or port.
fn foreign(domain: &str, source: &str, message: &[&str]) -> Option<PortIn>
    ensures { IfSome result IsFit }
{
    let domain = domain.parse::<u8>().ok()?;
    let source = identity_of(source)?;
    heard_by(Origin { domain, source }, message)
}

// What happens beside messages and sendings.
fn plain_input(words: &[&str]) -> Option<PortIn>
    ensures { IfSome result IsFit }
{
    match *words {
        ["up", "listed"] => carrier(true, Some(MODULE)),
        ["up", "unlisted"] => carrier(true, None),
        ["down"] => carrier(false, None),
        ["tick"] => tick(false, true),
        ["tick", "locked"] => tick(true, true),
        ["tick", "doubtful"] => tick(false, false),
        ["turn"] => Some(PortIn::Lease),
        ["reset"] => Some(PortIn::Reset),
        _ => None,
    }
}

// What happens by these words.
fn input_by(words: &[&str]) -> Option<PortIn>
    ensures { IfSome result IsFit }
{
    match *words {
        ["hear", ref message @ ..] => {
            let (domain, source) = (DOMAIN, PEER);
            heard_by(Origin { domain, source }, message)
        }
        ["foreign", domain, source, ref message @ ..] => foreign(domain, source, message),
        ["sent", "sync", seq, value] => sent(false, seq, value, "0"),
        ["sent", "delay", seq, value, number] => sent(true, seq, value, number),
        ["sample", n, phase] => sample(n, phase),
        ["chain", ref news @ ..] => chain(news),
        _ => plain_input(words),
    }
}

/// What happens by a line.
pub fn input_of(alloc: Global, line: &str) -> Result<PortIn, Fault>
    ensures { IfOk result IsFit }
{
    let words: Vec<&str> = line.split_whitespace().collect(alloc)?;
    input_by(&words).ok_or(Fault::Input)
}
