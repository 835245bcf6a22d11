//! What a port answers, in lines, and what it then holds:
//!
//!     link WORD                     its new word
//!     send MESSAGE ..               a message, with each of its fields
//!     drop REASON                   a message was dropped
//!     measured T1 T2 T3 T4 U2 U3 TICK
//!     lease                         its lease is fresh
//!     deltas TXM RXM TXS RXS        the delays of its link are known
use crate::names::{name_of_reason, name_of_word};
use crate::told::Told;
use std::alloc::{AllocError, Global};
use wrp_base::{Body, Deltas, Four, Head, PortIdentity, PtpMsg, Ts, WrMsg};
use wrp_port::{Port, PortOut};

// A port.
fn text_of_port(alloc: Global, port: &PortIdentity) -> Result<String, AllocError> {
    let PortIdentity { clock, port } = *port;
    format!(in alloc; "{clock:016x}:{port}")
}

// A message by its name and its time.
fn text_at(alloc: Global, name: &str, time: Ts) -> Result<String, AllocError> {
    let Ts { seconds, nanos } = time;
    format!(in alloc; "{name} time {seconds} {nanos}")
}

// A White Rabbit message.
fn text_of_message(alloc: Global, message: &WrMsg) -> Result<String, AllocError> {
    match *message {
        WrMsg::Present => "present".to_string(alloc),
        WrMsg::Lock => "lock".to_string(alloc),
        WrMsg::Locked => "locked".to_string(alloc),
        WrMsg::Calibrate {
            pattern,
            retry,
            period,
        } => format!(in alloc; "calibrate {pattern} {retry} {period}"),
        WrMsg::Calibrated { tx, rx } => format!(in alloc; "calibrated {tx} {rx}"),
        WrMsg::ModeOn => "mode-on".to_string(alloc),
    }
}

// A Signaling.
fn text_of_signal(
    alloc: Global,
    target: &PortIdentity,
    wr: &Option<WrMsg>,
) -> Result<String, AllocError> {
    let target = text_of_port(alloc, target)?;
    let message = match wr {
        Some(message) => text_of_message(alloc, message)?,
        None => "-".to_string(alloc)?,
    };
    format!(in alloc; "signal to {target} {message}")
}

// The suffix of an Announce.
fn text_of_suffix(alloc: Global, suffix: Option<u16>) -> Result<String, AllocError> {
    match suffix {
        Some(suffix) => format!(in alloc; "{suffix}"),
        None => "-".to_string(alloc),
    }
}

// A body.
fn text_of_body(alloc: Global, body: &Body) -> Result<String, AllocError> {
    match *body {
        Body::Sync { origin } => text_at(alloc, "sync", origin),
        Body::DelayReq { origin } => text_at(alloc, "delay-req", origin),
        Body::FollowUp { precise } => text_at(alloc, "follow-up", precise),
        Body::DelayResp {
            receive,
            requesting,
        } => {
            let text = text_at(alloc, "delay-resp", receive)?;
            let to = text_of_port(alloc, &requesting)?;
            format!(in alloc; "{text} to {to}")
        }
        Body::Announce {
            origin,
            utc,
            p1,
            quality,
            p2,
            gm,
            steps,
            source,
            suffix,
        } => {
            let text = text_at(alloc, "announce", origin)?;
            let suffix = text_of_suffix(alloc, suffix)?;
            format!(in alloc;
                "{text} utc {utc} priorities {p1} {p2} quality {quality:08x} gm {gm:016x} steps {steps} source {source} suffix {suffix}"
            )
        }
        Body::Signal { target, wr } => text_of_signal(alloc, &target, &wr),
    }
}

// Appends the line of a message.
fn tell_message(alloc: Global, message: &PtpMsg, told: &mut Told) -> Result<(), AllocError> {
    let body = text_of_body(alloc, &message.body)?;
    let source = text_of_port(alloc, &message.head.source)?;
    let Head {
        domain,
        flags,
        correction,
        seq,
        interval,
        ..
    } = message.head;
    let line = format!(in alloc;
        "send {body} seq {seq} flags {flags} correction {correction} interval {interval} domain {domain} from {source}"
    )?;
    told.push(line.as_str())
}

// Appends the line of a measurement.
fn tell_four(alloc: Global, four: &Four, told: &mut Told) -> Result<(), AllocError> {
    let Four {
        t1,
        t2,
        t3,
        t4,
        u2,
        u3,
        tick,
    } = *four;
    let line = format!(in alloc; "measured {t1} {t2} {t3} {t4} {u2} {u3} {tick}")?;
    told.push(line.as_str())
}

// Appends the lines of what a port holds: its lease, and the delays of its link.
fn tell_standing(alloc: Global, port: &Port, told: &mut Told) -> Result<(), AllocError> {
    if port.lease() {
        told.push("lease")?;
    }
    if let Some(Deltas { txm, rxm, txs, rxs }) = port.deltas() {
        let line = format!(in alloc; "deltas {txm} {rxm} {txs} {rxs}")?;
        told.push(line.as_str())?;
    }
    Ok(())
}

/// Appends the lines of an answer.
pub fn tell(alloc: Global, port: &Port, out: &PortOut, told: &mut Told) -> Result<(), AllocError> {
    if let Some(word) = out.word {
        let word = name_of_word(word);
        let line = format!(in alloc; "link {word}")?;
        told.push(line.as_str())?;
    }
    for message in out.sends.as_slice() {
        tell_message(alloc, message, told)?;
    }
    if let Some(reason) = out.drop {
        let reason = name_of_reason(reason);
        let line = format!(in alloc; "drop {reason}")?;
        told.push(line.as_str())?;
    }
    if let Some(four) = &out.measured {
        tell_four(alloc, four, told)?;
    }
    tell_standing(alloc, port, told)?;
    told.end()
}
