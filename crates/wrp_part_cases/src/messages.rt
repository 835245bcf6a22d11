//! White Rabbit messages in words: the name; after it calSendPattern, calRetry and calPeriod of a CALIBRATE, and
//! deltaTx and deltaRx of a CALIBRATED.
use crate::words::Words;
use std::alloc::AllocError;
use wrp_base::WrMsg;
use wrp_suite::Fault;

/// The message of a name, with the numbers that follow it.
pub fn message_of(name: &str, words: &mut Words<'_>) -> Result<WrMsg, Fault> {
    match name {
        "SLAVE_PRESENT" => Ok(WrMsg::Present),
        "LOCK" => Ok(WrMsg::Lock),
        "LOCKED" => Ok(WrMsg::Locked),
        "CALIBRATE" => calibrate(words),
        "CALIBRATED" => calibrated(words),
        "WR_MODE_ON" => Ok(WrMsg::ModeOn),
        _ => Err(Fault::Input),
    }
}

// A CALIBRATE of these numbers.
fn calibrate(words: &mut Words<'_>) -> Result<WrMsg, Fault> {
    let (pattern, retry) = words.pair::<u8, u8>()?;
    let period = words.number::<u32>()?;
    Ok(WrMsg::Calibrate {
        pattern,
        retry,
        period,
    })
}

// A CALIBRATED of these numbers.
fn calibrated(words: &mut Words<'_>) -> Result<WrMsg, Fault> {
    let (tx, rx) = words.pair::<u64, u64>()?;
    Ok(WrMsg::Calibrated { tx, rx })
}

/// Appends a message in words.
pub fn push_message(text: &mut String, message: &WrMsg) -> Result<(), AllocError> {
    match message {
        WrMsg::Present => text.push_str("SLAVE_PRESENT"),
        WrMsg::Lock => text.push_str("LOCK"),
        WrMsg::Locked => text.push_str("LOCKED"),
        WrMsg::Calibrate {
            pattern,
            retry,
            period,
        } => write!(text, "CALIBRATE {pattern} {retry} {period}"),
        WrMsg::Calibrated { tx, rx } => write!(text, "CALIBRATED {tx} {rx}"),
        WrMsg::ModeOn => text.push_str("WR_MODE_ON"),
    }
}
