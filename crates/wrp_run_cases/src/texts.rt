//! The texts that a run takes and writes.
use crate::running::Ended;
use std::alloc::{AllocError, Global};
use wrp_suite::Fault;

// The line between a network and its records.
const BETWEEN: &str = "---\n";

/// What a run wrote, as a text.
pub fn text_of(ended: &Ended) -> Result<&str, Fault> {
    match str::from_utf8(&ended.octets) {
        Ok(text) => Ok(text),
        Err(_) => Err(Fault::Input),
    }
}

// The network text of an input.
fn network_of(input: &[u8]) -> Result<&str, Fault> {
    let Ok(text) = str::from_utf8(input) else {
        return Err(Fault::Input);
    };
    match text.split_once(BETWEEN) {
        Some((network, _records)) => Ok(network),
        None => Err(Fault::Input),
    }
}

/// An input of the same network, with these records.
pub fn with_records(alloc: Global, input: &[u8], records: &str) -> Result<String, Fault> {
    let mut text = String::new(alloc);
    text.push_str(network_of(input)?)?;
    text.push_str(BETWEEN)?;
    text.push_str(records)?;
    Ok(text)
}

/// Appends a line with its end.
pub fn push_line(text: &mut String, line: &str) -> Result<(), AllocError> {
    text.push_str(line)?;
    text.push('\n')
}
