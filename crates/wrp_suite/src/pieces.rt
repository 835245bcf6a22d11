//! The octets that the lines of a case file mean. A line is `< LINE`, a line of the input, or `> LINE`, an
//! expected line; and after the first character it may say how it is meant: `-` for a line without its end,
//! `x` for octets as hex, `@` for a text by its name, a number for a line that comes so many times, and `-`
//! and a number for a text without line ends that comes so many times.
use crate::fault::Fault;
use std::alloc::{AllocError, Global};

/// A text that cases name.
#[derive(Drop)]
pub struct Text {
    /// Its name.
    pub name: String,
    /// What it is.
    pub octets: Vec<u8>,
}

// Appends a line with its end.
fn push_line(out: &mut Vec<u8>, line: &str) -> Result<(), AllocError> {
    out.extend_from_slice(line.as_bytes())?;
    out.push(b'\n')?;
    Ok(())
}

// Appends a line so many times, with what ends it.
fn push_times(out: &mut Vec<u8>, times: &str, line: &str, ending: &str) -> Result<(), Fault> {
    let Ok(times) = times.parse::<u32>() else {
        return Err(Fault::Word);
    };
    for _ in 0..times {
        out.extend_from_slice(line.as_bytes())?;
        out.extend_from_slice(ending.as_bytes())?;
    }
    Ok(())
}

// Appends octets that are given as hex.
fn push_hex(alloc: Global, out: &mut Vec<u8>, digits: &str) -> Result<(), Fault> {
    match hex::decode(alloc, digits) {
        Ok(octets) => Ok(out.extend_from_slice(&octets)?),
        Err(hex::FromHexError::OutOfMemory) => Err(Fault::Memory),
        Err(_) => Err(Fault::Hex),
    }
}

/// The text of a name.
pub fn text_named<'a>(texts: &'a [Text], name: &str) -> Option<&'a Text> {
    for text in texts {
        if text.name.as_str() == name {
            return Some(text);
        }
    }
    None
}

// Appends the text of a name.
fn push_text(out: &mut Vec<u8>, texts: &[Text], name: &str) -> Result<(), Fault> {
    match text_named(texts, name) {
        Some(text) => Ok(out.extend_from_slice(&text.octets)?),
        None => Err(Fault::NoText),
    }
}

/// Appends what a line means.
pub fn push_piece(
    alloc: Global,
    out: &mut Vec<u8>,
    texts: &[Text],
    how: &str,
    rest: &str,
) -> Result<(), Fault> {
    match how {
        "" => Ok(push_line(out, rest)?),
        "-" => Ok(out.extend_from_slice(rest.as_bytes())?),
        "x" => push_hex(alloc, out, rest),
        "@" => push_text(out, texts, rest),
        _ => match how.strip_prefix('-') {
            Some(times) => push_times(out, times, rest, ""),
            None => push_times(out, how, rest, "\n"),
        },
    }
}

/// Appends a line to a part that is replaced, or to its replacement: a line end comes between two.
pub fn push_part(part: &mut String, line: &str) -> Result<(), AllocError> {
    if !part.is_empty() {
        part.push('\n')?;
    }
    part.push_str(line)
}

/// An input with a part of it replaced where it first appears.
pub fn replaced(alloc: Global, input: &[u8], part: &str, other: &str) -> Result<Vec<u8>, Fault> {
    let Ok(text) = str::from_utf8(input) else {
        return Err(Fault::NoPart);
    };
    if !text.contains(part) {
        return Err(Fault::NoPart);
    }
    let replaced = text.replacen(alloc, part, other, 1)?;
    Ok(replaced.into_bytes())
}
