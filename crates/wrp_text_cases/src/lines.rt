//! Cases on the lines of traces. The input of a case `block` is a block of lines: for each a line is expected
//! with its parts, `|` after each; and twice `end`, since a block that ended says so again. The input of a case
//! `line` is one line: `plain` or `not plain` is expected.
use csv::ByteRecord;
use std::alloc::{AllocError, Global};
use wrp_fields::{Block, is_plain};
use wrp_suite::{Answer, Case, Fault};

// Appends the parts of a line.
fn push_row(text: &mut String, row: &ByteRecord) -> Result<(), AllocError> {
    for place in 0..row.len() {
        let part = row.get(place).unwrap_or(b"");
        text.push_str(str::from_utf8(part).unwrap_or("(no text)"))?;
        text.push('|')?;
    }
    text.push('\n')
}

// Appends the lines that are left of a block, and that it ended.
fn tell_rest(
    text: &mut String,
    block: &mut Block<'_>,
    row: &mut ByteRecord,
) -> Result<(), AllocError> {
    for _ in 0..u64::MAX {
        if !block.next(row)? {
            break;
        }
        push_row(text, row)?;
    }
    text.push_str("end\n")
}

// Appends the lines of a block, and twice that it ended.
fn tell_block(alloc: Global, text: &mut String, octets: &[u8]) -> Result<(), AllocError> {
    let mut block = Block::new(alloc, octets);
    let mut row = ByteRecord::new(alloc);
    tell_rest(text, &mut block, &mut row)?;
    tell_rest(text, &mut block, &mut row)
}

/// The lines of a block.
pub fn answer_of_block(alloc: Global, case: &Case) -> Result<Answer, Fault> {
    let mut text = String::new(alloc);
    tell_block(alloc, &mut text, &case.input)?;
    Ok(Answer::of(0, text))
}

/// Whether a line is plain.
pub fn answer_of_line(alloc: Global, case: &Case) -> Result<Answer, Fault> {
    let told = if is_plain(&case.input) {
        "plain\n"
    } else {
        "not plain\n"
    };
    Ok(Answer::of(0, told.to_string(alloc)?))
}
