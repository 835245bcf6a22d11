//! Plain lines: what they are, and their parts.
ghost use Rattle.std.specs.Prelude.{◌≡◌, ◌↔◌, IsTrue, OnOk, true};
ghost use Rattle.csv.specs.Records.{fields_of};
ghost use Rattle.wrp_base.specs.Lines.{parts_of};
ghost use Rattle.wrp_fields.specs.Lines.{IsPlainOctet, IsLine};
ghost use Rattle.wrp_fields.specs.Reading.{is_plain};

use crate::Block;
use csv::ByteRecord;
use std::alloc::{AllocError, Global};

/// Whether `Block` can split a line, given without its LF and without a CR before it: the line has
/// at least one octet, each octet is below 128, and none is a quotation mark, CR or LF.
pub fn is_plain(line: &[u8]) -> bool
    ensures plain { IsTrue result ↔ IsLine line.now }
    ensures value { result ≡ is_plain line.now }
{
    is_line(line)
}

// The same.
fn is_line(line: &[u8]) -> bool
    ensures { IsTrue result ↔ IsLine line.now }
{
    !line.is_empty() && line.iter().all(|octet| is_plain_octet(*octet))
}

// Whether a plain line may have this octet.
fn is_plain_octet(octet: u8) -> bool
    ensures { IsTrue result ↔ IsPlainOctet octet }
{
    octet != b'"' && octet != b'\r' && octet != b'\n' && octet < 128
}

/// Puts the parts of a plain line into `row`, instead of what was there. `AllocError` if there is
/// not enough memory; then the contents of `row` are not specified.
#[tactic(auto, using(crate::proofs::PlainLemmas::line_is, crate::proofs::PlainLemmas::starts_plain))]
pub fn split(alloc: Global, line: &[u8], row: &mut ByteRecord) -> Result<(), AllocError>
    requires { is_plain line.now ≡ true }
    ensures { OnOk result (fields_of row.new ≡ parts_of line.now) }
{
    let _found = Block::new(alloc, line).next(row)?;
    Ok(())
}
