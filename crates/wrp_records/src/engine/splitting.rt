//! The parts of lines, by readers of `csv`.
ghost use Rattle.std.specs.Prelude.{◌≡◌, ◌⊎◌, ◌++◌, [], List, ℕ, Some, IfOk};
ghost use Rattle.wrp_fields.specs.Lines.{IsLine};
ghost use Rattle.wrp_records.specs.Lines.{content_of, HasNoFeed, IsWhole};
ghost use Rattle.wrp_records.specs.Split.{HasParts};

use csv::ByteRecord;
use std::alloc::AllocError;
use wrp_fields::Block;

/// Puts the parts of the first line of a block, which is this line, into `row`. These octets follow it; if it is
/// not whole, there are none. `AllocError` if memory runs out: then nothing is known of `row` or of the block.
pub fn split_first(
    block: &mut Block<'_>,
    line: &[u8],
    octets: &[u8],
    row: &mut ByteRecord,
) -> Result<(), AllocError>
    requires block { block.old ≡ Some (line.now ++ octets.now) }
    requires next { IsWhole line.now ⊎ (HasNoFeed line.now × (octets.now ≡ [])) }
    requires plain { IsLine (content_of line.now) }
    ensures { IfOk result (λ _. HasParts (content_of line.now) row.new × (block.new ≡ Some octets.now)) }
{
    let _line = line;
    let _octets = octets;
    let _found = block.next(row)?;
    Ok(())
}

/// Puts the parts of the next line of a block, which is this line, into `row`. `AllocError` if
/// memory runs out: then nothing is known of `row` or of the block.
pub fn split_next(
    block: &mut Block<'_>,
    line: &[u8],
    row: &mut ByteRecord,
) -> Result<(), AllocError>
    requires whole { IsWhole line.now }
    requires plain { IsLine (content_of line.now) }
    ensures { (rest : List ℕ) → block.old ≡ Some (line.now ++ rest)
        → IfOk result (λ _. HasParts (content_of line.now) row.new × (block.new ≡ Some rest)) }
{
    let _line = line;
    let _found = block.next(row)?;
    Ok(())
}
