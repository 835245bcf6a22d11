//! The lines of a block, one after another.
ghost use Rattle.std.specs.Prelude.{◌≡◌, ◌∷◌, ◌++◌, [], ℕ, List, Option, IfOk, Some, false};
ghost use Rattle.csv.specs.Reading.{source_of};
ghost use Rattle.csv.specs.Records.{fields_of};
ghost use Rattle.wrp_fields.specs.Block.{at_start, left_in, IsFound, IsPlainReader, StartsPlain};
ghost use Rattle.wrp_fields.specs.Lines.{IsLine};

use csv::{ByteRecord, Reader, ReaderBuilder};
use std::alloc::{AllocError, Global};
use std::io::{Chain, Read};
use std::marker::Model;

/// The lines of a block of octets, read one after another. A clause sees the octets that are left;
/// None after a failed read.
///
/// A read only depends on its own line: anything may follow a plain line. So the caller tests each
/// line with `is_plain` before reading it, and stops at the first that is not plain.
#[derive(Drop)]
pub struct Block<'a> {
    reader: Reader<Chain<&'a [u8], &'a [u8]>>,
}

impl<'a> Model for Block<'a> {
    ghost Value = { Option (List ℕ) };

    ghost view = { λ b. at_start b.reader.state (source_of left_in b.reader) };

    ghost invariant = { λ b. IsPlainReader b.reader };
}

impl<'a> Block<'a> {
    /// A reader of the lines of these octets. If there are octets, the first must be below 128,
    /// because a byte order mark would be dropped.
    pub fn new(alloc: Global, octets: &'a [u8]) -> Block<'a>
        ensures { StartsPlain octets.now → result ≡ Some octets.now }
    {
        Block::joined(alloc, octets, &[])
    }

    /// A reader of the lines of these octets and of those that follow. A reader of `csv` is expensive to make, so
    /// one serves both. The first octet, if there is one, must be below 128.
    #[tactic(auto, using(crate::proofs::Splitting::strip_plain))]
    pub fn joined(alloc: Global, octets: &'a [u8], following: &'a [u8]) -> Block<'a>
        ensures { StartsPlain (octets.now ++ following.now)
            → result ≡ Some (octets.now ++ following.now) }
    {
        Block {
            reader: ReaderBuilder::new()
                .has_headers(false)
                .flexible(true)
                .from_reader(alloc, octets.chain(following)),
        }
    }

    /// Puts the parts of the next line into `row`, instead of what was there, and returns whether
    /// there was a line. A line ends with LF, with CR and LF, or at the end of the block.
    /// `AllocError` if there is not enough memory; then the contents of `row` and the octets that
    /// are left are not specified, so read no further.
    pub fn next(&mut self, row: &mut ByteRecord) -> Result<bool, AllocError>
        ensures line { (line rest : List ℕ)
            → self.old ≡ Some (line ++ 10 ∷ rest) → IsLine line
            → IfOk result (λ found. IsFound line rest found (fields_of row.new) self.new) }
        ensures returned { (line rest : List ℕ)
            → self.old ≡ Some (line ++ 13 ∷ 10 ∷ rest) → IsLine line
            → IfOk result (λ found. IsFound line rest found (fields_of row.new) self.new) }
        ensures last { (line : List ℕ)
            → self.old ≡ Some line → IsLine line
            → IfOk result (λ found. IsFound line [] found (fields_of row.new) self.new) }
        ensures end { self.old ≡ Some [] → IfOk result (λ found. found ≡ false) }
    {
        let more = self.read(row)?;
        Ok(more)
    }

    // The next record of `csv`.
    fn read(&mut self, row: &mut ByteRecord) -> Result<bool, AllocError>
        ensures line { (line rest : List ℕ)
            → self.old ≡ Some (line ++ 10 ∷ rest) → IsLine line
            → IfOk result (λ found. IsFound line rest found (fields_of row.new) self.new) }
        ensures returned { (line rest : List ℕ)
            → self.old ≡ Some (line ++ 13 ∷ 10 ∷ rest) → IsLine line
            → IfOk result (λ found. IsFound line rest found (fields_of row.new) self.new) }
        ensures last { (line : List ℕ)
            → self.old ≡ Some line → IsLine line
            → IfOk result (λ found. IsFound line [] found (fields_of row.new) self.new) }
        ensures end { self.old ≡ Some [] → IfOk result (λ found. found ≡ false) }
    {
        let Ok(found) = self.reader.read_byte_record(row) else {
            return Err(AllocError);
        };
        Ok(found)
    }
}
