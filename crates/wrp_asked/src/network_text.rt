//! The network text, taken from a stream up to the line that ends it.
ghost use Rattle.std.specs.Prelude.{◌≡◌, ◌⊎◌, ◌↔◌, ℕ, List, ◌^◌, ◌<◌, ◌≤◌, [], length, true, false, IsTrue};
ghost use Rattle.std.specs.Io.KnownBytes.{Consumes, IsAtEnd};
ghost use Rattle.wrp_io.specs.Faults.{Rose};
ghost use Rattle.wrp_asked.specs.Input.{is_separator, BeginsSeparator, NetworkOutcome};
ghost use Rattle.wrp_records.specs.Reader.{Takes, IsNext, IsCut, IsLast};

use std::alloc::Global;
use wrp_io::Source;
use wrp_records::{Next, Reader, content};

// How many octets a network text may have.
const NETWORK_LIMIT: usize = 262_144;

/// How the reading of the network text ended.
#[derive(Clone, Copy, Debug, PartialEq, Eq)]
pub enum HowItEnded {
    /// At its end.
    Whole,
    /// It is over the limit.
    TooLong,
    /// The source failed.
    Failed,
    /// There was no memory.
    Memory,
}

/// The network text, and how its reading ended.
#[derive(Drop)]
pub struct NetworkText {
    /// The octets.
    pub text: Vec<u8>,
    /// How the reading ended.
    pub end: HowItEnded,
}

// Whether a line ends the network text.
fn ends_network(line: &[u8]) -> bool
    ensures { result ≡ is_separator line.now }
{
    content(line) == b"---".as_slice()
}

// Whether a line may still become the one that ends the network text.
fn may_end_network(line: &[u8]) -> bool
    ensures { IsTrue result ↔ BeginsSeparator line.now }
{
    b"---\r".starts_with(line)
}

// Gives the next line. A line that is not whole yet is read no further if it has more than `left` octets
// and cannot become the line that ends the network text.
fn next_line<S: Source>(
    reader: &mut Reader,
    source: &mut S,
    line: &mut Vec<u8>,
    left: usize,
) -> Next
    requires most { left < 2 ^ 31 }
    requires at_end { reader.old.ended ≡ true → IsAtEnd (S.left source.old) }
    ensures taken { Takes (S.left source.old) (S.left source.new)
        reader.old.rest reader.old.ended reader.new line.new.items }
    ensures at_end { reader.new.ended ≡ true → IsAtEnd (S.left source.new) }
    ensures line { result ≡ Next.Line → IsNext line.new.items reader.new }
    ensures end { result ≡ Next.End → IsLast reader.new × (line.new.items ≡ []) }
    ensures too_long { result ≡ Next.TooLong
        → IsCut line.new.items reader.new × (left < length line.new.items)
        × (BeginsSeparator line.new.items → ⊥) }
    ensures failed { result ≡ Next.Failed
        → IsCut line.new.items reader.new × (reader.new.ended ≡ false)
        × ((length line.new.items ≤ left) ⊎ BeginsSeparator line.new.items) }
    ensures rose { result ≡ Next.Failed → Rose (S.faults source.old) (S.faults source.new) }
    ensures kept { (result ≡ Next.Failed → ⊥) → S.faults source.new ≡ S.faults source.old }
{
    line.clear();
    let mut most = left;
    'pieces: loop {
        match reader.read_on(source, &[], line, most) {
            Next::Line => return Next::Line,
            Next::End => return Next::End,
            Next::Failed => return Next::Failed,
            Next::Memory => return Next::Memory,
            Next::TooLong => {}
        }
        if !may_end_network(line) {
            return Next::TooLong;
        }
        most = line.len();
    }
}

/// Takes the network text: the lines up to the one that ends it, or to the end of the input.
pub fn take_network<S: Source>(alloc: Global, reader: &mut Reader, source: &mut S) -> NetworkText
    requires fresh { (reader.old.rest ≡ []) × (reader.old.ended ≡ false) }
    ensures taken { (given : List ℕ) × Consumes (S.left source.old) (S.left source.new) given
        × NetworkOutcome result.end given result.text.items reader.new }
    ensures at_end { reader.new.ended ≡ true → IsAtEnd (S.left source.new) }
    ensures rose { result.end ≡ HowItEnded.Failed → Rose (S.faults source.old) (S.faults source.new) }
    ensures kept { (result.end ≡ HowItEnded.Failed → ⊥)
        → S.faults source.new ≡ S.faults source.old }
{
    let mut text = Vec::new(alloc);
    let mut line = Vec::new(alloc);
    let end = take_lines(reader, source, &mut text, &mut line);
    NetworkText { text, end }
}

// Takes the lines of the network text.
fn take_lines<S: Source>(
    reader: &mut Reader,
    source: &mut S,
    text: &mut Vec<u8>,
    line: &mut Vec<u8>,
) -> HowItEnded
    requires fresh { (reader.old.rest ≡ []) × (reader.old.ended ≡ false) }
    requires none { text.old.items ≡ [] }
    ensures taken { (given : List ℕ) × Consumes (S.left source.old) (S.left source.new) given
        × NetworkOutcome result given text.new.items reader.new }
    ensures at_end { reader.new.ended ≡ true → IsAtEnd (S.left source.new) }
    ensures rose { result ≡ HowItEnded.Failed → Rose (S.faults source.old) (S.faults source.new) }
    ensures kept { (result ≡ HowItEnded.Failed → ⊥) → S.faults source.new ≡ S.faults source.old }
{
    'lines: loop {
        let left = NETWORK_LIMIT - text.len();
        match next_line(reader, source, line, left) {
            Next::End => return HowItEnded::Whole,
            Next::TooLong => return HowItEnded::TooLong,
            Next::Failed => return HowItEnded::Failed,
            Next::Memory => return HowItEnded::Memory,
            Next::Line => {}
        }
        if ends_network(line) {
            return HowItEnded::Whole;
        }
        if line.len() > left {
            return HowItEnded::TooLong;
        }
        if text.extend_from_slice(line).is_err() {
            return HowItEnded::Memory;
        }
    }
}
