//! A line that was given and the lines that the reader holds after it, handled one after the other: one reader of
//! `csv` serves them all.
ghost use Rattle.std.specs.Prelude.{◌≡◌, ◌⊎◌, true, ◌+◌, ◌<◌, ◌≤◌, ◌++◌, [], ℕ, Bool, List, Option, Some, IfSome, length, drop};
ghost use Rattle.wrp_fields.specs.Lines.{IsLine};
ghost use Rattle.wrp_records.specs.Lines.{content_of, HasNoFeed, IsPlainText, IsWhole};
ghost use Rattle.wrp_records.specs.Reached.{Reached, Comes};
ghost use Rattle.wrp_records.specs.Reader.{IsNext, piece_limit};
ghost use Rattle.wrp_records.specs.Stream.{Handles, IsWithin, number_limit};

use super::splitting::{split_first, split_next};
use super::{Ended, LINE_LIMIT, handle_line};
use crate::feed::first_whole;
use crate::line::content;
use crate::machine::Machine;
use crate::reader::Reader;
use csv::ByteRecord;
use memchr::memchr2;
use std::alloc::Global;
use wrp_fields::{Block, is_plain};

// True only if each octet may appear in a plain line or is an LF: then what a line says is plain,
// unless it is empty.
#[tactic(auto, using(crate::proofs::PlainTexts::all_plain))]
fn is_plain_text(octets: &[u8]) -> bool
    ensures { result ≡ true → IsPlainText octets.now }
{
    octets.is_ascii() && memchr2(b'"', b'\r', octets).is_none()
}

// True only if what a line says is plain. In a plain text the line's length alone decides this.
#[tactic(auto, using(crate::proofs::PlainTexts::long_is_plain))]
fn is_plain_line(line: &[u8], text_is_plain: bool) -> bool
    requires whole { IsWhole line.now }
    requires text { text_is_plain ≡ true → IsPlainText line.now }
    ensures { result ≡ true → IsLine (content_of line.now) }
{
    text_is_plain && line.len() > 1 || is_plain(content(line))
}

// The first line, if it is whole, no larger than a line may be, and plain, and if one more record may
// come after so many.
#[tactic(auto, using(crate::proofs::LineEnds::front_is, crate::proofs::LineEnds::front_within, crate::proofs::PlainTexts::front_plain))]
fn plain_line(octets: &[u8], text_is_plain: bool, number: u32) -> Option<&[u8]>
    requires text { text_is_plain ≡ true → IsPlainText octets.now }
    ensures front { IfSome result (λ line.
        octets.now ≡ line.now ++ drop (length line.now) octets.now) }
    ensures whole { IfSome result (λ line. IsWhole line.now) }
    ensures within { IfSome result (λ line. IsWithin line.now) }
    ensures plain { IfSome result (λ line. IsLine (content_of line.now)) }
    ensures number { IfSome result (λ _. number + 1 < number_limit) }
{
    let size = first_whole(octets)?;
    let line = &octets[..size];
    if number == u32::MAX || size > LINE_LIMIT + 1 || !is_plain_line(line, text_is_plain) {
        return None;
    }
    Some(line)
}

// The octets from a place on.
fn behind(octets: &[u8], at: usize) -> &[u8]
    requires { at ≤ length octets.now }
    ensures { result.now ≡ drop at octets.now }
{
    &octets[at..]
}

// How many octets were handled of those that a reader holds, and what ended the handling, if it did.
#[derive(Clone, Copy)]
struct Handled {
    size: usize,
    ended: Option<Ended>,
}

// Handles the lines of a block, which consists of these octets, up to the first line that is not whole or
// not plain, with this record of `csv`.
fn handle_block<M: Machine>(
    alloc: Global,
    machine: &mut M,
    octets: &[u8],
    block: &mut Block<'_>,
    row: &mut ByteRecord,
    number: &mut u32,
    text: &mut Vec<u8>,
    waiting: &mut Vec<u8>,
) -> Handled
    requires block { block.old ≡ Some octets.now }
    requires piece { length octets.now ≤ piece_limit }
    requires ready { M.is_ready machine.old }
    requires count { M.count machine.old ≤ number.old }
    ensures ready { M.is_ready machine.new }
    ensures count { M.count machine.new ≤ number.new }
    ensures setting { M.setting machine.new ≡ M.setting machine.old }
    ensures more { number.old ≤ number.new }
    ensures size { result.size ≤ length octets.now }
    ensures stands { (ended : Bool) (start : List ℕ) (left rest held now : Option (List ℕ))
        → Reached (Handles (M.accepts (M.setting machine.old))) (M.has_taken machine.old) start
        (record { rest = octets.now; ended = ended }) left rest held now waiting.old.items number.old
        → Comes (M.accepts (M.setting machine.old)) (M.refuses (M.setting machine.old))
        (M.has_taken machine.new) start (record { rest = drop result.size octets.now; ended = ended })
        left rest held now waiting.new.items number.new result.ended }
{
    let text_is_plain = is_plain_text(octets);
    let mut at = 0;
    'lines: loop {
        let left = behind(octets, at);
        let Some(line) = plain_line(left, text_is_plain, *number) else {
            return Handled {
                size: at,
                ended: None,
            };
        };
        match split_next(block, line, row) {
            Ok(()) => {}
            Err(_) => return Handled {
                size: at,
                ended: Some(Ended::Memory),
            },
        }
        at += line.len();
        *number += 1;
        let said = content(line);
        match handle_line(alloc, machine, said, Some(&*row), *number, text, waiting) {
            Some(ended) => return Handled {
                size: at,
                ended: Some(ended),
            },
            None => {}
        }
    }
}

// Handles a plain line and then the lines of these octets, which follow it, up to the first line that is not
// whole or not plain. The reader passes over them afterwards, so that none of them has to be copied.
fn handle_front<M: Machine>(
    alloc: Global,
    machine: &mut M,
    line: &[u8],
    octets: &[u8],
    number: &mut u32,
    text: &mut Vec<u8>,
    waiting: &mut Vec<u8>,
) -> Handled
    requires plain { IsLine (content_of line.now) }
    requires next { IsWhole line.now ⊎ (HasNoFeed line.now × (octets.now ≡ [])) }
    requires within { IsWithin line.now }
    requires number { number.old + 1 < number_limit }
    requires piece { length octets.now ≤ piece_limit }
    requires ready { M.is_ready machine.old }
    requires count { M.count machine.old ≤ number.old }
    ensures ready { M.is_ready machine.new }
    ensures count { M.count machine.new ≤ number.new }
    ensures setting { M.setting machine.new ≡ M.setting machine.old }
    ensures more { number.old < number.new }
    ensures size { result.size ≤ length octets.now }
    ensures stands { (ended : Bool) (start : List ℕ) (left rest held now : Option (List ℕ))
        → IsNext line.now (record { rest = octets.now; ended = ended })
        → Reached (Handles (M.accepts (M.setting machine.old))) (M.has_taken machine.old) start
        (record { rest = line.now ++ octets.now; ended = ended })
        left rest held now waiting.old.items number.old
        → Comes (M.accepts (M.setting machine.old)) (M.refuses (M.setting machine.old))
        (M.has_taken machine.new) start (record { rest = drop result.size octets.now; ended = ended })
        left rest held now waiting.new.items number.new result.ended }
{
    *number += 1;
    let said = content(line);
    let mut row = ByteRecord::new(alloc);
    let mut block = Block::joined(alloc, line, octets);
    match split_first(&mut block, line, octets, &mut row) {
        Ok(()) => {}
        Err(_) => return Handled {
            size: 0,
            ended: Some(Ended::Memory),
        },
    }
    match handle_line(alloc, machine, said, Some(&row), *number, text, waiting) {
        Some(ended) => return Handled {
            size: 0,
            ended: Some(ended),
        },
        None => {}
    }
    handle_block(
        alloc, machine, octets, &mut block, &mut row, number, text, waiting,
    )
}

/// Handles a line that a reader gave and, if it is plain, the lines that the reader holds after it, up to the
/// first line that is not whole or not plain. None if no line ended the run.
pub fn handle_given<M: Machine>(
    alloc: Global,
    machine: &mut M,
    line: &[u8],
    reader: &mut Reader,
    number: &mut u32,
    text: &mut Vec<u8>,
    waiting: &mut Vec<u8>,
) -> Option<Ended>
    requires next { IsNext line.now reader.old }
    requires within { IsWithin line.now }
    requires number { number.old + 1 < number_limit }
    requires piece { length reader.old.rest ≤ piece_limit }
    requires ready { M.is_ready machine.old }
    requires count { M.count machine.old ≤ number.old }
    ensures ready { M.is_ready machine.new }
    ensures count { M.count machine.new ≤ number.new }
    ensures setting { M.setting machine.new ≡ M.setting machine.old }
    ensures ended { reader.new.ended ≡ reader.old.ended }
    ensures more { number.old < number.new }
    ensures stands { (start : List ℕ) (left rest held now : Option (List ℕ))
        → Reached (Handles (M.accepts (M.setting machine.old))) (M.has_taken machine.old) start
        (record { rest = line.now ++ reader.old.rest; ended = reader.old.ended })
        left rest held now waiting.old.items number.old
        → Comes (M.accepts (M.setting machine.old)) (M.refuses (M.setting machine.old))
        (M.has_taken machine.new) start reader.new left rest held now waiting.new.items
        number.new result }
{
    let said = content(line);
    if !is_plain(said) {
        *number += 1;
        return handle_line(alloc, machine, said, None, *number, text, waiting);
    }
    let handled = handle_front(alloc, machine, line, reader.held(), number, text, waiting);
    reader.pass(handled.size);
    handled.ended
}
