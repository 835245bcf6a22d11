//! A reader of lines, which takes pieces from a source and hands out one line at a time.
ghost use Rattle.std.specs.Prelude.{◌≡◌, ◌⊎◌, ◌^◌, ◌<◌, ◌≤◌, ◌++◌, [], length, drop, true, false, MatchOption, IfOk, OnOk, IsErr};
ghost use Rattle.std.specs.Io.KnownBytes.{Consumes, IsAtEnd};
ghost use Rattle.wrp_io.specs.Faults.{Rose};
ghost use Rattle.wrp_records.specs.Lines.{HasNoFeed, IsWhole};
ghost use Rattle.wrp_records.specs.Reader.{Takes, GivesOn, IsNext, IsCut, IsLast, piece_limit};

use crate::feed::append_front;
use std::alloc::AllocError;
use std::marker::Model;
use wrp_io::{Failed, Source};

// How many octets are asked for at a time.
const PIECE: usize = 65_536;

/// What a reader answers to the request for the next line.
#[derive(Clone, Copy, Debug, PartialEq, Eq)]
pub enum Next {
    /// The next line is given.
    Line,
    /// The input ended before another line.
    End,
    /// The next line has no LF yet, and has more octets than asked for.
    TooLong,
    /// The source failed. The part of the next line that came is given.
    Failed,
    /// Memory ran out.
    Memory,
}

// What the end of the input makes of a line without an LF.
fn last(line: &[u8]) -> Next
    ensures line { result ≡ Next.Line → 0 < length line.now }
    ensures end { result ≡ Next.End → line.now ≡ [] }
    ensures either { (result ≡ Next.Line) ⊎ (result ≡ Next.End) }
{
    if line.is_empty() {
        Next::End
    } else {
        Next::Line
    }
}

/// What was taken from a source and not yet given.
#[derive(Drop)]
pub struct Reader {
    piece: [u8; PIECE],
    at: usize,
    end: usize,
    ended: bool,
}

impl Model for Reader {
    ghost use Rattle.std.specs.Prelude.{◌≤◌, ◌-◌, take, drop};
    ghost use Rattle.wrp_records.specs.Reader.{ReaderAt, piece_limit};

    ghost Value = { ReaderAt };

    ghost view = { λ r. record { rest = take (r.end - r.at) (drop r.at r.piece); ended = r.ended } };

    ghost invariant = { λ r. (r.at ≤ r.end) × (r.end ≤ piece_limit) };
}

impl Reader {
    /// A reader that has taken nothing.
    pub fn new() -> Reader
        ensures { result ≡ record { rest = []; ended = false } }
    {
        Reader {
            piece: [0; PIECE],
            at: 0,
            end: 0,
            ended: false,
        }
    }

    /// What is held.
    pub fn held(&self) -> &[u8]
        ensures value { result.now ≡ self.now.rest }
        ensures past { length result.now ≤ piece_limit }
    {
        &self.piece[self.at..self.end]
    }

    /// Passes over so many octets of what is held.
    pub fn pass(&mut self, size: usize)
        requires { size ≤ length self.old.rest }
        ensures rest { self.new.rest ≡ drop size self.old.rest }
        ensures ended { self.new.ended ≡ self.old.ended }
        ensures past { length self.new.rest ≤ piece_limit }
    {
        self.at += size;
    }

    /// Appends what is held to a line, up to and including the first LF. Answers whether an LF
    /// came. `AllocError` if memory runs out: no octet is lost, and the octets that were given come
    /// before those that are held.
    pub fn give(&mut self, line: &mut Vec<u8>) -> Result<bool, AllocError>
        requires { HasNoFeed line.old.items }
        ensures same { line.new.items ++ self.new.rest ≡ line.old.items ++ self.old.rest }
        ensures ended { self.new.ended ≡ self.old.ended }
        ensures whole { IfOk result (λ is_whole. is_whole ≡ true → IsWhole line.new.items) }
        ensures cut { IfOk result (λ is_whole. is_whole ≡ false → IsCut line.new.items self.new) }
        ensures past { length self.new.rest ≤ piece_limit }
    {
        match append_front(line, &self.piece[self.at..self.end])? {
            Some(size) => {
                self.at += size;
                Ok(true)
            }
            None => {
                self.at = self.end;
                Ok(false)
            }
        }
    }

    // Takes the next piece from the source, when nothing is held and nothing waits to be written.
    // Answers whether there is one. After the end of the input the source is not asked again.
    fn refill<S: Source>(&mut self, source: &mut S, waiting: &[u8]) -> Result<bool, Failed>
        requires none { self.old.rest ≡ [] }
        requires written { waiting.now ≡ [] }
        requires at_end { self.old.ended ≡ true → IsAtEnd (S.left source.old) }
        ensures taken { Consumes (S.left source.old) (S.left source.new) self.new.rest }
        ensures some { IfOk result (λ is_more. is_more ≡ true
            → (0 < length self.new.rest) × (self.old.ended ≡ false) × (self.new.ended ≡ false)) }
        ensures last { IfOk result (λ is_more. is_more ≡ false → IsLast self.new) }
        ensures failed { IsErr result
            → (self.new.rest ≡ []) × (self.old.ended ≡ false) × (self.new.ended ≡ false) }
        ensures kept { OnOk result (S.faults source.new ≡ S.faults source.old) }
        ensures rose { IsErr result → Rose (S.faults source.old) (S.faults source.new) }
        ensures at_end { self.new.ended ≡ true → IsAtEnd (S.left source.new) }
    {
        let _nothing = waiting;
        if self.ended {
            return Ok(false);
        }
        self.at = 0;
        self.end = 0;
        self.end = source.read(&mut self.piece)?;
        self.ended = self.end == 0;
        Ok(!self.ended)
    }

    // Appends what is held to a line, up to and including the first LF. Answers what ends the reading, or
    // None if the line has no LF yet and no more than `most` octets.
    pub(crate) fn give_on(&mut self, line: &mut Vec<u8>, most: usize) -> Option<Next>
        requires { HasNoFeed line.old.items }
        ensures same { line.new.items ++ self.new.rest ≡ line.old.items ++ self.old.rest }
        ensures ended { self.new.ended ≡ self.old.ended }
        ensures how { MatchOption result
            (IsCut line.new.items self.new × (length line.new.items ≤ most))
            (λ next. GivesOn next line.new.items self.new most) }
    {
        match self.give(line) {
            Err(_) => return Some(Next::Memory),
            Ok(true) => return Some(Next::Line),
            Ok(false) => {}
        }
        if line.len() > most {
            return Some(Next::TooLong);
        }
        None
    }

    /// Continues a line that has no LF yet, when nothing waits to be written, until the line has an
    /// LF or more than `most` octets.
    pub fn read_on<S: Source>(
        &mut self,
        source: &mut S,
        waiting: &[u8],
        line: &mut Vec<u8>,
        most: usize,
    ) -> Next
        requires most { most < 2 ^ 32 }
        requires plain { HasNoFeed line.old.items }
        requires written { waiting.now ≡ [] }
        requires at_end { self.old.ended ≡ true → IsAtEnd (S.left source.old) }
        ensures taken { Takes (S.left source.old) (S.left source.new)
            (line.old.items ++ self.old.rest) self.old.ended self.new line.new.items }
        ensures at_end { self.new.ended ≡ true → IsAtEnd (S.left source.new) }

        // A line is given, and at most one piece is held after it.
        ensures line { result ≡ Next.Line
            → IsNext line.new.items self.new × (length self.new.rest ≤ piece_limit) }
        ensures end { result ≡ Next.End → IsLast self.new × (line.new.items ≡ []) }
        ensures too_long { result ≡ Next.TooLong
            → IsCut line.new.items self.new × (most < length line.new.items) }
        ensures failed { result ≡ Next.Failed
            → IsCut line.new.items self.new × (length line.new.items ≤ most)
            × (self.new.ended ≡ false) }

        // The source failed if and only if this is answered.
        ensures rose { result ≡ Next.Failed → Rose (S.faults source.old) (S.faults source.new) }
        ensures kept { (result ≡ Next.Failed → ⊥) → S.faults source.new ≡ S.faults source.old }
    {
        'pieces: loop {
            match self.give_on(line, most) {
                Some(next) => return next,
                None => {}
            }
            match self.refill(source, waiting) {
                Err(_) => return Next::Failed,
                Ok(true) => {}
                Ok(false) => return last(line),
            }
        }
    }
}
