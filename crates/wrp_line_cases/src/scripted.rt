//! A reader and a writer that does what its steps say.
ghost use Rattle.std.specs.Prelude.{◌≤◌, IfOk};

use std::io;
use std::io::{Read, Write};

/// A reader and a writer that does its steps, one for each call, and counts its flushes. A step is a letter: a digit
/// gives or takes so many octets, `e` fails, and `f` gives or takes all and fails when it flushes; after the last step
/// it fails.
#[derive(Drop)]
pub struct Scripted<'a> {
    steps: &'a [u8],
    made: usize,
    flushes: usize,
}

impl<'a> Scripted<'a> {
    /// One that has done nothing yet.
    pub fn new(steps: &'a str) -> Scripted<'a> {
        Scripted {
            steps: steps.as_bytes(),
            made: 0,
            flushes: 0,
        }
    }

    /// How often it was flushed.
    pub fn flushes(&self) -> usize {
        self.flushes
    }

    // Does the next step with at most so many octets.
    fn next(&mut self, most: usize) -> io::Result<usize>
        ensures { IfOk result (λ n. n ≤ most) }
    {
        let step = self.steps.get(self.made).copied();
        self.made = self.made.saturating_add(1);
        match step {
            Some(b'f') => Ok(most),
            None | Some(b'e') => Err(io::ErrorKind::Other.into()),
            Some(digit) => Ok(usize::from(digit.saturating_sub(b'0')).min(most)),
        }
    }
}

impl Read for Scripted<'_> {
    fn read(&mut self, buf: &mut [u8]) -> io::Result<usize> {
        buf.fill(b'r');
        self.next(buf.len())
    }
}

impl Write for Scripted<'_> {
    fn write(&mut self, buf: &[u8]) -> io::Result<usize> {
        self.next(buf.len())
    }

    fn flush(&mut self) -> io::Result<()> {
        self.flushes = self.flushes.saturating_add(1);
        match self.steps.get(self.made.saturating_sub(1)) {
            Some(b'f') => Err(io::ErrorKind::Other.into()),
            _ => Ok(()),
        }
    }
}
