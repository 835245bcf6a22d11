//! The trusted edge: a source over a reader of std, and a sink over a writer. The source reports what
//! its reader knows to be left; of a file the reader knows nothing. The sink reports no octets, since a
//! flush that fails comes after octets were taken.
ghost use Rattle.std.specs.Prelude.{◌≡◌, ◌<◌, ◌≤◌, ℕ, None, length, take, IfOk, IfSome};
ghost use Rattle.std.specs.Io.KnownBytes.{Appends, WriteAppends};
ghost use Rattle.wrp_io.specs.Faults.{HasCause};

use crate::sink::Sink;
use crate::source::{Failed, Source};
use std::io::{Read, Write};

/// A source over a reader, as standard input.
#[derive(Drop)]
pub struct StdSource<R: Read> {
    reader: R,
    faults: u64,
}

impl<R: Read> StdSource<R> {
    /// A source that gives what `reader` reads. An error of the reader is a fault.
    pub fn new(reader: R) -> StdSource<R>
        ensures left { ⟦<StdSource<R> as Source>⟧.left result ≡ R.remaining reader }
        ensures faults { ⟦<StdSource<R> as Source>⟧.faults result ≡ 0 }
    {
        StdSource { reader, faults: 0 }
    }
}

impl<R: Read> Source for StdSource<R> {
    ghost left = { λ s. R.remaining s.reader };

    ghost faults = { λ s. s.faults };

    fn read(&mut self, buf: &mut [u8]) -> Result<usize, Failed> {
        let faults = self.faults;
        match self.reader.read(buf) {
            Ok(given) => Ok(given),
            Err(_) => {
                self.faults = faults.saturating_add(1);
                Err(Failed)
            }
        }
    }
}

/// A sink over a writer, as standard output. What it wrote it flushes.
#[derive(Drop)]
pub struct StdSink<W: Write> {
    writer: W,
    faults: u64,
}

impl<W: Write> StdSink<W> {
    ghost use Rattle.wrp_io.specs.Adapters.{writer_of};

    /// A sink that writes to `writer`. An error of the writer or of its flush is a fault, and so is
    /// a writer that takes none of a piece that is not empty.
    pub fn new(writer: W) -> StdSink<W>
        ensures writer { writer_of result ≡ writer }
        ensures faults { ⟦<StdSink<W> as Sink>⟧.faults result ≡ 0 }
    {
        StdSink { writer, faults: 0 }
    }
}

// Writes and flushes: how much was taken, or None for a fault.
fn write_through<W: Write>(writer: &mut W, piece: &[u8]) -> Option<usize>
    ensures bound { IfSome result (λ n. n ≤ length piece.now) }
    ensures some { 0 < length piece.now → IfSome result (λ n. 0 < n) }
    ensures octets { IfSome result (λ n.
        Appends (W.contents writer.old) (W.contents writer.new) (take n piece.now)) }
{
    let taken = writer.write(piece).ok()?;
    writer.flush().ok()?;
    if taken == 0 && !piece.is_empty() {
        return None;
    }
    Some(taken)
}

impl<W: Write> Sink for StdSink<W> {
    ghost use Rattle.wrp_io.specs.Adapters.{writer_of};

    ghost faults = { λ s. s.faults };

    fn write(&mut self, piece: &[u8]) -> Result<usize, Failed>
        ensures bound { IfOk result (λ n. n ≤ length piece.now) }
        ensures some { 0 < length piece.now → IfOk result (λ n. 0 < n) }
        ensures octets { WriteAppends None None result piece.now }
        ensures cause { HasCause self.old.faults self.new.faults result }

        // If the writer's octets are known, it took the first octets of the piece.
        ensures taken { IfOk result (λ n.
            Appends (W.contents (writer_of self.old)) (W.contents (writer_of self.new))
            (take n piece.now)) }
    {
        let faults = self.faults;
        match write_through(&mut self.writer, piece) {
            Some(taken) => Ok(taken),
            None => {
                self.faults = faults.saturating_add(1);
                Err(Failed)
            }
        }
    }
}
