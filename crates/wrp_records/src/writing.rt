//! A text, written in pieces.
ghost use Rattle.std.specs.Prelude.{◌≡◌, true, false};
ghost use Rattle.std.specs.Io.KnownBytes.{Appends};
ghost use Rattle.wrp_io.specs.Faults.{Rose};
ghost use Rattle.wrp_records.specs.Taking.{AppendsPart};

use wrp_io::Sink;

// How many octets are written at a time.
const PIECE: usize = 65_536;

/// Writes a text, and answers whether all of it was taken.
pub fn write_all<K: Sink>(sink: &mut K, text: &[u8]) -> bool
    ensures whole { result ≡ true → Appends (K.held sink.old) (K.held sink.new) text.now }
    ensures cut { result ≡ false → AppendsPart (K.held sink.old) (K.held sink.new) text.now }
    ensures rose { result ≡ false → Rose (K.faults sink.old) (K.faults sink.new) }
    ensures kept { result ≡ true → K.faults sink.new ≡ K.faults sink.old }
{
    let mut at = 0;
    while at < text.len() {
        let end = text.len().min(at + PIECE);
        match sink.write(&text[at..end]) {
            Ok(taken) => at += taken,
            Err(_) => return false,
        }
    }
    true
}
