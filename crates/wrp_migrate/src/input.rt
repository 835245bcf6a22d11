//! A calibration text, taken from a source as a whole.
ghost use Rattle.std.specs.Prelude.{◌≡◌, [], ℕ, List};
ghost use Rattle.std.specs.Io.KnownBytes.{Consumes};
ghost use Rattle.wrp_io.specs.Faults.{Rose};
ghost use Rattle.wrp_migrate.specs.Input.{TextTaken};

use wrp_io::Source;

// How many octets a calibration text may have.
const TEXT_LIMIT: usize = 262_144;

// How many octets are asked for at a time.
const PIECE: usize = 65_536;

/// How the taking of a text ended.
#[derive(Clone, Copy)]
pub enum HowItEnded {
    /// At the end of the input.
    Whole,
    /// The input is over the limit.
    TooLong,
    /// The source failed.
    Failed,
    /// Memory ran out.
    Memory,
}

/// Takes all octets of a source. A source that gave more than a text may have is not asked again.
pub fn take_text<S: Source>(source: &mut S, text: &mut Vec<u8>) -> HowItEnded
    requires none { text.old.items ≡ [] }
    ensures taken { (given : List ℕ) × Consumes (S.left source.old) (S.left source.new) given
        × TextTaken result (S.left source.new) given text.new.items }
    ensures rose { result ≡ HowItEnded.Failed → Rose (S.faults source.old) (S.faults source.new) }
    ensures kept { (result ≡ HowItEnded.Failed → ⊥) → S.faults source.new ≡ S.faults source.old }
{
    let mut piece = [0; PIECE];
    while text.len() <= TEXT_LIMIT {
        match source.read(&mut piece) {
            Err(_) => return HowItEnded::Failed,
            Ok(0) => return HowItEnded::Whole,
            Ok(size) => {
                if text.extend_from_slice(&piece[..size]).is_err() {
                    return HowItEnded::Memory;
                }
            }
        }
    }
    HowItEnded::TooLong
}
