//! The words of the commands that stand alone.
ghost use Rattle.std.specs.Prelude.{MatchOption};
ghost use Rattle.wrp_commands.specs.declared.alone.Alone.{Alone};
ghost use Rattle.wrp_words.specs.Alone.{IsAlone};
ghost use Rattle.wrp_words.specs.Words.{texts_of};

use wrp_commands::Alone;

/// The command that stands alone whose word the words are, or None if they are no such word.
pub fn alone_of(words: &[&str]) -> Option<Alone>
    ensures { MatchOption result
        ((alone : Alone) → IsAlone (texts_of words.now) alone → ⊥)
        (IsAlone (texts_of words.now)) }
{
    match words {
        ["migrate"] => Some(Alone::Migrate),
        ["inspect"] => Some(Alone::Inspect),
        ["l1sync"] => Some(Alone::L1Sync),
        ["calibrate"] => Some(Alone::Calibrate),
        ["plain"] => Some(Alone::Plain),
        _ => None,
    }
}
