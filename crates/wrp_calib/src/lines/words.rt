//! The words that a run's line begins with.
ghost use Rattle.std.specs.Prelude.{◌≡◌};
ghost use Rattle.std.specs.List.{find};
ghost use Rattle.wrp_calib.specs.Lines.{all_kinds, is_word, kind_named, word_of};

use crate::run::RunKind;

// The kinds of runs.
fn all_kinds() -> [RunKind; 3]
    ensures { result ≡ all_kinds }
{
    [RunKind::Ref, RunKind::Straight, RunKind::Swapped]
}

/// The word of a kind of runs.
pub fn word_of(kind: RunKind) -> &'static str
    ensures { result.now ≡ word_of kind }
{
    match kind {
        RunKind::Ref => "ref",
        RunKind::Straight => "straight",
        RunKind::Swapped => "swapped",
    }
}

// Whether this is the word of a kind of runs.
fn is_word_of(kind: RunKind, text: &[u8]) -> bool
    ensures { result ≡ is_word (word_of kind) text.now }
{
    word_of(kind).as_bytes() == text
}

// The first of some kinds that a word names.
fn among(kinds: &[RunKind], text: &[u8]) -> Option<RunKind>
    ensures { result ≡ find (λ kind. is_word (word_of kind) text.now) kinds.now }
{
    kinds.iter().copied().find(|kind| is_word_of(*kind, text))
}

/// The kind of runs that a word names. None if and only if it names none.
pub fn kind_named(text: &[u8]) -> Option<RunKind>
    ensures { result ≡ kind_named text.now }
{
    among(all_kinds().as_slice(), text)
}
