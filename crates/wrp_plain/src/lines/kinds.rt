//! The kinds of lines after the first.
ghost use Rattle.std.specs.Prelude.{◌≡◌};
ghost use Rattle.std.specs.List.{find};
ghost use Rattle.wrp_plain.specs.LineKinds.{word_of, field_count, kind_of, all_kinds, same_word};

/// A kind of line after the first.
#[derive(Clone, Copy, Default)]
pub enum LineKind {
    /// Time passes.
    Pass,
    /// The servo ticks.
    #[default]
    Tick,
    /// An exchange ends.
    Exch,
}

impl LineKind {
    /// The word that a line of this kind begins with.
    pub fn word(self) -> &'static str
        ensures { result.now ≡ word_of self }
    {
        match self {
            LineKind::Pass => "pass",
            LineKind::Tick => "tick",
            LineKind::Exch => "exch",
        }
    }

    /// How many fields a line of this kind has, its word among them.
    pub fn field_count(self) -> usize
        ensures { result ≡ field_count self }
    {
        match self {
            LineKind::Pass => 3,
            LineKind::Tick => 1,
            LineKind::Exch => 10,
        }
    }
}

// All kinds.
fn all_kinds() -> [LineKind; 3]
    ensures { result ≡ all_kinds }
{
    [LineKind::Pass, LineKind::Tick, LineKind::Exch]
}

// Whether this is the word of a kind.
fn is_word(kind: LineKind, word: &[u8]) -> bool
    ensures { result ≡ same_word (word_of kind) word.now }
{
    kind.word().as_bytes() == word
}

// The first of some kinds whose word this is.
fn among(kinds: &[LineKind], word: &[u8]) -> Option<LineKind>
    ensures { result ≡ find (λ kind. same_word (word_of kind) word.now) kinds.now }
{
    kinds.iter().copied().find(|kind| is_word(*kind, word))
}

/// The kind of a line after the first, by its first field. None if and only if no kind has this word.
pub fn kind_of(word: &[u8]) -> Option<LineKind>
    ensures { result ≡ kind_of word.now }
{
    among(all_kinds().as_slice(), word)
}
