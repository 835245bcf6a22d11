//! The kinds of the lines of `l1sync`.
ghost use Rattle.std.specs.Prelude.{◌≡◌, codes};
ghost use Rattle.std.specs.List.{find};
ghost use Rattle.wrp_l1sync.specs.LineKinds.{same_word, word_of, field_count, all_kinds, kind_of};

/// A kind of event.
#[derive(Clone, Copy, Default)]
pub enum EventKind {
    /// Time passes.
    #[default]
    Pass,
    /// An end ticks.
    Tick,
    /// An end is enabled.
    Enable,
    /// An end is disabled.
    Disable,
    /// An end gets its own message.
    Own,
    /// A message is handed over.
    Deliver,
}

impl EventKind {
    /// The word that a line of this kind begins with.
    pub fn word(self) -> &'static str
        ensures { result.now ≡ word_of self }
    {
        match self {
            EventKind::Pass => "pass",
            EventKind::Tick => "tick",
            EventKind::Enable => "enable",
            EventKind::Disable => "disable",
            EventKind::Own => "own",
            EventKind::Deliver => "deliver",
        }
    }

    /// How many fields a line of this kind has, its word among them.
    pub fn field_count(self) -> usize
        ensures { result ≡ field_count self }
    {
        match self {
            EventKind::Pass | EventKind::Tick | EventKind::Enable | EventKind::Disable => 2,
            EventKind::Deliver => 3,
            EventKind::Own => 4,
        }
    }
}

// All kinds.
fn all_kinds() -> [EventKind; 6]
    ensures { result ≡ all_kinds }
{
    [
        EventKind::Pass,
        EventKind::Tick,
        EventKind::Enable,
        EventKind::Disable,
        EventKind::Own,
        EventKind::Deliver,
    ]
}

// Whether this is the word of a kind.
fn is_word(kind: EventKind, word: &[u8]) -> bool
    ensures { result ≡ same_word (word_of kind) word.now }
{
    kind.word().as_bytes() == word
}

// The first of some kinds whose word this is.
fn among(kinds: &[EventKind], word: &[u8]) -> Option<EventKind>
    ensures { result ≡ find (λ kind. same_word (word_of kind) word.now) kinds.now }
{
    kinds.iter().copied().find(|kind| is_word(*kind, word))
}

/// The kind of an event, by the first field of its line. None if and only if no kind has this word.
pub fn kind_of(word: &[u8]) -> Option<EventKind>
    ensures { result ≡ kind_of word.now }
{
    among(all_kinds().as_slice(), word)
}

/// Whether this is the word that the first line begins with.
pub fn is_param(word: &[u8]) -> bool
    ensures { result ≡ same_word (codes "param") word.now }
{
    b"param".as_slice() == word
}
