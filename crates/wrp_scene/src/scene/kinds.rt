//! The kinds of scenario lines.
ghost use Rattle.std.specs.Prelude.{◌≡◌};
ghost use Rattle.std.specs.List.{find};
ghost use Rattle.wrp_caldb.specs.Name.{same_name};
ghost use Rattle.wrp_scene.specs.ScenarioKinds.{word_of, field_count, kind_of, all_kinds};

/// A kind of scenario line.
#[derive(Clone, Copy, Debug, Default, PartialEq, Eq)]
pub enum SceneKind {
    /// For how long the network runs.
    #[default]
    Length,
    /// The delay of both ways of a link's fibre.
    Fibre,
    /// The offset of a node's clock when the node comes up.
    Offset,
    /// The rate of a node's clock at rest.
    Free,
    /// How many of 1000 arrivals are lost.
    Loss,
    /// How many of 1000 arrivals come twice.
    Repeat,
    /// A fault.
    Fault,
}

impl SceneKind {
    /// The word that a line of this kind begins with.
    pub fn word(self) -> &'static str
        ensures { result.now ≡ word_of self }
    {
        match self {
            SceneKind::Length => "length",
            SceneKind::Fibre => "fibre",
            SceneKind::Offset => "offset",
            SceneKind::Free => "free",
            SceneKind::Loss => "loss",
            SceneKind::Repeat => "repeat",
            SceneKind::Fault => "fault",
        }
    }

    /// How many fields a line of this kind has, its word among them.
    pub fn field_count(self) -> usize
        ensures { result ≡ field_count self }
    {
        match self {
            SceneKind::Length | SceneKind::Loss | SceneKind::Repeat => 2,
            SceneKind::Fibre | SceneKind::Offset | SceneKind::Free => 3,
            SceneKind::Fault => 4,
        }
    }
}

// All kinds.
fn all_kinds() -> [SceneKind; 7]
    ensures { result ≡ all_kinds }
{
    [
        SceneKind::Length,
        SceneKind::Fibre,
        SceneKind::Offset,
        SceneKind::Free,
        SceneKind::Loss,
        SceneKind::Repeat,
        SceneKind::Fault,
    ]
}

// Whether this is the word of a kind.
fn is_word(kind: SceneKind, word: &[u8]) -> bool
    ensures { result ≡ same_name (word_of kind) word.now }
{
    kind.word().as_bytes() == word
}

// The first of some kinds whose word this is.
fn among(kinds: &[SceneKind], word: &[u8]) -> Option<SceneKind>
    ensures { result ≡ find (λ kind. same_name (word_of kind) word.now) kinds.now }
{
    kinds.iter().copied().find(|kind| is_word(*kind, word))
}

/// The kind of a line, by its first field. None if and only if no kind has this word.
pub fn kind_of(word: &[u8]) -> Option<SceneKind>
    ensures { result ≡ kind_of word.now }
{
    among(all_kinds().as_slice(), word)
}
