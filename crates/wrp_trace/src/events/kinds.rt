//! The kinds of event lines.
ghost use Rattle.std.specs.Prelude.{◌≡◌};
ghost use Rattle.wrp_trace.specs.EventKinds.{word_of, may_have, kind_of};

/// A kind of event line.
#[derive(Clone, Copy, Debug, Default, PartialEq, Eq)]
pub enum EventKind {
    /// True time passes.
    #[default]
    Pass,
    /// A node's clock ticks.
    Tick,
    /// A node takes a sample.
    Sample,
    /// A frame is put on a fibre.
    Depart,
    /// A frame reaches the other end.
    Arrive,
    /// A frame is given to its receiver.
    Deliver,
    /// Octets come that the peer did not send.
    Noise,
    /// A node goes down.
    Down,
    /// A node comes up.
    Up,
    /// A link is cut.
    Cut,
    /// A link is joined.
    Join,
}

impl EventKind {
    /// The word that a line of this kind begins with.
    pub fn word(self) -> &'static str
        ensures { result.now ≡ word_of self }
    {
        match self {
            EventKind::Pass => "pass",
            EventKind::Tick => "tick",
            EventKind::Sample => "sample",
            EventKind::Depart => "depart",
            EventKind::Arrive => "arrive",
            EventKind::Deliver => "deliver",
            EventKind::Noise => "noise",
            EventKind::Down => "down",
            EventKind::Up => "up",
            EventKind::Cut => "cut",
            EventKind::Join => "join",
        }
    }

    /// Whether a line of this kind may have so many fields, its word among them.
    pub fn may_have(self, count: usize) -> bool
        ensures { result ≡ may_have self count }
    {
        match self {
            EventKind::Pass => 2 <= count,
            EventKind::Tick => count == 2,
            EventKind::Sample => count == 4,
            EventKind::Depart => count == 4,
            EventKind::Arrive => count == 5,
            EventKind::Deliver => count == 2,
            EventKind::Noise => count == 7,
            EventKind::Down => count == 2,
            EventKind::Up => 3 <= count && count <= 21,
            EventKind::Cut => count == 2,
            EventKind::Join => count == 4,
        }
    }
}

/// The kind of a line, by its first field. None if and only if no kind has this word.
#[tactic(auto, unfolding(crate::specs::EventKinds::kind_of))]
pub fn kind_of(word: &[u8]) -> Option<EventKind>
    ensures { result ≡ kind_of word.now }
{
    match word {
        b"pass" => Some(EventKind::Pass),
        b"tick" => Some(EventKind::Tick),
        b"sample" => Some(EventKind::Sample),
        b"depart" => Some(EventKind::Depart),
        b"arrive" => Some(EventKind::Arrive),
        b"deliver" => Some(EventKind::Deliver),
        b"noise" => Some(EventKind::Noise),
        b"down" => Some(EventKind::Down),
        b"up" => Some(EventKind::Up),
        b"cut" => Some(EventKind::Cut),
        b"join" => Some(EventKind::Join),
        _ => None,
    }
}
