//! The kinds of input lines.
ghost use Rattle.std.specs.Prelude.{◌≡◌, IfSome, true};
ghost use Rattle.wrp_trace.specs.Kinds.{word_of, field_count, has_kind, kind_of};
ghost use Rattle.wrp_trace.specs.LineSetting.{line_setting_of};

use crate::line_setting::is_grandmaster;
use wrp_config::Network;

/// A kind of input line.
#[derive(Clone, Copy, Debug, Default, PartialEq, Eq)]
pub enum InputKind {
    /// A tick of the node's clock.
    #[default]
    Tick,
    /// A sample of the phase detector.
    Sample,
    /// A frame that came.
    Frame,
    /// The sending of a frame is reported.
    Sent,
    /// A port's carrier comes.
    Up,
    /// A port's carrier goes.
    Down,
    /// The node starts again.
    Reset,
}

impl InputKind {
    /// The word that a line of this kind begins with.
    pub fn word(self) -> &'static str
        ensures { result.now ≡ word_of self }
    {
        match self {
            InputKind::Tick => "tick",
            InputKind::Sample => "sample",
            InputKind::Frame => "frame",
            InputKind::Sent => "sent",
            InputKind::Up => "up",
            InputKind::Down => "down",
            InputKind::Reset => "reset",
        }
    }

    /// How many fields a line of this kind has, its word among them.
    pub fn field_count(self) -> usize
        ensures { result ≡ field_count self }
    {
        match self {
            InputKind::Tick | InputKind::Reset => 1,
            InputKind::Down => 2,
            InputKind::Up => 3,
            InputKind::Sample => 4,
            InputKind::Sent => 6,
            InputKind::Frame => 7,
        }
    }
}

// Whether a node has lines of a kind.
fn has_kind(net: &Network, node: u8, kind: InputKind) -> bool
    ensures { result ≡ has_kind (line_setting_of net.now node) kind }
{
    match kind {
        InputKind::Sample => !is_grandmaster(net, node),
        _ => true,
    }
}

/// The kind of a line at a node, by its first field. None if and only if the node has no kind with
/// this word.
#[tactic(auto, unfolding(crate::specs::Kinds::kind_of))]
pub fn kind_of(net: &Network, node: u8, word: &[u8]) -> Option<InputKind>
    ensures value { result ≡ kind_of (line_setting_of net.now node) word.now }
    ensures here { IfSome result (λ kind. has_kind (line_setting_of net.now node) kind ≡ true) }
{
    let kind = match word {
        b"tick" => InputKind::Tick,
        b"sample" => InputKind::Sample,
        b"frame" => InputKind::Frame,
        b"sent" => InputKind::Sent,
        b"up" => InputKind::Up,
        b"down" => InputKind::Down,
        b"reset" => InputKind::Reset,
        _ => return None,
    };
    if has_kind(net, node, kind) {
        Some(kind)
    } else {
        None
    }
}
