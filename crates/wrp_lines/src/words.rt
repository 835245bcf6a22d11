//! How nodes, the words of links, the states of servos and reasons are written.
ghost use Rattle.std.specs.Prelude.{◌≡◌, ◌<◌, ◌≤◌};
ghost use Rattle.wrp_network.specs.Network.{name_at, node_count};
ghost use Rattle.wrp_lines.specs.Words.{link_word, reason_word, servo_word};

use wrp_base::{LinkState, LinkWord, ServoState};
use wrp_data::Reason;
use wrp_network::NetCfg;

/// The name of the node with this number.
pub fn name_of_node(cfg: &NetCfg, node: u8) -> &str
    requires { node < node_count cfg.now }
    ensures { result.now ≡ name_at cfg.now node }
{
    cfg.nodes[usize::from(node)].name.as_str()
}

/// How a link word is written. No port has the word of IDLE; it would be the word of plain PTP.
pub fn text_of_link(word: LinkWord) -> &'static str
    ensures { result.now ≡ link_word word }
{
    match word {
        LinkWord::Down => "down",
        LinkWord::Quiet => "quiet",
        LinkWord::Ptp => "ptp",
        LinkWord::In(LinkState::Idle) => "ptp",
        LinkWord::In(LinkState::Present) => "present",
        LinkWord::In(LinkState::SLock) => "s-lock",
        LinkWord::In(LinkState::MLock) => "m-lock",
        LinkWord::In(LinkState::Locked) => "locked",
        LinkWord::In(LinkState::Calibration) => "calibration",
        LinkWord::In(LinkState::Calibrated) => "calibrated",
        LinkWord::In(LinkState::RespCalib) => "resp-calib",
        LinkWord::In(LinkState::LinkOn) => "link-on",
    }
}

/// How a state of the servo is written.
pub fn text_of_servo(state: ServoState) -> &'static str
    ensures { result.now ≡ servo_word state }
{
    match state {
        ServoState::Uninit => "uninit",
        ServoState::SyncTai => "sync-tai",
        ServoState::SyncNsec => "sync-nsec",
        ServoState::SyncPhase => "sync-phase",
        ServoState::WaitStable => "wait-stable",
        ServoState::Track => "track",
        ServoState::Holdover => "holdover",
    }
}

/// The name of the reason with this number, 1 to 15.
#[tactic(auto, using(crate::proofs::Reasons::word_of_number))]
pub fn name_of_reason(number: u8) -> &'static str
    requires least { 1 ≤ number }
    requires greatest { number ≤ 15 }
    ensures { result.now ≡ reason_word number }
{
    match Reason::from_number(number) {
        Some(reason) => reason.name(),
        None => "",
    }
}
