//! The words of the states of link setup, as the lines of a node have them.
use wrp_base::{LinkState, LinkWord};
use wrp_suite::Fault;

/// The state of a word.
pub fn state_of(word: &str) -> Result<LinkState, Fault> {
    match word {
        "idle" => Ok(LinkState::Idle),
        "present" => Ok(LinkState::Present),
        "s-lock" => Ok(LinkState::SLock),
        "m-lock" => Ok(LinkState::MLock),
        "locked" => Ok(LinkState::Locked),
        "calibration" => Ok(LinkState::Calibration),
        "calibrated" => Ok(LinkState::Calibrated),
        "resp-calib" => Ok(LinkState::RespCalib),
        "link-on" => Ok(LinkState::LinkOn),
        _ => Err(Fault::Input),
    }
}

/// The word of a state.
pub fn state_text(state: LinkState) -> &'static str {
    match state {
        LinkState::Idle => "idle",
        LinkState::Present => "present",
        LinkState::SLock => "s-lock",
        LinkState::MLock => "m-lock",
        LinkState::Locked => "locked",
        LinkState::Calibration => "calibration",
        LinkState::Calibrated => "calibrated",
        LinkState::RespCalib => "resp-calib",
        LinkState::LinkOn => "link-on",
    }
}

/// The word that a port reports of its link.
pub fn word_text(word: LinkWord) -> &'static str {
    match word {
        LinkWord::Down => "down",
        LinkWord::Quiet => "quiet",
        LinkWord::Ptp => "ptp",
        LinkWord::In(state) => state_text(state),
    }
}
