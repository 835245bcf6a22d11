//! The words of a port and the states of a servo.
use wrp_base::{LinkState, LinkWord, ServoState};

/// The word of a port.
pub fn link_word(text: &str) -> Option<LinkWord> {
    match text {
        "down" => Some(LinkWord::Down),
        "quiet" => Some(LinkWord::Quiet),
        "ptp" => Some(LinkWord::Ptp),
        _ => Some(LinkWord::In(link_state(text)?)),
    }
}

// The state of link setup.
fn link_state(text: &str) -> Option<LinkState> {
    match text {
        "present" => Some(LinkState::Present),
        "s-lock" => Some(LinkState::SLock),
        "m-lock" => Some(LinkState::MLock),
        "locked" => Some(LinkState::Locked),
        "calibration" => Some(LinkState::Calibration),
        "calibrated" => Some(LinkState::Calibrated),
        "resp-calib" => Some(LinkState::RespCalib),
        "link-on" => Some(LinkState::LinkOn),
        _ => None,
    }
}

/// The state of a servo.
pub fn servo_state(text: &str) -> Option<ServoState> {
    match text {
        "uninit" => Some(ServoState::Uninit),
        "sync-tai" => Some(ServoState::SyncTai),
        "sync-nsec" => Some(ServoState::SyncNsec),
        "sync-phase" => Some(ServoState::SyncPhase),
        "wait-stable" => Some(ServoState::WaitStable),
        "track" => Some(ServoState::Track),
        "holdover" => Some(ServoState::Holdover),
        _ => None,
    }
}
