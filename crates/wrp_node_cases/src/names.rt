//! How the words of links, the states of a servo and reasons are written.
use wrp_base::{LinkState, LinkWord, ServoState};
use wrp_data::Reason;

// How a state of a handshake is written. No port has the word of IDLE.
fn name_of_state(state: LinkState) -> &'static str {
    match state {
        LinkState::Idle => "idle",
        LinkState::Present => "present",
        LinkState::SLock => "s-lock",
        LinkState::MLock => "m-lock",
        LinkState::Locked => "locked",
        LinkState::Calibration => "calibration",
        LinkState::Calibrated => "calibrated",
        LinkState::RespCalib => "resp-calib",
        LinkState::LinkOn => "link-on",
    }
}

/// How the word of a link is written.
pub fn name_of_word(word: LinkWord) -> &'static str {
    match word {
        LinkWord::Down => "down",
        LinkWord::Quiet => "quiet",
        LinkWord::Ptp => "ptp",
        LinkWord::In(state) => name_of_state(state),
    }
}

/// How a state of the servo is written.
pub fn name_of_servo(state: ServoState) -> &'static str {
    match state {
        ServoState::Uninit => "uninit",
        ServoState::SyncTai => "sync-tai",
        ServoState::SyncNsec => "sync-nsec",
        ServoState::SyncPhase => "sync-phase",
        ServoState::WaitStable => "wait-stable",
        ServoState::Track => "track",
        ServoState::Holdover => "holdover",
    }
}

/// The name of the reason of a number.
pub fn name_of_reason(number: u8) -> &'static str {
    match Reason::from_number(number) {
        Some(reason) => reason.name(),
        None => "none",
    }
}
