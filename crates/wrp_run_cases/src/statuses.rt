//! Cases on the number of a status: its word is the status's name.
use std::alloc::Global;
use wrp_run::Status;
use wrp_suite::{Answer, Case, Fault};

// The status of a name.
fn status_of(name: &str) -> Option<Status> {
    match name {
        "Done" => Some(Status::Done),
        "Usage" => Some(Status::Usage),
        "BadNetwork" => Some(Status::BadNetwork),
        "BadTrace" => Some(Status::BadTrace),
        "Broken" => Some(Status::Broken),
        "ReadFault" => Some(Status::ReadFault),
        "WriteFault" => Some(Status::WriteFault),
        "LinkFault" => Some(Status::LinkFault),
        "TooLarge" => Some(Status::TooLarge),
        "OutOfMemory" => Some(Status::OutOfMemory),
        "BadCapture" => Some(Status::BadCapture),
        "BadCalib" => Some(Status::BadCalib),
        _ => None,
    }
}

/// The number of a status.
pub fn answer(alloc: Global, case: &Case) -> Result<Answer, Fault> {
    let [name] = case.words.as_slice() else {
        return Err(Fault::Input);
    };
    match status_of(name.as_str()) {
        Some(status) => Ok(Answer::of(status.number(), String::new(alloc))),
        None => Err(Fault::Input),
    }
}
