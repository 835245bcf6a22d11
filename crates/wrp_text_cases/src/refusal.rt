//! What is printed of a text that is refused: the number is its code, and the line its place.
use std::alloc::Global;
use wrp_base::ConfFault;
use wrp_suite::{Answer, Fault};

/// What is printed of a fault. It is looked at and not taken apart: `place` stays where it is.
pub fn answer_of(alloc: Global, fault: &ConfFault) -> Result<Answer, Fault> {
    match fault {
        ConfFault::Fault { code, place } => {
            let place = place.as_str();
            Ok(Answer::of(*code, format!(in alloc; "{place}\n")?))
        }
        ConfFault::Memory(_) => Err(Fault::Memory),
    }
}
