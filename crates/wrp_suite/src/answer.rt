//! What a call answers.

/// What a call answers: a number, and octets.
#[derive(Drop)]
pub struct Answer {
    /// 0, or the number of a fault, a code or a status.
    pub status: u8,
    /// What was written or found.
    pub octets: Vec<u8>,
}

impl Answer {
    /// The answer of a text.
    pub fn of(status: u8, text: String) -> Answer {
        Answer {
            status,
            octets: text.into_bytes(),
        }
    }
}
