//! What is printed of a case: for each line of its input what followed from it, a line each, all but the first with
//! `and` before it; or `-` if nothing followed.
use std::alloc::{AllocError, Global};
use wrp_suite::{Answer, Case, Fault};

/// What followed from the lines so far.
#[derive(Drop)]
pub struct Told {
    text: String,
    // Whether something followed from the newest line.
    some: bool,
}

impl Told {
    /// Before the first line.
    pub fn new(alloc: Global) -> Told {
        Told {
            text: String::new(alloc),
            some: false,
        }
    }

    /// Something followed from the newest line.
    pub fn push(&mut self, what: &str) -> Result<(), AllocError> {
        if self.some {
            self.text.push_str("and ")?;
        }
        self.text.push_str(what)?;
        self.text.push('\n')?;
        self.some = true;
        Ok(())
    }

    /// Nothing more follows from the newest line.
    pub fn end(&mut self) -> Result<(), AllocError> {
        if !self.some {
            self.text.push_str("-\n")?;
        }
        self.some = false;
        Ok(())
    }

    /// What a case answers with this text.
    pub fn answer(self) -> Answer {
        Answer::of(0, self.text)
    }
}

/// The input of a case as a text.
pub fn text_of(case: &Case) -> Result<&str, Fault> {
    str::from_utf8(&case.input).ok().ok_or(Fault::Input)
}
