//! Why a line of a case file, or a case, is refused.
use std::alloc::{AllocError, AllocFailed};
use std::fmt;

/// Why a line of a case file, or a case, is refused.
#[derive(Clone, Copy)]
pub enum Fault {
    /// There was no memory.
    Memory,
    /// The line begins with no word that is known.
    Word,
    /// A number is none, or too large.
    Number,
    /// Octets are no hex.
    Hex,
    /// There is no earlier text of this name.
    NoText,
    /// There is an earlier text of this name.
    Twice,
    /// The part that is to be replaced does not appear in the input.
    NoPart,
    /// The words or the input of the case are none that its call takes.
    Input,
    /// The condition of the call does not hold.
    Condition,
}

impl fmt::Display for Fault {
    fn fmt<W: fmt::Write>(&self, f: &mut fmt::Formatter<W>) -> fmt::Result {
        let text = match self {
            Fault::Memory => "out of memory",
            Fault::Word => "no line of a case file",
            Fault::Number => "no number",
            Fault::Hex => "no hex",
            Fault::NoText => "no such text",
            Fault::Twice => "a text of this name stands before",
            Fault::NoPart => "the part to be replaced is not in the input",
            Fault::Input => "no words or input of such a case",
            Fault::Condition => "the condition of the call does not hold",
        };
        f.write_str(text)
    }
}

impl From<AllocError> for Fault {
    fn from(_e: AllocError) -> Fault {
        Fault::Memory
    }
}

impl<T: Drop> From<AllocFailed<T>> for Fault {
    fn from(_e: AllocFailed<T>) -> Fault {
        Fault::Memory
    }
}
