//! Why a line, a network file or a calibration text was refused.
use arrayvec::ArrayString;
use std::alloc::AllocError;
use thiserror::Error;

/// Why a network file or a calibration text was refused (codes and places are this project's
/// profile).
#[derive(Debug, Drop, Error)]
pub enum ConfFault {
    /// The text has a fault: the least code that it has, at the first place that has this code.
    #[error("fault {code} at {place}")]
    Fault {
        /// 1 Syntax, 2 UnknownKey, 3 Missing, 4 Range, 5 Twice, 7 NotATree, 8 TwoSlaves, 9 TooDeep,
        /// 10 Clash.
        code: u8,
        /// The key, the table or the inequality, as `node.2.slew`; `-` for Syntax.
        place: ArrayString<96>,
    },
    /// Out of memory.
    #[error("out of memory")]
    Memory(AllocError),
}

/// Why a line is no record. A field is given by its place from 1.
#[derive(Debug, Drop, Error)]
pub enum TraceFault {
    /// 1: the line is malformed, or has another number of fields.
    #[error("the line is malformed, or has another number of fields")]
    Fields,
    /// 2: the first field is no known kind.
    #[error("the first field is no known kind")]
    Kind,
    /// 3: a field is no number, or out of its range.
    #[error("field {field} is no number, or out of its range")]
    Number {
        /// Which field, from 1.
        field: u32,
    },
    /// 4: a field is no known name.
    #[error("field {field} is no known name")]
    Name {
        /// Which field, from 1.
        field: u32,
    },
    /// Out of memory.
    #[error("out of memory")]
    Memory(AllocError),
}
