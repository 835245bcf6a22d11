//! The versions of a calibration text, and what happens to keys other than its own.

/// The version of a calibration text.
#[derive(Clone, Copy, Debug, PartialEq, Eq)]
pub enum Version {
    /// A module has one set of numbers.
    One,
    /// A module has a set of numbers for each pair of wavelengths.
    Two,
}

/// What happens to keys of the top that no calibration text has.
#[derive(Clone, Copy, Debug, PartialEq, Eq)]
pub enum Others {
    /// They are unknown keys.
    Refused,
    /// They are ignored.
    Ignored,
}
