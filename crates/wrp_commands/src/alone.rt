//! Commands that stand alone.

/// A command that stands alone: its line is one word, and no network text comes before its records.
#[derive(Clone, Copy, Debug, PartialEq, Eq)]
pub enum Alone {
    /// `migrate`.
    Migrate,
    /// `inspect`.
    Inspect,
    /// `l1sync`.
    L1Sync,
    /// `calibrate`.
    Calibrate,
    /// `plain`.
    Plain,
}
