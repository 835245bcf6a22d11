//! Laws of databases, for the crates that use them. Each function computes nothing.
ghost use Rattle.wrp_calibration_text.specs.Text.{OneText, EachHasText};

/// A database has one text: two lists of octets that are what `toml` writes for it are the same.
pub fn one_text()
    ensures { OneText }
{}

/// The database of an accepted text has a text.
pub fn each_has_text()
    ensures { EachHasText }
{}
