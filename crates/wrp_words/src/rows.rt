//! The table of commands, as a law.
ghost use Rattle.wrp_words.specs.Rows.{LinesAreOfRows};

/// The usage line, the forms of a command line and what `clap` knows of it are given by one table: a
/// row for each command, with its name and its option. It does nothing when it runs.
pub fn lines_are_of_rows()
    ensures { LinesAreOfRows }
{}
