//! The phase detector of a White Rabbit slave, exact to the last tau: `deglitch` reads a tag from a
//! base and 64 beat bits, and `Unwrap` adds the tags up to an unwrapped phase. Both rules and the
//! error statement of a tag are this project's profile.
#![tactic(auto)]

mod detector;
mod error_statement;
mod unwrap;

pub use detector::deglitch;
pub use error_statement::tag_within_detector_error;
pub use unwrap::Unwrap;
