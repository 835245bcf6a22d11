//! The command `migrate`: a calibration text of either version, taken whole from a source, and the text of
//! version 2 of the same database, which goes to a sink. It knows no network (this project's profile).
#![tactic(auto)]

mod input;
mod laws;
mod migrating;

pub use laws::{
    each_has_migration, migration_keeps, migration_size, one_migration, small_texts_fit,
};
pub use migrating::migrate;
