//! The calibration database: the delays of modules and the asymmetries of fibres, as values, with the
//! calls that look a name up. The definitions say what a text of them must contain; the crate
//! `wrp_calibration_text` reads and writes such texts (this project's profile).
#![tactic(auto)]

mod copies;
mod database;
mod keys;
mod name;
mod place;
mod row;

pub use database::{CalDb, Entry, ListedFibre, ListedModule, Lists, Points, StoredTable};
pub use keys::{Others, Version};
pub use name::{is_identity, is_module_name, is_name, name_of};
pub use place::At;
pub use row::{Code, Linear, Need, Sort};
pub use wrp_base::ConfFault;
