//! Calibration texts: TOML in which a calibration laboratory describes modules and fibres, read into
//! the database of `wrp_caldb` and written from it, and every mistake in such a text with its code and
//! its place (this project's profile). The rows, places and refusals also serve the network file.
#![tactic(auto)]

mod faults;
mod judging;
mod keys;
mod laws;
mod met;
mod place;
mod points;
mod reading;
mod repeats;
mod row;
mod sort;
mod text;
mod value;

pub use faults::{is_at_fault, place_in_table, place_of_keys, place_of_others};
pub use judging::{place_in_lists, refusal};
pub use keys::{fibre_row, module_row, version_of, version_row};
pub use laws::{each_has_text, one_text};
pub use place::Place;
pub use points::{is_table_of_points, stored_points};
pub use reading::{ReadCalibration, fault_at, lists_of, name_at, natural, number, syntax};
pub use repeats::{name_in, place_of_name};
pub use row::Row;
pub use sort::{fits, number_at};
pub use text::WriteCalibration;
pub use value::{array_of, tables_at, value_at};
pub use wrp_base::ConfFault;
