//! Cases on the calibration database: the input is a calibration text (`database`, for `CalDb::read`), or a text with
//! other keys beside it (`database_in`, for `CalDb::from_table`). If it is accepted, a line is expected for each word
//! of the case:
//!
//!     module.NAME              the numbers of a module for any pair of wavelengths
//!     module.NAME:TX_NM:RX_NM  the numbers for a pair
//!     fibre.NAME               the asymmetry of a fibre, and its error
//!     table.NAME               the error of its stored law, and the points
//!     modules, fibres          the names in the order of the text
//!
//! `none` is printed if nothing is found. The last line says whether the database of the text that `CalDb::text` makes
//! of it gives the same. If it is refused, the code of the fault is expected, and a line with its place.
use crate::modules::push_module;
use crate::refusal::answer_of;
use crate::telling::{push_name, push_none, push_points};
use crate::words::{natural, text_of};
use std::alloc::{AllocError, Global};
use wrp_base::{ConfFault, Fibre, Module};
use wrp_caldb::CalDb;
use wrp_calibration_text::{ReadCalibration, WriteCalibration};
use wrp_suite::{Answer, Case, Fault};

// A wavelength.
fn wavelength_of(word: &str) -> Option<u16> {
    match natural(word, 0, 65_535) {
        Ok(nm) => Some(nm as u16),
        Err(_) => None,
    }
}

// A module, by its name and two wavelengths.
fn module_of(db: &CalDb, name: &str) -> Option<Module> {
    let Some((name, pair)) = name.split_once(':') else {
        return db.module(name);
    };
    let (tx_nm, rx_nm) = pair.split_once(':')?;
    db.module_at(name, wavelength_of(tx_nm)?, wavelength_of(rx_nm)?)
}

// Appends the line of a fibre.
fn tell_fibre(text: &mut String, word: &str, found: Option<Fibre>) -> Result<(), AllocError> {
    match found {
        Some(Fibre { kappa, err }) => write!(text, "{word} kappa {kappa} err {err}\n"),
        None => push_none(text, word),
    }
}

// Appends the line of a stored law.
fn tell_table(text: &mut String, db: &CalDb, word: &str, name: &str) -> Result<(), AllocError> {
    let Some((points, err)) = db.table(name) else {
        return push_none(text, word);
    };
    write!(text, "{word} err {err} points")?;
    push_points(text, points)
}

// Appends the line of the names of all modules.
fn tell_modules(text: &mut String, db: &CalDb) -> Result<(), AllocError> {
    text.push_str("modules")?;
    for module in db.modules() {
        push_name(text, module.name())?;
    }
    text.push('\n')
}

// Appends the line of the names of all fibres.
fn tell_fibres(text: &mut String, db: &CalDb) -> Result<(), AllocError> {
    text.push_str("fibres")?;
    for fibre in db.fibres() {
        push_name(text, fibre.name())?;
    }
    text.push('\n')
}

// Appends the line of the names of all modules, or of all fibres.
fn tell_list(text: &mut String, db: &CalDb, word: &str) -> Result<(), AllocError> {
    match word {
        "modules" => tell_modules(text, db),
        "fibres" => tell_fibres(text, db),
        _ => push_none(text, word),
    }
}

// Appends the line of a word.
fn tell(text: &mut String, db: &CalDb, word: &str) -> Result<(), AllocError> {
    match word.split_once('.') {
        Some(("module", name)) => push_module(text, word, module_of(db, name)),
        Some(("fibre", name)) => tell_fibre(text, word, db.fibre(name)),
        Some(("table", name)) => tell_table(text, db, word, name),
        Some(_) => push_none(text, word),
        None => tell_list(text, db, word),
    }
}

// Appends the lines of the words.
fn tell_all(text: &mut String, db: &CalDb, words: &[String]) -> Result<(), AllocError> {
    for word in words {
        tell(text, db, word.as_str())?;
    }
    Ok(())
}

// Whether the lines of the words are these.
fn tells(alloc: Global, db: &CalDb, words: &[String], told: &str) -> Result<bool, AllocError> {
    let mut text = String::new(alloc);
    tell_all(&mut text, db, words)?;
    Ok(text.as_str() == told)
}

// Whether the database that the text of another gives has these lines.
fn reads_back(alloc: Global, db: &CalDb, words: &[String], told: &str) -> Result<bool, ConfFault> {
    let written = db.text(alloc).map_err(ConfFault::Memory)?;
    let again = CalDb::read(alloc, &written)?;
    tells(alloc, &again, words, told).map_err(ConfFault::Memory)
}

// What is printed of a database that was read, and of the one that its own text gives.
fn answer_of_database(alloc: Global, db: &CalDb, words: &[String]) -> Result<Answer, Fault> {
    let mut text = String::new(alloc);
    tell_all(&mut text, db, words)?;
    let told = match reads_back(alloc, db, words, text.as_str()) {
        Ok(true) => "reads back\n",
        Ok(false) => "reads back otherwise\n",
        Err(fault) => return answer_of(alloc, &fault),
    };
    text.push_str(told)?;
    Ok(Answer::of(0, text))
}

// What is printed of a database, or of the fault of its text.
fn answer_to(
    alloc: Global,
    read: Result<CalDb, ConfFault>,
    words: &[String],
) -> Result<Answer, Fault> {
    match read {
        Ok(db) => answer_of_database(alloc, &db, words),
        Err(fault) => answer_of(alloc, &fault),
    }
}

/// What `CalDb::read` answers.
pub fn answer(alloc: Global, case: &Case) -> Result<Answer, Fault> {
    answer_to(alloc, CalDb::read(alloc, &case.input), &case.words)
}

/// What `CalDb::from_table` answers.
pub fn answer_in(alloc: Global, case: &Case) -> Result<Answer, Fault> {
    let Ok(doc) = toml::table_from_str(alloc, text_of(case)?) else {
        return Err(Fault::Input);
    };
    answer_to(alloc, CalDb::from_table(alloc, &doc), &case.words)
}
