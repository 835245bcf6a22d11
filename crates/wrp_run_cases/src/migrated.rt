//! Cases on a run that writes a calibration text: the words and the input are as in a case `run`. If the status is 0,
//! what was written is read again, and what it says is expected: that it is of version 2, and a line for each entry,
//! the modules, the fibres and the tables each in the order of the text.
//!
//!     version = 2
//!     module NAME TX_NM RX_NM : TX RX TRANSITION ERR
//!     fibre NAME KAPPA ERR
//!     table NAME TABLE_ERR : X,Y X,Y ..
//!
//! A text that is refused is printed as `refused CODE PLACE`. What was written with another status is expected as is.
use crate::running::{AT_ONCE, borrowed, ran};
use std::alloc::{AllocError, Global};
use wrp_base::ConfFault;
use wrp_caldb::{CalDb, Entry, ListedFibre};
use wrp_calibration_text::ReadCalibration;
use wrp_run::Status;
use wrp_suite::{Answer, Case, Fault};

// The line of a text that says its version.
const VERSION: &str = "version = 2";

// Appends whether a text says its version.
fn tell_version(told: &mut String, octets: &[u8]) -> Result<(), AllocError> {
    let text = str::from_utf8(octets).unwrap_or("");
    if text.lines().any(|line| line == VERSION) {
        told.push_str(VERSION)?;
        told.push('\n')?;
    }
    Ok(())
}

// Appends an entry of a module.
fn tell_entry(
    alloc: Global,
    told: &mut String,
    name: &str,
    entry: &Entry,
) -> Result<(), AllocError> {
    let (tx_nm, rx_nm) = (entry.tx_nm, entry.rx_nm);
    let (tx, rx) = (entry.delays.tx, entry.delays.rx);
    let (transition, err) = (entry.delays.transition, entry.delays.err);
    let line = format!(in alloc; "module {name} {tx_nm} {rx_nm} : {tx} {rx} {transition} {err}\n")?;
    told.push_str(line.as_str())
}

// Appends a fibre's law.
fn tell_fibre(alloc: Global, told: &mut String, fibre: &ListedFibre) -> Result<(), AllocError> {
    let name = fibre.name();
    let (kappa, err) = (fibre.fibre().kappa, fibre.fibre().err);
    told.push_str(format!(in alloc; "fibre {name} {kappa} {err}\n")?.as_str())
}

// Appends a fibre's table, if it has one.
fn tell_table(alloc: Global, told: &mut String, fibre: &ListedFibre) -> Result<(), AllocError> {
    let Some((points, err)) = fibre.table() else {
        return Ok(());
    };
    let name = fibre.name();
    told.push_str(format!(in alloc; "table {name} {err} :")?.as_str())?;
    for (x, y) in points {
        let (x, y) = (*x, *y);
        told.push_str(format!(in alloc; " {x},{y}")?.as_str())?;
    }
    told.push('\n')
}

// Appends all entries of a database.
fn tell_database(alloc: Global, told: &mut String, db: &CalDb) -> Result<(), AllocError> {
    for module in db.modules() {
        for entry in module.entries() {
            tell_entry(alloc, told, module.name(), entry)?;
        }
    }
    for fibre in db.fibres() {
        tell_fibre(alloc, told, fibre)?;
    }
    for fibre in db.fibres() {
        tell_table(alloc, told, fibre)?;
    }
    Ok(())
}

// Appends why a text is refused. The fault is looked at and not taken apart: `place` stays where it is.
fn tell_fault(alloc: Global, told: &mut String, fault: &ConfFault) -> Result<(), Fault> {
    match fault {
        ConfFault::Fault { code, place } => {
            let (code, place) = (*code, place.as_str());
            Ok(told.push_str(format!(in alloc; "refused {code} {place}\n")?.as_str())?)
        }
        ConfFault::Memory(_) => Err(Fault::Memory),
    }
}

// Appends what a text that was written says.
fn tell_text(alloc: Global, told: &mut String, octets: &[u8]) -> Result<(), Fault> {
    match CalDb::read(alloc, octets) {
        Ok(db) => Ok(tell_database(alloc, told, &db)?),
        Err(fault) => tell_fault(alloc, told, &fault),
    }
}

/// What the text says that `run` writes.
pub fn answer(alloc: Global, case: &Case) -> Result<Answer, Fault> {
    let words = borrowed(alloc, &case.words)?;
    let ended = ran(alloc, &words, &case.input, AT_ONCE)?;
    if ended.status != Status::Done {
        return Ok(Answer {
            status: ended.status.number(),
            octets: ended.octets,
        });
    }
    let mut told = String::new(alloc);
    tell_version(&mut told, &ended.octets)?;
    tell_text(alloc, &mut told, &ended.octets)?;
    Ok(Answer::of(ended.status.number(), told))
}
