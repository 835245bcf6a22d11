//! Reading a calibration text into its database.
ghost use Rattle.std.specs.Prelude.{◌≡◌, ◌≤◌, ℕ, IfOk, Some, None, map, option_map, option_copied};
ghost use Rattle.std.specs.Str.{IsUtf8};
ghost use Rattle.toml.specs.View.{view, table_view};
ghost use Rattle.wrp_caldb.specs.Calibration.{IsAccepted, transition_key, tx_nm_key, rx_nm_key};
ghost use Rattle.wrp_caldb.specs.Database.{number_at, natural_at, name_at, delays_of, entry_of, each_table, entries_of, module_of, table_of, fibre_of, database_of};
ghost use Rattle.wrp_calibration_text.specs.Reading.{IsFaultAt, IsSyntax, IsAnswerOf, IsReadingOf};
ghost use Rattle.wrp_caldb.specs.declared.keys.Others.TheVariants.{Refused, Ignored};
ghost use Rattle.wrp_caldb.specs.declared.keys.Version.TheVariants.{One};

use crate::judging::refusal;
use crate::keys::{
    fibre_err_row, kappa_row, module_err_row, rx_nm_row, rx_row, table_err_row, transition_row,
    tx_nm_row, tx_row, version_of,
};
use crate::place::Place;
use crate::points::stored_points;
use crate::repeats::name_in;
use crate::row::Row;
use crate::sort::number_at;
use crate::value::{tables_at, value_at};
use arrayvec::ArrayString;
use std::alloc::{AllocError, Global};
use toml::{Table, Value};
use wrp_base::{ConfFault, Fibre, Module};
use wrp_caldb::{
    CalDb, Code, Entry, ListedFibre, ListedModule, Lists, Others, StoredTable, Version, name_of,
};
use wrp_network::Name;

/// The number at a row's key, or its default; 0 if no number of its sort is there.
pub fn number(table: &Table, row: &Row) -> i64
    ensures { result ≡ number_at row.now (table_view table.now) }
{
    number_at(table, row).unwrap_or(0)
}

/// The same, without a sign.
pub fn natural(table: &Table, row: &Row) -> u64
    ensures { result ≡ natural_at row.now (table_view table.now) }
{
    number(table, row).unsigned_abs()
}

// The transition tag, which has 14 bits.
fn transition(table: &Table) -> u16
    ensures { result ≡ natural_at transition_key (table_view table.now) }
{
    natural(table, &transition_row()) as u16
}

// A wavelength in nm.
fn first_nm(pair: &Table) -> u16
    ensures { result ≡ natural_at tx_nm_key (table_view pair.now) }
{
    natural(pair, &tx_nm_row()) as u16
}

fn second_nm(pair: &Table) -> u16
    ensures { result ≡ natural_at (rx_nm_key None) (table_view pair.now) }
{
    natural(pair, &rx_nm_row(None)) as u16
}

/// The name at `name`; an empty name if there is none.
pub fn name_at(table: &Table) -> Name
    ensures { result.bytes ≡ name_at (table_view table.now) }
{
    match name_in(table) {
        Some(text) => name_of(text),
        None => Name::new(),
    }
}

fn delays_of(table: &Table) -> Module
    ensures { result ≡ delays_of (table_view table.now) }
{
    Module {
        tx: natural(table, &tx_row()),
        rx: natural(table, &rx_row()),
        transition: transition(table),
        err: natural(table, &module_err_row()),
    }
}

fn entry_of(pair: &Table) -> Entry
    ensures { result ≡ entry_of (table_view pair.now) }
{
    Entry {
        tx_nm: first_nm(pair),
        rx_nm: second_nm(pair),
        delays: delays_of(pair),
    }
}

// The entries of a module's pairs.
fn pairs_of(alloc: Global, pairs: &[Value]) -> Result<Vec<Entry>, AllocError>
    ensures { IfOk result (λ es. es.items ≡ each_table entry_of (map view pairs.now)) }
{
    let mut entries = Vec::new(alloc);
    for value in pairs {
        if let Some(pair) = value.as_table() {
            entries.push(entry_of(pair))?;
        }
    }
    Ok(entries)
}

// The entry of a module of version 1, for any pair of wavelengths.
fn only_entry(alloc: Global, module: &Table) -> Result<Vec<Entry>, AllocError>
    ensures { IfOk result (λ es. es.items ≡ entries_of One (table_view «module».now)) }
{
    let mut entries = Vec::new(alloc);
    entries.push(Entry {
        tx_nm: 0,
        rx_nm: 0,
        delays: delays_of(module),
    })?;
    Ok(entries)
}

fn entries_of(alloc: Global, version: Version, module: &Table) -> Result<Vec<Entry>, AllocError>
    ensures { IfOk result (λ es. es.items ≡ entries_of version (table_view «module».now)) }
{
    match version {
        Version::One => only_entry(alloc, module),
        Version::Two => pairs_of(alloc, tables_at(module, "pair")),
    }
}

fn module_of(alloc: Global, version: Version, module: &Table) -> Result<ListedModule, AllocError>
    ensures { IfOk result (λ m. m ≡ module_of version (table_view «module».now)) }
{
    let entries = entries_of(alloc, version, module)?;
    Ok(ListedModule::new(name_at(module), entries))
}

fn modules_of(
    alloc: Global,
    version: Version,
    values: &[Value],
) -> Result<Vec<ListedModule>, AllocError>
    ensures { IfOk result (λ ms. ms.items ≡ each_table (module_of version) (map view values.now)) }
{
    let mut modules = Vec::new(alloc);
    for value in values {
        if let Some(module) = value.as_table() {
            modules.push(module_of(alloc, version, module)?)?;
        }
    }
    Ok(modules)
}

// The stored points of a fibre, if it has `table`.
fn table_of(fibre: &Table) -> Option<StoredTable>
    ensures { result ≡ table_of (table_view fibre.now) }
{
    match value_at(fibre, "table") {
        Some(value) => match stored_points(value) {
            Some(points) => Some(StoredTable::new(points, natural(fibre, &table_err_row()))),
            None => None,
        },
        None => None,
    }
}

fn fibre_of(fibre: &Table) -> ListedFibre
    ensures { result ≡ fibre_of (table_view fibre.now) }
{
    let numbers = Fibre {
        kappa: number(fibre, &kappa_row()),
        err: natural(fibre, &fibre_err_row()),
    };
    ListedFibre::new(name_at(fibre), numbers, table_of(fibre))
}

fn fibres_of(alloc: Global, values: &[Value]) -> Result<Vec<ListedFibre>, AllocError>
    ensures { IfOk result (λ fs. fs.items ≡ each_table fibre_of (map view values.now)) }
{
    let mut fibres = Vec::new(alloc);
    for value in values {
        if let Some(fibre) = value.as_table() {
            fibres.push(fibre_of(fibre))?;
        }
    }
    Ok(fibres)
}

// The database of an accepted text.
fn database_of(alloc: Global, others: Others, doc: &Table) -> Result<CalDb, AllocError>
    requires { IsAccepted others (table_view doc.now) }
    ensures { IfOk result (λ db. db ≡ database_of (table_view doc.now)) }
{
    let lists = lists_of(alloc, doc)?;
    Ok(CalDb::of_lists(lists))
}

/// Lists what the keys `version`, `module` and `fibre` of a table say, whether the table is accepted or
/// not. Returns an error if there is no memory for the lists; nothing is left of them then.
pub fn lists_of(alloc: Global, t: &Table) -> Result<Lists, AllocError>
    ensures { IfOk result (λ lists. lists ≡ database_of (table_view t.now)) }
{
    let modules = modules_of(alloc, version_of(t), tables_at(t, "module"))?;
    let fibres = fibres_of(alloc, tables_at(t, "fibre"))?;
    Ok(Lists::new(modules, fibres))
}

/// The fault of a code at a place, or out of memory, if there is no memory for the place's text.
pub fn fault_at(alloc: Global, code: Code, place: &Place) -> ConfFault
    ensures { IsFaultAt code place.now result }
{
    match place.text(alloc) {
        Ok(text) => ConfFault::Fault {
            code: code.number(),
            place: text,
        },
        Err(error) => ConfFault::Memory(error),
    }
}

// The answer for a table.
fn answer_of(alloc: Global, others: Others, doc: &Table) -> Result<CalDb, ConfFault>
    ensures { IsAnswerOf others (table_view doc.now) result }
{
    match refusal(alloc, others, doc) {
        Ok(Some((code, place))) => Err(fault_at(alloc, code, &place)),
        Ok(None) => match database_of(alloc, others, doc) {
            Ok(database) => Ok(database),
            Err(error) => Err(ConfFault::Memory(error)),
        },
        Err(error) => Err(ConfFault::Memory(error)),
    }
}

/// The fault of octets that are no text: 1 Syntax, at `-`.
pub fn syntax() -> ConfFault
    ensures { IsSyntax result }
{
    let mut place = ArrayString::new();
    place.push_str("-");
    ConfFault::Fault { code: 1, place }
}

// The answer for a text.
fn answer_for(alloc: Global, text: &str) -> Result<CalDb, ConfFault>
    requires { IsUtf8 text.now }
    ensures { IsReadingOf text.now result }
{
    match toml::table_from_str(alloc, text) {
        Ok(doc) => answer_of(alloc, Others::Refused, &doc),
        Err(error) => {
            if error.is_memory() {
                Err(ConfFault::Memory(AllocError))
            } else {
                Err(syntax())
            }
        }
    }
}

/// How a calibration database is read.
pub trait ReadCalibration {
    /// Reads a calibration text: TOML with the keys `version`, `module` and `fibre`. A fault is the
    /// least code that the text has, at the first place that has it: 1 Syntax at `-` if the octets are
    /// no UTF-8 or no TOML, 2 UnknownKey, 3 Missing, 4 Range, 5 Twice (this project's profile). Out of
    /// memory is an answer of its own. Nothing is left of a text that is not read.
    fn read(alloc: Global, bytes: &[u8]) -> Result<CalDb, ConfFault>;

    /// Reads the keys `version`, `module` and `fibre` of a table, and ignores all others. A fault is
    /// the least code that they have, at the first place that has it: 2 UnknownKey, 3 Missing, 4 Range,
    /// 5 Twice. Out of memory is an answer of its own. The table stays as it is.
    fn from_table(alloc: Global, t: &Table) -> Result<CalDb, ConfFault>;
}

impl ReadCalibration for CalDb {
    fn read(alloc: Global, bytes: &[u8]) -> Result<CalDb, ConfFault>
        ensures { IsReadingOf bytes.now result }
    {
        match str::from_utf8(bytes) {
            Ok(text) => answer_for(alloc, text),
            Err(_) => Err(syntax()),
        }
    }

    fn from_table(alloc: Global, t: &Table) -> Result<CalDb, ConfFault>
        ensures { IsAnswerOf Ignored (table_view t.now) result }
    {
        answer_of(alloc, Others::Ignored, t)
    }
}
