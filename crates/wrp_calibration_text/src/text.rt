//! A database as a calibration text of version 2.
ghost use Rattle.std.specs.Prelude.{◌≡◌, ◌≤◌, ℕ, List, Some, Result, IfOk, OnOk, false, map, string_bytes};
ghost use Rattle.wrp_base.specs.declared.fault.ConfFault.{ConfFault};
ghost use Rattle.wrp_caldb.specs.Database.{Database};
ghost use Rattle.std.specs.Str.{IsUtf8};
ghost use Rattle.toml.specs.Data.{array, table, no_members, members_depth};
ghost use Rattle.toml.specs.Parse.{parse_document};
ghost use Rattle.toml.specs.Text.{IsDocumentText};
ghost use Rattle.toml.specs.View.{view, items_of, table_view};
ghost use Rattle.wrp_calibration_text.specs.Reading.{IsTextOf, IsReadingOf};
ghost use Rattle.wrp_calibration_text.specs.Text.{number, with_member, pair_members, module_members, point_data, linear_members, fibre_members, document_of, IsTextDue, IsSame};

use std::alloc::{AllocError, Global};
use toml::{Table, Value};
use wrp_caldb::{CalDb, Entry, ListedFibre, ListedModule};

// A whole number of a text.
fn number(n: u64) -> Value
    ensures { view result ≡ number n }
{
    Value::Integer(n.min(9_223_372_036_854_775_807) as i64)
}

// Puts a value at a key.
fn put(alloc: Global, table: &mut Table, key: &str, value: Value) -> Result<(), AllocError>
    ensures { OnOk result (table_view table.new
        ≡ with_member key.now (view value) (table_view table.old)) }
{
    table.insert(String::from_str(alloc, key)?, value)?;
    Ok(())
}

// An entry as the table of a pair.
fn pair_table(alloc: Global, entry: &Entry) -> Result<Table, AllocError>
    ensures { IfOk result (λ t. table_view t ≡ pair_members entry.now) }
{
    let mut pair = Table::new(alloc);
    put(alloc, &mut pair, "err", number(entry.delays.err))?;
    put(alloc, &mut pair, "rx", number(entry.delays.rx))?;
    put(alloc, &mut pair, "rx_nm", number(u64::from(entry.rx_nm)))?;
    put(
        alloc,
        &mut pair,
        "transition",
        number(u64::from(entry.delays.transition)),
    )?;
    put(alloc, &mut pair, "tx", number(entry.delays.tx))?;
    put(alloc, &mut pair, "tx_nm", number(u64::from(entry.tx_nm)))?;
    Ok(pair)
}

// The pairs of a module.
fn pairs_value(alloc: Global, entries: &[Entry]) -> Result<Value, AllocError>
    ensures { IfOk result (λ v. view v
        ≡ array (items_of (map (λ e. table (pair_members e)) entries.now))) }
{
    let mut pairs = Vec::new(alloc);
    for entry in entries {
        pairs.push(Value::Table(pair_table(alloc, entry)?))?;
    }
    Ok(Value::Array(pairs))
}

// A module.
fn module_table(alloc: Global, module: &ListedModule) -> Result<Table, AllocError>
    ensures { IfOk result (λ t. table_view t ≡ module_members «module».now) }
{
    let mut members = Table::new(alloc);
    put(
        alloc,
        &mut members,
        "name",
        Value::string(alloc, module.name())?,
    )?;
    put(
        alloc,
        &mut members,
        "pair",
        pairs_value(alloc, module.entries())?,
    )?;
    Ok(members)
}

// The modules.
fn modules_value(alloc: Global, modules: &[ListedModule]) -> Result<Value, AllocError>
    ensures { IfOk result (λ v. view v
        ≡ array (items_of (map (λ m. table (module_members m)) modules.now))) }
{
    let mut tables = Vec::new(alloc);
    for module in modules {
        tables.push(Value::Table(module_table(alloc, module)?))?;
    }
    Ok(Value::Array(tables))
}

// A point as an array of two numbers.
fn point_value(alloc: Global, point: (i64, i64)) -> Result<Value, AllocError>
    ensures { IfOk result (λ v. view v ≡ point_data point) }
{
    let mut numbers = Vec::new(alloc);
    numbers.push(Value::Integer(point.0))?;
    numbers.push(Value::Integer(point.1))?;
    Ok(Value::Array(numbers))
}

// The points of a fibre.
fn points_value(alloc: Global, points: &[(i64, i64)]) -> Result<Value, AllocError>
    ensures { IfOk result (λ v. view v ≡ array (items_of (map point_data points.now))) }
{
    let mut values = Vec::new(alloc);
    for point in points {
        values.push(point_value(alloc, *point)?)?;
    }
    Ok(Value::Array(values))
}

// A fibre without its points.
fn linear_table(alloc: Global, fibre: &ListedFibre) -> Result<Table, AllocError>
    ensures { IfOk result (λ t. table_view t ≡ linear_members fibre.now no_members) }
{
    let mut members = Table::new(alloc);
    put(alloc, &mut members, "err", number(fibre.fibre().err))?;
    put(
        alloc,
        &mut members,
        "kappa",
        Value::Integer(fibre.fibre().kappa),
    )?;
    put(
        alloc,
        &mut members,
        "name",
        Value::string(alloc, fibre.name())?,
    )?;
    Ok(members)
}

// A fibre.
fn fibre_table(alloc: Global, fibre: &ListedFibre) -> Result<Table, AllocError>
    ensures { IfOk result (λ t. table_view t ≡ fibre_members fibre.now) }
{
    let mut members = linear_table(alloc, fibre)?;
    if let Some((points, err)) = fibre.table() {
        put(alloc, &mut members, "table", points_value(alloc, points)?)?;
        put(alloc, &mut members, "table_err", number(err))?;
    }
    Ok(members)
}

// The fibres.
fn fibres_value(alloc: Global, fibres: &[ListedFibre]) -> Result<Value, AllocError>
    ensures { IfOk result (λ v. view v
        ≡ array (items_of (map (λ f. table (fibre_members f)) fibres.now))) }
{
    let mut tables = Vec::new(alloc);
    for fibre in fibres {
        tables.push(Value::Table(fibre_table(alloc, fibre)?))?;
    }
    Ok(Value::Array(tables))
}

// The text of a database, as a table.
fn document_of(alloc: Global, database: &CalDb) -> Result<Table, AllocError>
    ensures { IfOk result (λ t. table_view t ≡ document_of database.now) }
{
    let mut document = Table::new(alloc);
    put(
        alloc,
        &mut document,
        "fibre",
        fibres_value(alloc, database.fibres())?,
    )?;
    put(
        alloc,
        &mut document,
        "module",
        modules_value(alloc, database.modules())?,
    )?;
    put(alloc, &mut document, "version", number(2))?;
    Ok(document)
}

// A table printed as `toml` does, which reads back as the same if it is not too deep.
fn printed(alloc: Global, document: &Table) -> Result<String, AllocError>
    ensures printed { IfOk result (λ text. IsDocumentText false (table_view document.now) (string_bytes text)) }
    ensures reads_back { IfOk result (λ text. members_depth (table_view document.now) ≤ 80
        → parse_document (string_bytes text) ≡ Some (table_view document.now)) }
{
    match toml::table_to_string(alloc, document) {
        Ok(text) => Ok(text),
        Err(_) => Err(AllocError),
    }
}

// The octets of a text.
fn octets_of(text: String) -> Vec<u8>
    ensures value { result.items ≡ string_bytes text }
    ensures utf8 { IsUtf8 (string_bytes text) }
{
    let _text = text.as_str();
    text.into_bytes()
}

/// How a calibration database is written.
pub trait WriteCalibration {
    /// The database as a calibration text of version 2, as `toml` prints it. A module of version 1
    /// has one pair there, of the wavelengths 0 and 0. Reading the text gives the same database. No
    /// other octets are what `toml` prints for this database. Returns an error if there is no
    /// memory for the text; the database stays as it is.
    fn text(&self, alloc: Global) -> Result<Vec<u8>, AllocError>;
}

impl WriteCalibration for CalDb {
    fn text(&self, alloc: Global) -> Result<Vec<u8>, AllocError>
        ensures due { IfOk result (λ octets. IsTextDue self.now octets.items) }
        ensures only { IfOk result (λ octets. (other : List ℕ) → IsTextDue self.now other → other ≡ octets.items) }
        ensures text { IfOk result (λ octets. IsTextOf (document_of self.now) octets.items) }
        ensures same { IfOk result (λ octets. (answer : Result Database ConfFault)
            → IsReadingOf octets.items answer → IsSame self.now answer) }
    {
        let _lists = self.lists();
        let document = document_of(alloc, self)?;
        let text = printed(alloc, &document)?;
        Ok(octets_of(text))
    }
}
