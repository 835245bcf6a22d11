//! The names that a pass over the modules or the fibres of a text has met. They are kept in order, so
//! that a repeated one is found without a search of the tables before it.
ghost use Rattle.std.specs.Prelude.{◌≡◌, ◌||◌, ◌++◌, ◌∷◌, [], List, ℕ, IfOk, OnOk, option_copied, Some};
ghost use Rattle.std.specs.Str.{bytes_eq};
ghost use Rattle.toml.specs.Data.{Data, Members, as_table};
ghost use Rattle.toml.specs.View.{view};
ghost use Rattle.wrp_calibration_text.specs.Met.{name_of_value, repeats_name, is_met, AreNamesOf, AreMet, IsTold};

use crate::repeats::name_in;
use std::alloc::AllocError;
use std::collections::BTreeSet;
use toml::Value;
use wrp_caldb::Code;

// The text at `name` of a value that is a table.
fn name_of_value<'a>(value: &'a Value) -> Option<&'a str>
    ensures { option_copied result ≡ name_of_value (view value.now) }
{
    match value.as_table() {
        Some(table) => name_in(table),
        None => None,
    }
}

// Whether a name was met before; the call also notes it.
fn meets<'a>(names: &mut BTreeSet<&'a str>, name: &'a str) -> Result<bool, AllocError>
    ensures before { IfOk result (λ met. met ≡ is_met name.now names.old) }
    ensures noted { OnOk result ((text : List ℕ) →
        is_met text names.new ≡ (is_met text names.old || bytes_eq name.now text)) }
{
    let added = names.insert(name)?;
    Ok(!added)
}

// Whether a value is a table with the name of one before it; the call also notes its name.
fn repeats_name<'a>(names: &mut BTreeSet<&'a str>, value: &'a Value) -> Result<bool, AllocError>
    ensures before { (earlier : List Data) → AreNamesOf names.old earlier
        → IfOk result (λ repeats. repeats ≡ repeats_name earlier (view value.now)) }
    ensures noted { (earlier : List Data) → AreNamesOf names.old earlier
        → OnOk result (AreNamesOf names.new (earlier ++ view value.now ∷ [])) }
{
    match name_of_value(value) {
        Some(name) => meets(names, name),
        None => Ok(false),
    }
}

/// Whether a value is a table with the name of one before it, if the code is `Twice`; the call also
/// notes its name. For another code nothing is checked or noted. Returns an error if there is no
/// memory to note the name; the names that were noted before stay.
pub fn is_repeat<'a>(
    code: Code,
    names: &mut BTreeSet<&'a str>,
    value: &'a Value,
) -> Result<bool, AllocError>
    ensures before { (earlier : List Data) (table : Members) → AreMet code names.old earlier
        → as_table (view value.now) ≡ Some table
        → IfOk result (λ repeats. IsTold code earlier table repeats) }
    ensures noted { (earlier : List Data) → AreMet code names.old earlier
        → OnOk result (AreMet code names.new (earlier ++ view value.now ∷ [])) }
{
    match code {
        Code::Twice => repeats_name(names, value),
        Code::UnknownKey | Code::Missing | Code::Range => Ok(false),
    }
}
