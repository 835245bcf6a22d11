//! Where a calibration text is refused: the first place of each code, in the order of the places.
ghost use Rattle.std.specs.Prelude.{◌≡◌, ◌↔◌, ◌<◌, ◌+◌, ◌^◌, List, Some, None, IfOk, map, length, take};
ghost use Rattle.toml.specs.Data.{Data};
ghost use Rattle.toml.specs.View.{view, table_view};
ghost use Rattle.wrp_caldb.specs.Place.{PlaceAt};
ghost use Rattle.wrp_caldb.specs.Refusal.{place_in_table, least_of};
ghost use Rattle.wrp_caldb.specs.Calibration.{fibre_keys, module_keys, place_in_pair, place_in_pairs, place_in_module, place_in_fibre, place_in_modules, place_in_fibres, place_in_lists, place_in_top, first_place, IsRefused, IsAccepted};
ghost use Rattle.wrp_calibration_text.specs.Met.{IsTold};
ghost use Rattle.wrp_caldb.specs.declared.keys.Version.TheVariants.{Two};

use crate::faults::{place_in_table, place_of_keys, place_of_others};
use crate::keys::{
    fibre_row, fibre_rows, module_row, module_rows, pair_rows, paired_module_rows,
    tabled_fibre_rows, top_rows, version_of, version_row,
};
use crate::met::is_repeat;
use crate::place::Place;
use crate::repeats::{place_of_pair, place_of_repeat};
use crate::value::{tables_at, value_at};
use std::alloc::{AllocError, Global};
use std::collections::BTreeSet;
use toml::{Table, Value};
use wrp_caldb::{At, Code, Others, Version};

// The first place of a code in a pair of module `owner`, with `count` pairs before it.
fn place_in_pair(
    code: Code,
    owner: usize,
    pairs: &[Value],
    count: usize,
    pair: &Table,
) -> Option<Place>
    requires { count < length pairs.now }
    ensures { result ≡ place_in_pair code owner (map view pairs.now) count (table_view pair.now) }
{
    let at = At::Pair(owner, count + 1);
    match place_in_table(at, pair, &pair_rows(pair), code) {
        Some(place) => Some(place),
        None => place_of_pair(code, at, pairs, count, pair),
    }
}

// The first place of a code in the pairs of module `owner`.
fn place_in_pairs(code: Code, owner: usize, pairs: &[Value]) -> Option<Place>
    ensures { result ≡ place_in_pairs Two code owner (map view pairs.now) }
{
    for i in 0..pairs.len() {
        if let Some(pair) = pairs[i].as_table() {
            if let Some(place) = place_in_pair(code, owner, pairs, i, pair) {
                return Some(place);
            }
        }
    }
    None
}

// The first place of a code in a module's own keys.
fn place_in_module_keys(version: Version, code: Code, at: At, module: &Table) -> Option<Place>
    ensures { result ≡ place_in_table code at (module_keys version) (table_view «module».now) }
{
    match version {
        Version::One => place_in_table(at, module, &module_rows(), code),
        Version::Two => place_in_table(at, module, &paired_module_rows(), code),
    }
}

// The first place of a code in a module, with `count` modules before it. `repeats` says whether
// one of them has the same name.
fn place_in_module(
    version: Version,
    code: Code,
    count: usize,
    module: &Table,
    repeats: bool,
) -> Option<Place>
    requires { count + 1 < 2 ^ 64 }
    ensures { (modules : List Data) → IsTold code (take count modules) (table_view «module».now) repeats
        → result ≡ place_in_module version code modules count (table_view «module».now) }
{
    let at = At::Module(count + 1);
    if let Some(place) = place_in_module_keys(version, code, at, module) {
        return Some(place);
    }
    if let Some(place) = place_of_repeat(code, at, repeats) {
        return Some(place);
    }
    match version {
        Version::One => None,
        Version::Two => place_in_pairs(code, count + 1, tables_at(module, "pair")),
    }
}

// The first place of a code in the modules.
fn place_in_modules(
    alloc: Global,
    version: Version,
    code: Code,
    modules: &[Value],
) -> Result<Option<Place>, AllocError>
    ensures { IfOk result (λ place. place ≡ place_in_modules version code (map view modules.now)) }
{
    let mut names = BTreeSet::new(alloc);
    for i in 0..modules.len() {
        let value = &modules[i];
        let repeats = is_repeat(code, &mut names, value)?;
        if let Some(module) = value.as_table() {
            if let Some(place) = place_in_module(version, code, i, module, repeats) {
                return Ok(Some(place));
            }
        }
    }
    Ok(None)
}

// The first place of a code in a fibre's own keys.
fn place_in_fibre_keys(code: Code, at: At, fibre: &Table) -> Option<Place>
    ensures { result
        ≡ place_in_table code at (fibre_keys (table_view fibre.now)) (table_view fibre.now) }
{
    match value_at(fibre, "table") {
        Some(_) => place_in_table(at, fibre, &tabled_fibre_rows(fibre), code),
        None => place_in_table(at, fibre, &fibre_rows(), code),
    }
}

// The first place of a code in a fibre, with `count` fibres before it. `repeats` says whether one
// of them has the same name.
fn place_in_fibre(code: Code, count: usize, fibre: &Table, repeats: bool) -> Option<Place>
    requires { count + 1 < 2 ^ 64 }
    ensures { (fibres : List Data) → IsTold code (take count fibres) (table_view fibre.now) repeats
        → result ≡ place_in_fibre code fibres count (table_view fibre.now) }
{
    let at = At::Fibre(count + 1);
    match place_in_fibre_keys(code, at, fibre) {
        Some(place) => Some(place),
        None => place_of_repeat(code, at, repeats),
    }
}

// The first place of a code in the fibres.
fn place_in_fibres(alloc: Global, code: Code, fibres: &[Value]) -> Result<Option<Place>, AllocError>
    ensures { IfOk result (λ place. place ≡ place_in_fibres code (map view fibres.now)) }
{
    let mut names = BTreeSet::new(alloc);
    for i in 0..fibres.len() {
        let value = &fibres[i];
        let repeats = is_repeat(code, &mut names, value)?;
        if let Some(fibre) = value.as_table() {
            if let Some(place) = place_in_fibre(code, i, fibre, repeats) {
                return Ok(Some(place));
            }
        }
    }
    Ok(None)
}

/// The first place of a code after the top: the key `module`, the modules, the key `fibre`, the fibres.
/// Memory is taken only for the code `Twice`; returns an error if there is none for it. The table stays
/// as it is.
pub fn place_in_lists(alloc: Global, code: Code, doc: &Table) -> Result<Option<Place>, AllocError>
    ensures { IfOk result (λ place. place ≡ place_in_lists code (table_view doc.now)) }
{
    if let Some(place) = place_of_keys(At::Top, doc, &[module_row()], code) {
        return Ok(Some(place));
    }
    let modules = tables_at(doc, "module");
    if let Some(place) = place_in_modules(alloc, version_of(doc), code, modules)? {
        return Ok(Some(place));
    }
    if let Some(place) = place_of_keys(At::Top, doc, &[fibre_row()], code) {
        return Ok(Some(place));
    }
    place_in_fibres(alloc, code, tables_at(doc, "fibre"))
}

// The first place of a code at the top.
fn place_in_top(others: Others, code: Code, doc: &Table) -> Option<Place>
    ensures { result ≡ place_in_top others code (table_view doc.now) }
{
    if others == Others::Refused {
        if let Some(place) = place_of_others(At::Top, doc, &top_rows(), code) {
            return Some(place);
        }
    }
    place_of_keys(At::Top, doc, &[version_row()], code)
}

// The first place of a code in the text.
fn first_place(
    alloc: Global,
    others: Others,
    doc: &Table,
    code: Code,
) -> Result<Option<Place>, AllocError>
    ensures { IfOk result (λ place. place ≡ first_place others (table_view doc.now) code) }
{
    match place_in_top(others, code, doc) {
        Some(place) => Ok(Some(place)),
        None => place_in_lists(alloc, code, doc),
    }
}

// The least code that has a place, with its first place.
fn least_of(alloc: Global, others: Others, doc: &Table) -> Result<Option<(Code, Place)>, AllocError>
    ensures { IfOk result (λ least. least ≡ least_of (first_place others (table_view doc.now))) }
{
    if let Some(place) = first_place(alloc, others, doc, Code::UnknownKey)? {
        return Ok(Some((Code::UnknownKey, place)));
    }
    if let Some(place) = first_place(alloc, others, doc, Code::Missing)? {
        return Ok(Some((Code::Missing, place)));
    }
    if let Some(place) = first_place(alloc, others, doc, Code::Range)? {
        return Ok(Some((Code::Range, place)));
    }
    match first_place(alloc, others, doc, Code::Twice)? {
        Some(place) => Ok(Some((Code::Twice, place))),
        None => Ok(None),
    }
}

/// Why a calibration text is refused: the least code that has a place, at its first place. Memory is
/// taken if no code below `Twice` has a place; returns an error if there is none for it. The table
/// stays as it is.
pub fn refusal(
    alloc: Global,
    others: Others,
    doc: &Table,
) -> Result<Option<(Code, Place)>, AllocError>
    ensures refused { (code : Code) (place : PlaceAt) → IfOk result (λ refusal.
        (refusal ≡ Some (code, place)) ↔ IsRefused others (table_view doc.now) code place) }
    ensures taken { IfOk result (λ refusal.
        (refusal ≡ None) ↔ IsAccepted others (table_view doc.now)) }
{
    least_of(alloc, others, doc)
}
