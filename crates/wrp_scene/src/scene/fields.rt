//! The fields of a scenario line, by their places from 1.
ghost use Rattle.std.specs.Prelude.{◌≡◌, ◌<◌, ◌≤◌, ◌^◌, IfOk, false, is_none, unsigned_abs};
ghost use Rattle.csv.specs.Records.{fields_of};
ghost use Rattle.wrp_network.specs.Network.{HasRanges, link_above, node_count};
ghost use Rattle.wrp_base.specs.Ranges.{IsAmong, IsFromTo};
ghost use Rattle.wrp_scene.specs.Scenario.{IsFault, IsFaultKind, IsOffset, IsFree, IsSum, fibre_room, off_of_ns, tau_of_ms};
ghost use Rattle.wrp_scene.specs.ScenarioLines.{time_at, sum_at, permille_at, ns_at, rate_at, lower_at, fault_kind, fault_at};

use super::fault::{Fault, FaultKind};
use csv::ByteRecord;
use wrp_base::{Tau, TraceFault, product};
use wrp_fields::{field, name_fault, number, number_at, number_fault};
use wrp_names::{link_at, node_at};
use wrp_network::{NetCfg, link_above};

// The greatest time, in ms.
const MOST_TIME: u64 = 10_000_000;

// One ms, in tau.
const TAU_OF_MS: u128 = 65_536_000_000_000;

// One ns, in tau.
const TAU_OF_NS: u64 = 65_536_000;

// The greatest offset, in ns.
const MOST_OFFSET: i128 = 1_000_000_000_000;

// The greatest rate of a clock at rest, in `10^-12`.
const MOST_RATE: i128 = 100_000;

// All of 1000.
const ALL: u64 = 1_000;

/// A time, in ms: 0 to `10^7`. `Number` with this place if the field is not such a number.
pub fn time_at(row: &ByteRecord, place: u32) -> Result<u64, TraceFault>
    requires { 0 < place }
    ensures value { result ≡ time_at place (fields_of row.now) }
    ensures range { IfOk result (IsAmong 0 10_000_000) }
{
    number_at(row, place, 0, MOST_TIME)
}

/// So many ms, in tau.
pub fn tau_of_ms(ms: u64) -> Tau
    requires { ms ≤ 10_000_000 }
    ensures value { result ≡ tau_of_ms ms }
    ensures range { IsFromTo 0 655_360_000_000_000_000_000 result }
{
    (TAU_OF_MS * u128::from(ms)) as i128
}

// What a one-way delay leaves for the fibre, in tau.
fn fibre_room(cfg: &NetCfg) -> u64
    requires { HasRanges cfg.now }
    ensures value { result ≡ fibre_room cfg.now }
    ensures size { result ≤ 2 ^ 56 }
{
    let reach = TAU_OF_NS * cfg.reach_ns.unsigned_abs();
    reach.saturating_sub(cfg.tx_max + cfg.rx_max + 2 * cfg.e_db)
}

/// The delay of both ways of a fibre, in tau: 0 to four thirds of what a one-way delay leaves for
/// the fibre. `Number` with this place if the field is not such a number.
pub fn sum_at(row: &ByteRecord, place: u32, cfg: &NetCfg) -> Result<u64, TraceFault>
    requires place { 0 < place }
    requires ranges { HasRanges cfg.now }
    ensures value { result ≡ sum_at cfg.now place (fields_of row.now) }
    ensures range { IfOk result (IsSum cfg.now) }
{
    let most = 4 * fibre_room(cfg) / 3;
    let sum = number_at(row, place, 0, most)?;
    Ok(sum)
}

/// So many of 1000: 0 to 1000. `Number` with this place if the field is not such a number.
pub fn permille_at(row: &ByteRecord, place: u32) -> Result<u16, TraceFault>
    requires { 0 < place }
    ensures value { result ≡ permille_at place (fields_of row.now) }
    ensures range { IfOk result (IsAmong 0 1_000) }
{
    let permille = number_at(row, place, 0, ALL)?;
    Ok(permille as u16)
}

/// An offset, in ns: within `10^12`. `Number` with this place if the field is not such a number.
pub fn ns_at(row: &ByteRecord, place: u32) -> Result<i128, TraceFault>
    requires { 0 < place }
    ensures value { result ≡ ns_at place (fields_of row.now) }
    ensures range { IfOk result (λ ns. unsigned_abs ns ≤ 1_000_000_000_000) }
{
    match number(field(row, place), -MOST_OFFSET, MOST_OFFSET) {
        Some(ns) => Ok(ns),
        None => Err(number_fault(place)),
    }
}

/// An offset of so many ns, in tau.
pub fn off_of_ns(ns: i128) -> Tau
    requires { unsigned_abs ns ≤ 1_000_000_000_000 }
    ensures value { result ≡ off_of_ns ns }
    ensures range { IsOffset result }
{
    product(i128::from(TAU_OF_NS), ns)
}

/// The rate of a clock at rest, in `10^-12`: within 100,000. `Number` with this place if the field
/// is not such a number.
pub fn rate_at(row: &ByteRecord, place: u32) -> Result<i64, TraceFault>
    requires { 0 < place }
    ensures value { result ≡ rate_at place (fields_of row.now) }
    ensures range { IfOk result IsFree }
{
    match number(field(row, place), -MOST_RATE, MOST_RATE) {
        Some(rate) => Ok(rate as i64),
        None => Err(number_fault(place)),
    }
}

/// A node that is not the grandmaster. `Name` with this place if the field names no node, or names
/// the grandmaster.
pub fn lower_at(row: &ByteRecord, place: u32, cfg: &NetCfg) -> Result<u8, TraceFault>
    requires { 0 < place }
    ensures value { result ≡ lower_at cfg.now place (fields_of row.now) }
    ensures within { IfOk result (λ n. n < node_count cfg.now) }
    ensures below { IfOk result (λ n. is_none (link_above cfg.now n) ≡ false) }
{
    let node = node_at(row, place, cfg)?;
    match link_above(cfg, node) {
        Some(_) => Ok(node),
        None => Err(name_fault(place)),
    }
}

// What a fault does: its word is tried first, and then the name.
fn fault_kind(row: &ByteRecord, word: &[u8], cfg: &NetCfg) -> Result<FaultKind, TraceFault>
    ensures value { result ≡ fault_kind cfg.now (fields_of row.now) word.now }
    ensures range { IfOk result (IsFaultKind cfg.now) }
{
    if word == b"down".as_slice() {
        let node = node_at(row, 4, cfg)?;
        Ok(FaultKind::Down { node })
    } else if word == b"up".as_slice() {
        let node = node_at(row, 4, cfg)?;
        Ok(FaultKind::Up { node })
    } else if word == b"cut".as_slice() {
        let link = link_at(row, 4, cfg)?;
        Ok(FaultKind::Cut { link })
    } else if word == b"join".as_slice() {
        let link = link_at(row, 4, cfg)?;
        Ok(FaultKind::Join { link })
    } else {
        Err(name_fault(3))
    }
}

/// A fault: its time, what it does, and to which node or link. `Number` if field 2 is no time,
/// otherwise `Name` if field 3 is no such word, or field 4 is no name of a node or of a link.
pub fn fault_at(row: &ByteRecord, cfg: &NetCfg) -> Result<Fault, TraceFault>
    ensures value { result ≡ fault_at cfg.now (fields_of row.now) }
    ensures range { IfOk result (IsFault cfg.now) }
{
    let ms = time_at(row, 2)?;
    let kind = fault_kind(row, field(row, 3), cfg)?;
    let at = tau_of_ms(ms);
    Ok(Fault { at, kind })
}
