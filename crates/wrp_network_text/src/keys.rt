//! The rows of the text itself and of a node, and what the clock of the file is.
ghost use Rattle.std.specs.Prelude.{◌≡◌, ◌∷◌, []};
ghost use Rattle.toml.specs.Data.{no_members};
ghost use Rattle.toml.specs.View.{table_view};
ghost use Rattle.wrp_caldb.specs.Calibration.{version_key};
ghost use Rattle.wrp_caldb.specs.Key.{name_key};
ghost use Rattle.wrp_network_text.specs.Keys.{network_key, node_key, link_key, top_keys, network_in, clock_of_period, clock_in, identity_key, e_tx_key, e_tag_key, beat_key, slew_key, held_key, node_keys};

use crate::settings::period_row;
use toml::Table;
use wrp_base::Clock;
use wrp_caldb::Sort;
use wrp_calibration_text::{Row, fibre_row, module_row, number, value_at, version_row};

// `network`: a table, which may be missing.
fn network_row() -> Row
    ensures { result ≡ network_key }
{
    Row::optional("network", Sort::Table)
}

/// `node`: at most 64 tables.
pub fn node_row() -> Row
    ensures { result ≡ node_key }
{
    Row::optional(
        "node",
        Sort::Tables {
            least: 0,
            greatest: Some(64),
        },
    )
}

/// `link`: at most 63 tables, which may be missing.
pub fn link_row() -> Row
    ensures { result ≡ link_key }
{
    Row::optional(
        "link",
        Sort::Tables {
            least: 0,
            greatest: Some(63),
        },
    )
}

/// The rows of the text itself.
pub fn top_rows() -> [Row; 6]
    ensures { result ≡ top_keys }
{
    [
        version_row(),
        network_row(),
        node_row(),
        link_row(),
        module_row(),
        fibre_row(),
    ]
}

/// The rows of the text before its first table.
pub fn head_rows() -> [Row; 2]
    ensures { result ≡ version_key ∷ network_key ∷ [] }
{
    [version_row(), network_row()]
}

/// The table `network`, or one without keys if it is missing.
pub fn network_in<'a>(doc: &'a Table, empty: &'a Table) -> &'a Table
    requires { table_view empty.now ≡ no_members }
    ensures { table_view result.now ≡ network_in (table_view doc.now) }
{
    match value_at(doc, "network") {
        Some(value) => match value.as_table() {
            Some(network) => network,
            None => empty,
        },
        None => empty,
    }
}

fn clock_of_period(ps: i64) -> Clock
    ensures { result ≡ clock_of_period ps }
{
    if ps == 16_000 {
        Clock::Mhz62
    } else {
        Clock::Mhz125
    }
}

/// The clock of a network, by its table `network`.
pub fn clock_in(doc: &Table, network: &Table) -> Clock
    requires { table_view network.now ≡ network_in (table_view doc.now) }
    ensures { result ≡ clock_in (table_view doc.now) }
{
    let _doc = doc;
    clock_of_period(number(network, &period_row()))
}

/// `name` of a node or of a link.
pub fn name_row() -> Row
    ensures { result ≡ name_key }
{
    Row::required("name", Sort::Name)
}

// `identity`: the clockIdentity.
fn identity_row() -> Row
    ensures { result ≡ identity_key }
{
    Row::required("identity", Sort::Identity)
}

/// `e_tx`: the error of a send stamp, in tau.
pub fn e_tx_row() -> Row
    ensures { result ≡ e_tx_key }
{
    Row::with_default("e_tx", 1_000, 1_000_000_000, 655_360)
}

/// `e_tag`: the error of a tag, in tau, at least one step of the detector.
pub fn e_tag_row(clock: Clock) -> Row
    ensures { result ≡ e_tag_key clock }
{
    match clock {
        Clock::Mhz125 => Row::with_default("e_tag", 32_000, 65_535_999, 64_000),
        Clock::Mhz62 => Row::with_default("e_tag", 64_000, 65_535_999, 64_000),
    }
}

/// `beat`: how far the edge may flicker, in steps of the detector.
pub fn beat_row() -> Row
    ensures { result ≡ beat_key }
{
    Row::with_default("beat", 0, 24, 4)
}

/// `slew`: the greatest rate of a locked clock, in `10^-12`.
pub fn slew_row() -> Row
    ensures { result ≡ slew_key }
{
    Row::with_default("slew", 0, 1_000_000_000, 500)
}

/// `held`: the greatest rate of a clock in HOLDOVER, in `10^-12`.
pub fn held_row() -> Row
    ensures { result ≡ held_key }
{
    Row::with_default("held", 0, 1_000_000_000, 10)
}

/// The rows of a node.
pub fn node_rows(clock: Clock) -> [Row; 7]
    ensures { result ≡ node_keys clock }
{
    [
        name_row(),
        identity_row(),
        e_tx_row(),
        e_tag_row(clock),
        beat_row(),
        slew_row(),
        held_row(),
    ]
}
