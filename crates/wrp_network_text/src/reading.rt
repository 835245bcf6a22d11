//! Reading a network file.
ghost use Rattle.std.specs.Prelude.{◌≡◌, ◌≤◌, Some, None, IfOk, Ok, Err};
ghost use Rattle.std.specs.Str.{IsUtf8};
ghost use Rattle.toml.specs.View.{table_view};
ghost use Rattle.wrp_caldb.specs.Database.{database_of};
ghost use Rattle.wrp_config.specs.Accepted.{IsAccepted};
ghost use Rattle.wrp_network_text.specs.Config.{IsNetworkOf};
ghost use Rattle.wrp_network_text.specs.Keys.{network_in};
ghost use Rattle.wrp_network_text.specs.Places.{IsTaken};
ghost use Rattle.wrp_network_text.specs.Reading.{IsAnswerOf, IsReadingOf};
ghost use Rattle.wrp_network_text.specs.SameAnswer.{IsOnlyReadingOf};
ghost use Rattle.wrp_network_text.specs.Tree.{HasNoFault};

use crate::clash::{clash_fault, node_fault};
use crate::config::network_of;
use crate::judging::refusal;
use crate::keys::network_in;
use crate::tree;
use std::alloc::{AllocError, Global};
use toml::Table;
use wrp_base::ConfFault;
use wrp_bounds::check;
use wrp_caldb::{CalDb, Lists};
use wrp_calibration_text::{fault_at, lists_of, syntax};
use wrp_config::Network;
use wrp_network::NetCfg;

// The answer for a network whose links make a tree.
fn answer_for_tree(
    alloc: Global,
    doc: &Table,
    cfg: NetCfg,
    lists: Lists,
) -> Result<Network, ConfFault>
    requires lists { lists ≡ database_of (table_view doc.now) }
    requires taken { IsTaken (table_view doc.now) }
    requires network { IsNetworkOf (table_view doc.now) cfg }
    requires tree { HasNoFault cfg }
    ensures value { IsAnswerOf (table_view doc.now) result }
    ensures accepted { IfOk result (λ net. IsAccepted net.cfg net.db) }
{
    let _doc = doc;
    match check(&cfg) {
        Ok(()) => Ok(Network {
            cfg,
            db: CalDb::of_lists(lists),
        }),
        Err(clash) => Err(clash_fault(alloc, &clash)),
    }
}

// The answer for a text whose tables are taken.
fn answer_for_taken(
    alloc: Global,
    doc: &Table,
    network: &Table,
    lists: Lists,
) -> Result<Network, ConfFault>
    requires network { table_view network.now ≡ network_in (table_view doc.now) }
    requires lists { lists ≡ database_of (table_view doc.now) }
    requires taken { IsTaken (table_view doc.now) }
    ensures value { IsAnswerOf (table_view doc.now) result }
    ensures accepted { IfOk result (λ net. IsAccepted net.cfg net.db) }
{
    let cfg = network_of(doc, network, &lists);
    match tree::refusal(&cfg) {
        Some((fault, n)) => Err(node_fault(alloc, fault, n)),
        None => answer_for_tree(alloc, doc, cfg, lists),
    }
}

// The answer for a table and what it lists.
fn answer_for_lists(
    alloc: Global,
    doc: &Table,
    network: &Table,
    lists: Lists,
) -> Result<Network, ConfFault>
    requires network { table_view network.now ≡ network_in (table_view doc.now) }
    requires lists { lists ≡ database_of (table_view doc.now) }
    ensures value { IsAnswerOf (table_view doc.now) result }
    ensures accepted { IfOk result (λ net. IsAccepted net.cfg net.db) }
{
    match refusal(alloc, doc, network, &lists) {
        Ok(Some((code, place))) => Err(fault_at(alloc, code, &place)),
        Ok(None) => answer_for_taken(alloc, doc, network, lists),
        Err(error) => Err(ConfFault::Memory(error)),
    }
}

// The answer for a table.
fn answer_of(alloc: Global, doc: &Table) -> Result<Network, ConfFault>
    ensures value { IsAnswerOf (table_view doc.now) result }
    ensures accepted { IfOk result (λ net. IsAccepted net.cfg net.db) }
{
    let empty = Table::new(alloc);
    let network = network_in(doc, &empty);
    match lists_of(alloc, doc) {
        Ok(lists) => answer_for_lists(alloc, doc, network, lists),
        Err(error) => Err(ConfFault::Memory(error)),
    }
}

// The answer for a text.
fn answer_for(alloc: Global, text: &str) -> Result<Network, ConfFault>
    requires { IsUtf8 text.now }
    ensures value { IsReadingOf text.now result }
    ensures accepted { IfOk result (λ net. IsAccepted net.cfg net.db) }
{
    match toml::table_from_str(alloc, text) {
        Ok(doc) => answer_of(alloc, &doc),
        Err(error) => {
            if error.is_memory() {
                Err(ConfFault::Memory(AllocError))
            } else {
                Err(syntax())
            }
        }
    }
}

/// How a network is read.
pub trait ReadNetwork {
    /// Reads a network file: TOML with the keys `version`, `network`, `node`, `link`, `module` and
    /// `fibre`. A fault is the least code that the file has, at the first place that has it: 1 Syntax
    /// at `-` if the octets are no UTF-8 or no TOML, 2 UnknownKey, 3 Missing, 4 Range, 5 Twice, 7
    /// NotATree, 8 TwoSlaves, 9 TooDeep, and 10 Clash, whose place is the broken inequality with both
    /// its sides (this project's profile). Out of memory is an answer of its own, and may come in place
    /// of any other; apart from this, a text has no second answer. Each network that is read is
    /// accepted. Nothing is left of a file that is not read.
    fn read(alloc: Global, bytes: &[u8]) -> Result<Network, ConfFault>;
}

impl ReadNetwork for Network {
    fn read(alloc: Global, bytes: &[u8]) -> Result<Network, ConfFault>
        ensures value { IsReadingOf bytes.now result }
        ensures only { IsOnlyReadingOf bytes.now result }
        ensures accepted { IfOk result (λ net. IsAccepted net.cfg net.db) }
    {
        match str::from_utf8(bytes) {
            Ok(text) => answer_for(alloc, text),
            Err(_) => Err(syntax()),
        }
    }
}
