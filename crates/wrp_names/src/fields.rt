//! The fields of a line that name a node or a link, by their places from 1: what each says, or its fault.
ghost use Rattle.std.specs.Prelude.{◌≡◌, ◌<◌, IfOk, length};
ghost use Rattle.csv.specs.Records.{fields_of};
ghost use Rattle.wrp_network.specs.Network.{node_count};
ghost use Rattle.wrp_names.specs.Fields.{node_at, link_at};

use crate::names::{link_named, node_named};
use csv::ByteRecord;
use wrp_base::TraceFault;
use wrp_fields::{field, name_fault};
use wrp_network::NetCfg;

/// The node that the field of a place names. `Name` with this place if it is no node's name.
pub fn node_at(row: &ByteRecord, place: u32, cfg: &NetCfg) -> Result<u8, TraceFault>
    requires { 0 < place }
    ensures value { result ≡ node_at cfg.now place (fields_of row.now) }
    ensures within { IfOk result (λ n. n < node_count cfg.now) }
{
    match node_named(cfg, field(row, place)) {
        Some(node) => Ok(node),
        None => Err(name_fault(place)),
    }
}

/// The link that the field of a place names. `Name` with this place if it is no link's name.
pub fn link_at(row: &ByteRecord, place: u32, cfg: &NetCfg) -> Result<u8, TraceFault>
    requires { 0 < place }
    ensures value { result ≡ link_at cfg.now place (fields_of row.now) }
    ensures within { IfOk result (λ l. l < length cfg.now.links.items) }
{
    match link_named(cfg, field(row, place)) {
        Some(link) => Ok(link),
        None => Err(name_fault(place)),
    }
}
