//! The lines that close a node's records: its counters that are not 0, by port and reason.
ghost use Rattle.std.specs.Prelude.{◌≡◌, ◌≤◌, ◌++◌, List, IfOk, true};
ghost use Rattle.wrp_network.specs.Network.{name_at};
ghost use Rattle.wrp_node.specs.NodeAt.{NodeSetting, Taken};
ghost use Rattle.wrp_node.specs.NodeRun.{node_after};
ghost use Rattle.wrp_node.specs.Parts.{is_among};
ghost use Rattle.wrp_node.specs.StandsFor.{StandsFor};
ghost use Rattle.wrp_trace.specs.LineSetting.{has_port};
ghost use Rattle.wrp_replay.specs.NodeText.{nonzero_line, port_counts, node_counts};
ghost use Rattle.wrp_replay.specs.StandsFor.{OwnsPorts, line_setting_at};

use crate::replayed::Replayed;
use std::alloc::AllocError;
use wrp_config::pair_at;
use wrp_data::Reason;
use wrp_lines::append_count_line;
use wrp_node::Node;

// The numbers that a port may have.
const PORTS: [u16; 18] = [
    1, 2, 3, 4, 5, 6, 7, 8, 9, 10, 11, 12, 13, 14, 15, 16, 17, 18,
];

// Appends the line of a counter, if it is not 0.
fn append_count(
    name: &str,
    port: u16,
    reason: u8,
    value: u32,
    text: &mut Vec<u8>,
) -> Result<(), AllocError>
    requires least { 1 ≤ reason }
    requires greatest { reason ≤ 15 }
    ensures { IfOk result (λ _.
        text.new.items ≡ text.old.items ++ nonzero_line name.now port reason value) }
{
    if value == 0 {
        return Ok(());
    }
    append_count_line(name, port, reason, value, text)
}

// Appends the lines of the counters of a port of the node.
fn append_port<F: Fn(i64) -> i64>(
    name: &str,
    node: &Node<F>,
    port: u16,
    text: &mut Vec<u8>,
) -> Result<(), AllocError>
    requires port { is_among port node.now.parts.ports ≡ true }
    ensures { IfOk result (λ _. (fixed : NodeSetting) (inputs : List Taken)
        → StandsFor F.post fixed node.now inputs → text.new.items ≡ text.old.items
        ++ port_counts name.now port ((node_after fixed inputs).counters port)) }
{
    for reason in &Reason::ALL {
        let number = reason.number();
        let value = node.count(port, number);
        append_count(name, port, number, value, text)?;
    }
    Ok(())
}

// Whether the node has a port with this number.
fn has_port(replayed: Replayed<'_>, port: u16) -> bool
    ensures { result ≡ has_port (line_setting_at replayed.entry) port }
{
    pair_at(&replayed.net.cfg, replayed.node, port).is_some()
}

/// Appends the lines of the counters of all ports of the node. `AllocError` if memory runs out:
/// then nothing is known of `text`.
pub fn append_counts<F: Fn(i64) -> i64>(
    replayed: Replayed<'_>,
    name: &str,
    node: &Node<F>,
    text: &mut Vec<u8>,
) -> Result<(), AllocError>
    requires name { name.now ≡ name_at (line_setting_at replayed).cfg replayed.node }
    requires ports { OwnsPorts (line_setting_at replayed) node.now.parts.ports }
    ensures { IfOk result (λ _. (fixed : NodeSetting) (inputs : List Taken)
        → StandsFor F.post fixed node.now inputs → text.new.items ≡ text.old.items
        ++ node_counts (line_setting_at replayed.entry) (node_after fixed inputs)) }
{
    for port in &PORTS {
        if has_port(replayed, *port) {
            append_port(name, node, *port, text)?;
        }
    }
    Ok(())
}
