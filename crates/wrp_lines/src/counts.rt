//! The lines of the counters of dropped frames.
ghost use Rattle.std.specs.Prelude.{◌≡◌, ◌∷◌, ◌++◌, ◌<◌, ◌≤◌, IfOk, OnOk, OnErr};
ghost use Rattle.wrp_network.specs.Network.{node_count};
ghost use Rattle.wrp_lines.specs.Lines as lines;
ghost use Rattle.wrp_lines.specs.Lines.{count_line_of, count_words};
ghost use Rattle.wrp_records.specs.Words.{line_of};

use crate::words::{name_of_node, name_of_reason};
use itoa::Buffer;
use std::alloc::{AllocError, Global};
use wrp_config::Network;
use wrp_records::append_words;

/// The line of a counter at a port of the node, with its LF. `reason` is the number of the reason,
/// 1 to 15. `AllocError` if memory runs out.
pub fn count_line(
    alloc: Global,
    net: &Network,
    node: u8,
    port: u16,
    reason: u8,
    value: u32,
) -> Result<Vec<u8>, AllocError>
    requires node { node < node_count net.now.cfg }
    requires least { 1 ≤ reason }
    requires greatest { reason ≤ 15 }
    ensures { IfOk result (λ line.
        line.items ≡ lines.count_line net.now.cfg node port reason value) }
{
    let mut line = Vec::new(alloc);
    let name = name_of_node(&net.cfg, node);
    append_count_line(name, port, reason, value, &mut line)?;
    Ok(line)
}

/// Appends to `text` the line of a counter of the node with this name. `reason` is the number of
/// the reason, 1 to 15. `AllocError` if memory runs out: `text` keeps its octets.
pub fn append_count_line(
    name: &str,
    port: u16,
    reason: u8,
    value: u32,
    text: &mut Vec<u8>,
) -> Result<(), AllocError>
    requires least { 1 ≤ reason }
    requires greatest { reason ≤ 15 }
    ensures ok { OnOk result (
        text.new.items ≡ text.old.items ++ count_line_of name.now port reason value) }
    ensures err { OnErr result (text.new.items ≡ text.old.items) }
{
    append_count(name, port, name_of_reason(reason), value, text)
}

// The same, by the name of the reason.
fn append_count(
    name: &str,
    port: u16,
    reason: &str,
    value: u32,
    text: &mut Vec<u8>,
) -> Result<(), AllocError>
    ensures ok { OnOk result (text.new.items ≡ text.old.items
        ++ line_of (name.now ∷ count_words port reason.now value)) }
    ensures err { OnErr result (text.new.items ≡ text.old.items) }
{
    let mut ports = Buffer::new();
    let mut values = Buffer::new();
    let port = ports.format(port);
    append_words(text, &[name, "count", port, reason, values.format(value)])
}
