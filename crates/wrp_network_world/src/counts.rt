//! The lines that close the records over a world: the counters of all nodes that are not 0, by node, port and reason.
ghost use Rattle.std.specs.Prelude.{◌≡◌, ◌<◌, ◌++◌, IfOk};
ghost use Rattle.wrp_network.specs.Network.{node_count};
ghost use Rattle.wrp_course.specs.Setting.{Setting};
ghost use Rattle.wrp_world.specs.StandsFor.{IsValid, StandsFor};
ghost use Rattle.wrp_course.specs.WorldAt.{WorldAt};
ghost use Rattle.wrp_trace.specs.LineSetting.{line_setting_in};
ghost use Rattle.wrp_network_world.specs.Counts.{all_counts};
ghost use Rattle.wrp_replay.specs.NodeText.{node_counts};

use crate::nodes::count_of;
use std::alloc::AllocError;
use wrp_replay::{Replayed, append_counts, name_of};
use wrp_world::World;

// Appends the lines of a node's counters.
fn append_node<F: Fn(i64) -> i64>(
    world: &World<F>,
    node: u8,
    text: &mut Vec<u8>,
) -> Result<(), AllocError>
    requires valid { IsValid F.pre F.post world.now }
    requires node { node < node_count world.now.plant.net.cfg }
    ensures { IfOk result (λ _. (s : Setting) (w : WorldAt) → StandsFor F.post s w world.now
        → text.new.items ≡ text.old.items ++ node_counts (line_setting_in s node) (w.node node)) }
{
    let replayed = Replayed {
        net: world.net(),
        node,
    };
    let name = name_of(replayed);
    append_counts(replayed, name, world.node(node), text)
}

/// Appends the lines of all nodes' counters. `AllocError` if memory runs out: then nothing is known
/// of `text`.
pub fn append_all_counts<F: Fn(i64) -> i64>(
    world: &World<F>,
    text: &mut Vec<u8>,
) -> Result<(), AllocError>
    requires { IsValid F.pre F.post world.now }
    ensures { IfOk result (λ _. (s : Setting) (w : WorldAt) → StandsFor F.post s w world.now
        → text.new.items ≡ text.old.items ++ all_counts s w) }
{
    let count = count_of(world.net());
    let mut node: u8 = 0;
    while node < count {
        append_node(world, node, text)?;
        node += 1;
    }
    Ok(())
}
