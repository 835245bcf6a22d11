//! The bounds of the nodes of a network in TRACK, worked out once.
ghost use Rattle.std.specs.Prelude.{◌≡◌, IfOk};
ghost use Rattle.wrp_network.specs.Network.{HasRanges, IsTree};
ghost use Rattle.wrp_network_world.specs.Bounds.{AreBounds};

use crate::nodes::count_of;
use std::alloc::{AllocError, Global};
use wrp_base::Tau;
use wrp_bounds::path;
use wrp_config::Network;

/// The bounds of all nodes in TRACK, in tau. `AllocError` if memory runs out.
pub fn bounds_of(alloc: Global, net: &Network) -> Result<Vec<Tau>, AllocError>
    requires ranges { HasRanges net.now.cfg }
    requires tree { IsTree net.now.cfg }
    ensures { IfOk result (λ bounds. AreBounds net.now.cfg bounds.items) }
{
    let count = count_of(net);
    let mut bounds = Vec::with_capacity(alloc, usize::from(count))?;
    let mut node: u8 = 0;
    while node < count {
        bounds.push(path(&net.cfg, node))?;
        node += 1;
    }
    Ok(bounds)
}
