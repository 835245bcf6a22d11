//! A world before any event.
ghost use Rattle.std.specs.Prelude.{◌≡◌, ◌<◌, [], IfOk, length};
ghost use Rattle.wrp_network.specs.Network.{node_count};
ghost use Rattle.wrp_config.specs.Accepted.{IsAccepted};
ghost use Rattle.wrp_node.specs.Control.{law_in};
ghost use Rattle.wrp_node.specs.New.{node_setting_of};
ghost use Rattle.wrp_node.specs.Node.{IsValid as NodeIsValid};
ghost use Rattle.wrp_node.specs.Set.{set_of};
ghost use Rattle.wrp_node.specs.StandsFor.{StandsFor as NodeStandsFor};
ghost use Rattle.wrp_world.specs.HasLaws.{HasLaws};
ghost use Rattle.wrp_world.specs.InTrueRun.{InTrueRun};
ghost use Rattle.wrp_world.specs.New.{FitsLaw, IsNewNode, setting_of};
ghost use Rattle.wrp_plant.specs.Plant.{Each};
ghost use Rattle.wrp_world.specs.StandsFor.{IsValid, StandsFor};
ghost use Rattle.wrp_course.specs.WorldAt.{new_world};

use super::World;
use std::alloc::{AllocError, Global};
use wrp_config::Network;
use wrp_law::DelayLaw;
use wrp_node::{Node, node_set};
use wrp_plant::Plant;

impl<F: Fn(i64) -> i64> World<F> {
    /// A world before any event: all nodes are down, all links are cut, and true time is the epoch.
    /// `laws` has one entry for each node, in file order: `None` for the grandmaster, and for each
    /// other node a law of the same kind as the link above it, with at most that link's error.
    /// `AllocError` if there is not enough memory; then there is no world.
    #[inline(never)]
    pub fn new(
        alloc: Global,
        net: Network,
        laws: Vec<Option<DelayLaw<F>>>,
    ) -> Result<World<F>, AllocError>
        requires net { IsAccepted net.cfg net.db }
        requires count { length laws.items ≡ node_count net.cfg }
        requires laws { Each (FitsLaw F.pre F.post net.cfg) laws.items }
        ensures stands { IfOk result (StandsFor F.post (setting_of net.cfg net.db laws.items)
            (new_world (setting_of net.cfg net.db laws.items))) }
        ensures valid { IfOk result (IsValid F.pre F.post) }
        ensures net { IfOk result (λ world. world.plant.net ≡ net) }
        ensures laws { IfOk result (HasLaws laws.items) }
        ensures begins { IfOk result (InTrueRun F.pre F.post (setting_of net.cfg net.db laws.items)
            []) }
    {
        let aside = Vec::new(alloc);
        let nodes = new_nodes(alloc, &net, laws)?;
        let plant = Plant::new(alloc, net)?;
        Ok(World {
            plant,
            nodes,
            aside,
        })
    }
}

// The nodes.
fn new_nodes<F: Fn(i64) -> i64>(
    alloc: Global,
    net: &Network,
    laws: Vec<Option<DelayLaw<F>>>,
) -> Result<Vec<Node<F>>, AllocError>
    requires net { IsAccepted net.now.cfg net.now.db }
    requires count { length laws.items ≡ node_count net.now.cfg }
    requires laws { Each (FitsLaw F.pre F.post net.now.cfg) laws.items }
    ensures count { IfOk result (λ nodes. length nodes.items ≡ node_count net.now.cfg) }
    ensures each { IfOk result (λ nodes. Each (IsNewNode F.pre F.post net.now.cfg laws.items) nodes.items) }
{
    let count = net.cfg.nodes.len();
    let mut nodes = Vec::with_capacity(alloc, count)?;
    let mut n: u8 = 0;
    for law in laws {
        nodes.push(new_node(alloc, net, n, law)?)?;
        n += 1;
    }
    Ok(nodes)
}

// A node with its law.
fn new_node<F: Fn(i64) -> i64>(
    alloc: Global,
    net: &Network,
    n: u8,
    law: Option<DelayLaw<F>>,
) -> Result<Node<F>, AllocError>
    requires net { IsAccepted net.now.cfg net.now.db }
    requires node { n < node_count net.now.cfg }
    requires law { FitsLaw F.pre F.post net.now.cfg n law }
    ensures stands { IfOk result (λ node. NodeStandsFor F.post (node_setting_of (set_of net.now.cfg n) law) node []) }
    ensures valid { IfOk result (NodeIsValid F.pre F.post) }
    ensures law { IfOk result (λ node. law_in node.control ≡ law) }
{
    let set = node_set(&net.cfg, n);
    Node::new(alloc, set, law)
}
