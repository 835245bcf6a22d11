//! The world and its functions.
mod asked;
mod broken;
mod fitting;
mod give;
mod new;
mod rates;
mod step;
mod taking;
mod views;

use std::marker::Model;
use wrp_course::NodeOut;
use wrp_node::Node;
use wrp_plant::Plant;

/// A network of nodes over true time. After a list of accepted events it is what the run of the
/// world with these events leads to (`StandsFor`).
#[derive(Drop)]
pub struct World<F> {
    plant: Plant,
    nodes: Vec<Node<F>>,
    // Entries of steps that are used again. Their contents do not matter.
    aside: Vec<NodeOut>,
}

impl<F> Model for World<F> {
    ghost use Rattle.wrp_world.specs.KeepsFibres.{KeepsFibres};
    ghost use Rattle.wrp_world.specs.StandsFor.{WorldOf};

    ghost Value = { WorldOf F };

    ghost view = { λ w. record { plant = w.plant; nodes = w.nodes.items } };

    ghost invariant = { λ w. KeepsFibres w.plant };
}
