//! The inputs that are given when a node goes down: at each of its ports, in ascending order.
ghost use Rattle.std.specs.Prelude.{◌<◌, length, OnOk};
ghost use Rattle.wrp_course.specs.declared.event.Event.TheVariants as event;
ghost use Rattle.wrp_course.specs.Given.{goes_from, if_carried};
ghost use Rattle.wrp_changes.specs.Giving.{Adds, Gives, at_numbers};
ghost use Rattle.wrp_plant.specs.Plant.{FitsPlant};
ghost use Rattle.wrp_course.specs.Setting.{from_on, place_of as place_in};

use super::LAST_PORT;
use super::links::goes_if_carried;
use std::alloc::AllocError;
use wrp_course::{NodeOut, place_of};
use wrp_plant::Plant;

// At one port, if the node has it.
fn goes_at_port(plant: &Plant, n: u8, port: u16, outs: &mut Vec<NodeOut>) -> Result<(), AllocError>
    requires { FitsPlant plant.now }
    ensures { OnOk result (Adds plant.now 2
        (λ s w. if_carried s w (goes_from s) (place_in s n port))
        outs.old.items outs.new.items) }
{
    match place_of(&plant.net.cfg, n, port) {
        Some(place) => goes_if_carried(plant, place, outs),
        None => Ok(()),
    }
}

// At all ports.
fn goes_at_ports(plant: &Plant, n: u8, outs: &mut Vec<NodeOut>) -> Result<(), AllocError>
    requires { FitsPlant plant.now }
    ensures { OnOk result (Adds plant.now 36
        (λ s w. at_numbers s w (goes_from s) n (from_on 18 1))
        outs.old.items outs.new.items) }
{
    for i in 0..LAST_PORT {
        goes_at_port(plant, n, i + 1, outs)?;
    }
    Ok(())
}

/// Lists the inputs that are given when a node goes down. `AllocError` if there is not enough
/// memory; then the contents of `outs` are not specified.
pub fn give_down(plant: &Plant, n: u8, outs: &mut Vec<NodeOut>) -> Result<(), AllocError>
    requires fits { FitsPlant plant.now }
    ensures { OnOk result (Gives plant.now (event.Down n) outs.new.items) }
{
    outs.clear();
    goes_at_ports(plant, n, outs)
}
