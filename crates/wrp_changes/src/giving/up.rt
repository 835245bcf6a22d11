//! The inputs that are given when a node comes up: its restart, then its ports, in ascending order.
ghost use Rattle.std.specs.Prelude.{◌≡◌, ◌<◌, ◌&&◌, ◌||◌, [], ℤ, length, OnOk, if◌then◌else◌};
ghost use Rattle.arrayvec.specs.ArrayVec.{ArrayVec as Items};
ghost use Rattle.wrp_course.specs.declared.event.Event.TheVariants as event;
ghost use Rattle.wrp_course.specs.declared.event.Swap.{Swap as SwapAt};
ghost use Rattle.wrp_course.specs.Given.{comes_from, if_carried};
ghost use Rattle.wrp_changes.specs.Giving.{Adds, Gives, at_numbers, up_of};
ghost use Rattle.wrp_plant.specs.Plant.{FitsPlant, PlantIs};
ghost use Rattle.wrp_course.specs.Setting.{Setting, from_on, place_of as place_in};
ghost use Rattle.wrp_course.specs.WorldAt.{WorldAt, has_carrier};

use super::LAST_PORT;
use super::ends::{comes_from, other_end};
use super::listing::{Gift, add};
use crate::moves::swaps::name_with;
use arrayvec::ArrayVec;
use std::alloc::AllocError;
use wrp_course::{NodeOut, Place, Swap, place_of};
use wrp_network::Name;
use wrp_node::Input;
use wrp_plant::Plant;

fn either(a: bool, b: bool) -> bool
    ensures { result ≡ (a || b) }
{
    a || b
}

fn all_three(a: bool, b: bool, c: bool) -> bool
    ensures { result ≡ (a && (b && c)) }
{
    a && (b && c)
}

// Whether a node is up after this one has come up.
fn is_up_with(plant: &Plant, n: u8, other: u8) -> bool
    requires fits { FitsPlant plant.now }
    requires node { other < length plant.now.net.cfg.nodes.items }
    ensures { (s : Setting) (w : WorldAt) (off : ℤ) (swaps : Items SwapAt)
        → PlantIs s w plant.now → result ≡ ((up_of s w n off swaps).clock other).up }
{
    let up = plant.is_up(other);
    either(other == n, up)
}

// Whether a link then has its carrier.
fn has_carrier_with(plant: &Plant, n: u8, k: u8) -> bool
    requires fits { FitsPlant plant.now }
    requires link { k < length plant.now.net.cfg.links.items }
    ensures { (s : Setting) (w : WorldAt) (off : ℤ) (swaps : Items SwapAt)
        → PlantIs s w plant.now → result ≡ has_carrier s (up_of s w n off swaps) k }
{
    let link = plant.link_cfg(k);
    let joined = plant.joined(k);
    let upper = is_up_with(plant, n, link.upper);
    let lower = is_up_with(plant, n, link.lower);
    all_three(joined, upper, lower)
}

// The name of the module that is then installed at an end.
fn name_after<'a>(plant: &'a Plant, n: u8, swaps: &'a ArrayVec<Swap, 18>, place: Place) -> &'a Name
    requires fits { FitsPlant plant.now }
    requires link { place.link < length plant.now.net.cfg.links.items }
    ensures { (s : Setting) (w : WorldAt) (off : ℤ) → PlantIs s w plant.now
        → result.now.bytes ≡ ((up_of s w n off swaps.now).end_at place.link place.role).name }
{
    let (node, port) = plant.own_at(place);
    let name = &plant.end(place).name;
    name_with(name, node == n, port, swaps.as_slice())
}

// The carrier comes at this end and then at the other, with the modules that are then installed.
fn comes_with(
    plant: &Plant,
    n: u8,
    swaps: &ArrayVec<Swap, 18>,
    place: Place,
    outs: &mut Vec<NodeOut>,
) -> Result<(), AllocError>
    requires fits { FitsPlant plant.now }
    requires link { place.link < length plant.now.net.cfg.links.items }
    ensures { OnOk result ((off : ℤ) → Adds plant.now 2
        (λ s w. comes_from s (up_of s w n off swaps.now) place.link place.role)
        outs.old.items outs.new.items) }
{
    let own = name_after(plant, n, swaps, place);
    let other = name_after(plant, n, swaps, other_end(place));
    comes_from(plant, place, own, other, outs)
}

// The same, if the link then has its carrier.
fn comes_if_carried(
    plant: &Plant,
    n: u8,
    swaps: &ArrayVec<Swap, 18>,
    place: Place,
    outs: &mut Vec<NodeOut>,
) -> Result<(), AllocError>
    requires fits { FitsPlant plant.now }
    requires link { place.link < length plant.now.net.cfg.links.items }
    ensures { OnOk result ((off : ℤ) → Adds plant.now 2
        (λ s w. if has_carrier s (up_of s w n off swaps.now) place.link
        then comes_from s (up_of s w n off swaps.now) place.link place.role else [])
        outs.old.items outs.new.items) }
{
    let carrier = has_carrier_with(plant, n, place.link);
    if carrier {
        comes_with(plant, n, swaps, place, outs)
    } else {
        Ok(())
    }
}

// At one port, if the node has it.
fn comes_at_port(
    plant: &Plant,
    n: u8,
    swaps: &ArrayVec<Swap, 18>,
    port: u16,
    outs: &mut Vec<NodeOut>,
) -> Result<(), AllocError>
    requires { FitsPlant plant.now }
    ensures { OnOk result ((off : ℤ) → Adds plant.now 2
        (λ s w. if_carried s (up_of s w n off swaps.now)
        (comes_from s (up_of s w n off swaps.now)) (place_in s n port))
        outs.old.items outs.new.items) }
{
    match place_of(&plant.net.cfg, n, port) {
        Some(place) => comes_if_carried(plant, n, swaps, place, outs),
        None => Ok(()),
    }
}

// At all ports.
fn comes_at_ports(
    plant: &Plant,
    n: u8,
    swaps: &ArrayVec<Swap, 18>,
    outs: &mut Vec<NodeOut>,
) -> Result<(), AllocError>
    requires { FitsPlant plant.now }
    ensures { OnOk result ((off : ℤ) → Adds plant.now 36
        (λ s w. at_numbers s (up_of s w n off swaps.now)
        (comes_from s (up_of s w n off swaps.now)) n (from_on 18 1))
        outs.old.items outs.new.items) }
{
    for i in 0..LAST_PORT {
        comes_at_port(plant, n, swaps, i + 1, outs)?;
    }
    Ok(())
}

/// Lists the inputs that are given when a node comes up with these modules, whatever the offset of
/// its clock. `AllocError` if there is not enough memory; then the contents of `outs` are not
/// specified.
pub fn give_up(
    plant: &Plant,
    n: u8,
    swaps: &ArrayVec<Swap, 18>,
    outs: &mut Vec<NodeOut>,
) -> Result<(), AllocError>
    requires fits { FitsPlant plant.now }
    requires node { n < length plant.now.net.cfg.nodes.items }
    ensures { OnOk result ((off : ℤ)
        → Gives plant.now (event.Up n off swaps.now) outs.new.items) }
{
    outs.clear();
    add(
        outs,
        Gift {
            node: n,
            input: Input::Reset,
        },
    )?;
    comes_at_ports(plant, n, swaps, outs)
}
