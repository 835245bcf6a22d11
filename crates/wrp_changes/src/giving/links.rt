//! The inputs that are given when a link is cut, and when a link is joined.
ghost use Rattle.std.specs.Prelude.{◌≡◌, ◌<◌, [], ℤ, length, OnOk, if◌then◌else◌};
ghost use Rattle.wrp_base.specs.declared.link.Role.TheVariants.{Master};
ghost use Rattle.wrp_course.specs.declared.event.Event.TheVariants as event;
ghost use Rattle.wrp_course.specs.Given.{comes_from, goes_from};
ghost use Rattle.wrp_changes.specs.Giving.{Adds, Gives};
ghost use Rattle.wrp_plant.specs.Plant.{FitsPlant};
ghost use Rattle.wrp_course.specs.Setting.{link_of};
ghost use Rattle.wrp_course.specs.WorldAt.{ends_are_up, has_carrier};

use super::ends::{comes_from, goes_from, other_end};
use std::alloc::AllocError;
use wrp_base::Role;
use wrp_course::{NodeOut, Place};
use wrp_plant::Plant;

// The upper end of a link.
fn upper_end(link: u8) -> Place
    ensures { result ≡ record { link = link; role = Master } }
{
    Place {
        link,
        role: Role::Master,
    }
}

/// Adds the two inputs for a carrier that is lost, first at this end and then at the other, if the
/// link has its carrier. Otherwise it adds none. `AllocError` if there is not enough memory; then
/// the contents of `outs` are not specified.
pub fn goes_if_carried(
    plant: &Plant,
    place: Place,
    outs: &mut Vec<NodeOut>,
) -> Result<(), AllocError>
    requires fits { FitsPlant plant.now }
    requires link { place.link < length plant.now.net.cfg.links.items }
    ensures { OnOk result (Adds plant.now 2
        (λ s w. if has_carrier s w place.link then goes_from s place.link place.role else [])
        outs.old.items outs.new.items) }
{
    let carrier = plant.has_carrier(place.link);
    if carrier {
        goes_from(plant, place, outs)
    } else {
        Ok(())
    }
}

// The carrier of a link comes at both ends, with the installed modules, if both nodes are up.
fn comes_if_up(plant: &Plant, link: u8, outs: &mut Vec<NodeOut>) -> Result<(), AllocError>
    requires fits { FitsPlant plant.now }
    requires link { link < length plant.now.net.cfg.links.items }
    ensures { OnOk result (Adds plant.now 2
        (λ s w. if ends_are_up w.clock (link_of s link) then comes_from s w link Master else [])
        outs.old.items outs.new.items) }
{
    let up = plant.ends_are_up(link);
    if up {
        comes_in_place(plant, upper_end(link), outs)
    } else {
        Ok(())
    }
}

// The carrier comes at this end and then at the other, with the installed modules.
fn comes_in_place(plant: &Plant, place: Place, outs: &mut Vec<NodeOut>) -> Result<(), AllocError>
    requires fits { FitsPlant plant.now }
    requires link { place.link < length plant.now.net.cfg.links.items }
    ensures { OnOk result (Adds plant.now 2 (λ s w. comes_from s w place.link place.role)
        outs.old.items outs.new.items) }
{
    let own = &plant.end(place).name;
    let other = &plant.end(other_end(place)).name;
    comes_from(plant, place, own, other, outs)
}

/// Lists the inputs that are given when a link is cut. `AllocError` if there is not enough memory;
/// then the contents of `outs` are not specified.
pub fn give_cut(plant: &Plant, link: u8, outs: &mut Vec<NodeOut>) -> Result<(), AllocError>
    requires fits { FitsPlant plant.now }
    requires link { link < length plant.now.net.cfg.links.items }
    ensures { OnOk result (Gives plant.now (event.Cut link) outs.new.items) }
{
    outs.clear();
    goes_if_carried(plant, upper_end(link), outs)
}

/// Lists the inputs that are given when a link is joined, whatever its delays. `AllocError` if
/// there is not enough memory; then the contents of `outs` are not specified.
pub fn give_join(plant: &Plant, link: u8, outs: &mut Vec<NodeOut>) -> Result<(), AllocError>
    requires fits { FitsPlant plant.now }
    requires link { link < length plant.now.net.cfg.links.items }
    ensures { OnOk result ((ms sm : ℤ)
        → Gives plant.now (event.Join link ms sm) outs.new.items) }
{
    outs.clear();
    comes_if_up(plant, link, outs)
}
