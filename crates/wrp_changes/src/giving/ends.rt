//! Carriers that are lost and carriers that come, at the ends of a link.
ghost use Rattle.std.specs.Prelude.{◌≡◌, ◌<◌, length, true, OnOk};
ghost use Rattle.wrp_base.specs.Link.{other_of};
ghost use Rattle.wrp_course.specs.Given.{goes_at, goes_from};
ghost use Rattle.wrp_changes.specs.Giving.{Adds, comes_over, comes_over_both};
ghost use Rattle.wrp_plant.specs.Plant.{FitsPlant, PlantIs};
ghost use Rattle.wrp_course.specs.Setting.{Setting, entry_at};
ghost use Rattle.wrp_course.specs.WorldAt.{WorldAt};

use super::listing::{Gift, add};
use std::alloc::AllocError;
use wrp_base::Module;
use wrp_course::{NodeOut, Place, other_of, sends_nm};
use wrp_network::Name;
use wrp_node::Input;
use wrp_plant::Plant;

/// The other end of the link.
pub fn other_end(place: Place) -> Place
    ensures { result ≡ record { link = place.link; role = other_of place.role } }
{
    Place {
        link: place.link,
        role: other_of(place.role),
    }
}

// The numbers of a module at an end of a link, if it is listed there.
fn entry(plant: &Plant, place: Place, name: &Name) -> Option<Module>
    requires fits { FitsPlant plant.now }
    requires link { place.link < length plant.now.net.cfg.links.items }
    ensures { (s : Setting) (w : WorldAt) → PlantIs s w plant.now
        → result ≡ entry_at s place.link place.role name.now.bytes }
{
    let link = plant.link_cfg(place.link);
    let sent = sends_nm(place.role, link);
    let received = sends_nm(other_of(place.role), link);
    plant.net.db.module_at(name.as_str(), sent, received)
}

// The carrier is lost at an end.
fn goes_at(plant: &Plant, place: Place, outs: &mut Vec<NodeOut>) -> Result<(), AllocError>
    requires fits { FitsPlant plant.now }
    requires link { place.link < length plant.now.net.cfg.links.items }
    ensures { OnOk result (Adds plant.now 1 (λ s w. goes_at s place.link place.role)
        outs.old.items outs.new.items) }
{
    let (node, port) = plant.own_at(place);
    let input = Input::Carrier {
        port,
        up: false,
        module: None,
    };
    add(outs, Gift { node, input })
}

// The carrier comes at an end, with the module of this name.
fn comes_at(
    plant: &Plant,
    place: Place,
    name: &Name,
    outs: &mut Vec<NodeOut>,
) -> Result<(), AllocError>
    requires fits { FitsPlant plant.now }
    requires link { place.link < length plant.now.net.cfg.links.items }
    ensures { OnOk result (Adds plant.now 1
        (λ s w. comes_over s place.link place.role name.now.bytes)
        outs.old.items outs.new.items) }
{
    let module = entry(plant, place, name);
    let (node, port) = plant.own_at(place);
    let input = Input::Carrier {
        port,
        up: true,
        module,
    };
    add(outs, Gift { node, input })
}

/// Adds the two inputs for a carrier that is lost: first at this end of the link, then at the
/// other. `AllocError` if there is not enough memory; then the contents of `outs` are not
/// specified.
pub fn goes_from(plant: &Plant, place: Place, outs: &mut Vec<NodeOut>) -> Result<(), AllocError>
    requires fits { FitsPlant plant.now }
    requires link { place.link < length plant.now.net.cfg.links.items }
    ensures { OnOk result (Adds plant.now 2 (λ s w. goes_from s place.link place.role)
        outs.old.items outs.new.items) }
{
    goes_at(plant, place, outs)?;
    goes_at(plant, other_end(place), outs)?;
    Ok(())
}

/// Adds the two inputs for a carrier that comes: first at this end of the link, then at the other,
/// with the modules of these names. `AllocError` if there is not enough memory; then the contents
/// of `outs` are not specified.
pub fn comes_from(
    plant: &Plant,
    place: Place,
    own: &Name,
    other: &Name,
    outs: &mut Vec<NodeOut>,
) -> Result<(), AllocError>
    requires fits { FitsPlant plant.now }
    requires link { place.link < length plant.now.net.cfg.links.items }
    ensures { OnOk result (Adds plant.now 2
        (λ s w. comes_over_both s place.link place.role own.now.bytes other.now.bytes)
        outs.old.items outs.new.items) }
{
    comes_at(plant, place, own, outs)?;
    comes_at(plant, other_end(place), other, outs)?;
    Ok(())
}
