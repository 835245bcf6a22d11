//! Which premise breaks if a port is handed octets that its peer did not send.
ghost use Rattle.std.specs.Prelude.{◌≡◌, ◌<◌, ◌∷◌, [], length, Some};
ghost use Rattle.wrp_node.specs.Set as set;
ghost use Rattle.wrp_course.specs.Checks.{told_of};
ghost use Rattle.wrp_plant.specs.Plant.{FitsPlant, PlantIs};
ghost use Rattle.wrp_course.specs.Premises as premise;
ghost use Rattle.wrp_course.specs.Setting.{Setting, place_of as place_in};
ghost use Rattle.wrp_premises.specs.Tried.{TellsNoise, forged_by, identity_at, is_by};
ghost use Rattle.wrp_course.specs.WorldAt.{WorldAt};

use crate::checks::needs;
use crate::handing::carrier_broken;
use wrp_base::{Frame, PortIdentity, PtpMsg, Role};
use wrp_course::{Breach, Place, place_of};
use wrp_frame::{FrameFault, decode};
use wrp_network::LinkCfg;
use wrp_plant::Plant;

// Whether octets spell a message of this port.
fn is_by(peer: PortIdentity, says: &Result<PtpMsg, FrameFault>) -> bool
    ensures { result ≡ is_by peer says.now }
{
    match says {
        Ok(message) => message.head.source == peer,
        Err(_) => false,
    }
}

// Checks that octets do not spell a message of the peer.
fn forged(by_peer: bool) -> Option<Breach>
    ensures { result ≡ told_of (forged_by by_peer ∷ []) }
{
    if by_peer {
        Some(Breach {
            premise: 12,
            shown: 1,
            bound: 0,
        })
    } else {
        None
    }
}

// The clockIdentity of a node.
fn identity(plant: &Plant, n: u8) -> u64
    requires fits { FitsPlant plant.now }
    requires node { n < length plant.now.net.cfg.nodes.items }
    ensures { result ≡ set.identity_of plant.now.net.cfg n }
{
    plant.node_cfg(n).identity
}

// The portIdentity of an end of a link.
fn identity_at(plant: &Plant, role: Role, link: &LinkCfg) -> PortIdentity
    requires fits { FitsPlant plant.now }
    requires upper { link.now.upper < length plant.now.net.cfg.nodes.items }
    requires lower { link.now.lower < length plant.now.net.cfg.nodes.items }
    ensures { result ≡ identity_at plant.now.net.cfg role link.now }
{
    match role {
        Role::Master => PortIdentity {
            clock: identity(plant, link.upper),
            port: link.upper_port,
        },
        Role::Slave => PortIdentity {
            clock: identity(plant, link.lower),
            port: link.lower_port,
        },
    }
}

// The same for octets that are decoded, and a port that is this end of a link.
fn said_broken(
    plant: &Plant,
    n: u8,
    port: u16,
    place: Place,
    says: &Result<PtpMsg, FrameFault>,
) -> Option<Breach>
    requires fits { FitsPlant plant.now }
    requires link { place.link < length plant.now.net.cfg.links.items }
    ensures { (s : Setting) (w : WorldAt) → PlantIs s w plant.now → s.set n ≡ set.set_of s.cfg n
        → place_in s n port ≡ Some place
        → result ≡ told_of (premise.noise_checks s w n port says.now (Some place)) }
{
    let link = plant.link_cfg(place.link);
    let to = place.across();
    let peer = identity_at(plant, to.role, link);
    let by_peer = is_by(peer, says);
    carrier_broken(plant, forged(by_peer), place.link)
}

// The same for octets that are decoded.
fn heard_broken(
    plant: &Plant,
    n: u8,
    port: u16,
    says: &Result<PtpMsg, FrameFault>,
) -> Option<Breach>
    requires { FitsPlant plant.now }
    ensures { (s : Setting) (w : WorldAt) → PlantIs s w plant.now → s.set n ≡ set.set_of s.cfg n
        → result ≡ told_of (premise.noise_checks s w n port says.now (place_in s n port)) }
{
    match place_of(&plant.net.cfg, n, port) {
        Some(place) => said_broken(plant, n, port, place, says),
        None => needs(false),
    }
}

/// The first premise that breaks if a port is handed octets that its peer did not send, with both
/// sides: the port is at no link (13), the octets spell a message of the peer (12, as 1 against 0),
/// or the link has no carrier (13). `None` if none breaks.
pub fn noise_broken(plant: &Plant, n: u8, port: u16, octets: &Frame) -> Option<Breach>
    requires { FitsPlant plant.now }
    ensures { TellsNoise plant.now n port octets.now.items result }
{
    let says = decode(octets.as_slice());
    heard_broken(plant, n, port, &says)
}
