//! The way of a frame: the numbers of the ends of its link, and the port that it comes to.
ghost use Rattle.std.specs.Prelude.{◌≡◌, ◌<◌, Some, length, option_map, slice_get};
ghost use Rattle.wrp_network.specs.Network.{node_count};
ghost use Rattle.wrp_loop.specs.Datagrams.{end_number};
ghost use Rattle.wrp_loop.specs.LoopStands.{Flies, RoutesFrame};
ghost use Rattle.wrp_node.specs.Set.{identity_of};
ghost use Rattle.wrp_course.specs.Runs.{IsNetwork};
ghost use Rattle.wrp_course.specs.Setting.{Setting, end_of};
ghost use Rattle.wrp_course.specs.WorldAt.{FrameAt, WorldAt};
ghost use Rattle.wrp_world.specs.StandsFor.{IsValid, StandsFor};

use wrp_base::{PortIdentity, Role};
use wrp_course::{Place, place_of};
use wrp_network::NetCfg;
use wrp_world::World;

/// The way of a frame.
#[derive(Clone, Copy, Debug, PartialEq, Eq)]
pub struct Route {
    /// The number of the end that sent it.
    pub from: u32,
    /// The number of the end that it comes to.
    pub to: u32,
    /// The node that it comes to.
    pub node: u8,
    /// Its port.
    pub port: u16,
    /// The peer of that port: the port that sent the frame.
    pub peer: PortIdentity,
}

// The number of an end of a link: link number k has the end 2k above and the end 2k + 1 below.
fn end_number(place: Place) -> u32
    ensures { result ≡ end_number place.link place.role }
{
    match place.role {
        Role::Master => 2 * u32::from(place.link),
        Role::Slave => 2 * u32::from(place.link) + 1,
    }
}

// The node at an end of a link.
fn node_at(cfg: &NetCfg, place: Place) -> u8
    requires { place.link < length cfg.now.links.items }
    ensures { option_map (λ link. (end_of place.role link).node) (slice_get cfg.now.links.items place.link)
        ≡ Some result }
{
    let link = &cfg.links[usize::from(place.link)];
    match place.role {
        Role::Master => link.upper,
        Role::Slave => link.lower,
    }
}

// Its port there.
fn port_at(cfg: &NetCfg, place: Place) -> u16
    requires { place.link < length cfg.now.links.items }
    ensures { option_map (λ link. (end_of place.role link).port) (slice_get cfg.now.links.items place.link)
        ≡ Some result }
{
    let link = &cfg.links[usize::from(place.link)];
    match place.role {
        Role::Master => link.upper_port,
        Role::Slave => link.lower_port,
    }
}

// clockIdentity of a node.
fn identity_of(cfg: &NetCfg, node: u8) -> u64
    requires { node < node_count cfg.now }
    ensures { result ≡ identity_of cfg.now node }
{
    cfg.nodes[usize::from(node)].identity
}

/// The way of a frame. `None` if no frame with this number is kept.
pub fn route_of<F: Fn(i64) -> i64>(world: &World<F>, frame: u32) -> Option<Route>
    requires { IsValid F.pre F.post world.now }
    ensures { (s : Setting) (w : WorldAt) (f : FrameAt) → StandsFor F.post s w world.now → IsNetwork s
        → Flies w s frame f → RoutesFrame s f result }
{
    let cfg = &world.net().cfg;
    let Some((node, port)) = world.sender(frame) else {
        return None;
    };
    let Some(place) = place_of(cfg, node, port) else {
        return None;
    };
    Some(Route {
        from: end_number(place),
        to: end_number(place.across()),
        node: node_at(cfg, place.across()),
        port: port_at(cfg, place.across()),
        peer: PortIdentity {
            clock: identity_of(cfg, node),
            port,
        },
    })
}
