//! Which end of which link a port of a node is.
ghost use Rattle.std.specs.Prelude.{◌≡◌, ◌<◌, length, IfSome};
ghost use Rattle.wrp_base.specs.Link.{other_of};
ghost use Rattle.wrp_course.specs.Setting.{across, place_among, sends_nm};

use wrp_base::Role;
use wrp_config::{is_lower_end, is_upper_end};
use wrp_network::{LinkCfg, NetCfg};

/// An end of a link.
#[derive(Clone, Copy, Debug, PartialEq, Eq)]
pub struct Place {
    /// The link.
    pub link: u8,
    /// Which end it is.
    pub role: Role,
}

impl Place {
    /// The other end of its link.
    pub fn across(self) -> Place
        ensures { result ≡ across self }
    {
        Place {
            link: self.link,
            role: other_of(self.role),
        }
    }
}

/// The role at the other end.
pub fn other_of(role: Role) -> Role
    ensures { result ≡ other_of role }
{
    match role {
        Role::Master => Role::Slave,
        Role::Slave => Role::Master,
    }
}

/// The wavelength that an end of a link sends, in nm.
pub fn sends_nm(role: Role, link: &LinkCfg) -> u16
    ensures { result ≡ sends_nm role link.now }
{
    match role {
        Role::Master => link.down_nm,
        Role::Slave => link.up_nm,
    }
}

/// The end that a port of a node is. `None` if and only if no link has that port; `cfg` is only
/// read.
pub fn place_of(cfg: &NetCfg, n: u8, port: u16) -> Option<Place>
    ensures value { result ≡ place_among n port 0 cfg.now.links.items }
    ensures within { IfSome result (λ place. place.link < length cfg.now.links.items) }
{
    let mut k: u8 = 0;
    for link in cfg.links.as_slice() {
        if is_upper_end(link, n, port) {
            return Some(Place {
                link: k,
                role: Role::Master,
            });
        }
        if is_lower_end(link, n, port) {
            return Some(Place {
                link: k,
                role: Role::Slave,
            });
        }
        k += 1;
    }
    None
}
