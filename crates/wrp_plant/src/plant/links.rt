//! The links: their ends, the modules listed there, and which link is above a node.
ghost use Rattle.std.specs.Prelude.{◌≡◌, ◌==◌, ◌<◌, length, true, Some, IfSome};
ghost use Rattle.std.specs.List.{position};
ghost use Rattle.wrp_base.specs.Clock.{steps_of_period};
ghost use Rattle.wrp_network.specs.Network.{node_count};
ghost use Rattle.wrp_plant.specs.Plant.{FitsPlant, PlantIs};
ghost use Rattle.wrp_course.specs.Setting.{Setting, above, end_at, entry_at, has_port};
ghost use Rattle.wrp_course.specs.WorldAt.{WorldAt};

use super::Plant;
use super::tops::has_own_link;
use super::views::port_of;
use wrp_base::Module;
use wrp_course::{Place, other_of, sends_nm};
use wrp_network::{LinkCfg, NetCfg};

impl Plant {
    /// How many links there are.
    pub fn link_count(&self) -> u8
        ensures { result ≡ length self.now.net.cfg.links.items }
    {
        self.net.cfg.links.len() as u8
    }

    /// The node and the port at an end of a link.
    pub fn own_at(&self, place: Place) -> (u8, u16)
        requires fits { FitsPlant self.now }
        requires link { place.link < length self.now.net.cfg.links.items }
        ensures value { (s : Setting) (w : WorldAt) → PlantIs s w self.now
            → end_at s place.link place.role ≡ Some (record { node = result.0; port = result.1 }) }
        ensures node { result.0 < node_count self.now.net.cfg }
        ensures port { has_port self.now.net.cfg result.0 result.1 ≡ true }
    {
        port_of(self.link_cfg(place.link), place.role)
    }

    /// The numbers of a module for the wavelengths at an end of a link; the delays are in tau. `None` if
    /// the database has no entry for it there.
    pub fn listed_at(&self, place: Place, name: &str) -> Option<Module>
        requires fits { FitsPlant self.now }
        requires link { place.link < length self.now.net.cfg.links.items }
        ensures value { (s : Setting) (w : WorldAt) → PlantIs s w self.now
            → result ≡ entry_at s place.link place.role name.now }
        ensures transition { IfSome result (λ entry. entry.transition < steps_of_period) }
    {
        let link = self.link_cfg(place.link);
        let tx_nm = sends_nm(place.role, link);
        let rx_nm = sends_nm(other_of(place.role), link);
        self.net.db.module_at(name, tx_nm, rx_nm)
    }

    /// The number of the link above a node. `None` only for the grandmaster. The node's own place is tried
    /// first.
    pub fn above(&self, n: u8) -> Option<u8>
        requires { FitsPlant self.now }
        ensures value { (s : Setting) (w : WorldAt) → PlantIs s w self.now → result ≡ above s n }
        ensures within { IfSome result (λ k. k < length self.now.net.cfg.links.items) }
    {
        let cfg = self.cfg();
        if has_own_link(cfg, n) {
            Some(n - 1)
        } else {
            link_above(cfg, n)
        }
    }
}

// The number of the link above a node. `None` only for the grandmaster.
fn link_above(cfg: &NetCfg, n: u8) -> Option<u8>
    ensures value { result ≡ position (λ link. link.lower == n) cfg.now.links.items }
    ensures within { IfSome result (λ k. k < length cfg.now.links.items) }
{
    match link_place(&cfg.links, n) {
        Some(k) => Some(k as u8),
        None => None,
    }
}

fn link_place(links: &[LinkCfg], n: u8) -> Option<usize>
    ensures value { result ≡ position (λ link. link.lower == n) links.now }
    ensures within { IfSome result (λ k. k < length links.now) }
{
    links.iter().position(|link| link.lower == n)
}
