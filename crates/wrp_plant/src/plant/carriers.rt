//! Which nodes are up, and which links have their carrier.
ghost use Rattle.std.specs.Prelude.{◌≡◌, ◌&&◌, ◌<◌, length};
ghost use Rattle.wrp_plant.specs.Plant.{FitsPlant, PlantIs};
ghost use Rattle.wrp_course.specs.Setting.{Setting, link_of};
ghost use Rattle.wrp_course.specs.WorldAt.{WorldAt, ends_are_up, has_carrier};

use super::Plant;

fn both(a: bool, b: bool) -> bool
    ensures { result ≡ (a && b) }
{
    a && b
}

impl Plant {
    /// Whether a node is up.
    pub fn is_up(&self, n: u8) -> bool
        requires fits { FitsPlant self.now }
        requires node { n < length self.now.net.cfg.nodes.items }
        ensures { (s : Setting) (w : WorldAt) → PlantIs s w self.now → result ≡ (w.clock n).up }
    {
        self.clock(n).up
    }

    /// Whether both nodes of a link are up.
    pub fn ends_are_up(&self, k: u8) -> bool
        requires fits { FitsPlant self.now }
        requires link { k < length self.now.net.cfg.links.items }
        ensures { (s : Setting) (w : WorldAt) → PlantIs s w self.now
            → result ≡ ends_are_up w.clock (link_of s k) }
    {
        let link = self.link_cfg(k);
        let upper = self.is_up(link.upper);
        let lower = self.is_up(link.lower);
        both(upper, lower)
    }

    /// Whether a link has its carrier: it is joined, and both its nodes are up.
    pub fn has_carrier(&self, k: u8) -> bool
        requires fits { FitsPlant self.now }
        requires link { k < length self.now.net.cfg.links.items }
        ensures { (s : Setting) (w : WorldAt) → PlantIs s w self.now → result ≡ has_carrier s w k }
    {
        let joined = self.joined(k);
        let up = self.ends_are_up(k);
        both(joined, up)
    }
}
