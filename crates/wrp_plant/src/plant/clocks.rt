//! What the clocks of nodes show.
ghost use Rattle.std.specs.Prelude.{◌≡◌, ◌<◌, ◌-ℤ◌, length};
ghost use Rattle.wrp_plant.specs.Plant.{FitsPlant, PlantIs};
ghost use Rattle.wrp_course.specs.Setting.{Setting};
ghost use Rattle.wrp_plant.specs.Sizes.{IsOff, IsReading};
ghost use Rattle.wrp_course.specs.WorldAt.{WorldAt, reading};

use super::Plant;
use wrp_base::{Tau, difference, sum};

impl Plant {
    /// The offset of a node's clock from true time, in tau.
    pub fn off(&self, n: u8) -> Tau
        requires fits { FitsPlant self.now }
        requires node { n < length self.now.net.cfg.nodes.items }
        ensures value { (s : Setting) (w : WorldAt) → PlantIs s w self.now → result ≡ (w.clock n).off }
        ensures size { IsOff result }
    {
        self.clock(n).off
    }

    /// How far the lower node's clock is ahead of the upper node's, in tau.
    pub fn apart(&self, lower: u8, upper: u8) -> Tau
        requires fits { FitsPlant self.now }
        requires lower { lower < length self.now.net.cfg.nodes.items }
        requires upper { upper < length self.now.net.cfg.nodes.items }
        ensures value { (s : Setting) (w : WorldAt) → PlantIs s w self.now
            → result ≡ (w.clock lower).off -ℤ (w.clock upper).off }
        ensures size { IsReading result }
    {
        let below = self.off(lower);
        let above = self.off(upper);
        difference(below, above)
    }

    /// What a node's clock reads, in tau.
    pub fn reading(&self, n: u8) -> Tau
        requires fits { FitsPlant self.now }
        requires node { n < length self.now.net.cfg.nodes.items }
        ensures value { (s : Setting) (w : WorldAt) → PlantIs s w self.now → result ≡ reading w n }
        ensures size { IsReading result }
    {
        let now = self.now();
        let off = self.off(n);
        sum(now, off)
    }
}
