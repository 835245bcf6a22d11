//! Which premise an event breaks.
ghost use Rattle.wrp_world.specs.StandsFor.{IsValid};
ghost use Rattle.wrp_world.specs.Step.{MayCome};
ghost use Rattle.wrp_world.specs.Step.{TellsBreach};

use super::World;
use wrp_course::{Breach, Event};
use wrp_premises::{
    arrive_broken, cut_broken, deliver_broken, depart_broken, down_broken, join_broken,
    noise_broken, sample_broken, tick_broken, up_broken,
};

impl<F: Fn(i64) -> i64> World<F> {
    /// The lowest premise that an event breaks, with both sides of its first comparison that fails.
    /// `None` if the event keeps all premises.
    pub(crate) fn broken(&self, event: &Event) -> Option<Breach>
        requires valid { IsValid F.pre F.post self.now }
        requires event { MayCome self.now event.now }
        ensures { TellsBreach F.post event.now self.now result }
    {
        let plant = &self.plant;
        match event {
            Event::Pass { dt, drifts, fibres } => self.pass_broken(*dt, drifts, fibres),
            Event::Tick { node } => tick_broken(plant, *node),
            Event::Sample { node, base, bits } => sample_broken(plant, *node, *base, *bits),
            Event::Depart { node, port, stamp } => depart_broken(plant, *node, *port, *stamp),
            Event::Arrive { frame, raw } => arrive_broken(plant, *frame, raw),
            Event::Deliver { frame } => deliver_broken(plant, *frame),
            Event::Noise {
                node,
                port,
                bytes,
                ..
            } => noise_broken(plant, *node, *port, bytes),
            Event::Down { node } => down_broken(plant, *node),
            Event::Up { node, off, swaps } => up_broken(plant, *node, *off, swaps),
            Event::Cut { link } => cut_broken(plant, *link),
            Event::Join { link, ms, sm } => join_broken(plant, *link, *ms, *sm),
        }
    }
}
