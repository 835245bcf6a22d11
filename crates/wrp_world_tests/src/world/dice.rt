//! Dice that fall alike in each run, and what goes wrong by them.
ghost use Rattle.std.specs.Prelude.{◌<◌};

use super::networks::{MS, SM};
use arrayvec::ArrayVec;
use wrp_base::Tau;
use wrp_world::Event;

/// Dice that fall alike in each run.
#[derive(Clone, Copy)]
pub struct Dice(pub u64);

impl Dice {
    /// A number below this one.
    pub fn below(&mut self, most: u64) -> u64
        requires { 0 < most }
        ensures { result < most }
    {
        self.0 = self
            .0
            .wrapping_mul(6_364_136_223_846_793_005)
            .wrapping_add(1_442_695_040_888_963_407);
        (self.0 >> 33) % most
    }

    // A node comes up, the grandmaster with no offset.
    fn comes_up(&mut self) -> Event {
        let node = self.below(3) as u8;
        let off = if node == 0 {
            0
        } else {
            Tau::from(self.below(1 << 40))
        };
        Event::Up {
            node,
            off,
            swaps: ArrayVec::new(),
        }
    }

    /// A link is cut or joined, or a node goes down or comes up, if a roll below a thousand says so.
    pub fn fault(&mut self, roll: u64) -> Option<Event> {
        let link = self.below(2) as u8;
        match roll {
            100..=104 => Some(Event::Cut { link }),
            105..=129 => Some(Event::Join {
                link,
                ms: MS,
                sm: SM,
            }),
            130..=132 => Some(Event::Down {
                node: self.below(3) as u8,
            }),
            133..=159 => Some(self.comes_up()),
            _ => None,
        }
    }
}
