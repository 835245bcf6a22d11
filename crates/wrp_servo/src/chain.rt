//! The chain of good samples: how it ends.
ghost use Rattle.std.specs.Prelude.{◌≡◌, ◌<◌};
ghost use Rattle.wrp_servo.specs.Table.{ended, ended_in, uninit_outside_holdover, holdover_ticked, ended_by_gap, ended_by_age, is_old};

use crate::machine::Core;
use wrp_base::ServoState;

impl Core {
    /// The chain ends, not by an own step.
    pub fn end(&mut self)
        ensures { self.new ≡ ended self.old }
    {
        if self.first.is_some() {
            self.leave();
        }
    }

    /// What the end of a chain does in each state.
    fn leave(&mut self)
        ensures { self.new ≡ ended_in self.old self.old.state }
    {
        self.first = None;
        self.kept = None;
        match self.state {
            ServoState::Track => {
                self.state = ServoState::Holdover;
                self.left_tick = self.ticks;
                self.phase.unlock();
            }
            ServoState::SyncNsec | ServoState::SyncPhase | ServoState::WaitStable => {
                self.state = ServoState::SyncTai;
            }
            _ => {}
        }
    }

    /// Outside HOLDOVER the state is UNINIT.
    pub fn leave_to_uninit(&mut self)
        ensures { self.new ≡ uninit_outside_holdover self.old self.old.state }
    {
        if self.state != ServoState::Holdover {
            self.state = ServoState::Uninit;
        }
    }

    /// A tick in HOLDOVER.
    pub fn tick_in_holdover(&mut self)
        ensures { self.new ≡ holdover_ticked self.old }
    {
        if self.ticks.saturating_sub(self.left_tick) >= self.set.holdover {
            self.phase.restart();
            self.state = if self.signals.link.is_some() {
                ServoState::SyncTai
            } else {
                ServoState::Uninit
            };
        }
    }

    /// A tick too long after the last good sample ends the chain.
    pub fn end_past_gap(&mut self)
        ensures { self.new ≡ ended_by_gap self.old }
    {
        if self.ticks.saturating_sub(self.good_tick) > self.set.gap {
            self.end();
        }
    }

    /// A four that is too old ends TRACK.
    pub fn end_past_age(&mut self)
        ensures { self.new ≡ ended_by_age self.old }
    {
        if self.state == ServoState::Track && self.is_old() {
            self.end();
        }
    }

    fn is_old(&self) -> bool
        ensures { result ≡ is_old self.now }
    {
        match self.kept {
            Some(kept) => self.ticks.saturating_sub(kept.four.tick) > self.set.age,
            None => false,
        }
    }
}
