//! One end of a pair: its port, its tick count, and when it last ticked or was enabled.
ghost use Rattle.std.specs.Prelude.{◌≡◌, ◌<◌, ◌≤◌, ◌+◌, ◌-◌, ◌^◌, if◌then◌else◌, not, []};
ghost use Rattle.wrp_l1sync.specs.Pair.{end_of, end_after, late_by, ticks_after, begins};
ghost use Rattle.wrp_l1sync.specs.PortAt.{out_by};

use crate::event::Breach;
use crate::{L1In, L1Out, L1Port};

/// One end.
#[derive(Debug, Drop)]
pub struct End {
    /// Its port.
    pub port: L1Port,
    /// Its tick count.
    pub ticks: u32,
    /// The time of its last tick or enabling, in tau since the start.
    pub last: u128,
}

impl End {
    /// A disabled end.
    pub fn new(timeout: u32, interval: u32) -> End
        requires least_timeout { 1 ≤ timeout }
        requires greatest_timeout { timeout ≤ 1_000_000 }
        requires least_interval { 1 ≤ interval }
        requires greatest_interval { interval ≤ 1_000_000 }
        ensures { result ≡ end_of timeout interval [] }
    {
        End {
            port: L1Port::new(timeout, interval),
            ticks: 0,
            last: 0,
        }
    }

    /// Takes an input.
    pub fn take(&mut self, now: u128, input: L1In) -> L1Out
        requires { self.old.ticks < 2 ^ 32 - 1 }
        ensures one { self.new ≡ end_after now self.old input }
        ensures ticks { self.new.ticks ≤ self.old.ticks + 1 }
        ensures out { result ≡ out_by self.old.port input }
    {
        self.note(now, input);
        self.port.take(input)
    }

    // Notes the time and the tick count of an input.
    fn note(&mut self, now: u128, input: L1In)
        requires { self.old.ticks < 2 ^ 32 - 1 }
        ensures port { self.new.port ≡ self.old.port }
        ensures ticks { self.new.ticks ≡ ticks_after self.old.port.enabled input self.old.ticks }
        ensures last { self.new.last
            ≡ (if begins self.old.port.enabled input then now else self.old.last) }
        ensures room { self.new.ticks ≤ self.old.ticks + 1 }
    {
        match input {
            L1In::Tick => self.note_tick(now),
            L1In::Enable => self.note_enable(now),
            L1In::Disable | L1In::Own(_) | L1In::Msg(_) => {}
        }
    }

    fn note_tick(&mut self, now: u128)
        requires { self.old.ticks < 2 ^ 32 - 1 }
        ensures { self.new
            ≡ record self.old {
              ticks = if self.old.port.enabled then self.old.ticks + 1 else self.old.ticks;
              last = if self.old.port.enabled then now else self.old.last;
            } }
    {
        if self.port.is_enabled() {
            self.ticks += 1;
            self.last = now;
        }
    }

    fn note_enable(&mut self, now: u128)
        ensures { self.new
            ≡ record self.old {
              ticks = if self.old.port.enabled then self.old.ticks else 0;
              last = if not self.old.port.enabled then now else self.old.last;
            } }
    {
        if !self.port.is_enabled() {
            self.ticks = 0;
            self.last = now;
        }
    }

    /// The premise that is broken if the time becomes `time`, in tau since the start. None if and only
    /// if none is broken: the end is off, or its last tick is at most `dmax` ago.
    pub fn late(&self, time: u128, dmax: u64) -> Option<Breach>
        requires { time < 2 ^ 127 }
        ensures { result ≡ late_by dmax time self.now.port.enabled self.now.last }
    {
        let since = time.saturating_sub(self.last);
        if self.port.is_enabled() && since > u128::from(dmax) {
            Some(Breach {
                premise: 1,
                shown: since as i128,
                bound: dmax.into(),
            })
        } else {
            None
        }
    }
}
