//! How a link enters a state, fails, and begins or ends with its carrier.
ghost use Rattle.std.specs.Prelude.{◌≡◌, ◌≤◌, [], IfSome};
ghost use Rattle.wrp_link.specs.LinkAt.{new_link, wait_of, armed, entering, failed, with_carrier};

use super::{Link, Sends, Wait};
use crate::LinkSet;
use wrp_base::{LinkState, Module, Role};
use wrp_timer::{Retry, Timer};

// How many ticks a state waits until its timer ends; None for a state without a timer.
fn wait_in(set: &LinkSet, state: LinkState) -> Option<u32>
    requires wait { 1 ≤ set.now.wait }
    requires lock_wait { 1 ≤ set.now.lock_wait }
    ensures value { result ≡ wait_of set.now state }
    ensures length { IfSome result (λ ticks. 1 ≤ ticks) }
{
    match state {
        LinkState::SLock | LinkState::MLock => Some(set.lock_wait),
        LinkState::Present | LinkState::Locked | LinkState::Calibrated | LinkState::RespCalib =>
            Some(set.wait),
        LinkState::Idle | LinkState::Calibration | LinkState::LinkOn => None,
    }
}

impl Link {
    // Enters a state: its timer is armed with all retries.
    pub(super) fn enter(&mut self, next: LinkState)
        ensures { self.new ≡ entering self.old next }
    {
        self.state = next;
        self.on_ticks = 0;
        self.arm(Retry::new(self.set.retries));
    }

    // Arms the timer of the state that the link is in, with the retries that are left.
    pub(super) fn arm(&mut self, retry: Retry)
        ensures { self.new
            ≡ record self.old { waiting = armed (wait_of self.old.set self.old.state) retry } }
    {
        self.wait = match wait_in(&self.set, self.state) {
            Some(ticks) => Some(Wait {
                timer: Timer::new(ticks),
                retry,
            }),
            None => None,
        };
    }

    // The handshake failed: IDLE, in quiet time, and a slave holds off before it starts again.
    pub(super) fn fail(&mut self)
        ensures { self.new ≡ failed self.old }
    {
        self.enter(LinkState::Idle);
        self.quiet = self.set.quiet;
        self.holdoff = match self.role {
            Role::Master => 0,
            Role::Slave => self.set.holdoff,
        };
        self.deltas = None;
    }

    // The carrier goes: the link is as a new one.
    pub(super) fn carrier_goes(&mut self) -> Sends
        ensures state { self.new ≡ new_link self.old.role self.old.set }
        ensures sends { result.items ≡ [] }
    {
        *self = Link::new(self.role, self.set);
        Sends::new()
    }

    // A carrier comes: IDLE, in quiet time, whatever was before.
    pub(super) fn carrier_comes(&mut self, own_module: Option<Module>) -> Sends
        ensures state { self.new ≡ with_carrier self.old own_module }
        ensures sends { result.items ≡ [] }
    {
        let sends = self.carrier_goes();
        self.carrier = true;
        self.quiet = self.set.quiet;
        self.own_module = own_module;
        sends
    }
}
