//! One end of a link.
ghost use Rattle.std.specs.Prelude.{◌≡◌, ◌≤◌, ◌<◌, true, false, List, [], ◌∷◌, Some, None};
ghost use Rattle.wrp_base.specs.Calls.{Adds};
ghost use Rattle.wrp_l1sync.specs.declared.interface.L1In.{L1In};
ghost use Rattle.wrp_l1sync.specs.Inputs.{state_of, state_with, out_of, change_of, ticks_of};
ghost use Rattle.wrp_l1sync.specs.Message.{meets};
ghost use Rattle.wrp_l1sync.specs.PortAt.{StandsFor, port_of, after, enabled_by, heard_by, ticked_by, next_turn, state_by, due_by, send_by, out_by};

use crate::kept::{Kept, age};
use crate::{L1In, L1Msg, L1Out, L1State};
use std::marker::Model;
use wrp_timer::Timer;

/// One end of a link.
#[derive(Debug, Drop)]
pub struct L1Port {
    timeout: u32,
    interval: u32,
    enabled: bool,
    own: L1Msg,
    kept: Option<Kept>,
    turn: u32,
}

impl Model for L1Port {
    ghost use Rattle.std.specs.Prelude.{◌≤◌, ◌<◌};
    ghost use Rattle.wrp_l1sync.specs.PortAt.{PortAt};

    ghost Value = { PortAt };

    ghost view = { λ p. record { timeout = p.timeout; interval = p.interval; enabled = p.enabled; own = p.own; kept = p.kept; turn = p.turn } };

    ghost invariant = { λ p. (1 ≤ p.timeout) × (1 ≤ p.interval) × (p.interval ≤ 1_000_000) × (p.turn < p.interval) };
}

impl L1Port {
    /// A disabled end, whose own message has no bits. A message of its peer counts until `timeout`
    /// ticks have come after it, and its own is sent every `interval` ticks, each 1 to `10^6`.
    pub fn new(timeout: u32, interval: u32) -> L1Port
        requires least_timeout { 1 ≤ timeout }
        requires greatest_timeout { timeout ≤ 1_000_000 }
        requires least_interval { 1 ≤ interval }
        requires greatest_interval { interval ≤ 1_000_000 }
        ensures timeout { result.timeout ≡ timeout }
        ensures interval { result.interval ≡ interval }
        ensures stands { StandsFor result [] }
    {
        L1Port {
            timeout,
            interval,
            enabled: false,
            own: L1Msg::default(),
            kept: None,
            turn: 0,
        }
    }

    /// Takes one input, and answers the message that is sent and the new state.
    pub fn step(&mut self, x: L1In) -> L1Out
        ensures timeout { self.new.timeout ≡ self.old.timeout }
        ensures interval { self.new.interval ≡ self.old.interval }
        ensures out { (inputs : List L1In) → StandsFor self.old inputs →
            result ≡ out_of self.old.timeout self.old.interval inputs x }
        ensures stands { Adds StandsFor self.old self.new x }
    {
        self.take(x)
    }

    /// The state.
    pub fn state(&self) -> L1State
        ensures value { result ≡ state_by self.now }
        ensures looked_back { (inputs : List L1In) → StandsFor self.now inputs →
            result ≡ state_of self.now.timeout inputs }
    {
        self.present_state()
    }

    /// Takes one input.
    pub fn take(&mut self, input: L1In) -> L1Out
        ensures port { self.new ≡ after self.old input }
        ensures out { result ≡ out_by self.old input }
    {
        let before = self.present_state();
        let send = self.change(input);
        L1Out {
            send,
            moved: moved(before, self.present_state()),
        }
    }

    // Changes the port, and answers the message that is sent.
    fn change(&mut self, input: L1In) -> Option<L1Msg>
        ensures port { self.new ≡ after self.old input }
        ensures send { result ≡ send_by self.old input }
    {
        match input {
            L1In::Enable => {
                self.enable();
                None
            }
            L1In::Disable => {
                self.disable();
                None
            }
            L1In::Own(message) => {
                self.own = message;
                None
            }
            L1In::Msg(message) => {
                self.hear(message);
                None
            }
            L1In::Tick => self.tick(),
        }
    }

    fn enable(&mut self)
        ensures { self.new ≡ enabled_by self.old }
    {
        if !self.enabled {
            self.enabled = true;
            self.turn = 0;
        }
    }

    fn disable(&mut self)
        ensures { self.new ≡ record self.old { enabled = false; kept = None } }
    {
        self.enabled = false;
        self.kept = None;
    }

    fn hear(&mut self, message: L1Msg)
        ensures { self.new ≡ heard_by self.old message }
    {
        if self.enabled {
            self.kept = Some(Kept {
                msg: message,
                left: Timer::new(self.timeout),
            });
        }
    }

    fn tick(&mut self) -> Option<L1Msg>
        ensures port { self.new ≡ ticked_by self.old }
        ensures send { result ≡ due_by self.old }
    {
        let due = self.due();
        if self.enabled {
            self.turn = self.next_turn();
            self.kept = age(self.kept.take());
        }
        due
    }

    /// Whether the end is enabled.
    pub fn is_enabled(&self) -> bool
        ensures { result ≡ self.now.enabled }
    {
        self.enabled
    }

    // The ticks since the last sending, the next tick included.
    fn next_turn(&self) -> u32
        ensures value { result ≡ next_turn self.now }
        ensures within { result < self.now.interval }
    {
        (self.turn + 1) % self.interval
    }

    /// The message that the next tick makes the port send. None if it sends none.
    pub fn due(&self) -> Option<L1Msg>
        ensures { result ≡ due_by self.now }
    {
        if self.enabled && self.next_turn() == 0 {
            Some(self.own)
        } else {
            None
        }
    }

    // The state.
    fn present_state(&self) -> L1State
        ensures { result ≡ state_by self.now }
    {
        if !self.enabled {
            return L1State::Disabled;
        }
        match &self.kept {
            Some(kept) => self.state_beside(kept.msg),
            None => L1State::Idle,
        }
    }

    // The state of an enabled port, by the message of its peer.
    fn state_beside(&self, message: L1Msg) -> L1State
        ensures { result ≡ state_with self.now.own (Some message) }
    {
        if message.req != self.own.req {
            L1State::LinkAlive
        } else if meets(self.own.req, self.own.is) && meets(self.own.req, message.is) {
            L1State::Up
        } else {
            L1State::ConfigMatch
        }
    }
}

// Whether every bit that is required is among those that hold.
fn meets(required: u8, holding: u8) -> bool
    ensures { result ≡ meets required holding }
{
    required & holding == required
}

// The second of two states, if it differs from the first.
fn moved(from: L1State, to: L1State) -> Option<L1State>
    ensures { result ≡ change_of from to }
{
    if from == to { None } else { Some(to) }
}
