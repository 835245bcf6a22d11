//! The link itself: what it holds, and the calls of its user.
mod rows;
mod states;
mod ticks;

ghost use Rattle.std.specs.Prelude.{◌≡◌, ◌≤◌, ◌↔◌, ℕ, Bool, List, [], Some, option_map, true, false};
ghost use Rattle.wrp_base.specs.Calls.{Adds};
ghost use Rattle.wrp_link.specs.declared.interface.LinkIn.{LinkIn};
ghost use Rattle.wrp_link.specs.LinkAt.{new_link};
ghost use Rattle.wrp_link.specs.Order.{Told};
ghost use Rattle.wrp_link.specs.Table.{after, sends_of, moved_by, is_used, change_of, answer_to, StandsFor, word_of, deltas_of};

use crate::{LinkIn, LinkOut, LinkSet};
use arrayvec::ArrayVec;
use std::marker::Model;
use wrp_base::{LinkState, LinkWord, Module, Role, WrMsg};
use wrp_timer::{Retry, Timer};

// The messages of one answer.
type Sends = ArrayVec<WrMsg, 2>;

// The timer of a waiting state.
#[derive(Debug, Drop)]
struct Wait {
    /// The ticks until it ends.
    timer: Timer,
    /// The retries that are left.
    retry: Retry,
}

/// One port's side of White Rabbit link setup.
#[derive(Debug, Drop)]
pub struct Link {
    role: Role,
    set: LinkSet,
    carrier: bool,
    state: LinkState,
    quiet: u32,
    holdoff: u32,
    wait: Option<Wait>,
    on_ticks: u32,
    own_module: Option<Module>,
    deltas: Option<(u64, u64)>,
}

impl Model for Link {
    ghost use Rattle.std.specs.Prelude.{◌≤◌};
    ghost use Rattle.wrp_link.specs.LinkAt.{LinkAt};

    ghost Value = { LinkAt };

    ghost use Rattle.wrp_link.specs.Holds.{holds_of, HasLengths};

    ghost view = { holds_of };

    ghost invariant = { HasLengths };
}

impl Link {
    /// A link without carrier. `quiet`, `wait` and `lock_wait` of the set are at least 1.
    pub fn new(role: Role, set: LinkSet) -> Link
        requires quiet { 1 ≤ set.quiet }
        requires wait { 1 ≤ set.wait }
        requires lock_wait { 1 ≤ set.lock_wait }
        ensures value { result ≡ new_link role set }
        ensures stands { StandsFor result [] }
    {
        Link {
            role,
            set,
            carrier: false,
            state: LinkState::Idle,
            quiet: 0,
            holdoff: 0,
            wait: None,
            on_ticks: 0,
            own_module: None,
            deltas: None,
        }
    }

    /// Takes one input, and answers what it sends, whether it moved the state, and whether it was of
    /// use. An input without a row in the handshake table changes nothing.
    pub fn step(&mut self, input: LinkIn) -> LinkOut
        ensures state { self.new ≡ after self.old input }
        ensures sends { result.sends.items ≡ sends_of self.old input }
        ensures moved { result.moved ≡ moved_by self.old input }
        ensures used { result.used ≡ is_used self.old input }

        // The link stands for the list of its inputs.
        ensures stands { Adds StandsFor self.old self.new input }
    {
        let from = self.state;
        let answer = self.answer(input);
        let moved = change(from, self.state);
        match answer {
            Some(sends) => LinkOut {
                sends,
                moved,
                used: true,
            },
            None => LinkOut {
                sends: Sends::new(),
                moved,
                used: false,
            },
        }
    }

    /// Takes a tick if the link only counts it, and then answers true: without a carrier, in IDLE and in WR_LINK_ON.
    /// There it does not matter whether the servo is locked. Nothing is sent, and the state stays. This is `step`
    /// without an answer, for what most ticks are. In any other state nothing changes, and the answer is false.
    pub fn count_tick(&mut self) -> bool
        ensures counted { (locked : Bool) → result ≡ true → self.new ≡ after self.old (LinkIn.Tick locked) }
        ensures silent { (locked : Bool) → result ≡ true → sends_of self.old (LinkIn.Tick locked) ≡ [] }
        ensures kept { result ≡ false → self.new ≡ self.old }

        // The link stands for the list of its inputs.
        ensures stands { (locked : Bool) → result ≡ true →
            Adds StandsFor self.old self.new (LinkIn.Tick locked) }
    {
        self.counts()
    }

    /// The state of link setup.
    pub fn state(&self) -> LinkState
        ensures { result ≡ self.now.state }
    {
        self.state
    }

    /// What the port reports: its state, or in IDLE whether it is down, in quiet time or in plain PTP.
    pub fn word(&self) -> LinkWord
        ensures { result ≡ word_of self.now }
    {
        match self.state {
            _ if !self.carrier => LinkWord::Down,
            LinkState::Idle if self.quiet > 0 => LinkWord::Quiet,
            LinkState::Idle => LinkWord::Ptp,
            state => LinkWord::In(state),
        }
    }

    /// The port's own module. None without a carrier, or if the calibration database does not list it.
    pub fn own_module(&self) -> Option<Module>
        ensures { result ≡ self.now.own_module }
    {
        self.own_module
    }

    /// The peer's deltaTx and deltaRx, in tau, from the CALIBRATED that moved this handshake, until the
    /// port returns to IDLE. None before a CALIBRATED has moved the handshake, and in IDLE.
    pub fn peer_deltas(&self) -> Option<(u64, u64)>
        ensures value { result ≡ deltas_of self.now }
        ensures told { (inputs : List LinkIn) → StandsFor self.now inputs → (tx rx : ℕ) →
            (result ≡ Some (tx, rx)) ↔ Told (new_link self.now.role self.now.set) inputs tx rx }
    {
        self.deltas
    }

    // Takes a tick that is only counted, if it is one.
    fn counts(&mut self) -> bool
        ensures counted { (locked : Bool) → result ≡ true → self.new ≡ after self.old (LinkIn.Tick locked) }
        ensures silent { (locked : Bool) → result ≡ true → sends_of self.old (LinkIn.Tick locked) ≡ [] }
        ensures kept { result ≡ false → self.new ≡ self.old }
    {
        match self.state {
            _ if !self.carrier => true,
            LinkState::Idle => {
                self.quiet = self.quiet.saturating_sub(1);
                self.holdoff = self.holdoff.saturating_sub(1);
                true
            }
            LinkState::LinkOn => {
                self.on_ticks = self.on_ticks.saturating_add(1);
                true
            }
            _ => false,
        }
    }

    // The messages that an input sends; None for a message without a row.
    fn answer(&mut self, input: LinkIn) -> Option<Sends>
        ensures state { self.new ≡ after self.old input }
        ensures answer { option_map (λ sends. sends.items) result ≡ answer_to self.old input }
    {
        match input {
            LinkIn::CarrierUp(own_module) => Some(self.carrier_comes(own_module)),
            LinkIn::Msg(_) if !self.carrier => None,
            _ if !self.carrier => Some(Sends::new()),
            LinkIn::Msg(message) => self.message(message),
            LinkIn::Announce(suffix) => Some(self.announce(suffix)),
            LinkIn::Tick(locked) => Some(self.tick(locked)),
            LinkIn::CarrierDown => Some(self.carrier_goes()),
        }
    }
}

// The second state, if it differs from the first.
fn change(from: LinkState, to: LinkState) -> Option<LinkState>
    ensures { result ≡ change_of from to }
{
    if from == to { None } else { Some(to) }
}
