//! A port's line, which is all of the port but its exchange.
ghost use Rattle.std.specs.Prelude.{◌≡◌, ◌≤◌, ◌<◌, ◌+◌, ◌%◌, ◌++◌, Bool, [], true, false, length};
ghost use Rattle.wrp_link.specs.Table.{sends_of as link_sends_of, is_used};
ghost use Rattle.wrp_port.specs.LineAfter.{first_turns, next_turns, first_ids, new_line, told, ticked, scheduled, announced, synced, requested, announces_on, syncs_on, requests_on, is_due};
ghost use Rattle.wrp_port.specs.Messages.{announce_of, sync_of, request_of};
ghost use Rattle.wrp_port.specs.Outputs.{where_due, scheduled_sends};
ghost use Rattle.wrp_port.specs.PortAt.{IsSetting};

use crate::Sched;
use crate::hearing::is_open;
use crate::messages::{Sends, announce, request, sync};
use crate::setting::Setting;
use wrp_base::Role;
use wrp_link::{Link, LinkIn, LinkOut};

/// How far the schedule is: for each kind the ticks since its last turn.
#[derive(Clone, Copy, Debug)]
pub struct Turns {
    /// The ticks since the last turn of Announce.
    pub announce: u32,
    /// The ticks since the last turn of Sync.
    pub sync: u32,
    /// The ticks since the last turn of Delay_Req.
    pub delay: u32,
}

/// The sequenceIds of the next messages, each kind counted by itself.
#[derive(Clone, Copy, Debug)]
pub struct Ids {
    /// The sequenceId of the next Announce.
    pub announce: u16,
    /// The sequenceId of the next Sync.
    pub sync: u16,
    /// The sequenceId of the next Delay_Req.
    pub request: u16,
    /// The sequenceId of the next Signaling.
    pub signal: u16,
    /// The sequenceId of the newest Sync, if there was one.
    pub newest_sync: Option<u16>,
}

/// The link of a port, its lease, its schedule and its sequenceIds.
#[derive(Debug, Drop)]
pub struct Rest {
    /// Link setup.
    pub link: Link,
    /// The turns for which the lease is still fresh.
    pub lease: u32,
    /// The schedule.
    pub turns: Turns,
    /// The sequenceIds.
    pub ids: Ids,
}

// One tick more in a round of so many.
fn next_turn(turn: u32, every: u32) -> u32
    requires { 1 ≤ every }
    ensures { result ≡ (turn + 1) % every }
{
    ((u64::from(turn) + 1) % u64::from(every)) as u32
}

impl Turns {
    /// The schedule at its beginning.
    pub fn new() -> Turns
        ensures { result ≡ first_turns }
    {
        Turns {
            announce: 0,
            sync: 0,
            delay: 0,
        }
    }

    /// The schedule one tick on.
    pub fn next(&self, sched: &Sched) -> Turns
        requires announce { 1 ≤ sched.now.announce }
        requires sync { 1 ≤ sched.now.sync }
        requires delay { 1 ≤ sched.now.delay }
        ensures { result ≡ next_turns sched.now self.now }
    {
        Turns {
            announce: next_turn(self.announce, sched.announce),
            sync: next_turn(self.sync, sched.sync),
            delay: next_turn(self.delay, sched.delay),
        }
    }
}

impl Ids {
    /// The sequenceIds before any message.
    pub fn new() -> Ids
        ensures { result ≡ first_ids }
    {
        Ids {
            announce: 0,
            sync: 0,
            request: 0,
            signal: 0,
            newest_sync: None,
        }
    }
}

impl Rest {
    /// A line before any input.
    pub fn new(set: &Setting) -> Rest
        requires { IsSetting set.now }
        ensures { result ≡ new_line set.now }
    {
        Rest {
            link: Link::new(set.ds.role, set.link),
            lease: 0,
            turns: Turns::new(),
            ids: Ids::new(),
        }
    }

    /// Gives the link an input. Each message that it sends takes a sequenceId. If the port is not open
    /// after it, the schedule restarts.
    pub fn tell(&mut self, input: LinkIn) -> LinkOut
        ensures line { self.new ≡ told self.old input }
        ensures sends { result.sends.items ≡ link_sends_of self.old.link input }
        ensures used { result.used ≡ is_used self.old.link input }
    {
        let out = self.link.step(input);
        if !is_open(&self.link) {
            self.turns = Turns::new();
        }
        self.ids.signal = self.ids.signal.wrapping_add(out.sends.len() as u16);
        out
    }

    /// The link's part of a tick: if the port was open before it, the schedule goes on.
    pub fn tick(&mut self, set: &Setting, locked: bool) -> LinkOut
        requires { IsSetting set.now }
        ensures line { self.new ≡ ticked set.now self.old locked }
        ensures sends { result.sends.items ≡ link_sends_of self.old.link (LinkIn.Tick locked) }
    {
        let turns = if is_open(&self.link) {
            self.turns.next(&set.sched)
        } else {
            Turns::new()
        };
        self.turns = turns;
        self.tell(LinkIn::Tick(locked))
    }

    /// The same if the link only counts the tick and sends nothing, and then the answer is true. Otherwise nothing
    /// changes.
    pub fn tick_on(&mut self, set: &Setting) -> bool
        requires { IsSetting set.now }
        ensures line { (locked : Bool) → result ≡ true → self.new ≡ ticked set.now self.old locked }
        ensures sends { (locked : Bool) → result ≡ true →
            link_sends_of self.old.link (LinkIn.Tick locked) ≡ [] }
        ensures kept { result ≡ false → self.new ≡ self.old }
    {
        let turns = if is_open(&self.link) {
            self.turns.next(&set.sched)
        } else {
            Turns::new()
        };
        if !self.link.count_tick() {
            return false;
        }
        self.turns = if is_open(&self.link) {
            turns
        } else {
            Turns::new()
        };
        // No message takes a sequenceId; the definition adds how many do.
        self.ids.signal = self.ids.signal.wrapping_add(0);
        true
    }

    // Whether a message of this turn is due.
    fn is_due(&self, turn: u32) -> bool
        ensures { result ≡ is_due self.now.link turn }
    {
        is_open(&self.link) && turn == 0
    }

    // Sends the Announce that is due.
    fn send_announce(&mut self, set: &Setting, certain: bool, sends: &mut Sends)
        requires { length sends.old.items < 4 }
        ensures line { self.new ≡ announced self.old }
        ensures sends { sends.new.items
            ≡ sends.old.items
            ++ where_due (announces_on self.old)
            (announce_of set.now self.old.link certain self.old.ids.announce) }
        ensures room { length sends.new.items ≤ length sends.old.items + 1 }
    {
        if self.is_due(self.turns.announce) {
            sends.push(announce(set, &self.link, certain, self.ids.announce));
            self.ids.announce = self.ids.announce.wrapping_add(1);
        }
    }

    // Sends the Sync that is due.
    fn send_sync(&mut self, set: &Setting, sends: &mut Sends)
        requires { length sends.old.items < 4 }
        ensures line { self.new ≡ synced self.old }
        ensures sends { sends.new.items
            ≡ sends.old.items ++ where_due (syncs_on self.old) (sync_of set.now self.old.ids.sync) }
    {
        if self.is_due(self.turns.sync) {
            sends.push(sync(set, self.ids.sync));
            self.ids.newest_sync = Some(self.ids.sync);
            self.ids.sync = self.ids.sync.wrapping_add(1);
        }
    }

    // Sends the Delay_Req that is due; returns its sequenceId.
    fn send_request(&mut self, set: &Setting, sends: &mut Sends)
        requires { length sends.old.items < 4 }
        ensures line { self.new ≡ requested self.old }
        ensures sends { sends.new.items
            ≡ sends.old.items
            ++ where_due (requests_on self.old) (request_of set.now self.old.ids.request) }
    {
        if self.requests() {
            sends.push(request(set, self.ids.request));
            self.ids.request = self.ids.request.wrapping_add(1);
        }
    }

    /// Whether a slave's Delay_Req is due.
    pub fn requests(&self) -> bool
        ensures { result ≡ requests_on self.now }
    {
        self.is_due(self.turns.delay)
    }

    /// Sends what is due: Announce and Sync at a master, Delay_Req at a slave.
    pub fn schedule(&mut self, set: &Setting, certain: bool, sends: &mut Sends)
        requires { length sends.old.items ≤ 2 }
        ensures line { self.new ≡ scheduled set.now.ds.role self.old }
        ensures sends { sends.new.items
            ≡ sends.old.items ++ scheduled_sends set.now set.now.ds.role self.old certain }
    {
        match set.ds.role {
            Role::Master => {
                self.send_announce(set, certain, sends);
                self.send_sync(set, sends);
            }
            Role::Slave => self.send_request(set, sends),
        }
    }
}
