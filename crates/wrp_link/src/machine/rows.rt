//! The rows of the handshake table that a message or an Announce finds.
ghost use Rattle.std.specs.Prelude.{◌≡◌, List, [], ◌∷◌, Option, None, Some, option_map};
ghost use Rattle.wrp_base.specs.declared.message.WrMsg.{WrMsg};
ghost use Rattle.wrp_link.specs.LinkAt.{entering};
ghost use Rattle.wrp_link.specs.Rows.{message_row, slave_row, master_row, announce_row, may_leave_idle, offers, own_calibrate, own_calibrated};
ghost use Rattle.wrp_link.specs.Table.{by_row, answer_by, sent_by};

use super::{Link, Sends};
use wrp_base::LinkState::{
    Calibrated, Calibration, Idle, LinkOn, Locked, MLock, Present, RespCalib, SLock,
};
use wrp_base::{LinkState, Role, WrMsg};

impl Link {
    // What a message does, and the messages that it is answered with; None if it has no row.
    pub(super) fn message(&mut self, message: WrMsg) -> Option<Sends>
        ensures state { self.new ≡ by_row self.old (message_row self.old self.old.role message) }
        ensures answer { option_map (λ sends. sends.items) result
            ≡ answer_by (message_row self.old self.old.role message) }
    {
        match self.role {
            Role::Slave => self.at_slave(message),
            Role::Master => self.at_master(message),
        }
    }

    // The slave's rows.
    fn at_slave(&mut self, message: WrMsg) -> Option<Sends>
        ensures state { self.new ≡ by_row self.old (slave_row self.old.state message) }
        ensures answer { option_map (λ sends. sends.items) result
            ≡ answer_by (slave_row self.old.state message) }
    {
        match (self.state, message) {
            (Present, WrMsg::Lock) => self.moves(SLock, none()),
            (Locked, WrMsg::Calibrate { .. }) => self.moves(RespCalib, none()),
            (RespCalib, WrMsg::Calibrated { tx, rx }) => {
                self.keeps(tx, rx, Calibration, one(own_calibrate()))
            }
            (Calibrated, WrMsg::ModeOn) => self.moves(LinkOn, none()),
            _ => None,
        }
    }

    // The master's rows.
    fn at_master(&mut self, message: WrMsg) -> Option<Sends>
        ensures state { self.new ≡ by_row self.old (master_row self.old self.old.state message) }
        ensures answer { option_map (λ sends. sends.items) result
            ≡ answer_by (master_row self.old self.old.state message) }
    {
        match (self.state, message) {
            (Idle, WrMsg::Present) if self.may_leave_idle() => self.moves(MLock, one(WrMsg::Lock)),
            (MLock, WrMsg::Present) => Some(one(WrMsg::Lock)),
            (MLock, WrMsg::Locked) => self.moves(Calibration, one(own_calibrate())),
            (Calibrated, WrMsg::Calibrate { .. }) => self.moves(RespCalib, none()),
            (RespCalib, WrMsg::Calibrated { tx, rx }) => {
                self.keeps(tx, rx, LinkOn, one(WrMsg::ModeOn))
            }
            (LinkOn, WrMsg::Calibrated { .. }) => Some(one(WrMsg::ModeOn)),
            (LinkOn, WrMsg::Present) if self.on_ticks >= self.set.quiet => {
                self.fail();
                Some(none())
            }
            _ => None,
        }
    }

    // The row of an Announce: a slave in IDLE begins, after its holdoff is over too.
    pub(super) fn announce(&mut self, suffix: Option<u16>) -> Sends
        ensures state { self.new
            ≡ by_row self.old (announce_row self.old self.old.role self.old.state suffix) }
        ensures sends { result.items
            ≡ sent_by (announce_row self.old self.old.role self.old.state suffix) }
    {
        match (self.role, self.state) {
            (Role::Slave, Idle)
                if offers_white_rabbit(suffix) && self.holdoff == 0 && self.may_leave_idle() => {
                self.enter(Present);
                one(WrMsg::Present)
            }
            _ => none(),
        }
    }

    // Whether quiet time is over, the module is listed, and the link is a White Rabbit link.
    fn may_leave_idle(&self) -> bool
        ensures { result ≡ may_leave_idle self.now }
    {
        self.quiet == 0 && self.own_module.is_some() && self.set.wr
    }

    // A row that enters a state and sends messages.
    pub(super) fn moves(&mut self, next: LinkState, sends: Sends) -> Option<Sends>
        ensures state { self.new ≡ entering self.old next }
        ensures sends { result ≡ Some sends }
    {
        self.enter(next);
        Some(sends)
    }

    // The same, and the peer's deltaTx and deltaRx are kept.
    fn keeps(&mut self, tx: u64, rx: u64, next: LinkState, sends: Sends) -> Option<Sends>
        ensures state { self.new ≡ record (entering self.old next) { deltas = Some (tx, rx) } }
        ensures sends { result ≡ Some sends }
    {
        self.enter(next);
        self.deltas = Some((tx, rx));
        Some(sends)
    }
}

// Whether the wrFlags of an Announce's suffix offer White Rabbit: bit 0 is set.
fn offers_white_rabbit(suffix: Option<u16>) -> bool
    ensures { result ≡ offers suffix }
{
    match suffix {
        Some(flags) => flags % 2 == 1,
        None => false,
    }
}

// The CALIBRATE that a port sends: calSendPattern, calRetry and calPeriod are 0.
pub(super) fn own_calibrate() -> WrMsg
    ensures { result ≡ own_calibrate }
{
    WrMsg::Calibrate {
        pattern: 0,
        retry: 0,
        period: 0,
    }
}

// No message.
pub(super) fn none() -> Sends
    ensures { result.items ≡ [] }
{
    Sends::new()
}

// One message.
pub(super) fn one(message: WrMsg) -> Sends
    ensures { result.items ≡ message ∷ [] }
{
    let mut sends = Sends::new();
    sends.push(message);
    sends
}
