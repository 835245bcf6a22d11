//! The rows of a tick: the counts of IDLE and WR_LINK_ON, the moves that a tick makes, and the timers
//! of the waiting states with what they send again.
ghost use Rattle.std.specs.Prelude.{◌≡◌, List, [], ◌∷◌};
ghost use Rattle.wrp_link.specs.Rows.{tick_row, timer_row, resent, own_calibrated};
ghost use Rattle.wrp_link.specs.Table.{by_row, sent_by};

use super::rows::{none, one, own_calibrate};
use super::{Link, Sends, Wait};
use wrp_base::LinkState::{Calibrated, Calibration, Idle, LinkOn, Locked, MLock, Present, SLock};
use wrp_base::WrMsg;

impl Link {
    // What a tick does, and the messages that it sends. In S_LOCK the lock detector is checked before
    // the timer.
    pub(super) fn tick(&mut self, locked: bool) -> Sends
        ensures state { self.new ≡ by_row self.old (tick_row self.old self.old.state locked) }
        ensures sends { result.items ≡ sent_by (tick_row self.old self.old.state locked) }
    {
        match self.state {
            Idle => {
                self.quiet = self.quiet.saturating_sub(1);
                self.holdoff = self.holdoff.saturating_sub(1);
                none()
            }
            LinkOn => {
                self.on_ticks = self.on_ticks.saturating_add(1);
                none()
            }
            SLock if locked => {
                self.enter(Locked);
                one(WrMsg::Locked)
            }
            Calibration => {
                self.enter(Calibrated);
                one(self.own_calibrated())
            }
            _ => self.waits(),
        }
    }

    // A tick of the timer of a waiting state. If it ends with a retry left, the state's messages are
    // sent again and the timer is armed again; if it ends without one, the handshake fails.
    fn waits(&mut self) -> Sends
        ensures state { self.new ≡ by_row self.old (timer_row self.old self.old.waiting) }
        ensures sends { result.items ≡ sent_by (timer_row self.old self.old.waiting) }
    {
        let Some(
            Wait {
                mut timer,
                mut retry,
            },
        ) = self.wait.take()
        else {
            return none();
        };
        if !timer.tick() {
            self.wait = Some(Wait { timer, retry });
            none()
        } else if retry.take() {
            self.arm(retry);
            self.resend()
        } else {
            self.fail();
            none()
        }
    }

    // What the state sends again when its timer ends.
    fn resend(&self) -> Sends
        ensures { result.items ≡ resent self.now self.now.state }
    {
        match self.state {
            Present => one(WrMsg::Present),
            MLock => one(WrMsg::Lock),
            Locked => one(WrMsg::Locked),
            Calibrated => two(own_calibrate(), self.own_calibrated()),
            _ => none(),
        }
    }

    // The CALIBRATED that a port sends: its own module's delays, in tau.
    fn own_calibrated(&self) -> WrMsg
        ensures { result ≡ own_calibrated self.now.own_module }
    {
        match self.own_module {
            Some(own_module) => WrMsg::Calibrated {
                tx: own_module.tx,
                rx: own_module.rx,
            },
            None => WrMsg::Calibrated { tx: 0, rx: 0 },
        }
    }
}

// Two messages, in their order.
fn two(first: WrMsg, second: WrMsg) -> Sends
    ensures { result.items ≡ first ∷ (second ∷ []) }
{
    let mut sends = one(first);
    sends.push(second);
    sends
}
