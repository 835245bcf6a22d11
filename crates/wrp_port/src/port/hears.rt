//! What a port does with a message that comes.
ghost use Rattle.std.specs.Prelude.{◌≡◌, ℕ, Bool, [], ◌∷◌, List, None, if◌then◌else◌, is_some, IfSome, IsTrue};
ghost use Rattle.wrp_base.specs.Message.{IsSound, HasFittingTimes, FitsTimestamp};
ghost use Rattle.wrp_exch.specs.Call.{Call, CallSync, CallFollowUp, CallResp};
ghost use Rattle.wrp_exch.specs.DelayPair.{answered_pair};
ghost use Rattle.wrp_exch.specs.Exchange.{StandsFor as ExchangeStandsFor, HasTimes, four_of};
ghost use Rattle.wrp_exch.specs.SyncPair.{kept_sync, followed_pair};
ghost use Rattle.wrp_link.specs.declared.interface.LinkIn.TheVariants as link;
ghost use Rattle.wrp_link.specs.Table.{sends_of as link_sends_of, is_used};
ghost use Rattle.wrp_port.specs.declared.interface.PortIn.{PortIn};
ghost use Rattle.wrp_port.specs.Hearing.{is_certain, link_input, piece_of, is_of_use, early_reason};
ghost use Rattle.wrp_port.specs.LineAfter.{after, told, heard};
ghost use Rattle.wrp_port.specs.Messages.{signals_of, response_of};
ghost use Rattle.wrp_port.specs.Outputs.{sends_of, heard_sends, with_call, calls_after, drop_of, measured_by, is_kept, is_used_by, four_by, number_by, reason_by, is_dropped_early, IsPortReason};
ghost use Rattle.wrp_port.specs.PortAt.{IsStamp};
ghost use Rattle.wrp_port.specs.Wire.{later_by, earlier_by};

use super::{Answer, Port};
use crate::hearing::{early_reason, is_certain};
use crate::messages::{Sends, response, send_signals};
use crate::wire::{earlier, later};
use wrp_base::{Body, Four, Head, PtpMsg, Role, Stamp, Ts, WrMsg};
use wrp_data::Reason;
use wrp_link::LinkIn;

impl Port {
    // Takes a message: the first reason to drop it, or what the port makes of it.
    pub(super) fn hear(
        &mut self,
        message: &PtpMsg,
        stamp: Stamp,
        tick: u32,
        sends: &mut Sends,
    ) -> Answer
        requires sound { IsSound message.now }
        requires stamp { IsStamp stamp }
        requires sends { sends.old.items ≡ [] }
        ensures set { self.new.set ≡ self.old.set }
        ensures line { self.new.line ≡ after self.old.set self.old.line (PortIn.Msg message.now stamp tick) }
        ensures exchange { (calls : List Call) → ExchangeStandsFor self.old.set.ring self.old.exchange calls →
            ExchangeStandsFor self.old.set.ring self.new.exchange
            (calls_after self.old.set self.old.line (PortIn.Msg message.now stamp tick) calls) }
        ensures sends { sends.new.items
            ≡ sends_of self.old.set self.old.line (PortIn.Msg message.now stamp tick) }
        ensures drop { (calls : List Call) → ExchangeStandsFor self.old.set.ring self.old.exchange calls →
            result.drop
            ≡ drop_of self.old.set self.old.line calls (PortIn.Msg message.now stamp tick) }
        ensures measured { (calls : List Call) → ExchangeStandsFor self.old.set.ring self.old.exchange calls →
            result.measured
            ≡ measured_by self.old.set self.old.line calls (PortIn.Msg message.now stamp tick) }
        ensures silent { IsTrue (is_some (early_reason self.old.set self.old.line.link message.now)) →
            self.new ≡ self.old }
        ensures times { IfSome result.measured HasTimes }
        ensures reason { IsPortReason result.drop }
    {
        match early_reason(&self.set, &self.line.link, message) {
            Some(reason) => Answer::dropping(reason),
            None => self.take_message(message, stamp, tick, sends),
        }
    }

    // Takes a message that is not dropped whatever its kind.
    fn take_message(
        &mut self,
        message: &PtpMsg,
        stamp: Stamp,
        tick: u32,
        sends: &mut Sends,
    ) -> Answer
        requires sound { IsSound message.now }
        requires stamp { IsStamp stamp }
        requires sends { sends.old.items ≡ [] }
        ensures set { self.new.set ≡ self.old.set }
        ensures line { self.new.line ≡ heard self.old.set self.old.line message.now }
        ensures exchange { (calls : List Call) → ExchangeStandsFor self.old.set.ring self.old.exchange calls →
            ExchangeStandsFor self.old.set.ring self.new.exchange (with_call
            (piece_of self.old.set.ds.role message.now.head message.now.body stamp tick) calls) }
        ensures sends { sends.new.items ≡ heard_sends self.old.set self.old.line message.now stamp }
        ensures drop { (calls : List Call) → ExchangeStandsFor self.old.set.ring self.old.exchange calls →
            result.drop
            ≡ number_by (reason_by None (is_of_use self.old.set.ds.role message.now.body
            (is_used_by self.old.line.link (link_input self.old.set.ds.role message.now.body))
            (is_kept self.old.set.ring calls
            (piece_of self.old.set.ds.role message.now.head message.now.body stamp tick)))) }
        ensures measured { (calls : List Call) → ExchangeStandsFor self.old.set.ring self.old.exchange calls →
            result.measured
            ≡ four_by self.old.set.ring calls
            (piece_of self.old.set.ds.role message.now.head message.now.body stamp tick) }
        ensures times { IfSome result.measured HasTimes }
        ensures reason { IsPortReason result.drop }
    {
        let head = &message.head;
        match (self.set.ds.role, message.body) {
            (Role::Slave, Body::Announce { suffix, .. }) => self.announce(head, suffix, sends),
            (Role::Slave, Body::Sync { .. }) => self.sync(head, stamp, tick),
            (Role::Slave, Body::FollowUp { precise }) => self.follow_up(head, precise),
            (Role::Slave, Body::DelayResp { receive, .. }) => self.delay_resp(head, receive),
            (Role::Master, Body::DelayReq { .. }) => self.delay_req(head, stamp, sends),
            (_, Body::Signal { wr: Some(wr), .. }) => self.signal(wr, sends),
            _ => Answer::dropping(Reason::Unmatched),
        }
    }

    // An Announce at a slave: the link is given it, and it renews the lease if the parent's time is
    // certain.
    fn announce(&mut self, head: &Head, suffix: Option<u16>, sends: &mut Sends) -> Answer
        requires { sends.old.items ≡ [] }
        ensures port { self.new
            ≡ record self.old {
              line =
                  record (told self.old.line (link.Announce suffix)) {
                    lease = if is_certain head.now then self.old.set.sched.lease
                        else self.old.line.lease;
                  };
            } }
        ensures sends { sends.new.items
            ≡ signals_of self.old.set self.old.line.ids.signal
            (link_sends_of self.old.line.link (link.Announce suffix)) }
        ensures drop { result.drop ≡ None }
        ensures measured { result.measured ≡ None }
    {
        let first = self.line.ids.signal;
        let out = self.line.tell(LinkIn::Announce(suffix));
        if is_certain(head) {
            self.line.lease = self.set.sched.lease;
        }
        send_signals(&self.set, first, &out.sends, sends);
        Answer::none()
    }

    // A White Rabbit message: the link uses it or not.
    fn signal(&mut self, message: WrMsg, sends: &mut Sends) -> Answer
        requires { sends.old.items ≡ [] }
        ensures port { self.new ≡ record self.old { line = told self.old.line (link.Msg message) } }
        ensures sends { sends.new.items
            ≡ signals_of self.old.set self.old.line.ids.signal
            (link_sends_of self.old.line.link (link.Msg message)) }
        ensures drop { result.drop
            ≡ number_by (reason_by None (is_used self.old.line.link (link.Msg message))) }
        ensures measured { result.measured ≡ None }
        ensures reason { IsPortReason result.drop }
    {
        let first = self.line.ids.signal;
        let out = self.line.tell(LinkIn::Msg(message));
        send_signals(&self.set, first, &out.sends, sends);
        Answer::using(out.used, None)
    }

    // A Delay_Req at a master is answered at once.
    fn delay_req(&self, head: &Head, stamp: Stamp, sends: &mut Sends) -> Answer
        requires stamp { IsStamp stamp }
        requires sends { sends.old.items ≡ [] }
        ensures sends { sends.new.items ≡ response_of self.now.set head.now stamp ∷ [] }
        ensures drop { result.drop ≡ None }
        ensures measured { result.measured ≡ None }
    {
        sends.push(response(&self.set, head, stamp));
        Answer::none()
    }

    // A Sync at a slave: its exchange keeps it or not.
    fn sync(&mut self, head: &Head, stamp: Stamp, tick: u32) -> Answer
        requires { IsStamp stamp }
        ensures set { self.new.set ≡ self.old.set }
        ensures line { self.new.line ≡ self.old.line }
        ensures exchange { (calls : List Call) → ExchangeStandsFor self.old.set.ring self.old.exchange calls →
            ExchangeStandsFor self.old.set.ring self.new.exchange
            (CallSync head.now.seq head.now.correction stamp tick ∷ calls) }
        ensures drop { (calls : List Call) → ExchangeStandsFor self.old.set.ring self.old.exchange calls →
            result.drop
            ≡ number_by (reason_by None (is_some
            (kept_sync self.old.set.ring calls head.now.seq head.now.correction stamp tick))) }
        ensures measured { result.measured ≡ None }
        ensures reason { IsPortReason result.drop }
    {
        let kept = self.exchange.sync(head.seq, head.correction, stamp, tick);
        Answer::using(kept, None)
    }

    // A Follow_Up at a slave: if it makes a pair and both pairs are there, there is a measurement.
    fn follow_up(&mut self, head: &Head, precise: Ts) -> Answer
        requires { FitsTimestamp precise }
        ensures set { self.new.set ≡ self.old.set }
        ensures line { self.new.line ≡ self.old.line }
        ensures exchange { (calls : List Call) → ExchangeStandsFor self.old.set.ring self.old.exchange calls →
            ExchangeStandsFor self.old.set.ring self.new.exchange
            (CallFollowUp head.now.seq (later_by precise head.now.correction) ∷ calls) }
        ensures drop { (calls : List Call) → ExchangeStandsFor self.old.set.ring self.old.exchange calls →
            result.drop
            ≡ number_by (reason_by None (is_some (followed_pair self.old.set.ring calls
            head.now.seq (later_by precise head.now.correction)))) }
        ensures measured { (calls : List Call) → ExchangeStandsFor self.old.set.ring self.old.exchange calls →
            result.measured
            ≡ four_by self.old.set.ring calls
            (Some (CallFollowUp head.now.seq (later_by precise head.now.correction))) }
        ensures times { IfSome result.measured HasTimes }
        ensures reason { IsPortReason result.drop }
    {
        let made = self
            .exchange
            .follow_up(head.seq, later(precise, head.correction));
        let measured = self.four_where(made);
        Answer::using(made, measured)
    }

    // A Delay_Resp at a slave: the same.
    fn delay_resp(&mut self, head: &Head, receive: Ts) -> Answer
        requires { FitsTimestamp receive }
        ensures set { self.new.set ≡ self.old.set }
        ensures line { self.new.line ≡ self.old.line }
        ensures exchange { (calls : List Call) → ExchangeStandsFor self.old.set.ring self.old.exchange calls →
            ExchangeStandsFor self.old.set.ring self.new.exchange
            (CallResp head.now.seq (earlier_by receive head.now.correction) ∷ calls) }
        ensures drop { (calls : List Call) → ExchangeStandsFor self.old.set.ring self.old.exchange calls →
            result.drop
            ≡ number_by (reason_by None (is_some (answered_pair self.old.set.ring calls
            head.now.seq (earlier_by receive head.now.correction)))) }
        ensures measured { (calls : List Call) → ExchangeStandsFor self.old.set.ring self.old.exchange calls →
            result.measured
            ≡ four_by self.old.set.ring calls
            (Some (CallResp head.now.seq (earlier_by receive head.now.correction))) }
        ensures times { IfSome result.measured HasTimes }
        ensures reason { IsPortReason result.drop }
    {
        let made = self
            .exchange
            .resp(head.seq, earlier(receive, head.correction));
        let measured = self.four_where(made);
        Answer::using(made, measured)
    }

    // The four stamps of both pairs, if a pair was made.
    fn four_where(&self, made: bool) -> Option<Four>
        ensures times { IfSome result HasTimes }
        ensures value { (ring : ℕ) (calls : List Call) (pairs : Bool) →
            ExchangeStandsFor ring self.now.exchange calls → made ≡ pairs →
            result ≡ (if pairs then four_of ring calls else None) }
    {
        if made { self.exchange.four() } else { None }
    }
}
