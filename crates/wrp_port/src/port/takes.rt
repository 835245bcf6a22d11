//! What a port does with each kind of input.
ghost use Rattle.std.specs.Prelude.{◌≡◌, ◌≤◌, ◌^◌, [], List, length, None, unsigned_abs, IfSome, IsTrue, true, false};
ghost use Rattle.wrp_exch.specs.Call.{Call};
ghost use Rattle.wrp_exch.specs.Exchange.{StandsFor as ExchangeStandsFor, HasTimes};
ghost use Rattle.wrp_link.specs.declared.interface.LinkIn.TheVariants as link;
ghost use Rattle.wrp_link.specs.Table.{sends_of as link_sends_of};
ghost use Rattle.wrp_port.specs.LineAfter.{new_line, after, ticked, told};
ghost use Rattle.wrp_port.specs.Messages.{signals_of};
ghost use Rattle.wrp_port.specs.Outputs.{sends_of, due_request, sent_call, sample_call, news_call, with_call, calls_after, drop_of, measured_by, follow_ups, is_dropped_early, is_newest, IsPortReason};
ghost use Rattle.wrp_port.specs.PortAt.{IsFit, IsStamp};

use super::{Answer, Port};
use crate::PortIn;
use crate::hearing::is_open;
use crate::line::Rest;
use crate::messages::{Sends, follow_up, send_signals};
use wrp_base::{ChainNews, Module, Role, Stamp};
use wrp_link::LinkIn;

impl Port {
    // Takes an input, of whatever kind.
    pub(super) fn take(&mut self, input: PortIn, sends: &mut Sends) -> Answer
        requires input { IsFit input }
        requires sends { sends.old.items ≡ [] }
        ensures set { self.new.set ≡ self.old.set }
        ensures line { self.new.line ≡ after self.old.set self.old.line input }
        ensures exchange { (calls : List Call) → ExchangeStandsFor self.old.set.ring self.old.exchange calls →
            ExchangeStandsFor self.old.set.ring self.new.exchange
            (calls_after self.old.set self.old.line input calls) }
        ensures sends { sends.new.items ≡ sends_of self.old.set self.old.line input }
        ensures drop { (calls : List Call) → ExchangeStandsFor self.old.set.ring self.old.exchange calls →
            result.drop ≡ drop_of self.old.set self.old.line calls input }
        ensures measured { (calls : List Call) → ExchangeStandsFor self.old.set.ring self.old.exchange calls →
            result.measured ≡ measured_by self.old.set self.old.line calls input }
        ensures silent { IsTrue (is_dropped_early self.old.set self.old.line input) → self.new ≡ self.old }
        ensures times { IfSome result.measured HasTimes }
        ensures reason { IsPortReason result.drop }
    {
        match input {
            PortIn::Msg { msg, stamp, tick } => self.hear(&msg, stamp, tick, sends),
            PortIn::Lease => {
                self.lease_turn();
                Answer::none()
            }
            PortIn::Tick { locked, certain } => {
                self.tick(locked, certain, sends);
                Answer::none()
            }
            PortIn::Sent {
                delay: false,
                seq,
                stamp,
                ..
            } => {
                self.sync_sent(seq, stamp, sends);
                Answer::none()
            }
            PortIn::Sent {
                delay: true,
                seq,
                stamp,
                tick,
            } => {
                self.request_sent(seq, stamp, tick);
                Answer::none()
            }
            PortIn::Carrier { up: true, module } => {
                self.carrier_comes(module);
                Answer::none()
            }
            PortIn::Carrier { up: false, .. } => {
                self.carrier_goes();
                Answer::none()
            }
            PortIn::Sample { n, u } => {
                self.sample(n, u);
                Answer::none()
            }
            PortIn::Chain(news) => {
                self.chain(news);
                Answer::none()
            }
            PortIn::Reset => {
                self.reset();
                Answer::none()
            }
        }
    }

    // One turn of the lease.
    pub(super) fn lease_turn(&mut self)
        ensures { self.new ≡ record self.old { line = after self.old.set self.old.line PortIn.Lease } }
    {
        self.line.lease = self.line.lease.saturating_sub(1);
    }

    // A tick: first the link, then what is due. The exchange is given a Delay_Req that is sent.
    pub(super) fn tick(&mut self, locked: bool, certain: bool, sends: &mut Sends)
        requires { sends.old.items ≡ [] }
        ensures set { self.new.set ≡ self.old.set }
        ensures line { self.new.line ≡ after self.old.set self.old.line (PortIn.Tick locked certain) }
        ensures exchange { (calls : List Call) → ExchangeStandsFor self.old.set.ring self.old.exchange calls →
            ExchangeStandsFor self.old.set.ring self.new.exchange
            (calls_after self.old.set self.old.line (PortIn.Tick locked certain) calls) }
        ensures sends { sends.new.items ≡ sends_of self.old.set self.old.line (PortIn.Tick locked certain) }
    {
        self.tick_link(locked, sends);
        self.note_request();
        self.line.schedule(&self.set, certain, sends);
    }

    // The link's part of a tick, and what the link sends.
    fn tick_link(&mut self, locked: bool, sends: &mut Sends)
        requires { sends.old.items ≡ [] }
        ensures line { self.new ≡ record self.old { line = ticked self.old.set self.old.line locked } }
        ensures sends { sends.new.items ≡ signals_of self.old.set self.old.line.ids.signal
            (link_sends_of self.old.line.link (link.Tick locked)) }
        ensures room { length sends.new.items ≤ 2 }
    {
        if !self.line.tick_on(&self.set) {
            self.tick_handshake(locked, sends);
        }
    }

    // The same in a handshake. What the link answers is large: it has a frame of its own, so that no other tick
    // needs room for it.
    #[inline(never)]
    fn tick_handshake(&mut self, locked: bool, sends: &mut Sends)
        requires { sends.old.items ≡ [] }
        ensures line { self.new ≡ record self.old { line = ticked self.old.set self.old.line locked } }
        ensures sends { sends.new.items ≡ signals_of self.old.set self.old.line.ids.signal
            (link_sends_of self.old.line.link (link.Tick locked)) }
        ensures room { length sends.new.items ≤ 2 }
    {
        let first = self.line.ids.signal;
        let out = self.line.tick(&self.set, locked);
        send_signals(&self.set, first, &out.sends, sends);
    }

    // Gives the exchange of a slave the Delay_Req that is due.
    fn note_request(&mut self)
        ensures set { self.new.set ≡ self.old.set }
        ensures line { self.new.line ≡ self.old.line }
        ensures exchange { (calls : List Call) → ExchangeStandsFor self.old.set.ring self.old.exchange calls →
            ExchangeStandsFor self.old.set.ring self.new.exchange
            (with_call (due_request self.old.set.ds.role self.old.line) calls) }
    {
        match self.set.ds.role {
            Role::Slave if self.line.requests() => self.exchange.req_out(self.line.ids.request),
            _ => {}
        }
    }

    // A Sync was sent: if it is the newest one and the port is open, its Follow_Up is sent.
    fn sync_sent(&self, seq: u16, stamp: Stamp, sends: &mut Sends)
        requires stamp { IsStamp stamp }
        requires sends { sends.old.items ≡ [] }
        ensures { sends.new.items ≡ follow_ups self.now.set self.now.line seq stamp }
    {
        if self.is_newest(seq) && is_open(&self.line.link) {
            sends.push(follow_up(&self.set, seq, stamp));
        }
    }

    // Whether the newest Sync has this sequenceId.
    fn is_newest(&self, seq: u16) -> bool
        ensures { result ≡ is_newest self.now.line.ids.newest_sync seq }
    {
        match self.line.ids.newest_sync {
            Some(newest) => newest == seq,
            None => false,
        }
    }

    // A Delay_Req was sent: a slave's exchange keeps it.
    fn request_sent(&mut self, seq: u16, stamp: Stamp, tick: u32)
        requires { IsStamp stamp }
        ensures set { self.new.set ≡ self.old.set }
        ensures line { self.new.line ≡ self.old.line }
        ensures exchange { (calls : List Call) → ExchangeStandsFor self.old.set.ring self.old.exchange calls →
            ExchangeStandsFor self.old.set.ring self.new.exchange
            (with_call (sent_call self.old.set.ds.role seq stamp tick) calls) }
    {
        match self.set.ds.role {
            Role::Slave => {
                let _kept = self.exchange.req_sent(seq, stamp, tick);
            }
            Role::Master => {}
        }
    }

    // A carrier comes: the lease stays.
    fn carrier_comes(&mut self, own_module: Option<Module>)
        ensures { self.new
            ≡ record self.old { line = told self.old.line (link.CarrierUp own_module) } }
    {
        let _out = self.line.tell(LinkIn::CarrierUp(own_module));
    }

    // The carrier goes, and the lease with it.
    fn carrier_goes(&mut self)
        ensures { self.new
            ≡ record self.old {
              line = record (told self.old.line link.CarrierDown) { lease = 0 };
            } }
    {
        let _out = self.line.tell(LinkIn::CarrierDown);
        self.line.lease = 0;
    }

    // A good sample: a slave's exchange keeps it.
    pub(super) fn sample(&mut self, n: u32, u: i64)
        ensures set { self.new.set ≡ self.old.set }
        ensures line { self.new.line ≡ self.old.line }
        ensures exchange { (calls : List Call) → ExchangeStandsFor self.old.set.ring self.old.exchange calls →
            ExchangeStandsFor self.old.set.ring self.new.exchange
            (with_call (sample_call self.old.set.ds.role n u) calls) }
    {
        match self.set.ds.role {
            Role::Slave => self.exchange.sample(n, u),
            Role::Master => {}
        }
    }

    // What became of the servo's chain: a slave's exchange begins or ends with it.
    fn chain(&mut self, news: ChainNews)
        ensures set { self.new.set ≡ self.old.set }
        ensures line { self.new.line ≡ self.old.line }
        ensures exchange { (calls : List Call) → ExchangeStandsFor self.old.set.ring self.old.exchange calls →
            ExchangeStandsFor self.old.set.ring self.new.exchange
            (with_call (news_call self.old.set.ds.role news) calls) }
    {
        match (self.set.ds.role, news) {
            (Role::Slave, ChainNews::Started(first)) => self.exchange.start(first),
            (Role::Slave, ChainNews::Ended) => self.exchange.clear(),
            _ => {}
        }
    }

    // The node restarts.
    fn reset(&mut self)
        ensures set { self.new.set ≡ self.old.set }
        ensures line { self.new.line ≡ new_line self.old.set }
        ensures exchange { (calls : List Call) → ExchangeStandsFor self.old.set.ring self.old.exchange calls →
            ExchangeStandsFor self.old.set.ring self.new.exchange [] }
    {
        self.line = Rest::new(&self.set);
        self.exchange.reset();
    }
}
