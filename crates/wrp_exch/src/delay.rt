//! The half of an exchange that goes up the link: Delay_Req and Delay_Resp.
use wrp_base::Tau;

/// A Delay_Req's sending.
#[derive(Clone, Copy, Debug)]
pub struct Sent {
    /// The slave's sending, in tau.
    pub t3: Tau,
    /// The phase at the sample that the stamp latched, in tau.
    pub u3: i64,
    /// The tick at which the sending was reported.
    pub tick: u32,
}

/// The newest Delay_Req that was put out, while it is not answered.
#[derive(Clone, Copy, Debug)]
pub struct Request {
    /// sequenceId.
    pub seq: u16,
    /// Its sending, once it was given.
    pub sent: Option<Sent>,
}

/// A Delay_Req's sending with its Delay_Resp.
#[derive(Clone, Copy, Debug)]
pub struct DelayPair {
    /// The slave's sending, in tau.
    pub t3: Tau,
    /// The master's reception, correction included, in tau.
    pub t4: Tau,
    /// The phase at the sending's sample, in tau.
    pub u3: i64,
    /// The tick at which the sending was reported.
    pub tick: u32,
}

/// What is kept of Delay_Req and Delay_Resp.
#[derive(Clone, Copy, Debug)]
pub struct DelayHalf {
    /// The newest request.
    pub request: Option<Request>,
    /// The newest pair.
    pub pair: Option<DelayPair>,
}

impl DelayHalf {
    ghost use Rattle.std.specs.Prelude.{◌≡◌, ℕ, ◌^◌, ◌<◌, ◌==◌, ◌&&◌, unsigned_abs, IfSome};
    ghost use Rattle.std.specs.Option.{is_some, option_or};
    ghost use Rattle.wrp_exch.specs.DelayHalf.{asked, awaits_sent, told_request, left_request, new_delay_pair, HasDelayTimes};

    /// Nothing kept.
    pub fn new() -> DelayHalf
        ensures value { result ≡ record { request = None; pair = None } }
        ensures times { HasDelayTimes result }
    {
        DelayHalf {
            request: None,
            pair: None,
        }
    }

    /// Forgets the request, and keeps the one of this id, if one is given, in its place.
    pub fn ask(&mut self, seq: Option<u16>)
        requires old { HasDelayTimes self.old }
        ensures value { self.new ≡ asked self.old seq }
        ensures times { HasDelayTimes self.new }
    {
        self.request = seq.map(|seq| Request { seq, sent: None });
    }

    /// Keeps the sending of the request if it is of this id and waits for one. Returns whether it was kept.
    pub fn tell(&mut self, seq: u16, sent: Option<Sent>) -> bool
        requires old { HasDelayTimes self.old }
        requires t3 { IfSome sent (λ s. unsigned_abs s.t3 < 2 ^ 104) }
        ensures kept { result ≡ (is_some (awaits_sent self.old seq) && is_some sent) }
        ensures value { self.new
            ≡ record { request = told_request self.old seq sent; pair = self.old.pair } }
        ensures times { HasDelayTimes self.new }
    {
        match self.request {
            Some(
                Request {
                    seq: id,
                    sent: None,
                },
            ) if id == seq => {
                self.request = Some(Request { seq, sent });
                sent.is_some()
            }
            _ => false,
        }
    }

    /// Takes a Delay_Resp: the request with its id, if its sending was reported, makes a pair, and is no
    /// longer pending. Returns whether a pair was made.
    pub fn answer(&mut self, seq: u16, t4: Tau) -> bool
        requires old { HasDelayTimes self.old }
        requires t4 { unsigned_abs t4 < 2 ^ 104 }
        ensures made { result ≡ is_some (new_delay_pair self.old seq t4) }
        ensures request { self.new.request ≡ left_request self.old seq }
        ensures pair { self.new.pair ≡ option_or (new_delay_pair self.old seq t4) self.old.pair }
        ensures times { HasDelayTimes self.new }
    {
        match self.request {
            Some(
                Request {
                    seq: id,
                    sent: Some(sent),
                },
            ) if id == seq => {
                self.request = None;
                self.pair = Some(DelayPair {
                    t3: sent.t3,
                    t4,
                    u3: sent.u3,
                    tick: sent.tick,
                });
                true
            }
            _ => false,
        }
    }
}
