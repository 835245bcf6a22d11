//! A pair of ends, and the messages between them.
ghost use Rattle.std.specs.Option.{option_or};
ghost use Rattle.std.specs.Prelude.{◌≡◌, ◌<◌, ◌≤◌, ◌+◌, ◌-◌, ◌*◌, ◌^◌, ◌≤ℤ◌, pos, unsigned_abs, length, List, [], ◌∷◌, IfOk, IsOk, IsErr, None, Some};
ghost use Rattle.wrp_base.specs.Calls.{Adds};
ghost use Rattle.wrp_l1sync.specs.declared.event.L1Event.{L1Event};
ghost use Rattle.wrp_l1sync.specs.declared.event.Side.{Side};
ghost use Rattle.wrp_l1sync.specs.Inputs.{state_of, ticks_of};
ghost use Rattle.wrp_l1sync.specs.Pair.{IsFit, StandsFor, History, history, handed, inputs_of, side_of, breach_of, breach_by, told_breach, answer_of, new_sent, noted, changed, handed_over, out_at, handing_of, elapsed, sends_of, sent_at, delivery_breach, late_by, too_old, end_at};
ghost use Rattle.wrp_l1sync.specs.PortAt.{state_by, due_by};
ghost use Rattle.wrp_l1sync.specs.Theorem.{UpIsCarried};

use crate::event::{Breach, Handing, L1Event, L1Refused, Limits, Sent, Side};
use crate::one_end::End;
use crate::{L1In, L1Msg, L1Out, L1State};
use std::alloc::{AllocError, Global};
use std::marker::Model;

/// Two ends of a link, a and b, and the messages that they sent to each other.
#[derive(Debug, Drop)]
pub struct L1Pair {
    limits: Limits,
    time: u128,
    count: u32,
    a: End,
    b: End,
    sent: Vec<Sent>,
}

impl Model for L1Pair {
    ghost use Rattle.std.specs.Prelude.{◌<◌, ◌≤◌, ◌*◌, ◌^◌, length};
    ghost use Rattle.wrp_l1sync.specs.Pair.{PairAt};

    ghost Value = { PairAt };

    ghost view = { λ p. record { limits = p.limits; time = p.time; count = p.count; a = p.a; b = p.b; sent = p.sent.items } };

    ghost invariant = { λ p. (p.count < 2 ^ 32) × (p.time ≤ p.count * 2 ^ 63) × (p.a.ticks ≤ p.count) × (p.b.ticks ≤ p.count) × (length p.sent.items ≤ p.count) };
}

impl L1Pair {
    /// Two disabled ends, without a message. Both ends have this `timeout` and this `interval`, in
    /// ticks: 1 to `10^6`. An enabled end ticks at most `dmax` after its last tick or enabling: 1 or
    /// more; a message is on its way for at most `life`: 0 or more; both in tau.
    pub fn new(alloc: Global, timeout: u32, interval: u32, dmax: i64, life: i64) -> L1Pair
        requires least_timeout { 1 ≤ timeout }
        requires greatest_timeout { timeout ≤ 1_000_000 }
        requires least_interval { 1 ≤ interval }
        requires greatest_interval { interval ≤ 1_000_000 }
        requires dmax { pos 1 ≤ℤ dmax }
        requires life { pos 0 ≤ℤ life }
        ensures limits { result.limits
            ≡ record {
              timeout = timeout;
              interval = interval;
              dmax = unsigned_abs dmax;
              life = unsigned_abs life;
            } }
        ensures stands { StandsFor result [] }
    {
        L1Pair {
            limits: Limits {
                timeout,
                interval,
                dmax: dmax.unsigned_abs(),
                life: life.unsigned_abs(),
            },
            time: 0,
            count: 0,
            a: End::new(timeout, interval),
            b: End::new(timeout, interval),
            sent: Vec::new(alloc),
        }
    }

    /// Takes one event, and answers what the end sends and its new state, if the event is of one end.
    /// Fewer than `2^32 - 1` events were accepted before.
    ///
    /// Broken if and only if the event breaks one of the three premises, with the least that it breaks;
    /// Memory if there was no memory for a message that is sent.
    pub fn step(&mut self, e: &L1Event) -> Result<L1Out, L1Refused>
        requires fit { IsFit e.now }
        requires count { self.old.count < 2 ^ 32 - 1 }
        ensures limits { self.new.limits ≡ self.old.limits }
        ensures count { IsOk result → self.new.count ≡ self.old.count + 1 }
        ensures broken { (events : List L1Event) → StandsFor self.old events →
            told_breach result
            ≡ breach_of self.old.limits (history self.old.limits.interval events) e.now }
        ensures out { (events : List L1Event) → StandsFor self.old events →
            IfOk result (λ out.
            out ≡ answer_of self.old.limits (history self.old.limits.interval events) e.now) }
        ensures stands { IsOk result → Adds StandsFor self.old self.new e.now }
        ensures refused { IsErr result → self.new ≡ self.old }

        // An event that breaks no premise and sends nothing needs no memory.
        ensures silent { (events : List L1Event) → StandsFor self.old events →
            breach_of self.old.limits (history self.old.limits.interval events) e.now ≡ None →
            new_sent self.old.limits.interval (history self.old.limits.interval events) e.now ≡ None →
            IsOk result }

        // An end that is up has a peer that sent, at most timeout·dmax + life ago, a message with
        // the same requirement, and each required bit holds at both.
        ensures up { (events : List L1Event) (side : Side) → StandsFor self.old events → IsOk result →
            UpIsCarried self.old.limits (history self.old.limits.interval (e.now ∷ events)) side }
    {
        self.try_step(e)
    }

    /// The state of an end: 0 or 1.
    pub fn state(&self, end: u8) -> L1State
        requires { end ≤ 1 }
        ensures { (events : List L1Event) → StandsFor self.now events →
            result
            ≡ state_of self.now.limits.timeout
            (inputs_of (handed (side_of end) (history self.now.limits.interval events))) }
    {
        self.state_at(Side::of(end))
    }

    /// The tick count of an end, 0 or 1: its ticks since it was last enabled, those that came while
    /// it was disabled not counted.
    pub fn ticks(&self, end: u8) -> u32
        requires { end ≤ 1 }
        ensures { (events : List L1Event) → StandsFor self.now events →
            result ≡ ticks_of (inputs_of (handed (side_of end) (history self.now.limits.interval events))) }
    {
        self.ticks_at(Side::of(end))
    }

    /// The number of the newest message that was sent, 0 before any.
    pub fn last(&self) -> u32
        ensures { (events : List L1Event) → StandsFor self.now events →
            result ≡ length (history self.now.limits.interval events).sent }
    {
        self.numbers()
    }

    // How many numbers were given.
    fn numbers(&self) -> u32
        ensures { result ≡ length self.now.sent }
    {
        self.sent.len() as u32
    }

    /// How many events were accepted.
    pub fn events(&self) -> u32
        ensures { result ≡ self.now.count }
    {
        self.count
    }

    // Takes one event.
    fn try_step(&mut self, e: &L1Event) -> Result<L1Out, L1Refused>
        requires fit { IsFit e.now }
        requires count { self.old.count < 2 ^ 32 - 1 }
        ensures broken { told_breach result ≡ breach_by self.old e.now }
        ensures pair { IsOk result → self.new ≡ changed (noted self.old e.now) e.now }
        ensures out { IfOk result (λ out.
            out ≡ out_at (noted self.old e.now) (handing_of (noted self.old e.now).sent e.now)) }
        ensures refused { IsErr result → self.new ≡ self.old }
        ensures silent { breach_by self.old e.now ≡ None → sends_of self.old e.now ≡ None → IsOk result }
    {
        if let Some(breach) = self.breach(e) {
            return Err(L1Refused::Broken {
                premise: breach.premise,
                shown: breach.shown,
                bound: breach.bound,
            });
        }
        match self.note(e) {
            Ok(()) => Ok(self.change(e)),
            Err(error) => Err(L1Refused::Memory(error)),
        }
    }

    // Counts an event, and keeps the message that it makes an end send.
    fn note(&mut self, e: &L1Event) -> Result<(), AllocError>
        requires { self.old.count < 2 ^ 32 - 1 }
        ensures ok { IsOk result → self.new ≡ noted self.old e.now }
        ensures room { IsOk result → self.new.time + 2 ^ 63 ≤ self.new.count * 2 ^ 63 }
        ensures a { IsOk result → self.new.a.ticks < self.new.count }
        ensures b { IsOk result → self.new.b.ticks < self.new.count }
        ensures err { IsErr result → self.new ≡ self.old }
        ensures silent { sends_of self.old e.now ≡ None → IsOk result }
    {
        if let Some(sent) = self.sends(e) {
            self.sent.push(sent)?;
        }
        self.count += 1;
        Ok(())
    }

    // The message that an event makes an end send.
    fn sends(&self, e: &L1Event) -> Option<Sent>
        ensures { result ≡ sends_of self.now e.now }
    {
        match *e {
            L1Event::Tick { end } => {
                let by = Side::of(end);
                let at = self.time;
                self.due(by).map(|msg| Sent { by, at, msg })
            }
            _ => None,
        }
    }

    // The message that the next tick makes an end send.
    fn due(&self, side: Side) -> Option<L1Msg>
        ensures { result ≡ due_by (end_at side self.now).port }
    {
        match side {
            Side::A => self.a.port.due(),
            Side::B => self.b.port.due(),
        }
    }

    // The state of an end.
    fn state_at(&self, side: Side) -> L1State
        ensures { result ≡ state_by (end_at side self.now).port }
    {
        match side {
            Side::A => self.a.port.state(),
            Side::B => self.b.port.state(),
        }
    }

    // The tick count of an end.
    fn ticks_at(&self, side: Side) -> u32
        ensures { result ≡ (end_at side self.now).ticks }
    {
        match side {
            Side::A => self.a.ticks,
            Side::B => self.b.ticks,
        }
    }

    // The rest of an event that is counted.
    fn change(&mut self, e: &L1Event) -> L1Out
        requires room { self.old.time + 2 ^ 63 ≤ self.old.count * 2 ^ 63 }
        requires a { self.old.a.ticks < self.old.count }
        requires b { self.old.b.ticks < self.old.count }
        ensures pair { self.new ≡ changed self.old e.now }
        ensures out { result ≡ out_at self.old (handing_of self.old.sent e.now) }
    {
        let out = match self.handing(e) {
            Some(handing) => self.hand(handing),
            None => L1Out::default(),
        };
        self.time += u128::from(elapsed(e));
        out
    }

    // Hands an input to its end.
    fn hand(&mut self, handing: Handing) -> L1Out
        requires a { self.old.a.ticks < self.old.count }
        requires b { self.old.b.ticks < self.old.count }
        ensures pair { self.new ≡ handed_over self.old (Some handing) }
        ensures out { result ≡ out_at self.old (Some handing) }
    {
        match handing.to {
            Side::A => self.a.take(self.time, handing.input),
            Side::B => self.b.take(self.time, handing.input),
        }
    }

    // What an event hands over, and to which end.
    fn handing(&self, e: &L1Event) -> Option<Handing>
        ensures { result ≡ handing_of self.now.sent e.now }
    {
        let (end, input) = match *e {
            L1Event::Pass { .. } => return None,
            L1Event::Tick { end } => (end, L1In::Tick),
            L1Event::Enable { end } => (end, L1In::Enable),
            L1Event::Disable { end } => (end, L1In::Disable),
            L1Event::Own { end, msg } => (end, L1In::Own(msg)),
            L1Event::Deliver { end, k } => (end, L1In::Msg(self.sent_at(k)?.msg)),
        };
        Some(Handing {
            to: Side::of(end),
            input,
        })
    }

    // The message with this number.
    fn sent_at(&self, k: u32) -> Option<Sent>
        ensures { result ≡ sent_at self.now.sent k }
    {
        if k == 0 {
            None
        } else {
            self.sent.get(k as usize - 1).copied()
        }
    }

    // The premise that an event breaks, the least.
    fn breach(&self, e: &L1Event) -> Option<Breach>
        ensures { result ≡ breach_by self.now e.now }
    {
        match *e {
            L1Event::Pass { dt } => self.late(dt.unsigned_abs()),
            L1Event::Deliver { end, k } => self.undeliverable(Side::of(end), k),
            _ => None,
        }
    }

    // The end that would be late after this much time, a first.
    fn late(&self, dt: u64) -> Option<Breach>
        ensures { result
            ≡ option_or
            (late_by self.now.limits.dmax (self.now.time + dt) self.now.a.port.enabled self.now.a.last)
            (late_by self.now.limits.dmax (self.now.time + dt) self.now.b.port.enabled self.now.b.last) }
    {
        let time = self.time + u128::from(dt);
        let dmax = self.limits.dmax;
        match self.a.late(time, dmax) {
            Some(breach) => Some(breach),
            None => self.b.late(time, dmax),
        }
    }

    // Why a message cannot be handed to this end.
    fn undeliverable(&self, to: Side, k: u32) -> Option<Breach>
        ensures { result
            ≡ delivery_breach self.now.limits.life self.now.time to k (length self.now.sent)
            (sent_at self.now.sent k) }
    {
        match self.sent_at(k) {
            Some(sent) if sent.by != to => {
                old_message(self.limits.life, self.time.saturating_sub(sent.at))
            }
            _ => Some(Breach {
                premise: 2,
                shown: k.into(),
                bound: self.numbers().into(),
            }),
        }
    }
}

// Why a message of this age is too old.
fn old_message(life: u64, age: u128) -> Option<Breach>
    requires { age < 2 ^ 127 }
    ensures { result ≡ too_old life age }
{
    if age > u128::from(life) {
        Some(Breach {
            premise: 3,
            shown: age as i128,
            bound: life.into(),
        })
    } else {
        None
    }
}

// The time that an event takes.
fn elapsed(e: &L1Event) -> u64
    ensures value { result ≡ elapsed e.now }
    ensures room { result ≤ 2 ^ 63 }
{
    match *e {
        L1Event::Pass { dt } => dt.unsigned_abs(),
        _ => 0,
    }
}
