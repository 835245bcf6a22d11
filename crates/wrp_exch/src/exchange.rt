//! The exchange: its calls, and the four stamps that it answers.
ghost use Rattle.std.specs.Prelude.{◌≡◌};
ghost use Rattle.wrp_exch.specs.Exchange.{join_pairs};

use crate::delay::{DelayHalf, DelayPair, Sent};
use crate::ring::{GoodSample, SampleRing, phase_of};
use crate::sync::{HeldSync, SyncHalf, SyncPair};
use circular_buffer::HeapCircularBuffer;
use std::alloc::{AllocError, Global};
use std::marker::Model;
use wrp_base::{Four, Stamp, Tau};

/// The two-step exchange of one slave port.
#[derive(Debug, Drop)]
pub struct Exchange {
    ring: SampleRing,
    first: Option<u32>,
    sync: SyncHalf,
    delay: DelayHalf,
}

impl Model for Exchange {
    ghost use Rattle.wrp_exch.specs.Exchange.{ExchangeAt};
    ghost use Rattle.wrp_exch.specs.SyncHalf.{HasSyncTimes};
    ghost use Rattle.wrp_exch.specs.DelayHalf.{HasDelayTimes};

    ghost Value = { ExchangeAt };

    ghost view = { λ e. record { ring = e.ring; first = e.first; sync = e.sync; delay = e.delay } };

    ghost invariant = { λ e. HasSyncTimes e.sync × HasDelayTimes e.delay };
}

impl Exchange {
    ghost use Rattle.std.specs.Prelude.{◌≡◌, ℕ, ◌^◌, ◌<◌, ◌≤◌, unsigned_abs, false, List, [], ◌++◌, IfOk, IfSome, IsNone};
    ghost use Rattle.std.specs.Option.{is_some};
    ghost use Rattle.wrp_exch.specs.Call.{Call, CallStart, CallClear, CallSample, CallSync, CallFollowUp, CallReqOut, CallReqSent, CallResp};
    ghost use Rattle.wrp_exch.specs.Chain.{first_sample, phase_since};
    ghost use Rattle.wrp_exch.specs.SyncPair.{kept_sync, followed_pair};
    ghost use Rattle.wrp_exch.specs.DelayPair.{kept_sent, answered_pair};
    ghost use Rattle.wrp_base.specs.Calls.{Adds};
    ghost use Rattle.wrp_exch.specs.Exchange.{StandsFor, renewed, four_of, HasTimes};
    ghost use Rattle.wrp_exch.specs.Ticks.{NoneAfter, TicksRise, NotOlder};

    /// An exchange with no chain, which knows the last `ring` good samples: 1 to 4096. It takes all
    /// the memory that it will need. `AllocError` if there is not that much: no exchange is made.
    pub fn new(alloc: Global, ring: usize) -> Result<Exchange, AllocError>
        requires least { 1 ≤ ring }
        requires greatest { ring ≤ 4096 }
        ensures { IfOk result (λ exchange. StandsFor ring exchange []) }
    {
        Ok(Exchange {
            ring: HeapCircularBuffer::with_capacity(alloc, ring)?,
            first: None,
            sync: SyncHalf::new(),
            delay: DelayHalf::new(),
        })
    }

    /// Starts a chain, whose first sample has the number `n`. All pieces and pairs of an earlier
    /// chain are dropped; the ring stays.
    pub fn start(&mut self, n: u32)
        ensures { (ring : ℕ) → Adds (StandsFor ring) self.old self.new (CallStart n) }
    {
        self.renew(Some(n));
    }

    /// Ends the chain: all pieces, pairs and samples are dropped.
    pub fn clear(&mut self)
        ensures { (ring : ℕ) → Adds (StandsFor ring) self.old self.new CallClear }
    {
        self.ring.clear();
        self.renew(None);
    }

    /// Makes the exchange one without calls. It drops what a clear drops, and also forgets the ticks
    /// that it was given, which may restart.
    pub fn reset(&mut self)
        ensures { (ring : ℕ) (calls : List Call) → StandsFor ring self.old calls →
            StandsFor ring self.new [] }
    {
        self.clear();
    }

    /// Takes a good sample: its number and the unwrapped phase at it, in tau. A node numbers its
    /// samples upwards; if a number comes again, the newest sample of it counts.
    pub fn sample(&mut self, n: u32, u: i64)
        ensures { (ring : ℕ) → Adds (StandsFor ring) self.old self.new (CallSample n u) }
    {
        let _oldest = self.ring.push_front(GoodSample {
            number: n,
            phase: u,
        });
    }

    /// Takes a Sync with its correctionField, the stamp of its reception and the tick at which it was
    /// handed over. Returns whether it was kept: it is if there is a chain, and the stamp's sample is at
    /// or after the chain's start and is still known. It then takes the place of an earlier one.
    pub fn sync(&mut self, seq: u16, correction: i64, t2: Stamp, tick: u32) -> bool
        requires { unsigned_abs t2.value < 2 ^ 104 }
        ensures kept { (ring : ℕ) (calls : List Call) → StandsFor ring self.old calls →
            result ≡ is_some (kept_sync ring calls seq correction t2 tick) }
        ensures no_chain { (ring : ℕ) (calls : List Call) → StandsFor ring self.old calls →
            IsNone (first_sample calls) → result ≡ false }
        ensures stands { (ring : ℕ) →
            Adds (StandsFor ring) self.old self.new (CallSync seq correction t2 tick) }
    {
        match self.latched_phase(t2.sample) {
            Some(u2) => {
                self.sync.hold(HeldSync {
                    seq,
                    correction,
                    t2: t2.value,
                    sample: t2.sample,
                    u2,
                    tick,
                });
                true
            }
            None => false,
        }
    }

    /// Takes a Follow_Up: `precise` is its preciseOriginTimestamp with its own correctionField, in tau.
    /// Returns whether it made the Sync pair: it did if the last kept Sync has its sequenceId, no
    /// Follow_Up of that sequenceId came in between, and the Sync's sample is still known.
    pub fn follow_up(&mut self, seq: u16, precise: Tau) -> bool
        requires { unsigned_abs precise < 2 ^ 104 }
        ensures made { (ring : ℕ) (calls : List Call) → StandsFor ring self.old calls →
            result ≡ is_some (followed_pair ring calls seq precise) }
        ensures no_chain { (ring : ℕ) (calls : List Call) → StandsFor ring self.old calls →
            IsNone (first_sample calls) → result ≡ false }
        ensures stands { (ring : ℕ) →
            Adds (StandsFor ring) self.old self.new (CallFollowUp seq precise) }
    {
        self.sync.follow_up(seq, precise, &self.ring)
    }

    /// Notes that a Delay_Req was put out. Without a chain it is ignored.
    pub fn req_out(&mut self, seq: u16)
        ensures stands { (ring : ℕ) → Adds (StandsFor ring) self.old self.new (CallReqOut seq) }
        ensures no_chain { (ring : ℕ) (calls : List Call) → StandsFor ring self.old calls →
            IsNone (first_sample calls) → self.new ≡ self.old }
    {
        self.delay.ask(self.first.map(|_| seq));
    }

    /// Takes the stamp of a Delay_Req's sending and the tick at which the sending was reported. Returns
    /// whether it was kept: it is if it belongs to the last request, no sending of that request was kept
    /// before, and the stamp's sample is at or after the chain's start and is still known.
    pub fn req_sent(&mut self, seq: u16, t3: Stamp, tick: u32) -> bool
        requires { unsigned_abs t3.value < 2 ^ 104 }
        ensures kept { (ring : ℕ) (calls : List Call) → StandsFor ring self.old calls →
            result ≡ is_some (kept_sent ring calls seq t3 tick) }
        ensures no_chain { (ring : ℕ) (calls : List Call) → StandsFor ring self.old calls →
            IsNone (first_sample calls) → result ≡ false }
        ensures stands { (ring : ℕ) →
            Adds (StandsFor ring) self.old self.new (CallReqSent seq t3 tick) }
    {
        let phase = self.latched_phase(t3.sample);
        let sent = phase.map(|u3| Sent {
            t3: t3.value,
            u3,
            tick,
        });
        self.delay.tell(seq, sent)
    }

    /// Takes a Delay_Resp: `t4` is its receiveTimestamp less its correctionField, in tau. Returns
    /// whether it made the delay pair: it did if it belongs to the last request, whose sending was kept,
    /// and no Delay_Resp of that sequenceId came since that sending.
    pub fn resp(&mut self, seq: u16, t4: Tau) -> bool
        requires { unsigned_abs t4 < 2 ^ 104 }
        ensures made { (ring : ℕ) (calls : List Call) → StandsFor ring self.old calls →
            result ≡ is_some (answered_pair ring calls seq t4) }
        ensures no_chain { (ring : ℕ) (calls : List Call) → StandsFor ring self.old calls →
            IsNone (first_sample calls) → result ≡ false }
        ensures stands { (ring : ℕ) → Adds (StandsFor ring) self.old self.new (CallResp seq t4) }
    {
        self.delay.answer(seq, t4)
    }

    /// The newest matched four; None if and only if one of the two pairs is missing since the chain's
    /// start.
    pub fn four(&self) -> Option<Four>
        ensures value { (ring : ℕ) (calls : List Call) → StandsFor ring self.now calls →
            result ≡ four_of ring calls }
        ensures times { IfSome result HasTimes }

        // Its tick is one that was given.
        ensures told { (ring tick : ℕ) (calls : List Call) → StandsFor ring self.now calls →
            NoneAfter tick calls → IfSome result (λ four. four.tick ≤ tick) }

        // As long as the given ticks do not fall, it is not older than any four before it.
        ensures rises { (ring : ℕ) (since calls : List Call) →
            StandsFor ring self.now (since ++ calls) →
            TicksRise (since ++ calls) →
            NotOlder (four_of ring calls) result }
    {
        join(self.sync.pair, self.delay.pair)
    }

    // Drops all pieces and pairs, and sets the chain's first sample.
    fn renew(&mut self, first: Option<u32>)
        ensures { self.new ≡ renewed self.old first }
    {
        self.first = first;
        self.sync = SyncHalf::new();
        self.delay = DelayHalf::new();
    }

    // The phase at the sample that a stamp latched, in tau, if there is a chain, the sample is at or
    // after its start, and the ring still has it.
    fn latched_phase(&self, sample: u32) -> Option<i64>
        ensures { result ≡ phase_since self.now.first self.now.ring.items sample }
    {
        match self.first {
            Some(first) if first <= sample => phase_of(&self.ring, sample),
            _ => None,
        }
    }
}

// The four stamps of the two pairs, if both are there.
fn join(sync: Option<SyncPair>, delay: Option<DelayPair>) -> Option<Four>
    ensures { result ≡ join_pairs sync delay }
{
    let sync = sync?;
    let delay = delay?;
    Some(Four {
        t1: sync.t1,
        t2: sync.t2,
        t3: delay.t3,
        t4: delay.t4,
        u2: sync.u2,
        u3: delay.u3,
        tick: sync.tick.min(delay.tick),
    })
}
