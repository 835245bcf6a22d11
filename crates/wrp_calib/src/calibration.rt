//! The calibration: its runs one by one, and its answer.
ghost use Rattle.std.specs.Prelude.{◌≡◌, ℤ, pos, ◌^◌, ◌≤◌, ◌<ℤ◌, ◌≤ℤ◌, ◌*ℤ◌, unsigned_abs};
ghost use Rattle.wrp_base.specs.Division.{floor_quotient, ceil_quotient};
ghost use Rattle.wrp_calib.specs.Span.{IsSmall};
ghost use Rattle.wrp_calib.specs.Estimate.{kappa_span};
ghost use Rattle.wrp_calib.specs.Answer.{judged};

use crate::run::{Ends, RunKind};
use crate::span::Span;
use std::marker::Model;
use wrp_base::{ceil_div, difference, floor_div, product, sum};

/// The asymmetry is given in units of `2^-40`.
const UNIT: i128 = 1 << 40;

/// The share without asymmetry: one half.
const HALF: i128 = 1 << 39;

/// A delay that a calibration asks for.
#[derive(Clone, Copy, Debug, PartialEq, Eq)]
pub enum Unknown {
    /// The ports' delay from master to slave: sending at the master and reception at the slave.
    P,
    /// The ports' delay from slave to master.
    Q,
    /// The delay of the strand that straight runs pass from master to slave.
    X,
    /// The delay of the other strand.
    Y,
}

/// What a calibration gives: intervals that hold the true values, all in tau but `kappa`.
#[derive(Clone, Copy, Debug, PartialEq, Eq)]
pub struct CalibOut {
    /// The ports' delay from master to slave.
    pub p: Span,
    /// The ports' delay from slave to master.
    pub q: Span,
    /// The delay of strand x.
    pub x: Span,
    /// The delay of strand y.
    pub y: Span,
    /// The asymmetry of the strands, `2^40 * (x / (x + y) - 1/2)`.
    pub kappa: Span,
}

/// Why a calibration gives no answer. If there are several causes, the first is reported, in the order
/// of the variants, and within each the first kind or name.
#[derive(Clone, Copy, Debug, PartialEq, Eq)]
pub enum CalibFault {
    /// No run of this kind came.
    Missing {
        /// Which kind.
        kind: RunKind,
    },
    /// The interval of this delay is empty: no delays keep the stated errors.
    Conflict {
        /// Which delay.
        name: Unknown,
        /// The lower end, which is above the upper one.
        lo: i128,
        /// The upper end.
        hi: i128,
    },
    /// This strand, x or y, may be shorter than 1 tau: no asymmetry can be given.
    Short {
        /// Which strand.
        name: Unknown,
        /// The lower end, which is below 1.
        lo: i128,
    },
}

/// A calibration from reference, straight and swapped runs. It keeps of each kind the greatest and the
/// least measured delays.
#[derive(Clone, Copy, Debug)]
pub struct Calib {
    e: u64,
    d: u64,
    ep: u64,
    reference: Option<Ends>,
    straight: Option<Ends>,
    swapped: Option<Ends>,
}

impl Model for Calib {
    ghost use Rattle.std.specs.Prelude.{◌≤◌, ◌^◌, IfSome};
    ghost use Rattle.wrp_calib.specs.StandsFor.{CalibAt, HasSmallEnds};

    ghost Value = { CalibAt };

    ghost view = { λ c. record {
      errors = record { e = c.e; d = c.d; ep = c.ep };
      reference = c.reference;
      straight = c.straight;
      swapped = c.swapped;
    } };

    ghost invariant = { λ c. (c.e ≤ 10 ^ 9) × (c.d ≤ 10 ^ 15) × (c.ep ≤ 10 ^ 9) × IfSome c.reference HasSmallEnds ×
        IfSome c.straight HasSmallEnds × IfSome c.swapped HasSmallEnds };

    ghost inverse = { λ v. record {
      e = v.errors.e;
      d = v.errors.d;
      ep = v.errors.ep;
      reference = v.reference;
      straight = v.straight;
      swapped = v.swapped;
    } };
}

impl Calib {
    ghost use Rattle.std.specs.Prelude.{List, [], All};
    ghost use Rattle.wrp_base.specs.Calls.{Adds};
    ghost use Rattle.wrp_calib.specs.Span.{both_ends};
    ghost use Rattle.wrp_calib.specs.Run.{Run, run_of};
    ghost use Rattle.wrp_calib.specs.Estimate.{Errors, ports_interval, strand_interval};
    ghost use Rattle.wrp_calib.specs.StandsFor.{StandsFor};
    ghost use Rattle.wrp_calib.specs.Kept.{answer_at};
    ghost use Rattle.wrp_calib.specs.Answer.{answer_of};
    ghost use Rattle.wrp_calib.specs.Truth.{Delays, KeepsErrors, CameAll, TellsTruth};

    /// A calibration with no runs. A measured delay is within `e` of the true one, at most `10^9`; the
    /// patch cord takes `d` in either direction, at most `10^15`, within `ep`, at most `10^9`; all in
    /// tau.
    pub fn new(e: u64, d: u64, ep: u64) -> Calib
        requires e { e ≤ 10 ^ 9 }
        requires d { d ≤ 10 ^ 15 }
        requires ep { ep ≤ 10 ^ 9 }
        ensures { StandsFor (record { e = e; d = d; ep = ep }) result [] }
    {
        Calib {
            e,
            d,
            ep,
            reference: None,
            straight: None,
            swapped: None,
        }
    }

    /// Takes a run. Its five numbers are its times T1 to T4 and SKEW, the slave's offset as measured,
    /// each within `2^60` either way, in tau.
    pub fn add(&mut self, kind: RunKind, t: &[i64; 5])
        requires { All (λ n. unsigned_abs n ≤ 2 ^ 60) t.now }
        ensures { (errors : Errors) → Adds (StandsFor errors) self.old self.new (run_of kind t.now) }
    {
        let run = Ends::of_run(t);
        match kind {
            RunKind::Ref => self.reference = Some(run.join(self.reference)),
            RunKind::Straight => self.straight = Some(run.join(self.straight)),
            RunKind::Swapped => self.swapped = Some(run.join(self.swapped)),
        }
    }

    /// The delays and the asymmetry that the runs give, or the first fault: `Missing` for a kind of
    /// which no run came, else `Conflict` for a delay whose interval is empty, else `Short` for a
    /// strand that may be shorter than 1 tau. The calibration stays as it is.
    pub fn answer(&self) -> Result<CalibOut, CalibFault>
        ensures value { (errors : Errors) (runs : List Run) → StandsFor errors self.now runs →
            result ≡ answer_of errors runs }

        // If the true delays keep the stated errors in all runs, and runs of every kind came, each
        // interval holds its true value, or a strand may be too short.
        ensures truth { (errors : Errors) (runs : List Run) (true : Delays) → StandsFor errors self.now runs →
            CameAll runs → All (KeepsErrors errors true) runs → TellsTruth true result }
    {
        self.told()
    }

    // The answer from the ends that are kept.
    fn told(&self) -> Result<CalibOut, CalibFault>
        ensures { result ≡ answer_at self.now }
    {
        let Some(reference) = self.reference else {
            return Err(CalibFault::Missing { kind: RunKind::Ref });
        };
        let Some(straight) = self.straight else {
            return Err(CalibFault::Missing {
                kind: RunKind::Straight,
            });
        };
        let Some(swapped) = self.swapped else {
            return Err(CalibFault::Missing {
                kind: RunKind::Swapped,
            });
        };
        let p = self.ports(reference.down);
        let q = self.ports(reference.up);
        let x = self
            .strand(straight.down, p)
            .meet(self.strand(swapped.up, q));
        let y = self
            .strand(swapped.down, p)
            .meet(self.strand(straight.up, q));
        judge(p, q, x, y)
    }

    // The interval of the ports' delay, from the ends over the patch cord.
    fn ports(&self, told: Span) -> Span
        requires { IsSmall 62 told }
        ensures value { result ≡ both_ends (ports_interval self.now.errors) told }
        ensures small { IsSmall 63 result }
    {
        let (e, d, ep) = (self.e.into(), self.d.into(), self.ep.into());
        let lo = difference(difference(difference(told.lo, e), d), ep);
        let hi = sum(difference(sum(told.hi, e), d), ep);
        Span { lo, hi }
    }

    // The interval of a strand's delay, from the ends over it and the interval of the ports' delay.
    fn strand(&self, told: Span, ports: Span) -> Span
        requires told { IsSmall 62 told }
        requires ports { IsSmall 63 ports }
        ensures value { result ≡ both_ends (strand_interval self.now.errors ports) told }
        ensures small { IsSmall 64 result }
    {
        let e = self.e.into();
        let lo = difference(difference(told.lo, e), ports.hi);
        let hi = difference(sum(told.hi, e), ports.lo);
        Span { lo, hi }
    }
}

// The answer from the four intervals.
fn judge(p: Span, q: Span, x: Span, y: Span) -> Result<CalibOut, CalibFault>
    requires x { IsSmall 64 x }
    requires y { IsSmall 64 y }
    ensures { result ≡ judged p q x y }
{
    if p.is_empty() {
        return Err(conflict(Unknown::P, p));
    }
    if q.is_empty() {
        return Err(conflict(Unknown::Q, q));
    }
    if x.is_empty() {
        return Err(conflict(Unknown::X, x));
    }
    if y.is_empty() {
        return Err(conflict(Unknown::Y, y));
    }
    if x.lo < 1 {
        return Err(CalibFault::Short {
            name: Unknown::X,
            lo: x.lo,
        });
    }
    if y.lo < 1 {
        return Err(CalibFault::Short {
            name: Unknown::Y,
            lo: y.lo,
        });
    }
    let kappa = asymmetry(x, y);
    Ok(CalibOut { p, q, x, y, kappa })
}

// The refusal of an empty interval.
fn conflict(name: Unknown, span: Span) -> CalibFault
    ensures { result ≡ CalibFault.Conflict name span.lo span.hi }
{
    CalibFault::Conflict {
        name,
        lo: span.lo,
        hi: span.hi,
    }
}

// The asymmetry of strands whose delays lie in these intervals, rounded outwards.
fn asymmetry(x: Span, y: Span) -> Span
    requires x { IsSmall 64 x }
    requires y { IsSmall 64 y }
    requires x_lo { pos 1 ≤ℤ x.lo }
    requires y_lo { pos 1 ≤ℤ y.lo }
    requires x_hi { x.lo ≤ℤ x.hi }
    requires y_hi { y.lo ≤ℤ y.hi }
    ensures { result ≡ kappa_span x y }
{
    let lo = difference(least_share(x.lo, sum(x.lo, y.hi)), HALF);
    let hi = difference(greatest_share(x.hi, sum(x.hi, y.lo)), HALF);
    Span { lo, hi }
}

// The share of a part in a whole, in units of 2^-40, rounded down.
fn least_share(part: i128, whole: i128) -> i128
    requires small { unsigned_abs part ≤ 2 ^ 64 }
    requires part { pos 1 ≤ℤ part }
    requires whole { pos 0 <ℤ whole }
    ensures value { result ≡ floor_quotient (part *ℤ pos (2 ^ 40)) whole }
    ensures size { unsigned_abs result ≤ 2 ^ 125 }
{
    floor_div(product(part, UNIT), whole)
}

// The share of a part in a whole, in units of 2^-40, rounded up.
fn greatest_share(part: i128, whole: i128) -> i128
    requires small { unsigned_abs part ≤ 2 ^ 64 }
    requires part { pos 1 ≤ℤ part }
    requires whole { pos 0 <ℤ whole }
    ensures value { result ≡ ceil_quotient (part *ℤ pos (2 ^ 40)) whole }
    ensures size { unsigned_abs result ≤ 2 ^ 125 }
{
    ceil_div(product(part, UNIT), whole)
}
