//! The kept law: a closure beside the fact about it.
ghost use Rattle.std.specs.Prelude.{◌≡◌, ◌≤ℤ◌};
ghost use Rattle.wrp_law.specs.Law.{KeepsFact, IsNear};

use std::marker::Model;

/// The kind of a law: which exact fraction of both ways the way down takes.
#[derive(Clone, Copy, Debug, PartialEq, Eq)]
pub enum LawKind {
    /// The way down takes `(2^39 + kappa) / 2^40` of both ways.
    Linear {
        /// The asymmetry: 0 if both ways are equal.
        kappa: i64,
    },
}

/// A delay law: a closure that gives the delay down, in tau, from the delay both ways, in tau, kept with
/// its kind, its range and its error. The fact about the closure is `KeepsFact`, which `new` and each
/// call of the closure require (this project's profile).
#[derive(Drop)]
pub struct DelayLaw<F> {
    closure: F,
    kind: LawKind,
    lo: i64,
    hi: i64,
    err: u64,
}

impl<F> Model for DelayLaw<F> {
    ghost use Rattle.wrp_law.specs.Law.{LawOf};

    ghost Value = { LawOf F };

    ghost view = { λ l. record { closure = l.closure; kind = l.kind; lo = l.lo; hi = l.hi; err = l.err } };
}

impl<F: Fn(i64) -> i64> DelayLaw<F> {
    /// Keeps the closure `f`, which may be called from `lo` to `hi`, and there gives a result within
    /// `err` tau of the exact fraction of its kind.
    pub fn new(f: F, kind: LawKind, lo: i64, hi: i64, err: u64) -> DelayLaw<F>
        requires { KeepsFact F.pre F.post (record { closure = f; kind = kind; lo = lo; hi = hi; err = err }) }
        ensures { result ≡ record { closure = f; kind = kind; lo = lo; hi = hi; err = err } }
    {
        DelayLaw {
            closure: f,
            kind,
            lo,
            hi,
            err,
        }
    }

    /// The closure's answer at `x`, the delay both ways in tau, from `lo` to `hi`: the delay down, in
    /// tau.
    pub fn apply(&self, x: i64) -> i64
        requires kept { KeepsFact F.pre F.post self.now }
        requires lo { self.now.lo ≤ℤ x }
        requires hi { x ≤ℤ self.now.hi }
        ensures answer { F.post self.now.closure x result }
        ensures near { IsNear self.now.kind self.now.err x result }
    {
        (self.closure)(x)
    }

    /// The least x of the law, in tau.
    pub fn lo(&self) -> i64
        ensures { result ≡ self.now.lo }
    {
        self.lo
    }

    /// The greatest x of the law, in tau.
    pub fn hi(&self) -> i64
        ensures { result ≡ self.now.hi }
    {
        self.hi
    }

    /// How far an answer may be from the exact fraction, in tau.
    pub fn err(&self) -> u64
        ensures { result ≡ self.now.err }
    {
        self.err
    }

    /// Which exact fraction the law represents.
    pub fn kind(&self) -> LawKind
        ensures { result ≡ self.now.kind }
    {
        self.kind
    }
}
