//! The law of one link, as the link database gives it: the one description from which a caller makes the
//! closure of a `DelayLaw`, whichever form the law has.
ghost use Rattle.std.specs.Prelude.{◌≡◌, ◌≤ℤ◌};
ghost use Rattle.wrp_law.specs.Law.{IsNear};
ghost use Rattle.wrp_law.specs.LinkLaw.{IsSound, kind_of, least_of, most_of, error_of, down_of};

use crate::table::last_x;
use crate::{LawKind, floor_of, on_table};

/// The least x of a law without table, in tau.
const LEAST: i64 = -(1 << 30);

/// The greatest x of a law without table, in tau.
const MOST: i64 = 1 << 53;

/// The law of a link: its exact fraction alone, or a table of points near it.
#[derive(Clone, Copy, Debug)]
pub enum LinkLaw<'a> {
    /// The fraction `(2^39 + kappa) / 2^40`, rounded down.
    Fraction {
        /// The asymmetry: from `-2^38` to `2^38`.
        kappa: i64,
    },
    /// The value of a table of points.
    Table {
        /// The asymmetry of the fraction that the points are near to: from `-2^38` to `2^38`.
        kappa: i64,
        /// The points `(x, y)`, in tau: 2 to 32, rising.
        points: &'a [(i64, i64)],
        /// How far each point may be from the fraction, in tau: 0 to `10^9`.
        table_err: u64,
    },
}

impl LinkLaw<'_> {
    /// The delay down, in tau, where `x` is the delay both ways, in tau, from `lo` to `hi`. This is what
    /// the closure of the link's `DelayLaw` calls.
    pub fn down(&self, x: i64) -> i64
        requires sound { IsSound self.now }
        requires lo { least_of self.now ≤ℤ x }
        requires hi { x ≤ℤ most_of self.now }
        ensures value { result ≡ down_of self.now x }
        ensures near { IsNear (kind_of self.now) (error_of self.now) x result }
    {
        match *self {
            LinkLaw::Fraction { kappa } => floor_of(kappa, x),
            LinkLaw::Table { points, .. } => on_table(points, x),
        }
    }

    /// The kind of the link's law.
    pub fn kind(&self) -> LawKind
        ensures { result ≡ kind_of self.now }
    {
        match *self {
            LinkLaw::Fraction { kappa } => LawKind::Linear { kappa },
            LinkLaw::Table { kappa, .. } => LawKind::Linear { kappa },
        }
    }

    /// The least x, in tau: `-2^30`, or the x of the table's first point.
    pub fn lo(&self) -> i64
        requires { IsSound self.now }
        ensures { result ≡ least_of self.now }
    {
        match *self {
            LinkLaw::Fraction { .. } => LEAST,
            LinkLaw::Table { points, .. } => points[0].0,
        }
    }

    /// The greatest x, in tau: `2^53`, or the x of the table's last point.
    pub fn hi(&self) -> i64
        requires { IsSound self.now }
        ensures { result ≡ most_of self.now }
    {
        match *self {
            LinkLaw::Fraction { .. } => MOST,
            LinkLaw::Table { points, .. } => last_x(points),
        }
    }

    /// How far an answer may be from the exact fraction, in tau: 1, or 1 more than a point of the table.
    pub fn err(&self) -> u64
        requires { IsSound self.now }
        ensures { result ≡ error_of self.now }
    {
        match *self {
            LinkLaw::Fraction { .. } => 1,
            LinkLaw::Table { table_err, .. } => table_err + 1,
        }
    }
}
