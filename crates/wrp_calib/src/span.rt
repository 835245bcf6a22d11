//! Intervals of whole numbers.
ghost use Rattle.std.specs.Prelude.{◌≡◌, ℕ};
ghost use Rattle.wrp_calib.specs.Span.{point, meet, is_empty, IsSmall};

/// An interval of whole numbers with both its ends. It is empty if `lo` is above `hi`.
#[derive(Clone, Copy, Debug, PartialEq, Eq)]
pub struct Span {
    /// The lower end.
    pub lo: i128,
    /// The upper end.
    pub hi: i128,
}

impl Span {
    // The interval of one number.
    pub(crate) fn at(n: i128) -> Span
        ensures { result ≡ point n }
    {
        Span { lo: n, hi: n }
    }

    // What two intervals have in common.
    pub(crate) fn meet(self, other: Span) -> Span
        ensures value { result ≡ meet self other }
        ensures small { (n : ℕ) → IsSmall n self → IsSmall n other → IsSmall n result }
    {
        Span {
            lo: self.lo.max(other.lo),
            hi: self.hi.min(other.hi),
        }
    }

    // Whether no number lies in it.
    pub(crate) fn is_empty(self) -> bool
        ensures { result ≡ is_empty self }
    {
        self.lo > self.hi
    }
}
