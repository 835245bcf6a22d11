//! Runs, and the ends of the delays that the runs of one kind measured.
ghost use Rattle.std.specs.Prelude.{◌≡◌, ◌^◌, ◌≤◌, ◌+ℤ◌, ◌-ℤ◌, unsigned_abs, All, IfSome};
ghost use Rattle.wrp_calib.specs.declared.run.RunKind.{RunKind};
ghost use Rattle.wrp_calib.specs.Run.{run_of};
ghost use Rattle.wrp_calib.specs.StandsFor.{run_ends, joined, HasSmallEnds};

use crate::span::Span;
use wrp_base::{difference, sum};

/// How a run was wired.
#[derive(Clone, Copy, Debug, PartialEq, Eq)]
pub enum RunKind {
    /// A reference run: over a patch cord.
    Ref,
    /// A straight run: from master to slave over strand x, and back over strand y.
    Straight,
    /// A swapped run: with the two strands exchanged.
    Swapped,
}

/// The greatest and the least of the delays that the runs of one kind measured: the lower end of an
/// interval is the greatest, the upper end the least.
#[derive(Clone, Copy, Debug)]
pub struct Ends {
    /// On the way from master to slave.
    pub down: Span,
    /// On the way back.
    pub up: Span,
}

impl Ends {
    /// The ends of one run, whose five numbers are T1 to T4 and SKEW.
    pub fn of_run(t: &[i64; 5]) -> Ends
        requires { All (λ n. unsigned_abs n ≤ 2 ^ 60) t.now }
        ensures value { (kind : RunKind) → result ≡ run_ends (run_of kind t.now) }
        ensures small { HasSmallEnds result }
    {
        let [t1, t2, t3, t4, skew] = *t;
        let down = down_delay(t1, t2, skew);
        let up = up_delay(t3, t4, skew);
        Ends {
            down: Span::at(down),
            up: Span::at(up),
        }
    }

    /// These ends joined with the ends of older runs.
    pub fn join(self, older: Option<Ends>) -> Ends
        requires new { HasSmallEnds self }
        requires old { IfSome older HasSmallEnds }
        ensures value { result ≡ joined self older }
        ensures small { HasSmallEnds result }
    {
        match older {
            Some(older) => Ends {
                down: self.down.meet(older.down),
                up: self.up.meet(older.up),
            },
            None => self,
        }
    }
}

// The measured delay from master to slave.
fn down_delay(t1: i64, t2: i64, skew: i64) -> i128
    requires t1 { unsigned_abs t1 ≤ 2 ^ 60 }
    requires t2 { unsigned_abs t2 ≤ 2 ^ 60 }
    requires skew { unsigned_abs skew ≤ 2 ^ 60 }
    ensures value { result ≡ (t2 -ℤ t1) -ℤ skew }
    ensures small { unsigned_abs result ≤ 2 ^ 62 }
{
    difference(difference(t2.into(), t1.into()), skew.into())
}

// The measured delay from slave to master.
fn up_delay(t3: i64, t4: i64, skew: i64) -> i128
    requires t3 { unsigned_abs t3 ≤ 2 ^ 60 }
    requires t4 { unsigned_abs t4 ≤ 2 ^ 60 }
    requires skew { unsigned_abs skew ≤ 2 ^ 60 }
    ensures value { result ≡ (t4 -ℤ t3) +ℤ skew }
    ensures small { unsigned_abs result ≤ 2 ^ 62 }
{
    sum(difference(t4.into(), t3.into()), skew.into())
}
