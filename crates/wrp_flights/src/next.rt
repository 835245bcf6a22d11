//! The frames on fibres, ordered by the times at which they are due.
ghost use Rattle.std.specs.Prelude.{◌≡◌, ◌<◌, ℕ, ℤ, List, length, true, false};
ghost use Rattle.wrp_flights.specs.declared.departed.Departed.{Departed as DepartedAt};
ghost use Rattle.wrp_flights.specs.Ages.{has};
ghost use Rattle.wrp_flights.specs.Frames.{on_at};
ghost use Rattle.wrp_flights.specs.Next.{Dues, FirstIs, IsFirst, Orders, TookLanded};

use crate::departed::Departed;
use crate::losing::is_on_at;
use std::collections::{BTreeMap, BTreeSet};
use wrp_base::Tau;

// Whether the first one belongs to a frame on a fibre; also true if there is none.
fn first_is_on(kept: &BTreeMap<u32, Departed>, dues: &BTreeSet<(Tau, u32)>) -> bool
    ensures first { FirstIs result kept.now.entries dues.now.keys }
    ensures some { result ≡ false → 0 < length dues.now.keys }
{
    match dues.first() {
        Some(first) => is_on_at(kept, first.1),
        None => true,
    }
}

// The first one, which belongs to a frame on no fibre, is taken out; answers its number.
fn take_first(kept: &BTreeMap<u32, Departed>, dues: &mut BTreeSet<(Tau, u32)>) -> Option<u32>
    requires first { FirstIs false kept.now.entries dues.old.keys }
    requires some { 0 < length dues.old.keys }
    ensures { TookLanded kept.now.entries dues.old.keys dues.new.keys }
{
    let _of = kept;
    match dues.pop_first() {
        Some(first) => Some(first.1),
        None => None,
    }
}

/// Frames on no fibre are taken out, until the first one is on a fibre or none is left. No memory is taken.
pub fn settle(kept: &BTreeMap<u32, Departed>, dues: &mut BTreeSet<(Tau, u32)>)
    requires { Dues kept.now.entries dues.old.keys }
    ensures dues { Dues kept.now.entries dues.new.keys }
    ensures first { FirstIs true kept.now.entries dues.new.keys }
    ensures fewer { (t : ℤ) (k : ℕ) → has t k dues.new.keys ≡ true → has t k dues.old.keys ≡ true }
{
    'landed: while !first_is_on(kept, dues) {
        let _landed = take_first(kept, dues);
    }
}

/// The frame on a fibre that is due first, with that time; the least number among equals. None if
/// and only if no frame is on a fibre.
pub fn next_due(dues: &BTreeSet<(Tau, u32)>) -> Option<(u32, Tau)>
    ensures { (sent : List ℤ) (kept : List (ℕ × DepartedAt)) → Orders sent kept dues.now.keys → IsFirst kept result }
{
    match dues.first() {
        Some(first) => Some((first.1, first.0)),
        None => None,
    }
}
