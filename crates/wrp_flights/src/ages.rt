//! The ages of frames, and the frames that leave the window.
ghost use Rattle.std.specs.Prelude.{◌≡◌, ℕ, ℤ, true, cond, Some};
ghost use Rattle.std.specs.BTreeMap.{is_at};
ghost use Rattle.std.specs.Ordering.{nat_cmp};
ghost use Rattle.wrp_flights.specs.declared.departed.Departed.{Departed as DepartedAt};
ghost use Rattle.wrp_flights.specs.Ages.{Listed, Owns, TakesOld, has, on_only};
ghost use Rattle.wrp_flights.specs.Departed.{is_young, kept_in};
ghost use Rattle.wrp_flights.specs.Frames.{at};

use crate::departed::Departed;
use std::collections::{BTreeMap, BTreeSet};
use wrp_base::Tau;

// Takes out the oldest, if it was put out before this time, and answers its number.
fn take_old(ages: &mut BTreeSet<(Tau, u32)>, horizon: Tau) -> Option<u32>
    ensures { TakesOld horizon ages.old.keys ages.new.keys result }
{
    let is_old = match ages.first() {
        Some(oldest) => oldest.0 < horizon,
        None => false,
    };
    if !is_old {
        return None;
    }
    match ages.pop_first() {
        Some(oldest) => Some(oldest.1),
        None => None,
    }
}

// A frame is forgotten, if it is on no fibre.
fn forget_landed(kept: &mut BTreeMap<u32, Departed>, number: u32)
    ensures { (k : ℕ) → at k kept.new.entries
        ≡ cond (is_at (nat_cmp number) k) (on_only (at k kept.old.entries)) (at k kept.old.entries) }
{
    let on = match kept.get(&number) {
        Some(frame) => frame.is_on(),
        None => true,
    };
    if !on {
        let _landed = kept.remove(&number);
    }
}

/// The frames that are on no fibre and were put out before this time are forgotten. No memory is taken.
pub fn expire(kept: &mut BTreeMap<u32, Departed>, ages: &mut BTreeSet<(Tau, u32)>, horizon: Tau)
    requires own { Owns kept.old.entries ages.old.keys }
    requires listed { Listed horizon kept.old.entries ages.old.keys }
    ensures kept { (k : ℕ) → at k kept.new.entries ≡ kept_in horizon (at k kept.old.entries) }
    ensures young { (k : ℕ) (d : DepartedAt) → at k kept.new.entries ≡ Some d → is_young horizon d ≡ true
        → has d.sent k ages.new.keys ≡ true }
    ensures fewer { (t : ℤ) (k : ℕ) → has t k ages.new.keys ≡ true → has t k ages.old.keys ≡ true }
{
    while let Some(number) = take_old(ages, horizon) {
        forget_landed(kept, number);
    }
}
