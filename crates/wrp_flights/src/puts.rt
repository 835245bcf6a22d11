//! A frame is put into the window, and frames that change there.
ghost use Rattle.std.specs.Prelude.{◌≡◌, ℕ, cond, Some, option_map, OnErr, OnOk};
ghost use Rattle.std.specs.BTreeMap.{is_at};
ghost use Rattle.std.specs.Ordering.{nat_cmp};
ghost use Rattle.wrp_flights.specs.Ages.{Adds, AddsNone};
ghost use Rattle.wrp_flights.specs.Departed.{kept_in, receive};
ghost use Rattle.wrp_flights.specs.Frames.{at};

use crate::departed::{Departed, Reception};
use std::alloc::AllocError;
use std::collections::{BTreeMap, BTreeSet};
use wrp_base::Tau;

/// A frame that was put out at this time is kept under a number, and listed by its age.
/// `AllocError` if memory for one of the two could not be had: then the frames are as before, and
/// the list of ages has no more than before.
pub fn keep(
    kept: &mut BTreeMap<u32, Departed>,
    ages: &mut BTreeSet<(Tau, u32)>,
    time: Tau,
    number: u32,
    frame: Departed,
) -> Result<(), AllocError>
    ensures kept { OnOk result ((k : ℕ) → at k kept.new.entries
        ≡ cond (is_at (nat_cmp number) k) (Some frame) (at k kept.old.entries)) }
    ensures ages { OnOk result (Adds time number ages.old.keys ages.new.keys) }
    ensures err { OnErr result (kept.new.entries ≡ kept.old.entries) }
    ensures old_ages { OnErr result (AddsNone time number ages.old.keys ages.new.keys) }
{
    ages.insert((time, number))?;
    match kept.insert(number, frame) {
        Ok(_none) => Ok(()),
        Err(_pair) => {
            let _taken = ages.remove(&(time, number));
            Err(AllocError)
        }
    }
}

/// The same for a frame that is also listed by the time at which it is due. `AllocError` if memory
/// for one of the three could not be had: then the frames are as before, and neither list has more
/// than before.
pub fn keep_due(
    kept: &mut BTreeMap<u32, Departed>,
    ages: &mut BTreeSet<(Tau, u32)>,
    dues: &mut BTreeSet<(Tau, u32)>,
    number: u32,
    frame: Departed,
) -> Result<(), AllocError>
    ensures kept { OnOk result ((k : ℕ) → at k kept.new.entries
        ≡ cond (is_at (nat_cmp number) k) (Some frame) (at k kept.old.entries)) }
    ensures ages { OnOk result (Adds frame.sent number ages.old.keys ages.new.keys) }
    ensures dues { OnOk result (Adds frame.due number dues.old.keys dues.new.keys) }
    ensures err { OnErr result (kept.new.entries ≡ kept.old.entries) }
    ensures old_ages { OnErr result (AddsNone frame.sent number ages.old.keys ages.new.keys) }
    ensures old_dues { OnErr result (AddsNone frame.due number dues.old.keys dues.new.keys) }
{
    let time = frame.sent;
    let due = frame.due;
    dues.insert((due, number))?;
    match keep(kept, ages, time, number, frame) {
        Ok(()) => Ok(()),
        Err(fault) => {
            let _taken = dues.remove(&(due, number));
            Err(fault)
        }
    }
}

/// A frame arrives.
pub fn receive(kept: &mut BTreeMap<u32, Departed>, number: u32, reception: Reception)
    ensures { (k : ℕ) → at k kept.new.entries
        ≡ cond (is_at (nat_cmp number) k) (option_map (receive reception) (at k kept.old.entries))
        (at k kept.old.entries) }
{
    if let Some(frame) = kept.get_mut(&number) {
        frame.arrival = Some(reception);
    }
}

/// A frame is forgotten, if it is on no fibre and was put out before this time.
pub fn forget_old(kept: &mut BTreeMap<u32, Departed>, number: u32, horizon: Tau)
    ensures { (k : ℕ) → at k kept.new.entries
        ≡ cond (is_at (nat_cmp number) k) (kept_in horizon (at k kept.old.entries)) (at k kept.old.entries) }
{
    let stays = match kept.get(&number) {
        Some(frame) => frame.is_kept(horizon),
        None => true,
    };
    if !stays {
        let _old = kept.remove(&number);
    }
}
