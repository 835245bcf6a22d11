//! The frames of a world that departed, found by their numbers.
ghost use Rattle.std.specs.Prelude.{◌≡◌, ◌<◌, ◌≤◌, ◌+◌, ◌==◌, ◌++◌, ◌∷◌, ◌+ℤ◌, ◌≤ℤ◌, ◌^◌, [], ℕ, ℤ, pos, length, true, if◌then◌else◌, IfSome, OnOk, OnErr, Some, option_map, unsigned_abs, count_by};
ghost use Rattle.std.specs.Option.{is_some};
ghost use Rattle.wrp_flights.specs.Departed.{is_on, turn_in};
ghost use Rattle.wrp_flights.specs.Frames.{Departs, Passes, Puts, Turned, at, numbers_from, sent_at};
ghost use Rattle.wrp_flights.specs.Listing.{Holds, Lists, Settled, entry_of};
ghost use Rattle.wrp_flights.specs.Losing.{arrives_by, lost_by, loses_link, loses_node};
ghost use Rattle.wrp_flights.specs.Next.{IsFirst};

use crate::ages::expire;
use crate::departed::{Departed, OnFibre, Reception};
use crate::losing::{Loss, land, lose};
use crate::next::{next_due, settle};
use crate::puts::{forget_old, keep_due, receive};
use std::alloc::{AllocError, Global};
use std::collections::{BTreeMap, BTreeSet};
use std::marker::Model;
use wrp_base::{Role, Tau, sum};
use wrp_network::LinkCfg;

/// The frames that departed, numbered from 1 in the order of their departures.
#[derive(Debug, Drop)]
pub struct Frames {
    // The true time from which on a frame that was put out is young.
    horizon: Tau,
    // When each was put out.
    sent: Vec<Tau>,
    // The frames that are on a fibre or young, by their numbers.
    kept: BTreeMap<u32, Departed>,
    // When the young ones were put out, with their numbers.
    ages: BTreeSet<(Tau, u32)>,
    // The frames on a fibre, each with its link and the end that sent it.
    on_fibre: Vec<OnFibre>,
    // When these frames are due, with their numbers; a frame that is no longer on a fibre stays until it
    // is the first.
    dues: BTreeSet<(Tau, u32)>,
}

impl Model for Frames {
    ghost use Rattle.wrp_flights.specs.Frames.{FramesAt};

    ghost Value = { FramesAt };

    ghost use Rattle.wrp_flights.specs.Listing.{Holds};

    ghost view = { λ f. record { horizon = f.horizon; sent = f.sent.items; kept = f.kept.entries } };

    ghost invariant = { λ f. Holds f.horizon f.sent.items f.kept.entries f.ages.keys f.on_fibre.items f.dues.keys };
}

impl Frames {
    /// No frame departed.
    pub fn new(alloc: Global, horizon: Tau) -> Frames
        ensures { result ≡ record { horizon = horizon; sent = []; kept = [] } }
    {
        Frames {
            horizon,
            sent: Vec::new(alloc),
            kept: BTreeMap::new(alloc),
            ages: BTreeSet::new(alloc),
            on_fibre: Vec::new(alloc),
            dues: BTreeSet::new(alloc),
        }
    }

    /// How many departed. This is the last number that was given.
    pub fn count(&self) -> u32
        requires { length self.now.sent < 2 ^ 32 }
        ensures { result ≡ length self.now.sent }
    {
        self.sent.len() as u32
    }

    /// When the frame with this number was put out. `None` if and only if the number was not given.
    pub fn sent_at(&self, number: u32) -> Option<Tau>
        ensures { result ≡ sent_at number self.now.sent }
    {
        if number == 0 {
            None
        } else {
            self.sent.get(number as usize - 1).copied()
        }
    }

    /// The frame with this number. `None` if and only if the number was not given, or the frame is on no
    /// fibre and was put out before the horizon.
    pub fn find(&self, number: u32) -> Option<&Departed>
        ensures { option_map (λ d. d.now) result ≡ at number self.now.kept }
    {
        self.kept.get(&number)
    }

    /// How many of the numbers that were given have a frame that is kept.
    pub fn kept(&self) -> usize
        ensures { result ≡ count_by (λ k. is_some (at k self.now.kept)) (numbers_from (length self.now.sent) 1) }
    {
        self.kept.len()
    }

    /// The frame on a fibre that is due first, with that time; the least number among equals. None
    /// if and only if no frame is on a fibre.
    pub fn next_due(&self) -> Option<(u32, Tau)>
        ensures { IsFirst self.now.kept result }
    {
        next_due(&self.dues)
    }

    /// Time passes, and the horizon with it: the frames that are on no fibre and were put out before it
    /// are forgotten. No memory is taken.
    pub fn pass(&mut self, dt: i64)
        requires later { pos 0 ≤ℤ dt }
        requires size { unsigned_abs self.old.horizon ≤ 2 ^ 100 }
        ensures { Passes (self.old.horizon +ℤ dt) self.old self.new }
    {
        let horizon = sum(self.horizon, i128::from(dt));
        self.expire_at(horizon);
    }

    fn expire_at(&mut self, horizon: Tau)
        requires { self.old.horizon ≤ℤ horizon }
        ensures { Passes horizon self.old self.new }
    {
        expire(&mut self.kept, &mut self.ages, horizon);
        self.horizon = horizon;
    }

    /// What is on the fibre of a link is lost.
    pub fn lose_link(&mut self, k: u8)
        ensures { Turned (loses_link k) self.old self.new }
    {
        self.lose(Loss::Link(k), &[]);
    }

    /// What is on the fibres of a node's links is lost.
    pub fn lose_node(&mut self, n: u8, links: &[LinkCfg])
        ensures { Turned (loses_node n links.now) self.old self.new }
    {
        self.lose(Loss::Node(n), links);
    }

    // These frames are lost.
    fn lose(&mut self, loss: Loss, links: &[LinkCfg])
        ensures { Turned (lost_by links.now loss) self.old self.new }
    {
        lose(
            &mut self.kept,
            &mut self.on_fibre,
            loss,
            links,
            self.horizon,
        );
        settle(&self.kept, &mut self.dues);
    }

    /// A frame that this end of a link sent arrives, and the older ones from there that are on the fibre
    /// are lost.
    pub fn arrive(&mut self, number: u32, link: u8, by: Role, reception: Reception)
        ensures { Turned (arrives_by number reception link by) self.old self.new }
    {
        arrive(
            &mut self.kept,
            &mut self.on_fibre,
            number,
            (link, by),
            reception,
            self.horizon,
        );
        settle(&self.kept, &mut self.dues);
    }

    /// A frame that departs gets the next number, if there is one. All memory is taken before
    /// anything changes: `AllocError` if it could not be had, and then nothing changes.
    pub fn push(&mut self, frame: Option<Departed>) -> Result<(), AllocError>
        requires on { IfSome frame (λ d. is_on d ≡ true) }
        requires few { length self.old.sent + 1 < 2 ^ 32 }
        ensures ok { OnOk result (Departs frame self.old self.new) }
        ensures err { OnErr result (self.new ≡ self.old) }
    {
        match frame {
            Some(frame) => self.push_one(frame),
            None => Ok(()),
        }
    }

    fn push_one(&mut self, frame: Departed) -> Result<(), AllocError>
        requires on { is_on frame ≡ true }
        requires few { length self.old.sent + 1 < 2 ^ 32 }
        ensures ok { OnOk result (Puts frame self.old self.new) }
        ensures err { OnErr result (self.new ≡ self.old) }
    {
        put(
            &mut self.sent,
            &mut self.kept,
            &mut self.ages,
            &mut self.on_fibre,
            &mut self.dues,
            frame,
        )
    }
}

// A frame arrives; this works on the parts.
fn arrive(
    kept: &mut BTreeMap<u32, Departed>,
    listed: &mut Vec<OnFibre>,
    number: u32,
    from: (u8, Role),
    reception: Reception,
    horizon: Tau,
)
    requires { Settled horizon kept.old.entries listed.old.items }
    ensures kept { (k : ℕ) → at k kept.new.entries
        ≡ turn_in horizon (arrives_by number reception from.0 from.1 k) (at k kept.old.entries) }
    ensures lists { Lists kept.new.entries listed.new.items }
{
    receive(kept, number, reception);
    forget_old(kept, number, horizon);
    land(listed, number);
    lose(
        kept,
        listed,
        Loss::Older(number, from.0, from.1),
        &[],
        horizon,
    );
}

// A frame with this number, as it is listed.
fn entry_of(number: u32, frame: &Departed) -> OnFibre
    ensures { result ≡ entry_of number frame.now }
{
    OnFibre {
        number,
        link: frame.link,
        by: frame.by,
    }
}

// A frame departs; this works on the parts.
fn put(
    sent: &mut Vec<Tau>,
    kept: &mut BTreeMap<u32, Departed>,
    ages: &mut BTreeSet<(Tau, u32)>,
    listed: &mut Vec<OnFibre>,
    dues: &mut BTreeSet<(Tau, u32)>,
    frame: Departed,
) -> Result<(), AllocError>
    requires few { length sent.old.items + 1 < 2 ^ 32 }
    requires on { is_on frame ≡ true }
    ensures holds { (h : ℤ)
        → Holds h sent.old.items kept.old.entries ages.old.keys listed.old.items dues.old.keys
        → Holds h sent.new.items kept.new.entries ages.new.keys listed.new.items dues.new.keys }
    ensures sent { OnOk result (sent.new.items ≡ sent.old.items ++ frame.sent ∷ []) }
    ensures kept { OnOk result ((k : ℕ) → at k kept.new.entries
        ≡ (if k == (length sent.old.items + 1) then Some frame else at k kept.old.entries)) }
    ensures same { OnErr result ((sent.new.items ≡ sent.old.items) × (kept.new.entries ≡ kept.old.entries)) }
{
    let number = sent.len() as u32 + 1;
    let time = frame.sent;
    let entry = entry_of(number, &frame);
    sent.reserve(1)?;
    listed.reserve(1)?;
    keep_due(kept, ages, dues, number, frame)?;
    sent.push_reserved(time);
    listed.push_reserved(entry);
    Ok(())
}
