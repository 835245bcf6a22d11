//! When nodes tick next, and the first of these times that is still to come.
ghost use Rattle.std.specs.Prelude.{◌≡◌, ◌+◌, ◌*◌, ◌<◌, ◌≤◌, ◌≤ℤ◌, ℕ, ℤ, List, length, slice_get, slice_set, true, IfSome, Some};
ghost use Rattle.wrp_sim.specs.NextTick.{AreFirsts, HasBlocks, IsFirstOf, IsNext, IsSoonest, NoneAt, NoneBefore};
ghost use Rattle.wrp_sim.specs.NextTick as next;

use std::marker::Model;
use wrp_base::Tau;

/// A time later than all others.
const NEVER: Tau = 1 << 126;

/// How many times a block has; there are as many blocks.
const BLOCK: usize = 8;

/// The first of some times.
#[derive(Clone, Copy)]
pub struct First {
    /// None of the times is before this one.
    pub best: Tau,
    /// Its place among them, if it is one of them; no earlier place has this time.
    pub place: usize,
}

/// The first of some times that are not before a moment.
#[derive(Clone, Copy)]
pub struct Soonest {
    /// The moment.
    pub since: Tau,
    /// The first of the times from the moment on.
    pub first: First,
}

/// When each node ticks next, in true time. The first of these times is kept, so that no search is needed to
/// know that no node ticks now, and which node ticks next. If there are many times, the first of each block of
/// eight is kept too: after a change only one block is searched.
#[derive(Drop)]
pub struct Ticks {
    times: Vec<Tau>,
    firsts: [First; 8],
    soonest: Soonest,
}

impl Model for Ticks {
    ghost use Rattle.std.specs.Prelude.{List, ℤ};

    ghost Value = { List ℤ };

    ghost view = { λ t. t.times.items };

    ghost use Rattle.wrp_sim.specs.NextTick.{IsKept};

    ghost invariant = { λ t. IsKept t.times.items t.firsts t.soonest };
}

// The sooner of the first of some times, and of one more at its place.
fn sooner_of(since: Tau, first: First, at: Tau, n: usize) -> First
    ensures { result ≡ next.sooner_of since first at n }
{
    if at < first.best && since <= at {
        First { best: at, place: n }
    } else {
        first
    }
}

// The earlier of the firsts of two lists of times.
fn earlier_of(first: First, other: First) -> First
    ensures { result ≡ next.earlier_of first other }
{
    if other.best < first.best {
        other
    } else {
        first
    }
}

fn time_at(times: &[Tau], n: usize) -> Tau
    requires { n < length times.now }
    ensures { slice_get times.now n ≡ Some result }
{
    times[n]
}

fn first_at(firsts: &[First], b: usize) -> First
    requires { b < length firsts.now }
    ensures { slice_get firsts.now b ≡ Some result }
{
    firsts[b]
}

// Where the places before an end end.
fn end_in(times: &[Tau], end: usize) -> usize
    ensures within { result ≤ length times.now }
    ensures most { result ≤ end }
    ensures whole { (n : ℕ) → n < end → n < length times.now → n < result }
{
    let count = times.len();
    if end < count { end } else { count }
}

// The first of the times at these places, not before a moment.
fn first_in(times: &[Tau], since: Tau, start: usize, end: usize) -> First
    requires { start ≤ end }
    ensures place { result.place ≤ end }
    ensures first { IsFirstOf since times.now start end result }
{
    let mut first = First {
        best: NEVER,
        place: start,
    };
    let last = end_in(times, end);
    for n in start..last {
        let at = time_at(times, n);
        first = sooner_of(since, first, at, n);
    }
    first
}

// The first of all times, not before a moment.
fn soonest_from(times: &[Tau], since: Tau) -> Soonest
    ensures since { result.since ≡ since }
    ensures soonest { IsSoonest times.now result }
{
    let first = first_in(times, since, 0, times.len());
    Soonest { since, first }
}

// The first of the times of a block, not before a moment.
fn first_of_block(times: &[Tau], since: Tau, b: usize) -> First
    requires { b < 8 }
    ensures place { result.place ≤ b * 8 + 8 }
    ensures first { IsFirstOf since times.now (b * 8) (b * 8 + 8) result }
{
    let start = b * BLOCK;
    first_in(times, since, start, start + BLOCK)
}

// The first of the times of each block, not before a moment.
#[cold]
#[inline(never)]
fn firsts_from(times: &[Tau], since: Tau) -> [First; 8]
    ensures { AreFirsts since times.now result }
{
    let mut firsts = [First {
        best: NEVER,
        place: 0,
    }; 8];
    for b in 0..BLOCK {
        firsts[b] = first_of_block(times, since, b);
    }
    firsts
}

// The first of all times, from the firsts of their blocks.
fn soonest_of(firsts: &[First], since: Tau) -> Soonest
    requires { length firsts.now ≡ 8 }
    ensures since { result.since ≡ since }
    ensures soonest { (ticks : List ℤ) → AreFirsts since ticks firsts.now → length ticks ≤ 64
        → IsSoonest ticks result }
{
    let mut first = First {
        best: NEVER,
        place: 0,
    };
    for b in 0..BLOCK {
        first = earlier_of(first, first_at(firsts, b));
    }
    Soonest { since, first }
}

// Whether there are enough times for blocks, and enough blocks for the times.
fn has_blocks(count: usize) -> bool
    ensures enough { result ≡ true → HasBlocks count }
    ensures all { HasBlocks count → result ≡ true }
{
    16 < count && count <= 64
}

// The later of two moments.
fn later_of(one: Tau, other: Tau) -> Tau
    ensures { one ≤ℤ result }
{
    if one < other { other } else { one }
}

// Whether the moment has come, and the first time has not.
fn is_ahead(it: Soonest, now: Tau) -> bool
    ensures { result ≡ next.is_ahead it now }
{
    it.since <= now && now < it.first.best
}

// Whether the moment has come, and the first time is not over.
fn is_left(it: Soonest, now: Tau) -> bool
    ensures { result ≡ next.is_left it now }
{
    it.since <= now && now <= it.first.best
}

// A place as the number of a node; 0 if no node has it.
fn as_node(place: usize) -> u8
    ensures { result ≤ place }
{
    if place < 256 { place as u8 } else { 0 }
}

// The first time with its place, if it is there.
fn at_place(times: &[Tau], it: Soonest) -> Option<(usize, Tau)>
    ensures { IfSome result (λ next. (next.1 ≡ it.first.best) × (slice_get times.now next.0 ≡ Some next.1)) }
{
    let place = it.first.place;
    if place < times.len() {
        let at = time_at(times, place);
        if at == it.first.best {
            Some((place, at))
        } else {
            None
        }
    } else {
        None
    }
}

impl Ticks {
    /// These times.
    pub fn of(times: Vec<Tau>) -> Ticks
        ensures { result ≡ times.items }
    {
        let soonest = soonest_from(times.as_slice(), 0);
        let firsts = firsts_from(times.as_slice(), 0);
        Ticks {
            times,
            firsts,
            soonest,
        }
    }

    /// When a node ticks next.
    pub fn at(&self, n: u8) -> Tau
        requires { n < length self.now }
        ensures { slice_get self.now n ≡ Some result }
    {
        self.times[usize::from(n)]
    }

    /// A node ticks next at this time. What is before `now` is over.
    pub fn set(&mut self, n: u8, time: Tau, now: Tau)
        requires { n < length self.old }
        ensures { self.new ≡ slice_set self.old n time }
    {
        if has_blocks(self.times.len()) {
            self.leave_past(now);
            self.set_in_block(usize::from(n), time, now);
        } else {
            self.times[usize::from(n)] = time;
            self.soonest = soonest_from(self.times.as_slice(), now);
        }
    }

    // The same if there are blocks: one of them is searched.
    fn set_in_block(&mut self, n: usize, time: Tau, now: Tau)
        requires place { n < length self.old }
        requires blocks { HasBlocks (length self.old) }
        ensures { self.new ≡ slice_set self.old n time }
    {
        let since = later_of(self.soonest.since, now);
        let block = n / BLOCK;
        self.times[n] = time;
        self.firsts[block] = first_of_block(self.times.as_slice(), since, block);
        self.soonest = soonest_of(&self.firsts, since);
    }

    // All blocks are searched again if the first time is over: a node that is down left it.
    fn leave_past(&mut self, now: Tau)
        ensures { self.new ≡ self.old }
    {
        if self.soonest.first.best < now {
            self.search_all(now);
        }
    }

    // All blocks are searched again. What is before `now` is over.
    #[cold]
    #[inline(never)]
    fn search_all(&mut self, now: Tau)
        ensures { self.new ≡ self.old }
    {
        self.firsts = firsts_from(self.times.as_slice(), now);
        self.soonest = soonest_from(self.times.as_slice(), now);
    }

    /// Whether it is known that no time is now.
    pub fn none_at(&self, now: Tau) -> bool
        ensures { result ≡ true → NoneAt now self.now }
    {
        is_ahead(self.soonest, now)
    }

    /// The least place that can have a time that is now, as far as it is known.
    pub fn place_at(&self, now: Tau) -> u8
        ensures { NoneBefore now self.now result }
    {
        if is_left(self.soonest, now) {
            as_node(self.soonest.first.place)
        } else {
            0
        }
    }

    /// The first tick time after now, in tau, with the number of its node. `None` if it is not known: there
    /// may still be such a time.
    pub fn next(&self, now: Tau) -> Option<(usize, Tau)>
        ensures { IfSome result (λ next. IsNext now self.now next.0 next.1) }
    {
        if is_ahead(self.soonest, now) {
            at_place(self.times.as_slice(), self.soonest)
        } else {
            None
        }
    }
}
