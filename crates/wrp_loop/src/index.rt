//! The frames that arrived, and which of them a datagram is.
ghost use Rattle.std.specs.Prelude.{◌≡◌, ◌++◌, ◌∷◌, [], OnOk};
ghost use Rattle.std.specs.Option.{is_none};
ghost use Rattle.wrp_loop.specs.Index.{Forgets, came_at, chosen, fits, greater, has_number, has_octets, lesser, no_choice, with_all, with_frame};
ghost use Rattle.wrp_course.specs.Views.{octets_at};
ghost use Rattle.wrp_world.specs.StandsFor.{Tells};

use std::alloc::{AllocError, Global};
use wrp_world::World;

/// A frame that arrived, or that was handed over.
#[derive(Clone, Copy, Debug, PartialEq, Eq)]
pub struct Came {
    /// Its number.
    pub number: u32,
    /// The number of the end that sent it.
    pub from: u32,
}

/// The frames that arrived, and those of them that were handed over. In both lists, some frames that are
/// no longer young may have been forgotten.
#[derive(Drop)]
pub struct Index {
    /// The frames that arrived.
    pub came: Vec<Came>,
    /// The frames that were handed over.
    pub handed: Vec<Came>,
}

// What was found so far: the least that was not handed over, and the greatest.
#[derive(Clone, Copy)]
pub struct Choice {
    least: Option<u32>,
    greatest: Option<u32>,
}

impl Choice {
    // Nothing was found yet.
    fn none() -> Choice
        ensures { result ≡ no_choice }
    {
        Choice {
            least: None,
            greatest: None,
        }
    }

    // With one more frame.
    fn with(self, fits: bool, handed: bool, number: u32) -> Choice
        ensures { result ≡ with_frame fits handed number self }
    {
        if !fits {
            return self;
        }
        let greatest = Some(greater(self.greatest, number));
        if handed {
            Choice {
                least: self.least,
                greatest,
            }
        } else {
            Choice {
                least: Some(lesser(self.least, number)),
                greatest,
            }
        }
    }

    // The least that was not handed over, or else the greatest.
    fn chosen(self) -> Option<u32>
        ensures { result ≡ chosen self }
    {
        match self.least {
            Some(number) => Some(number),
            None => self.greatest,
        }
    }
}

// The lesser of two numbers, the first of which may be missing.
fn lesser(found: Option<u32>, number: u32) -> u32
    ensures { result ≡ lesser found number }
{
    match found {
        Some(other) => other.min(number),
        None => number,
    }
}

// The greater of two.
fn greater(found: Option<u32>, number: u32) -> u32
    ensures { result ≡ greater found number }
{
    match found {
        Some(other) => other.max(number),
        None => number,
    }
}

// Whether these are the octets of a frame that is kept.
fn has_octets<F: Fn(i64) -> i64>(world: &World<F>, octets: &[u8], number: u32) -> bool
    ensures { Tells F.post (λ s w. has_octets s w octets.now number) world.now result }
{
    match world.frame(number) {
        Some(found) => found == octets,
        None => false,
    }
}

// Whether an entry belongs to a frame with these octets that was sent from this end.
fn is_such<F: Fn(i64) -> i64>(world: &World<F>, from: u32, octets: &[u8], came: Came) -> bool
    ensures { Tells F.post (λ s w. fits s w from octets.now came) world.now result }
{
    came.from == from && has_octets(world, octets, came.number)
}

// Whether an entry has this number.
fn is_listed(came: &[Came], number: u32) -> bool
    ensures { result ≡ has_number came.now number }
{
    for other in came {
        if other.number == number {
            return true;
        }
    }
    false
}

// Whether a frame is no longer kept.
fn is_old<F: Fn(i64) -> i64>(world: &World<F>, number: u32) -> bool
    ensures { Tells F.post (λ s w. is_none (octets_at s w number)) world.now result }
{
    world.frame(number).is_none()
}

// Forgets the first entries of a list, up to one of a frame that is kept.
fn forget_first<F: Fn(i64) -> i64>(world: &World<F>, came: &mut Vec<Came>)
    ensures { Forgets F.post world.now came.old.items came.new.items }
{
    'first: while !came.is_empty() {
        if !is_old(world, came[0].number) {
            return;
        }
        came.remove(0);
    }
}

impl Index {
    /// No frame has arrived yet.
    pub fn new(alloc: Global) -> Index
        ensures came { result.came.items ≡ [] }
        ensures handed { result.handed.items ≡ [] }
    {
        Index {
            came: Vec::new(alloc),
            handed: Vec::new(alloc),
        }
    }

    /// The frame that a datagram with these octets is, if it came from this end: the least that was
    /// not handed over yet, or else the greatest. None if no frame that arrived from there has
    /// these octets.
    pub fn find<F: Fn(i64) -> i64>(&self, world: &World<F>, from: u32, octets: &[u8]) -> Option<u32>
        ensures { Tells F.post (λ s w. chosen (with_all (fits s w from octets.now)
            (has_number self.now.handed.items) self.now.came.items no_choice)) world.now result }
    {
        let mut choice = Choice::none();
        for came in &self.came {
            let such = is_such(world, from, octets, *came);
            let handed = such && is_listed(&self.handed, came.number);
            choice = choice.with(such, handed, came.number);
        }
        choice.chosen()
    }

    /// Forgets frames that are no longer kept.
    pub fn forget_old<F: Fn(i64) -> i64>(&mut self, world: &World<F>)
        ensures came { Forgets F.post world.now self.old.came.items self.new.came.items }
        ensures handed { Forgets F.post world.now self.old.handed.items self.new.handed.items }
    {
        forget_first(world, &mut self.came);
        forget_first(world, &mut self.handed);
    }

    /// A frame arrived that was sent from this end. `AllocError` if memory runs out: the frames
    /// that were handed over are as before, and nothing is known of those that arrived.
    pub fn arrive(&mut self, number: u32, from: u32) -> Result<(), AllocError>
        ensures came { OnOk result (self.new.came.items
            ≡ self.old.came.items ++ came_at number from ∷ []) }
        ensures handed { self.new.handed ≡ self.old.handed }
    {
        self.came.push(Came { number, from })?;
        Ok(())
    }

    /// A frame is handed over that was sent from this end. `AllocError` if memory runs out: the
    /// frames that arrived are as before, and nothing is known of those that were handed over.
    pub fn hand(&mut self, number: u32, from: u32) -> Result<(), AllocError>
        ensures handed { OnOk result (self.new.handed.items
            ≡ self.old.handed.items ++ came_at number from ∷ []) }
        ensures came { self.new.came ≡ self.old.came }
    {
        self.handed.push(Came { number, from })?;
        Ok(())
    }
}
