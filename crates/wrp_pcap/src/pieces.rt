//! The octets of an input, taken in pieces from a source, that are not passed yet.
ghost use Rattle.std.specs.Prelude.{◌≡◌, ◌≤◌, [], length, drop};
ghost use Rattle.wrp_io.specs.Faults.{Rose};
ghost use Rattle.wrp_pcap.specs.Inspecting.{Refills};

use std::alloc::Global;
use std::marker::Model;
use wrp_io::Source;

// How many octets are asked for at a time.
const PIECE: usize = 65_536;

/// What asking for a piece gives.
#[derive(Clone, Copy)]
pub(crate) enum Refilled {
    /// A piece is held after what was held.
    Piece,
    /// The input ended.
    End,
    /// The source failed.
    Failed,
    /// Memory ran out.
    Memory,
}

/// The octets that were taken and are not passed yet.
#[derive(Drop)]
pub(crate) struct Pieces {
    piece: [u8; PIECE],
    octets: Vec<u8>,
    at: usize,
}

impl Model for Pieces {
    ghost use Rattle.std.specs.Prelude.{ℕ, List, ◌≤◌, drop, length};

    ghost Value = { List ℕ };

    ghost view = { λ p. drop p.at p.octets.items };

    ghost invariant = { λ p. p.at ≤ length p.octets.items };
}

impl Pieces {
    /// Nothing is taken yet.
    pub fn new(alloc: Global) -> Pieces
        ensures { result ≡ [] }
    {
        Pieces {
            piece: [0; PIECE],
            octets: Vec::new(alloc),
            at: 0,
        }
    }

    /// What is held.
    pub fn held(&self) -> &[u8]
        ensures { result.now ≡ self.now }
    {
        &self.octets[self.at..]
    }

    /// Passes this many octets of what is held.
    pub fn pass(&mut self, size: usize)
        requires { size ≤ length self.old }
        ensures { self.new ≡ drop size self.old }
    {
        self.at += size;
    }

    // Moves what is held to the front.
    fn settle(&mut self)
        ensures { self.new ≡ self.old }
    {
        let left = self.octets.len() - self.at;
        self.octets.copy_within(self.at.., 0);
        self.octets.truncate(left);
        self.at = 0;
    }

    /// Takes the next piece from the source.
    pub fn refill<S: Source>(&mut self, source: &mut S) -> Refilled
        ensures taken { Refills (S.left source.old) (S.left source.new) self.old self.new result }
        ensures rose { result ≡ Refilled.Failed → Rose (S.faults source.old) (S.faults source.new) }
        ensures kept { (result ≡ Refilled.Failed → ⊥)
            → S.faults source.new ≡ S.faults source.old }
    {
        self.settle();
        match source.read(&mut self.piece) {
            Err(_) => Refilled::Failed,
            Ok(0) => Refilled::End,
            Ok(size) => match self.octets.extend_from_slice(&self.piece[..size]) {
                Ok(()) => Refilled::Piece,
                Err(_) => Refilled::Memory,
            },
        }
    }
}
