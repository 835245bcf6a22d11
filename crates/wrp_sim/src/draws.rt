//! Numbers that are drawn: splitmix64.
ghost use Rattle.std.specs.Prelude.{◌≡◌, ◌≤◌, ◌≤ℤ◌, ◌^◌, unsigned_abs};
ghost use Rattle.wrp_sim.specs.Draws as spec;

use std::marker::Model;
use wrp_base::{difference, sum};

/// What a draw adds to the state: `2^64` divided by the golden ratio.
const STEP: u64 = 0x9e37_79b9_7f4a_7c15;

/// A generator of numbers: each call draws the next one.
#[derive(Drop)]
pub struct Draws {
    state: u64,
}

impl Model for Draws {
    ghost use Rattle.std.specs.Prelude.{ℕ};

    ghost Value = { ℕ };

    ghost view = { λ d. d.state };
}

// A number, with itself shifted down by so many bits mixed into it.
fn folded(bits: u32, x: u64) -> u64
    requires { bits ≤ 63 }
    ensures { result ≡ spec.folded bits x }
{
    x ^ (x >> bits)
}

// The number that is drawn when this state is reached.
fn mixed(state: u64) -> u64
    ensures { result ≡ spec.mixed state }
{
    let first = folded(30, state).wrapping_mul(0xbf58_476d_1ce4_e5b9);
    let second = folded(27, first).wrapping_mul(0x94d0_49bb_1331_11eb);
    folded(31, second)
}

impl Draws {
    /// A generator that begins at this number.
    pub fn new(seed: u64) -> Draws
        ensures { result ≡ seed }
    {
        Draws { state: seed }
    }

    /// Draws a number of 64 bits.
    pub fn draw(&mut self) -> u64
        ensures value { result ≡ spec.drawn self.old }
        ensures state { self.new ≡ spec.next_state self.old }
    {
        self.state = self.state.wrapping_add(STEP);
        mixed(self.state)
    }

    /// Draws a number from `a` to `b`.
    pub fn draw_from(&mut self, a: i128, b: i128) -> i128
        requires order { a ≤ℤ b }
        requires a { unsigned_abs a ≤ 2 ^ 62 }
        requires b { unsigned_abs b ≤ 2 ^ 62 }
        ensures value { result ≡ spec.drawn_from a b self.old }
        ensures size { unsigned_abs result ≤ 2 ^ 65 }
        ensures state { self.new ≡ spec.next_state self.old }
    {
        let width = width(a, b);
        let past = u128::from(self.draw()) % width;
        sum(a, past as i128)
    }
}

// How many numbers there are from `a` to `b`.
fn width(a: i128, b: i128) -> u128
    requires order { a ≤ℤ b }
    requires a { unsigned_abs a ≤ 2 ^ 62 }
    requires b { unsigned_abs b ≤ 2 ^ 62 }
    ensures value { result ≡ spec.count_from a b }
    ensures some { 1 ≤ result }
{
    sum(difference(b, a), 1).unsigned_abs()
}

/// The first numbers from one seed are the known first numbers of splitmix64.
pub fn known_numbers_are_drawn()
    ensures { spec.KnownNumbers }
{}
