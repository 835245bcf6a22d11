//! One inequality: its number, its sides, and how they have to compare.
ghost use Rattle.std.specs.Prelude.{◌≡◌, ◌^◌, ◌≤◌, List, find, not};

use wrp_base::Tau;

/// The least numbered inequality that a network breaks, at the first node in file order, and both its
/// sides: in tau, but for the fifth in ticks and for the seventh in counts.
#[derive(Clone, Copy, Debug, Default, PartialEq, Eq)]
pub struct Clash {
    /// The inequality's number: 1 to 9.
    pub number: u8,
    /// Its left side.
    pub left: Tau,
    /// Its right side.
    pub right: Tau,
}

/// How the left side of an inequality has to compare with the right one.
#[derive(Clone, Copy)]
pub enum Order {
    /// Below it.
    Less,
    /// Not above it.
    AtMost,
    /// Above it.
    More,
}

/// One inequality.
#[derive(Clone, Copy)]
pub struct Inequality {
    /// Its number: 1 to 9.
    pub number: u8,
    /// Its left side.
    pub left: Tau,
    /// How the left side has to lie to the right one.
    pub order: Order,
    /// Its right side.
    pub right: Tau,
}

impl Inequality {
    ghost use Rattle.std.specs.Prelude.{◌≡◌, ◌^◌, ◌≤◌, not};
    ghost use Rattle.wrp_bounds.specs.Inequalities.{inequality, is_broken, clash_of};

    // An inequality of sides without sign.
    pub fn new(number: u8, left: u128, order: Order, right: u128) -> Inequality
        requires left { left ≤ 2 ^ 120 }
        requires right { right ≤ 2 ^ 120 }
        ensures { result ≡ inequality number left order right }
    {
        Inequality {
            number,
            left: left as i128,
            order,
            right: right as i128,
        }
    }

    // Whether its sides do not lie as they have to.
    pub fn is_broken(&self) -> bool
        ensures { result ≡ is_broken self.now }
    {
        match self.order {
            Order::Less => self.left >= self.right,
            Order::AtMost => self.left > self.right,
            Order::More => self.left <= self.right,
        }
    }

    // What is reported of it if it is broken.
    pub fn clash(&self) -> Clash
        ensures { result ≡ clash_of self.now }
    {
        Clash {
            number: self.number,
            left: self.left,
            right: self.right,
        }
    }
}
