//! The places of a node's ports, by their numbers.
ghost use Rattle.std.specs.Prelude.{◌≤◌, length};
ghost use Rattle.wrp_node.specs.Index.{numbers_in, IsWhere, Indexes};

use crate::place::PortPlace;

/// For each number from 1 to 18, the place of the port with that number; None if no port has it.
pub type Index = [Option<u8>; 18];

/// The index of these ports.
pub fn index_of(places: &[PortPlace]) -> Index
    requires { length places.now ≤ 18 }
    ensures { Indexes result (numbers_in places.now) }
{
    let mut index = [None; 18];
    for number in 1u16..19 {
        index[usize::from(number) - 1] = look_for(number, places);
    }
    index
}

/// The place of the port with a number, searched for from the first port on; None if no port has it.
pub fn look_for(number: u16, places: &[PortPlace]) -> Option<u8>
    requires { length places.now ≤ 18 }
    ensures { IsWhere number (numbers_in places.now) result }
{
    for (at, place) in places.iter().enumerate() {
        if place.number == number {
            return Some(at as u8);
        }
    }
    None
}
