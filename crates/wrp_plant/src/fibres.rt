//! A fibre whose delays change, and by how much an event changes them.
ghost use Rattle.std.specs.Prelude.{◌≡◌, ◌≤◌, ◌&&◌, ◌+ℤ◌, ◌^◌, pos, true, unsigned_abs};
ghost use Rattle.std.specs.Ordering.{int_eq};
ghost use Rattle.wrp_course.specs.Moved.{move_of};
ghost use Rattle.wrp_plant.specs.Plant.{moved_fibre};
ghost use Rattle.wrp_plant.specs.Sizes.{IsDelay};

use wrp_base::sum;
use wrp_course::FibreState;

/// By how much the fibre's delay down changes, in tau.
pub fn down_at(moves: &[(i64, i64)], k: usize) -> i64
    ensures value { result ≡ (move_of moves.now k).0 }
    ensures size { unsigned_abs result ≤ 2 ^ 63 }
{
    match moves.get(k) {
        Some(by) => by.0,
        None => 0,
    }
}

/// By how much the fibre's delay up changes, in tau.
pub fn up_at(moves: &[(i64, i64)], k: usize) -> i64
    ensures value { result ≡ (move_of moves.now k).1 }
    ensures size { unsigned_abs result ≤ 2 ^ 63 }
{
    match moves.get(k) {
        Some(by) => by.1,
        None => 0,
    }
}

/// Whether a move is 0 both ways.
pub fn is_still(by: &(i64, i64)) -> bool
    ensures value { result ≡ (int_eq by.now.0 (pos 0) && int_eq by.now.1 (pos 0)) }
    ensures still { result ≡ true → by.now ≡ (pos 0, pos 0) }
{
    by.0 == 0 && by.1 == 0
}

/// Changes the delays of a fibre, down and up.
pub fn move_by(fibre: &mut FibreState, down: i64, up: i64)
    requires ms { IsDelay fibre.old.ms }
    requires sm { IsDelay fibre.old.sm }
    ensures { fibre.new ≡ record fibre.old { ms = fibre.old.ms +ℤ down; sm = fibre.old.sm +ℤ up } }
{
    fibre.ms = sum(fibre.ms, i128::from(down));
    fibre.sm = sum(fibre.sm, i128::from(up));
}

/// The fibre of link k after these moves.
pub fn moved(fibre: &FibreState, moves: &[(i64, i64)], k: u8) -> FibreState
    requires ms { unsigned_abs fibre.now.ms ≤ 2 ^ 98 }
    requires sm { unsigned_abs fibre.now.sm ≤ 2 ^ 98 }
    ensures value { result ≡ moved_fibre moves.now k fibre.now }
    ensures ms { IsDelay result.ms }
    ensures sm { IsDelay result.sm }
{
    let mut moved = *fibre;
    let place = usize::from(k);
    move_by(&mut moved, down_at(moves, place), up_at(moves, place));
    moved
}
