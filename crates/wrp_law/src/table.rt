//! A law kept as a table of points, between which it is linear.
ghost use Rattle.std.specs.Prelude.{◌≡◌, ℤ, ℕ, length, ◌+◌, ◌^◌, ◌<◌, ◌≤◌, ◌≤ℤ◌, ◌<ℤ◌, ◌-ℤ◌, ◌*ℤ◌, pos, unsigned_abs};
ghost use Rattle.wrp_base.specs.Division.{floor_quotient};
ghost use Rattle.wrp_law.specs.Law.{IsNear};
ghost use Rattle.wrp_law.specs.Table.{IsTable, FitsPoint, IsOnTable, IsWithin, last_x, segment_value, table_value, TableNeverFalls};
ghost use Rattle.wrp_law.specs.declared.delay.LawKind.TheVariants.{Linear};

use wrp_base::{difference, floor_div, narrow, product, sum};

/// The value at `x` of a table of points `(x, y)`, each in tau: `y1 + (x - x1) (y2 - y1) / (x2 - x1)`,
/// the quotient rounded down, for the first segment of the table that has `x`. The table has 2 to 32
/// points, its x rise from `-2^30` at the least to `2^53` at the most, and its y, within `2^53` on
/// either side, never fall; `x` lies from its first point to its last. If each point is within an error
/// of the exact fraction, the value is within that and 1.
pub fn on_table(points: &[(i64, i64)], x: i64) -> i64
    requires table { IsTable points.now }
    requires x { IsOnTable points.now x }
    ensures value { result ≡ table_value points.now x }
    ensures near { (kappa : ℤ) (err : ℕ) → unsigned_abs kappa ≤ 2 ^ 38 → IsWithin kappa err points.now
        → IsNear (Linear kappa) (err + 1) x result }
{
    value_on(points, x)
}

// The value at x of the first segment that has x.
fn value_on(points: &[(i64, i64)], x: i64) -> i64
    requires table { IsTable points.now }
    requires x { IsOnTable points.now x }
    ensures { result ≡ table_value points.now x }
{
    let mut start = points[0];
    for &end in &points[1..] {
        if x <= end.0 {
            return on_segment(start, end, x);
        }
        start = end;
    }
    start.1
}

// The value at x of the segment between two points.
fn on_segment(start: (i64, i64), end: (i64, i64), x: i64) -> i64
    requires start { FitsPoint start }
    requires end { FitsPoint end }
    requires rises { start.0 <ℤ end.0 }
    requires stays { start.1 ≤ℤ end.1 }
    requires after { start.0 ≤ℤ x }
    requires before { x ≤ℤ end.0 }
    ensures { result ≡ segment_value start end x }
{
    let rise = risen(
        offset(start.0, x),
        offset(start.0, end.0),
        offset(start.1, end.1),
    );
    narrow(sum(i128::from(start.1), rise))
}

// How far a segment has risen at a place along it, rounded down.
fn risen(along: i128, whole: i128, rise: i128) -> i128
    requires along { pos 0 ≤ℤ along }
    requires end { along ≤ℤ whole }
    requires whole { pos 0 <ℤ whole }
    requires most { whole ≤ℤ pos (2 ^ 60) }
    requires stays { pos 0 ≤ℤ rise }
    requires rise { rise ≤ℤ pos (2 ^ 60) }
    ensures value { result ≡ floor_quotient (along *ℤ rise) whole }
    ensures size { unsigned_abs result ≤ unsigned_abs rise }
{
    floor_div(product(along, rise), whole)
}

// How far `to` is past `from`.
fn offset(from: i64, to: i64) -> i128
    ensures value { result ≡ to -ℤ from }
    ensures size { unsigned_abs result ≤ 2 ^ 64 }
{
    difference(i128::from(to), i128::from(from))
}

// The x of the last point.
pub fn last_x(points: &[(i64, i64)]) -> i64
    requires { 0 < length points.now }
    ensures { result ≡ last_x points.now }
{
    points[points.len() - 1].0
}

/// The value of a table never falls as x rises. The law is its contract; it computes nothing.
pub fn table_never_falls()
    ensures { TableNeverFalls }
{}
