//! The points of a stored delay law, as an array of a text gives them.
ghost use Rattle.std.specs.Prelude.{◌≡◌, ◌≤◌, ◌&&◌, ◌^◌, ℕ, ℤ, unsigned_abs, Some, None, map, option_map, IsTrue, length};
ghost use Rattle.std.specs.List.{list_all};
ghost use Rattle.toml.specs.View.{view};
ghost use Rattle.wrp_caldb.specs.Points.{point_of, two_numbers, points_of, few_points, stored_points, has_bounds, is_step, rises_from, rises, distance_from, is_near, is_sound, is_table};

use crate::value::array_of;
use toml::Value;
use wrp_base::{difference, product, sum};
use wrp_caldb::{Linear, Points};

// The point that two whole numbers give.
fn two_numbers(values: &[Value]) -> Option<(i64, i64)>
    ensures { result ≡ two_numbers (map view values.now) }
{
    match values {
        [x, y] => match (x.as_integer(), y.as_integer()) {
            (Some(x), Some(y)) => Some((x, y)),
            _ => None,
        },
        _ => None,
    }
}

// The point that an array of two whole numbers gives.
fn point_of(value: &Value) -> Option<(i64, i64)>
    ensures { result ≡ point_of (view value.now) }
{
    match array_of(value) {
        Some(values) => two_numbers(values),
        None => None,
    }
}

// The points of at most 32 values, if each is one.
fn points_of(values: &[Value]) -> Option<Points>
    requires { length values.now ≤ 32 }
    ensures { option_map (λ ps. ps.items) result ≡ points_of (map view values.now) }
{
    let mut points = Points::new();
    for value in values {
        match point_of(value) {
            Some(point) => points.push(point),
            None => return None,
        }
    }
    Some(points)
}

// The points of 2 to 32 values, if each is one.
fn few_points(values: &[Value]) -> Option<Points>
    ensures { option_map (λ ps. ps.items) result ≡ few_points (map view values.now) }
{
    if 2 <= values.len() && values.len() <= 32 {
        points_of(values)
    } else {
        None
    }
}

/// The points of an array of 2 to 32 arrays of two whole numbers; `None` if the value is anything
/// else.
pub fn stored_points(value: &Value) -> Option<Points>
    ensures { option_map (λ ps. ps.items) result ≡ stored_points (view value.now) }
{
    match array_of(value) {
        Some(values) => few_points(values),
        None => None,
    }
}

// x from -2^30 to 2^53, and y from -2^53 to 2^53.
fn has_bounds(point: (i64, i64)) -> bool
    ensures value { result ≡ has_bounds point }
    ensures x { IsTrue result → unsigned_abs point.0 ≤ 2 ^ 53 }
    ensures y { IsTrue result → unsigned_abs point.1 ≤ 2 ^ 53 }
{
    let (x, y) = point;
    (-1_073_741_824 <= x && x <= 9_007_199_254_740_992)
        && (-9_007_199_254_740_992 <= y && y <= 9_007_199_254_740_992)
}

// Whether x rises strictly and y does not fall, from a point to the next.
fn is_step(point: (i64, i64), next: (i64, i64)) -> bool
    ensures { result ≡ is_step point next }
{
    point.0 < next.0 && point.1 <= next.1
}

// Whether x rises strictly and y does not fall, from a point on.
fn rises_from(first: (i64, i64), rest: &[(i64, i64)]) -> bool
    ensures { result ≡ rises_from first rest.now }
{
    let mut before = first;
    for point in rest {
        if !is_step(before, *point) {
            return false;
        }
        before = *point;
    }
    true
}

fn rises(points: &[(i64, i64)]) -> bool
    ensures { result ≡ rises points.now }
{
    match points {
        [first, rest @ ..] => rises_from(*first, rest),
        [] => true,
    }
}

// How far 2^40 y is from (2^39 + kappa) x.
fn distance_from(law: Linear, point: (i64, i64)) -> u128
    requires x { unsigned_abs point.0 ≤ 2 ^ 53 }
    requires y { unsigned_abs point.1 ≤ 2 ^ 53 }
    ensures { result ≡ distance_from law point }
{
    let stored = product(1 << 40, i128::from(point.1));
    let exact = product(sum(1 << 39, i128::from(law.kappa)), i128::from(point.0));
    difference(stored, exact).unsigned_abs()
}

// Whether a point is within the law's error of it, if there is a law.
fn is_near(law: Option<Linear>, point: (i64, i64)) -> bool
    requires x { unsigned_abs point.0 ≤ 2 ^ 53 }
    requires y { unsigned_abs point.1 ≤ 2 ^ 53 }
    ensures { result ≡ is_near law point }
{
    match law {
        Some(law) => distance_from(law, point) <= (1 << 40) * u128::from(law.err),
        None => true,
    }
}

// Whether a point is within the bounds and near the law.
fn is_sound(law: Option<Linear>, point: (i64, i64)) -> bool
    ensures { result ≡ is_sound law point }
{
    has_bounds(point) && is_near(law, point)
}

fn all_sound(law: Option<Linear>, points: &[(i64, i64)]) -> bool
    ensures { result ≡ list_all (is_sound law) points.now }
{
    points.iter().all(|point| is_sound(law, *point))
}

/// Whether a value is an array of 2 to 32 points that are within the bounds, rise, and are each
/// within the law's `err` of the law, if there is one.
pub fn is_table_of_points(law: Option<Linear>, value: &Value) -> bool
    ensures { result ≡ is_table law (stored_points (view value.now)) }
{
    match stored_points(value) {
        Some(points) => all_sound(law, points.as_slice()) && rises(points.as_slice()),
        None => false,
    }
}
