//! `table`: the input is the points `X Y` of a table, a line `---`, and places x; the value at each place is expected.
ghost use Rattle.std.specs.Prelude.{◌≤ℤ◌, IsTrue};
ghost use Rattle.std.specs.List.{AllByRecursion};
ghost use Rattle.wrp_law.specs.Table.{FitsPoint, Rises, last_x};

use crate::words::{Words, halves_of, number_of};
use std::alloc::Global;
use wrp_law::on_table;
use wrp_suite::{Answer, Case, Fault};

// Whether a point is in the range of a table.
fn fits(point: (i64, i64)) -> bool
    ensures { IsTrue result → FitsPoint point }
{
    -(1 << 30) <= point.0 && point.0 <= 1 << 53 && point.1.unsigned_abs() <= 1 << 53
}

// Whether the points are points of a table, each past the one before it and not below it, and x is not past the last.
fn rise_to(points: &[(i64, i64)], x: i64) -> bool
    ensures fit { IsTrue result → AllByRecursion FitsPoint points.now }
    ensures rise { IsTrue result → Rises points.now }
    ensures last { IsTrue result → x ≤ℤ last_x points.now }
{
    match points {
        [] => false,
        [only] => fits(*only) && x <= only.0,
        [start, rest @ ..] => match rest {
            [end, ..] => { fits(*start) && start.0 < end.0 && start.1 <= end.1 && rise_to(rest, x) }
            [] => false,
        },
    }
}

// The points of lines.
fn points_of(alloc: Global, lines: &str) -> Result<Vec<(i64, i64)>, Fault> {
    let mut points = Vec::new(alloc);
    for line in lines.split_terminator('\n') {
        let mut words = Words::of(line);
        let point = words.pair::<i64, i64>()?;
        words.end()?;
        points.push(point)?;
    }
    Ok(points)
}

// The value at the place that a line gives.
fn value_at(points: &[(i64, i64)], line: &str) -> Result<i64, Fault> {
    let x = number_of::<i64>(line)?;
    if points.len() < 2 || 32 < points.len() {
        return Err(Fault::Condition);
    }
    if x < points[0].0 || !rise_to(points, x) {
        return Err(Fault::Condition);
    }
    Ok(on_table(points, x))
}

// Appends the values at the places of lines.
fn tell(text: &mut String, points: &[(i64, i64)], places: &str) -> Result<(), Fault> {
    for line in places.split_terminator('\n') {
        let value = value_at(points, line)?;
        write!(text, "{value}\n")?;
    }
    Ok(())
}

/// What `on_table` answers.
pub fn answer(alloc: Global, case: &Case) -> Result<Answer, Fault> {
    let (lines, places) = halves_of(case)?;
    let points = points_of(alloc, lines)?;
    let mut text = String::new(alloc);
    tell(&mut text, &points, places)?;
    Ok(Answer::of(0, text))
}
