ghost use Rattle.std.specs.Prelude.{◌≡◌, ◌≤◌, pos, ◌+ℤ◌, ◌-ℤ◌, ◌*ℤ◌, ◌<ℤ◌, ◌≤ℤ◌, unsigned_abs};
ghost use Rattle.fixed_math.specs.FixedPoint.{floor_quotient};
ghost use Rattle.std.specs.List.{list_all};
ghost use Rattle.std.specs.Ordering.{int_eq};
ghost use Rattle.delta_infer.specs.Inferred.{inferred_between, inferred_level, inferred_rising};
ghost use Rattle.delta_infer.specs.Inferred.{mean};
ghost use Rattle.delta_infer.specs.Parts.{is_between, is_still};

use crate::moved::{Move, MovedPoint};

/// The factor of a whole number in 16.16.
const ONE: i64 = 65536;

/// A delta times a distance.
fn product(delta: i16, distance: i64) -> i64
    requires { unsigned_abs distance ≤ 4294967295 }
    ensures value { result ≡ delta *ℤ distance }
    ensures small { unsigned_abs result ≤ 140737488322560 }
{
    i64::from(delta) * distance
}

/// Whether a quotient, in 16.16 and rounded down, is a whole delta.
fn is_quotient(numerator: i64, width: i64, delta: i16) -> bool
    requires positive { pos 0 <ℤ width }
    requires narrow { width ≤ℤ pos 4294967295 }
    requires small { unsigned_abs numerator ≤ 281474976645120 }
    ensures { result ≡ int_eq (floor_quotient (pos 65536 *ℤ numerator) width) (pos 65536 *ℤ delta) }
{
    let rest = numerator - product(delta, width);
    if rest < 0 {
        false
    } else if rest >= ONE {
        false
    } else {
        rest * ONE < width
    }
}

/// The sum of two deltas, each weighed by a coordinate's distance from the other one's coordinate.
fn weighed(low: Move, high: Move, at: i32) -> i64
    ensures value { result ≡ (low.delta *ℤ (high.at -ℤ at)) +ℤ (high.delta *ℤ (at -ℤ low.at)) }
    ensures small { unsigned_abs result ≤ 281474976645120 }
{
    product(low.delta, gap(at, high.at)) + product(high.delta, gap(low.at, at))
}

/// How far it is from one coordinate to another.
fn gap(from: i32, to: i32) -> i64
    ensures value { result ≡ to -ℤ from }
    ensures small { unsigned_abs result ≤ 4294967295 }
{
    i64::from(to) - i64::from(from)
}

/// Whether the mean of two deltas, weighed by the point's distances, is the point's own delta, as
/// it is rounded down in 16.16.
fn is_mean(low: Move, high: Move, point: Move) -> bool
    requires { low.at <ℤ high.at }
    ensures { result ≡ int_eq (mean low high point.at) (pos 65536 *ℤ point.delta) }
{
    is_quotient(
        weighed(low, high, point.at),
        gap(low.at, high.at),
        point.delta,
    )
}

/// Whether a delta, in 16.16, is another one.
fn is_same(value: i16, delta: i16) -> bool
    ensures whole { result ≡ int_eq value delta }
    ensures scaled { result ≡ int_eq (pos 65536 *ℤ value) (pos 65536 *ℤ delta) }
{
    value == delta
}

/// The same wherever the point's coordinate is, the other two in order.
fn is_inferred_rising(low: Move, high: Move, point: Move) -> bool
    requires { low.at <ℤ high.at }
    ensures { result ≡ int_eq (inferred_rising low high point.at) (pos 65536 *ℤ point.delta) }
{
    if point.at <= low.at {
        is_same(low.delta, point.delta)
    } else if high.at <= point.at {
        is_same(high.delta, point.delta)
    } else {
        is_mean(low, high, point)
    }
}

/// The same where the two others' coordinates are equal.
fn is_inferred_level(before: Move, after: Move, point: Move) -> bool
    ensures { result ≡ int_eq (inferred_level before after) (pos 65536 *ℤ point.delta) }
{
    if is_same(before.delta, after.delta) {
        is_same(before.delta, point.delta)
    } else {
        is_same(0, point.delta)
    }
}

/// Whether a point's delta on one axis is what is inferred between two others.
fn is_inferred(before: Move, after: Move, point: Move) -> bool
    ensures { result ≡ int_eq (inferred_between before after point.at) (pos 65536 *ℤ point.delta) }
{
    if before.at < after.at {
        is_inferred_rising(before, after, point)
    } else if after.at < before.at {
        is_inferred_rising(after, before, point)
    } else {
        is_inferred_level(before, after, point)
    }
}

/// Whether a point's delta is, in both coordinates, what is inferred between two others.
fn is_between(before: MovedPoint, after: MovedPoint, point: MovedPoint) -> bool
    ensures { result ≡ is_between before after point }
{
    is_inferred(before.in_x(), after.in_x(), point.in_x())
        && is_inferred(before.in_y(), after.in_y(), point.in_y())
}

/// Whether the delta of each of some points is what is inferred between two others.
pub fn are_between(before: MovedPoint, after: MovedPoint, points: &[MovedPoint]) -> bool
    ensures { result ≡ list_all (is_between before after) points.now }
{
    points.iter().all(|point| is_between(before, after, *point))
}

/// Whether a point doesn't move.
fn is_still(point: MovedPoint) -> bool
    ensures { result ≡ is_still point }
{
    is_same(0, point.dx) && is_same(0, point.dy)
}

/// Whether no point moves.
pub fn are_still(points: &[MovedPoint]) -> bool
    ensures { result ≡ list_all is_still points.now }
{
    points.iter().all(|point| is_still(*point))
}
