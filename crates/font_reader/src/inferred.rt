ghost use Rattle.std.specs.Prelude.{◌≡◌, ◌≤◌, ◌<ℤ◌, ◌≤ℤ◌, ◌-ℤ◌, ◌*ℤ◌, ◌+ℤ◌, pos, unsigned_abs};
ghost use Rattle.fixed_math.specs.FixedPoint.{floor_quotient, product};
ghost use Rattle.font_reader.specs.Inferred.{inferred, mean, rising};

use fixed_math::{Fixed, round_half_up};

/// A point with a delta, on one axis.
#[derive(Clone, Copy)]
pub struct Moved {
    pub at: i32,
    pub delta: i16,
}

/// A delta in 16.16.
fn whole(delta: i16) -> i64
    ensures value { result ≡ pos 65536 *ℤ delta }
    ensures small { unsigned_abs result ≤ 2147483648 }
{
    65536 * i64::from(delta)
}

/// How far it is from one coordinate to another.
fn gap(from: i32, to: i32) -> i64
    ensures value { result ≡ to -ℤ from }
    ensures small { unsigned_abs result ≤ 4294967295 }
{
    i64::from(to) - i64::from(from)
}

/// A delta times a distance.
fn weight(delta: i16, distance: i64) -> i64
    requires { unsigned_abs distance ≤ 4294967295 }
    ensures value { result ≡ delta *ℤ distance }
    ensures small { unsigned_abs result ≤ 140737488322560 }
{
    i64::from(delta) * distance
}

/// A number in 16.16 over a width, rounded down, however large it is.
fn quotient(sum: i64, width: i64) -> i128
    requires { pos 0 <ℤ width }
    ensures { result ≡ floor_quotient (pos 65536 *ℤ sum) width }
{
    (65536 * i128::from(sum)).div_euclid(i128::from(width))
}

/// A small number.
fn narrow(value: i128) -> i64
    requires { unsigned_abs value ≤ 2147483648 }
    ensures { result ≡ value }
{
    value as i64
}

/// A number in 16.16 over a width, rounded down.
fn over(sum: i64, width: i64) -> i64
    requires positive { pos 0 <ℤ width }
    requires small { unsigned_abs (floor_quotient (pos 65536 *ℤ sum) width) ≤ 2147483648 }
    ensures value { result ≡ floor_quotient (pos 65536 *ℤ sum) width }
    ensures small { unsigned_abs result ≤ 2147483648 }
{
    narrow(quotient(sum, width))
}

/// The sum of two of these.
fn sum_of(first: i64, second: i64) -> i64
    requires first { unsigned_abs first ≤ 140737488322560 }
    requires second { unsigned_abs second ≤ 140737488322560 }
    ensures value { result ≡ first +ℤ second }
    ensures small { unsigned_abs result ≤ 281474976645120 }
{
    first + second
}

/// The sum of two deltas, each weighed by a coordinate's distance from the other one's.
fn weighed(low: Moved, high: Moved, at: i32) -> i64
    ensures value { result ≡ (low.delta *ℤ (high.at -ℤ at)) +ℤ (high.delta *ℤ (at -ℤ low.at)) }
    ensures small { unsigned_abs result ≤ 281474976645120 }
{
    sum_of(
        weight(low.delta, gap(at, high.at)),
        weight(high.delta, gap(low.at, at)),
    )
}

/// The mean of two deltas, strictly between their points.
fn mean(low: Moved, high: Moved, at: i32) -> i64
    requires above { low.at <ℤ at }
    requires below { at <ℤ high.at }
    ensures value { result ≡ mean low.at low.delta high.at high.delta at }
    ensures small { unsigned_abs result ≤ 2147483648 }
{
    over(weighed(low, high, at), gap(low.at, high.at))
}

/// The delta of a point at a coordinate, of two others whose coordinates rise.
#[tactic(auto, unfolding(crate::specs::Inferred::rising))]
fn rising(low: Moved, high: Moved, at: i32) -> i64
    ensures value { result ≡ rising low.at low.delta high.at high.delta at }
    ensures small { unsigned_abs result ≤ 2147483648 }
{
    if at <= low.at {
        whole(low.delta)
    } else if high.at <= at {
        whole(high.delta)
    } else {
        mean(low, high, at)
    }
}

/// The delta of a point at a coordinate, from those of the points before it and after it.
#[tactic(auto, unfolding(crate::specs::Inferred::inferred))]
pub fn inferred(before: Moved, after: Moved, at: i32) -> i64
    ensures value { result ≡ inferred before.at before.delta after.at after.delta at }
    ensures small { unsigned_abs result ≤ 2147483648 }
{
    if before.at < after.at {
        rising(before, after, at)
    } else if after.at < before.at {
        rising(after, before, at)
    } else if before.delta == after.delta {
        whole(before.delta)
    } else {
        0
    }
}

/// A delta in 16.16 times a scalar, before it is rounded.
fn times(delta: i64, scalar: Fixed) -> i64
    requires delta { unsigned_abs delta ≤ 2147483648 }
    requires low { pos 0 ≤ℤ scalar.0 }
    requires high { scalar.0 ≤ℤ pos 65536 }
    ensures value { result ≡ delta *ℤ scalar.0 }
    ensures small { unsigned_abs result ≤ 140737488355328 }
{
    delta * i64::from(scalar.0)
}

/// A delta in 16.16 times a scalar.
pub fn scaled(delta: i64, scalar: Fixed) -> i64
    requires delta { unsigned_abs delta ≤ 2147483648 }
    requires low { pos 0 ≤ℤ scalar.0 }
    requires high { scalar.0 ≤ℤ pos 65536 }
    ensures value { result ≡ product delta scalar.0 }
    ensures small { unsigned_abs result ≤ 4294967296 }
{
    round_half_up(times(delta, scalar))
}
