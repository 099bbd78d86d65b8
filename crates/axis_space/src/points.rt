ghost use Rattle.std.specs.Prelude.{◌≡◌, ◌*ℤ◌, ◌≤ℤ◌, ◌<ℤ◌, ◌<◌, pos, negsuc, length, All, Some};
ghost use Rattle.std.specs.Prelude.{IfSome};
ghost use Rattle.font_ir.specs.Normal.{nearest};
ghost use Rattle.font_ir.specs.Coordinates.{HasAxis};
ghost use Rattle.axis_space.specs.Points as spec;

use crate::coordinates::coordinate;
use crate::normal::{distance, nearest};
use fixed_math::Fixed;
use font_ir::{CoordinateScale, Master};

/// A master on an axis.
#[derive(Clone, Copy)]
pub struct Point {
    pub design: Fixed,
    pub user: Fixed,
}

/// The user coordinate at a design coordinate, in 16.16, which is fontc's own: linear between the
/// masters' coordinates on the axis, rounded to the nearest, a tie going up. Before the least and
/// after the greatest design coordinate it is that of the master there. Of masters with one design
/// coordinate the first counts. It takes no memory.
pub fn user_of(masters: &[Master], axis: u32, design: Fixed) -> Fixed
    requires master { 0 < length masters.now }
    requires axes { All (HasAxis axis) masters.now }
    ensures reading { spec.IsReading (spec.points_of masters.now axis) design.0 result.0 }
    ensures value { result.0 ≡ spec.user_at (spec.points_of masters.now axis) design.0 }
{
    let axis = axis as usize;
    let below = neighbour_below(masters, axis, design);
    let above = neighbour_above(masters, axis, design);
    reading(below, above, design)
}

/// The reading at a design coordinate from the neighbours that there are.
fn reading(below: Option<Point>, above: Option<Point>, design: Fixed) -> Fixed
    requires below { IfSome below (λ p. p.design.0 ≤ℤ design.0) }
    requires above { IfSome above (λ p. design.0 ≤ℤ p.design.0) }
    ensures { result.0 ≡ spec.reading below above design.0 }
{
    match (below, above) {
        (Some(p), Some(q)) => between(p, q, design),
        (Some(p), None) => p.user,
        (None, Some(q)) => q.user,
        (None, None) => Fixed(0),
    }
}

/// Of the masters that are not above a design coordinate the highest, and of those with one
/// coordinate the first.
fn neighbour_below(masters: &[Master], axis: usize, design: Fixed) -> Option<Point>
    requires { All (HasAxis axis) masters.now }
    ensures { result ≡ spec.below design.0 (spec.points_of masters.now axis) }
{
    let mut nearest = None;
    for master in masters {
        let p = point_on(master, axis);
        if p.design.0 <= design.0 {
            nearest = Some(higher(nearest, p));
        }
    }
    nearest
}

/// Of the masters that are not below a design coordinate the lowest, and of those with one
/// coordinate the first.
fn neighbour_above(masters: &[Master], axis: usize, design: Fixed) -> Option<Point>
    requires { All (HasAxis axis) masters.now }
    ensures { result ≡ spec.above design.0 (spec.points_of masters.now axis) }
{
    let mut nearest = None;
    for master in masters {
        let p = point_on(master, axis);
        if design.0 <= p.design.0 {
            nearest = Some(lower(nearest, p));
        }
    }
    nearest
}

/// The higher of the nearest point so far and another.
fn higher(nearest: Option<Point>, p: Point) -> Point
    ensures { spec.higher nearest (Some p) ≡ Some result }
{
    match nearest {
        Some(q) if p.design.0 <= q.design.0 => q,
        _ => p,
    }
}

/// The lower of the nearest point so far and another.
fn lower(nearest: Option<Point>, p: Point) -> Point
    ensures { spec.lower nearest (Some p) ≡ Some result }
{
    match nearest {
        Some(q) if q.design.0 <= p.design.0 => q,
        _ => p,
    }
}

/// The reading on the line through two points, of which one is not above the design coordinate and
/// the other not below it.
fn between(p: Point, q: Point, design: Fixed) -> Fixed
    requires from { p.design.0 ≤ℤ design.0 }
    requires to { design.0 ≤ℤ q.design.0 }
    ensures { result.0 ≡ spec.between p q design.0 }
{
    if p.design.0 < q.design.0 {
        let rise = distance(p.user, q.user);
        let part = part_way(
            rise,
            distance(p.design, design),
            distance(p.design, q.design),
        );
        Fixed((i64::from(p.user.0) + part) as i32)
    } else {
        p.user
    }
}

/// How far a line that rises by so much over the whole has risen after a part of it.
fn part_way(rise: i64, part: i64, whole: i64) -> i64
    requires positive { pos 0 <ℤ whole }
    requires small { whole ≤ℤ pos 4294967295 }
    requires from_start { pos 0 ≤ℤ part }
    requires to_end { part ≤ℤ whole }
    requires low { negsuc 4294967294 ≤ℤ rise }
    requires high { rise ≤ℤ pos 4294967295 }
    ensures value { result ≡ nearest (rise *ℤ part) whole }
    ensures up { pos 0 ≤ℤ rise → (pos 0 ≤ℤ result) × (result ≤ℤ rise) }
    ensures down { rise ≤ℤ pos 0 → (rise ≤ℤ result) × (result ≤ℤ pos 0) }
{
    nearest(i128::from(rise) * i128::from(part), i128::from(whole)) as i64
}

/// The place of a master on an axis.
fn point_on(master: &Master, axis: usize) -> Point
    requires { HasAxis axis master.now }
    ensures { result ≡ spec.point_on axis master.now }
{
    Point {
        design: coordinate(master, CoordinateScale::Design, axis),
        user: coordinate(master, CoordinateScale::User, axis),
    }
}
