ghost use Rattle.std.specs.Prelude.{◌≡◌, map, IfSome};
ghost use Rattle.std.specs.List.{All};
ghost use Rattle.fixed_math.specs.FixedPoint.{half_up};
ghost use Rattle.font_ir.specs.FlatGlyphs.{IsSmall, IsSmallFixed, IsSmallPoint};
ghost use Rattle.font_ir.specs.Outlines.{stored_point, stored_points, bounds_of, widened_by};
ghost use Rattle.font_ir.specs.Outlines.{widened_by_all, AreBounds};

use crate::glyph::{Contour, DrawnPoint};
use fixed_math::{Fixed, round_half_up};

/// A point of a contour as a font stores it (OpenType 1.9, "glyf", "Simple Glyph Description"), in
/// whole font units.
#[derive(Clone, Copy, Debug, PartialEq, Eq)]
pub struct StoredPoint {
    pub x: i16,
    pub y: i16,
    /// Whether it is on the curve.
    pub on: bool,
}

/// The whole number that is stored for a coordinate.
fn stored(coordinate: Fixed) -> i16
    requires { IsSmallFixed coordinate }
    ensures rounded { result ≡ half_up coordinate.0 }
    ensures small { IsSmall result }
{
    round_half_up(i64::from(coordinate.0)) as i16
}

/// A point as a font stores it: each coordinate as the whole number of font units nearest to it, a
/// tie going up.
pub fn stored_point(point: DrawnPoint) -> StoredPoint
    requires { IsSmallPoint point }
    ensures stored { result ≡ stored_point point }
    ensures small_x { IsSmall result.x }
    ensures small_y { IsSmall result.y }
{
    StoredPoint {
        x: stored(point.x),
        y: stored(point.y),
        on: point.on,
    }
}

/// The bounds of a point and of those that were bounded before it.
fn widened(bounds: Option<[i16; 4]>, point: StoredPoint) -> Option<[i16; 4]>
    ensures { result ≡ widened_by bounds point }
{
    match bounds {
        None => Some([point.x, point.y, point.x, point.y]),
        Some(sides) => Some([
            sides[0].min(point.x),
            sides[1].min(point.y),
            sides[2].max(point.x),
            sides[3].max(point.y),
        ]),
    }
}

/// The bounds of a contour's points and of those that were bounded before it.
fn widened_by_points(bounds: Option<[i16; 4]>, points: &[DrawnPoint]) -> Option<[i16; 4]>
    requires { All IsSmallPoint points.now }
    ensures { result ≡ widened_by_all bounds (map stored_point points.now) }
{
    let mut widest = bounds;
    for point in points {
        widest = widened(widest, stored_point(*point));
    }
    widest
}

/// The bounds of an outline as it is stored, where it has a point: xMin, yMin, xMax and yMax in
/// font units (OpenType 1.9, "glyf", "Glyph Headers").
pub fn bounds_of(contours: &[Contour]) -> Option<[i16; 4]>
    requires { All (λ contour. All IsSmallPoint contour.points) contours.now }
    ensures sides { result ≡ bounds_of (stored_points contours.now) }
    ensures bounds { IfSome result (AreBounds (stored_points contours.now)) }
{
    let mut bounds = None;
    for contour in contours {
        bounds = widened_by_points(bounds, contour.points.as_slice());
    }
    bounds
}
