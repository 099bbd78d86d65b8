ghost use Rattle.std.specs.Prelude.{◌≡◌, ◌++◌, map, IfOk, OnOk};
ghost use Rattle.std.specs.List.{All};
ghost use Rattle.font_ir.specs.FlatGlyphs.{IsSmallPoint};
ghost use Rattle.font_ir.specs.Outlines.{stored_point, stored_points};
ghost use Rattle.glyf_writer.specs.Outlines.{steps_of, AreSmall};

use font_ir::{Contour, DrawnPoint, StoredPoint, stored_point};
use refusal_codes::NoMemory;
use std::alloc::Global;

/// How a point lies to the one before it, in font units.
#[derive(Clone, Copy, Debug, PartialEq, Eq)]
pub struct Step {
    pub dx: i16,
    pub dy: i16,
    /// Whether the point is on the curve.
    pub on: bool,
}

/// Adds the points of one contour.
fn push_points(stored_points: &mut Vec<StoredPoint>, points: &[DrawnPoint]) -> Result<(), NoMemory>
    requires { All IsSmallPoint points.now }
    ensures ok { OnOk result (stored_points.new.items
        ≡ stored_points.old.items ++ map stored_point points.now) }
    ensures small { AreSmall stored_points.old.items
        → OnOk result (AreSmall stored_points.new.items) }
{
    for point in points {
        stored_points.push(stored_point(*point))?;
    }
    Ok(())
}

/// The points of all contours, in order.
pub fn stored_points_of(alloc: Global, contours: &[Contour]) -> Result<Vec<StoredPoint>, NoMemory>
    requires { All (λ contour. All IsSmallPoint contour.points) contours.now }
    ensures points { IfOk result (λ points. points.items ≡ stored_points contours.now) }
    ensures small { IfOk result (λ points. AreSmall points.items) }
{
    let mut points = Vec::new(alloc);
    for contour in contours {
        push_points(&mut points, contour.points.as_slice())?;
    }
    Ok(points)
}

/// How each point lies to the one before it; the first point to (0,0).
pub fn steps_of(alloc: Global, points: &[StoredPoint]) -> Result<Vec<Step>, NoMemory>
    requires { AreSmall points.now }
    ensures { IfOk result (λ steps. steps.items ≡ steps_of points.now) }
{
    let mut steps = Vec::with_capacity(alloc, points.len())?;
    let mut x = 0;
    let mut y = 0;
    for point in points {
        steps.push(Step {
            dx: point.x - x,
            dy: point.y - y,
            on: point.on,
        })?;
        x = point.x;
        y = point.y;
    }
    Ok(steps)
}
