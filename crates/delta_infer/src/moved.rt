ghost use Rattle.std.specs.Prelude.{◌≡◌, length, IfOk};
ghost use Rattle.delta_infer.specs.Moved.{moved_points, move_in_x, move_in_y};

use refusal_codes::NoMemory;
use std::alloc::Global;

/// A point of a contour with its delta, in font units.
#[derive(Clone, Copy)]
pub struct MovedPoint {
    pub x: i32,
    pub y: i32,
    pub dx: i16,
    pub dy: i16,
}

/// A point's coordinate on one axis, and its delta there.
#[derive(Clone, Copy)]
pub struct Move {
    pub at: i32,
    pub delta: i16,
}

impl MovedPoint {
    /// What it is in x.
    pub fn in_x(self) -> Move
        ensures { result ≡ move_in_x self }
    {
        Move {
            at: self.x,
            delta: self.dx,
        }
    }

    /// What it is in y.
    pub fn in_y(self) -> Move
        ensures { result ≡ move_in_y self }
    {
        Move {
            at: self.y,
            delta: self.dy,
        }
    }
}

/// The points of a contour with their deltas.
pub fn moved_points(
    alloc: Global,
    contour: &[(i32, i32)],
    deltas: &[(i16, i16)],
) -> Result<Vec<MovedPoint>, NoMemory>
    requires { length deltas.now ≡ length contour.now }
    ensures { IfOk result (λ points. points.items ≡ moved_points contour.now deltas.now) }
{
    let mut points = Vec::with_capacity(alloc, contour.len())?;
    for (i, at) in contour.iter().enumerate() {
        let (x, y) = *at;
        let (dx, dy) = deltas[i];
        points.push(MovedPoint { x, y, dx, dy })?;
    }
    Ok(points)
}
