ghost use Rattle.std.specs.Prelude.{◌≡◌, ◌≤◌, ◌+ℤ◌, unsigned_abs, IfOk};
ghost use Rattle.fixed_math.specs.FixedPoint.{product};
ghost use Rattle.font_ir.specs.ReadGlyphs.{IsScale};
ghost use Rattle.refusal_codes.specs.declared.rule.Rule.TheVariants.{CoordinateTooLarge};
ghost use Rattle.component_flatten.specs.Transforms.{scaled, turned, moved, transformed};
ghost use Rattle.component_flatten.specs.Transforms.{spot_of, point_at, IsTransform};
ghost use Rattle.component_flatten.specs.Judging.{IsNear, Judges};
ghost use Rattle.component_flatten.specs.Flattening.{is_small_point};

use crate::limits::{LimitError, is_small_number};
use fixed_math::{Fixed, round_half_up};
use font_ir::DrawnPoint;
use refusal_codes::Rule;

/// A spot in 16.16, which may be beyond what a point can have.
#[derive(Clone, Copy)]
pub struct Spot {
    pub x: i64,
    pub y: i64,
}

/// How a component draws its base: scaled, turned counterclockwise by quarter turns (0 to 3), and
/// moved.
#[derive(Clone, Copy)]
pub struct Transform {
    pub at: (Fixed, Fixed),
    pub scale: (Fixed, Fixed),
    pub quarters: u8,
}

impl Transform {
    /// The point that the component has of its base's point at this spot. The error is that it is
    /// too far away.
    pub fn point(&self, spot: Spot, on: bool) -> Result<DrawnPoint, LimitError>
        requires transform { IsTransform self.now }
        requires near { IsNear spot }
        ensures point { IfOk result (λ point. point ≡ point_at on (transformed self.now spot)) }
        ensures limit { Judges CoordinateTooLarge
            (is_small_point (point_at on (transformed self.now spot))) result }
    {
        spot.scaled(self.scale)
            .turned(self.quarters)
            .moved(self.at)
            .point(on)
    }
}

impl Spot {
    /// Where a point is.
    pub fn of(point: &DrawnPoint) -> Spot
        ensures { result ≡ spot_of point.now }
    {
        Spot {
            x: i64::from(point.x.0),
            y: i64::from(point.y.0),
        }
    }

    fn scaled(self, scale: (Fixed, Fixed)) -> Spot
        requires near { IsNear self }
        requires x { IsScale scale.0 }
        requires y { IsScale scale.1 }
        ensures spot { result ≡ scaled scale self }
        ensures x { unsigned_abs result.x ≤ 4398046511104 }
        ensures y { unsigned_abs result.y ≤ 4398046511104 }
    {
        Spot {
            x: scaled_number(self.x, scale.0),
            y: scaled_number(self.y, scale.1),
        }
    }

    fn turned(self, quarters: u8) -> Spot
        requires x { unsigned_abs self.x ≤ 4398046511104 }
        requires y { unsigned_abs self.y ≤ 4398046511104 }
        requires quarters { quarters ≤ 3 }
        ensures spot { result ≡ turned quarters self }
        ensures x { unsigned_abs result.x ≤ 4398046511104 }
        ensures y { unsigned_abs result.y ≤ 4398046511104 }
    {
        let Spot { x, y } = self;
        match quarters {
            0 => self,
            1 => Spot { x: -y, y: x },
            2 => Spot { x: -x, y: -y },
            _ => Spot { x: y, y: -x },
        }
    }

    fn moved(self, by: (Fixed, Fixed)) -> Spot
        requires x { unsigned_abs self.x ≤ 4398046511104 }
        requires y { unsigned_abs self.y ≤ 4398046511104 }
        ensures { result ≡ moved by self }
    {
        Spot {
            x: moved_number(self.x, by.0),
            y: moved_number(self.y, by.1),
        }
    }

    /// The point at this spot, if it isn't too far away.
    fn point(self, on: bool) -> Result<DrawnPoint, LimitError>
        ensures point { IfOk result (λ point. point ≡ point_at on self) }
        ensures limit { Judges CoordinateTooLarge (is_small_point (point_at on self)) result }
    {
        if is_small_number(self.x) && is_small_number(self.y) {
            Ok(DrawnPoint {
                x: Fixed(self.x as i32),
                y: Fixed(self.y as i32),
                on,
            })
        } else {
            Err(LimitError::Broken(Rule::CoordinateTooLarge))
        }
    }
}

/// A coordinate times a scale, to the nearest number in 16.16.
fn scaled_number(raw: i64, scale: Fixed) -> i64
    requires near { unsigned_abs raw ≤ 137438953472 }
    requires scale { IsScale scale }
    ensures number { result ≡ product raw scale.0 }
    ensures size { unsigned_abs result ≤ 4398046511104 }
{
    round_half_up(raw * i64::from(scale.0))
}

fn moved_number(raw: i64, by: Fixed) -> i64
    requires { unsigned_abs raw ≤ 4398046511104 }
    ensures { result ≡ raw +ℤ by.0 }
{
    raw + i64::from(by.0)
}
