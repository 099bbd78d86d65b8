ghost use Rattle.std.specs.Prelude.{◌≡◌, ◌<◌, ◌≤ℤ◌, length, All};
ghost use Rattle.std.specs.List.{fold};
ghost use Rattle.std.specs.Int.{int_max, int_min};
ghost use Rattle.font_ir.specs.Extremes.{least as least_number, greatest as greatest_number};
ghost use Rattle.font_ir.specs.Coordinates.{HasAxis, coordinate_on, coordinates_on, default_on};
ghost use Rattle.font_ir.specs.Normal.{normalised};

use crate::normal::normalise;
use fixed_math::{F2Dot14, Fixed};
use font_ir::{CoordinateScale, Master};

/// The least, the default and the greatest coordinate of the masters on an axis.
#[derive(Clone, Copy)]
pub struct Scale {
    pub least: Fixed,
    pub default: Fixed,
    pub greatest: Fixed,
}

/// A master's coordinate on an axis.
pub fn coordinate(master: &Master, kind: CoordinateScale, axis: usize) -> Fixed
    requires { HasAxis axis master.now }
    ensures { result ≡ coordinate_on kind axis master.now }
{
    match kind {
        CoordinateScale::Design => master.design.as_slice()[axis],
        CoordinateScale::User => master.user.as_slice()[axis],
    }
}

/// The scale of an axis.
pub fn scale_of(masters: &[Master], kind: CoordinateScale, origin: usize, axis: usize) -> Scale
    requires origin { origin < length masters.now }
    requires axes { All (HasAxis axis) masters.now }
    ensures default { result.default.0 ≡ default_on kind origin axis masters.now }
    ensures least { result.least.0 ≡ least_number (coordinates_on kind axis masters.now) }
    ensures greatest { result.greatest.0 ≡ greatest_number (coordinates_on kind axis masters.now) }
    ensures below_default { result.least.0 ≤ℤ result.default.0 }
    ensures above_default { result.default.0 ≤ℤ result.greatest.0 }
    ensures below_each { All (λ m. result.least.0 ≤ℤ (coordinate_on kind axis m).0) masters.now }
    ensures above_each { All (λ m. (coordinate_on kind axis m).0 ≤ℤ result.greatest.0) masters.now }
{
    let default = coordinate(&masters[origin], kind, axis);
    Scale {
        least: least(masters, kind, axis, default),
        default,
        greatest: greatest(masters, kind, axis, default),
    }
}

/// The least of a number and the masters' coordinates.
fn least(masters: &[Master], kind: CoordinateScale, axis: usize, from: Fixed) -> Fixed
    requires { All (HasAxis axis) masters.now }
    ensures { result.0 ≡ fold (λ low m. int_min low (coordinate_on kind axis m).0) from.0
        masters.now }
{
    let mut low = from.0;
    for master in masters {
        low = low.min(coordinate(master, kind, axis).0);
    }
    Fixed(low)
}

/// The greatest of a number and the masters' coordinates.
fn greatest(masters: &[Master], kind: CoordinateScale, axis: usize, from: Fixed) -> Fixed
    requires { All (HasAxis axis) masters.now }
    ensures { result.0 ≡ fold (λ high m. int_max high (coordinate_on kind axis m).0) from.0
        masters.now }
{
    let mut high = from.0;
    for master in masters {
        high = high.max(coordinate(master, kind, axis).0);
    }
    Fixed(high)
}

/// A master's normalised coordinate on an axis of this scale.
pub fn normal(master: &Master, kind: CoordinateScale, axis: usize, scale: Scale) -> F2Dot14
    requires axis { HasAxis axis master.now }
    requires least { scale.least.0 ≤ℤ (coordinate_on kind axis master.now).0 }
    requires greatest { (coordinate_on kind axis master.now).0 ≤ℤ scale.greatest.0 }
    requires default_least { scale.least.0 ≤ℤ scale.default.0 }
    requires default_greatest { scale.default.0 ≤ℤ scale.greatest.0 }
    ensures { result.0 ≡ normalised (coordinate_on kind axis master.now).0 scale.least.0
        scale.default.0 scale.greatest.0 }
{
    let v = coordinate(master, kind, axis);
    normalise(v, scale.least, scale.default, scale.greatest)
}
