ghost use Rattle.std.specs.Prelude.{◌≡◌, ◌-ℤ◌, ◌≤ℤ◌, pos, length};
ghost use Rattle.fixed_math.specs.FixedPoint.{product};
ghost use Rattle.variation_model.specs.Scalar.{axis_scalar, scalar_of};

use fixed_math::{F2Dot14, Fixed, mul, ratio};
use font_ir::Region;

/// By how much the deltas of a region count at a place, in 16.16, from 0 to 1 (OpenType 1.9, "Font
/// variations common table formats"). The place has one coordinate per axis of the region. It takes
/// no memory.
pub fn scalar(region: &Region, at: &[F2Dot14]) -> Fixed
    requires { length at.now ≡ length region.now.sides }
    ensures value { result.0 ≡ scalar_of region.now.sides at.now }
    ensures low { pos 0 ≤ℤ result.0 }
    ensures high { result.0 ≤ℤ pos 65536 }
{
    let sides = region.sides.as_slice();
    let mut product = Fixed(65536);
    for (i, side) in sides.iter().enumerate() {
        product = mul(product, axis_scalar(*side, at[i]));
    }
    product
}

/// The scalar of a region so far, times that of one more axis with its start, peak and end. So it
/// is found where a region's numbers are read one by one.
pub fn scalar_with_axis(before: Fixed, side: (F2Dot14, F2Dot14, F2Dot14), v: F2Dot14) -> Fixed
    requires low { pos 0 ≤ℤ before.0 }
    requires high { before.0 ≤ℤ pos 65536 }
    ensures value { result.0 ≡ product before.0 (axis_scalar side v) }
    ensures low { pos 0 ≤ℤ result.0 }
    ensures high { result.0 ≤ℤ pos 65536 }
{
    mul(before, axis_scalar(side, v))
}

/// The scalar on one axis, with its start, peak and end.
fn axis_scalar(side: (F2Dot14, F2Dot14, F2Dot14), v: F2Dot14) -> Fixed
    ensures { result.0 ≡ axis_scalar side v }
{
    let (start, peak, end) = side;
    if peak.0 == 0 {
        Fixed(65536)
    } else if v.0 == peak.0 {
        Fixed(65536)
    } else if v.0 <= start.0 {
        Fixed(0)
    } else if end.0 <= v.0 {
        Fixed(0)
    } else if v.0 < peak.0 {
        ratio(gap(start, v), gap(start, peak))
    } else {
        ratio(gap(v, end), gap(peak, end))
    }
}

/// How far it is from one number to another.
fn gap(from: F2Dot14, to: F2Dot14) -> i32
    ensures { result ≡ to.0 -ℤ from.0 }
{
    i32::from(to.0) - i32::from(from.0)
}
