ghost use Rattle.std.specs.Prelude.{◌≡◌, ◌+ℤ◌, ◌-ℤ◌, ◌*ℤ◌, ◌≤ℤ◌, ◌<ℤ◌, ℤ, pos, negsuc};
ghost use Rattle.font_ir.specs.Normal.{nearest, normalised};

use fixed_math::{F2Dot14, Fixed};

/// A coordinate on the scale where the axis's least, default and greatest numbers are -1, 0 and 1
/// (OpenType 1.9, "Coordinate scales and normalization"), from 16.16 to 2.14, rounded to the
/// nearest, a tie going up. It takes no memory.
pub fn normalise(v: Fixed, min: Fixed, def: Fixed, max: Fixed) -> F2Dot14
    requires least { min.0 ≤ℤ v.0 }
    requires greatest { v.0 ≤ℤ max.0 }
    requires default_least { min.0 ≤ℤ def.0 }
    requires default_greatest { def.0 ≤ℤ max.0 }
    ensures value { result.0 ≡ normalised v.0 min.0 def.0 max.0 }
    ensures at_default { v.0 ≡ def.0 → result.0 ≡ pos 0 }
    ensures at_least { v.0 ≡ min.0 → min.0 <ℤ def.0 → result.0 ≡ negsuc 16383 }
    ensures at_greatest { v.0 ≡ max.0 → def.0 <ℤ max.0 → result.0 ≡ pos 16384 }
    ensures low { negsuc 16383 ≤ℤ result.0 }
    ensures high { result.0 ≤ℤ pos 16384 }
    ensures rises { (w : ℤ) → min.0 ≤ℤ w → w ≤ℤ v.0 → normalised w min.0 def.0 max.0 ≤ℤ result.0 }
{
    let way = distance(def, v);
    if v.0 < def.0 {
        over(way, distance(min, def))
    } else if def.0 < v.0 {
        over(way, distance(def, max))
    } else {
        F2Dot14(0)
    }
}

/// How far one number is above another, over 65536.
pub fn distance(from: Fixed, to: Fixed) -> i64
    ensures { result ≡ to.0 -ℤ from.0 }
{
    i64::from(to.0) - i64::from(from.0)
}

/// One number over another, from -1 to 1.
fn over(way: i64, whole: i64) -> F2Dot14
    requires positive { pos 0 <ℤ whole }
    requires small { whole ≤ℤ pos 4294967295 }
    requires low { pos 0 ≤ℤ (way +ℤ whole) }
    requires high { way ≤ℤ whole }
    ensures value { result.0 ≡ nearest (pos 16384 *ℤ way) whole }
    ensures above { negsuc 16383 ≤ℤ result.0 }
    ensures below { result.0 ≤ℤ pos 16384 }
    ensures opposite { way +ℤ whole ≡ pos 0 → result.0 ≡ negsuc 16383 }
    ensures whole { way ≡ whole → result.0 ≡ pos 16384 }
{
    F2Dot14(nearest(16384 * i128::from(way), i128::from(whole)) as i16)
}

/// The whole number nearest to `n / d`, a tie going up.
pub fn nearest(n: i128, d: i128) -> i128
    requires positive { pos 0 <ℤ d }
    requires small { d ≤ℤ pos 4294967295 }
    requires low { negsuc 18446744073709551615 ≤ℤ n }
    requires high { n ≤ℤ pos 18446744073709551615 }
    ensures { result ≡ nearest n d }
{
    (2 * n + d).div_euclid(2 * d)
}
