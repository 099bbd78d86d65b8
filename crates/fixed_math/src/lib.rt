//! Fixed-point numbers, as OpenType stores them (OpenType 1.9, "Data types"), and their arithmetic.
//!
//! The conditions of the calls are those under which their answers and what they add up fit. No
//! call takes memory.
#![tactic(auto)]

ghost use Rattle.std.specs.Prelude.{◌≡◌, pos, ◌+ℤ◌, ◌≤ℤ◌, ◌<ℤ◌, FitsSigned};
ghost use Rattle.std.specs.Int.{w32, w64};
ghost use Rattle.fixed_math.specs.FixedPoint.{half_up, product, ratio_of};

/// A number in 16.16: the raw number over 65536.
#[derive(Clone, Copy, Debug, PartialEq, Eq, PartialOrd, Ord, Hash)]
pub struct Fixed(pub i32);

/// A number in 2.14: the raw number over 16384.
#[derive(Clone, Copy, Debug, PartialEq, Eq, PartialOrd, Ord, Hash)]
pub struct F2Dot14(pub i16);

/// The product of two numbers, to the nearest number in 16.16, a tie going up.
pub fn mul(a: Fixed, b: Fixed) -> Fixed
    requires { FitsSigned w32 (product a.0 b.0) }
    ensures { result.0 ≡ product a.0 b.0 }
{
    let raw = i64::from(a.0) * i64::from(b.0);
    Fixed(round_half_up(raw) as i32)
}

/// `n / d` in 16.16, rounded down, for a ratio from 0 to 1.
pub fn ratio(n: i32, d: i32) -> Fixed
    requires not_negative { pos 0 ≤ℤ n }
    requires at_most_one { n ≤ℤ d }
    requires positive { pos 0 <ℤ d }
    requires small { d ≤ℤ pos 65536 }
    ensures { result.0 ≡ ratio_of n d }
{
    let raw = 65536 * i64::from(n);
    Fixed(raw.div_euclid(i64::from(d)) as i32)
}

/// The whole number nearest to `raw / 65536`, a tie going up.
pub fn round_half_up(raw: i64) -> i64
    requires { FitsSigned w64 (raw +ℤ pos 32768) }
    ensures { result ≡ half_up raw }
{
    (raw + 32768).div_euclid(65536)
}
