ghost use Rattle.std.specs.Prelude.{◌≡◌, ◌≤◌, ◌<◌, ◌+◌, ◌-◌, ◌*◌, ◌%◌, ◌==◌, Bool, Some, IfSome};
ghost use Rattle.std.specs.Prelude.{option_map};
ghost use Rattle.std.specs.Prelude.{length, position, pos, neg_ℤ, ◌≤ℤ◌};
ghost use Rattle.source_values.specs.Decimals.{decimal_of, unsigned_of, digits_value};
ghost use Rattle.plist_reader.specs.Tree.{text_at};
ghost use Rattle.source_values.specs.Values.{decimal_at};
ghost use Rattle.layer_shapes.specs.Placing.{in_billionths, nearest, is_at_most, is_zero_decimal};
ghost use Rattle.layer_shapes.specs.Placing.{is_quarter_turn, quarters_in, without_full_turns};

use fixed_math::Fixed;
use plist_reader::Tree;
use source_values::{Decimal, decimal_at, text_at};

/// The greatest number by which a component may be scaled, in size.
pub const GREATEST_SCALE: u32 = 16;

/// Billionths in one.
const BILLION: i64 = 1_000_000_000;

/// Whether a decimal is at most so much in size.
pub fn is_at_most(decimal: &Decimal, bound: u32) -> bool
    ensures { result ≡ is_at_most bound decimal.now }
{
    decimal.whole < bound || (decimal.whole == bound && decimal.billionths == 0)
}

/// The number in 16.16 that is nearest to a decimal, a tie going up.
#[tactic(auto, unfolding(crate::specs::Placing::nearest_raw))]
pub fn nearest(decimal: &Decimal) -> Fixed
    requires whole { decimal.now.whole ≤ 16383 }
    requires billionths { decimal.now.billionths ≤ 1000000000 }
    ensures { result ≡ nearest decimal.now }
{
    let raw = (in_billionths(decimal) * 65536 + 500_000_000).div_euclid(BILLION);
    Fixed(raw as i32)
}

/// How many billionths a decimal is, with its sign.
fn in_billionths(decimal: &Decimal) -> i64
    requires whole { decimal.now.whole ≤ 16383 }
    requires billionths { decimal.now.billionths ≤ 1000000000 }
    ensures billionths { result ≡ in_billionths decimal.now }
    ensures low { neg_ℤ (pos 16384000000000) ≤ℤ result }
    ensures high { result ≤ℤ pos 16384000000000 }
{
    let size = BILLION * i64::from(decimal.whole) + i64::from(decimal.billionths);
    if decimal.negative { -size } else { size }
}

/// Whether a decimal is 0.
pub fn is_zero(decimal: &Decimal) -> bool
    ensures { result ≡ is_zero_decimal decimal.now }
{
    decimal.whole == 0 && decimal.billionths == 0
}

/// The angle that a value spells, in degrees, without its full turns; it has no bound in size.
#[tactic(auto, unfolding(source_values::specs::Values::decimal_at))]
pub fn angle_at(tree: &Tree, number: u32) -> Option<Decimal>
    ensures { result ≡ option_map without_full_turns (decimal_at tree.now number) }
{
    match text_at(tree, number) {
        Some(text) => angle_of(tree, number, text.as_bytes()),
        None => None,
    }
}

/// The angle that a value spells, which is this text.
fn angle_of(tree: &Tree, number: u32, text: &[u8]) -> Option<Decimal>
    requires { text_at tree.now.nodes number ≡ Some text.now }
    ensures { result ≡ option_map without_full_turns (decimal_at tree.now number) }
{
    match decimal_at(tree, number) {
        Some(decimal) => Some(Decimal {
            negative: decimal.negative,
            whole: degrees(text),
            billionths: decimal.billionths,
        }),
        None => None,
    }
}

/// The whole part of the decimal that a text spells, in degrees and without full turns.
#[tactic(auto, unfolding(source_values::specs::Decimals::decimal_of))]
fn degrees(text: &[u8]) -> u32
    ensures { IfSome (decimal_of text.now) (λ decimal. result ≡ decimal.whole % 360) }
{
    match text.first() {
        Some(b'-') => unsigned_degrees(&text[1..]),
        _ => unsigned_degrees(text),
    }
}

/// The same of a text without a sign.
#[tactic(auto, unfolding(source_values::specs::Decimals::unsigned_of, source_values::specs::Decimals::fraction_of))]
fn unsigned_degrees(text: &[u8]) -> u32
    ensures { (negative : Bool)
        → IfSome (unsigned_of negative text.now) (λ decimal. result ≡ decimal.whole % 360) }
{
    match point_in(text) {
        None => degrees_in(text),
        Some(point) => degrees_in(&text[..point]),
    }
}

/// Where the first point stands.
fn point_in(text: &[u8]) -> Option<usize>
    ensures first { result ≡ position (λ byte. byte == 46) text.now }
    ensures within { IfSome result (λ point. point < length text.now) }
{
    text.iter().position(|byte| *byte == b'.')
}

/// The number that digits spell, in degrees and without full turns.
#[tactic(auto, using(crate::proofs::Turns::digit_turns), unfolding(source_values::specs::Decimals::digits_value))]
fn degrees_in(digits: &[u8]) -> u32
    ensures { result ≡ digits_value digits.now % 360 }
{
    let mut degrees: u32 = 0;
    for digit in digits {
        degrees = with_digit(degrees, *digit);
    }
    degrees
}

/// Degrees with one more digit, without full turns.
fn with_digit(degrees: u32, digit: u8) -> u32
    requires { degrees < 360 }
    ensures { result ≡ (10 * degrees + (digit - 48)) % 360 }
{
    (10 * degrees + u32::from(digit.saturating_sub(b'0'))) % 360
}

/// Whether an angle in degrees is a multiple of 90.
pub fn is_quarter_turn(angle: &Decimal) -> bool
    ensures { result ≡ is_quarter_turn angle.now }
{
    angle.billionths == 0 && angle.whole % 90 == 0
}

/// The quarter turns that an angle comes to, counterclockwise, 0 to 3.
pub fn quarters_in(angle: &Decimal) -> u8
    ensures { result ≡ quarters_in angle.now }
{
    let quarters = ((angle.whole / 90) % 4) as u8;
    if angle.negative {
        (4 - quarters) % 4
    } else {
        quarters
    }
}
