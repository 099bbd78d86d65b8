ghost use Rattle.std.specs.Prelude.{◌≡◌, ◌↔◌, List, ℕ, Some, ◌==◌, ◌+◌, ◌-◌, ◌*◌, ◌<◌, ◌≤◌, min};
ghost use Rattle.std.specs.Prelude.{length, position, option_map, IfSome};
ghost use Rattle.source_values.specs.declared.decimals.Decimal.{Decimal as SeenDecimal};
ghost use Rattle.source_values.specs.Spelling.{Spells};
ghost use Rattle.source_values.specs.Decimals.{are_digits, digits_value, billionths_of};
ghost use Rattle.source_values.specs.Decimals.{fraction_of, unsigned_of, decimal_of, cut};

/// A number, exact to nine digits of fraction.
///
/// A whole part above 1,000,000,000, which is greater than each number that a source may have, is
/// cut to that.
#[derive(Clone, Copy, Debug, PartialEq, Eq)]
pub struct Decimal {
    /// Whether it has a minus sign.
    pub negative: bool,
    /// Its whole part.
    pub whole: u32,
    /// Its fraction in billionths, 0 to 999,999,999: later digits are dropped.
    pub billionths: u32,
}

/// A text spells a decimal exactly where the definition of reading gives it: digits of a fraction
/// after the ninth don't count. A law: the function does nothing.
pub fn texts_spell_their_decimals()
    ensures { (text : List ℕ) (decimal : SeenDecimal)
        → (decimal_of text ≡ Some decimal) ↔ Spells text decimal }
{}

/// The bound to which the parts of a decimal are cut.
const CUT_AT: u64 = 1_000_000_000;

/// The decimal that a text spells, `None` where it spells none.
#[tactic(auto, unfolding(crate::specs::Decimals::decimal_of))]
pub(crate) fn read_decimal(text: &[u8]) -> Option<Decimal>
    ensures { result ≡ option_map cut (decimal_of text.now) }
{
    match text.first() {
        Some(b'-') => unsigned(true, &text[1..]),
        _ => unsigned(false, text),
    }
}

/// A decimal behind its sign.
#[tactic(auto, unfolding(crate::specs::Decimals::unsigned_of))]
fn unsigned(negative: bool, text: &[u8]) -> Option<Decimal>
    ensures { result ≡ option_map cut (unsigned_of negative text.now) }
{
    match point_in(text) {
        None => {
            if are_digits(text) {
                Some(Decimal {
                    negative,
                    whole: natural(text),
                    billionths: 0,
                })
            } else {
                None
            }
        }
        Some(point) => with_fraction(negative, &text[..point], &text[point + 1..]),
    }
}

/// A decimal of the digits before and behind its point.
#[tactic(auto, unfolding(crate::specs::Decimals::fraction_of))]
fn with_fraction(negative: bool, front: &[u8], back: &[u8]) -> Option<Decimal>
    ensures { result ≡ option_map cut (fraction_of negative front.now back.now) }
{
    if are_digits(front) && are_digits(back) {
        Some(Decimal {
            negative,
            whole: natural(front),
            billionths: billionths(back),
        })
    } else {
        None
    }
}

/// Where the first point stands.
fn point_in(text: &[u8]) -> Option<usize>
    ensures first { result ≡ position (λ byte. byte == 46) text.now }
    ensures within { IfSome result (λ point. point < length text.now) }
{
    text.iter().position(|byte| *byte == b'.')
}

/// Whether this is one digit or more, and nothing else.
#[tactic(auto, unfolding(crate::specs::Decimals::are_digits))]
fn are_digits(text: &[u8]) -> bool
    ensures { result ≡ are_digits text.now }
{
    !text.is_empty() && text.iter().all(|byte| byte.is_ascii_digit())
}

/// The number that digits spell, cut.
#[tactic(auto, unfolding(crate::specs::Decimals::digits_value))]
fn natural(digits: &[u8]) -> u32
    ensures { result ≡ min (digits_value digits.now) 1000000000 }
{
    let mut number: u32 = 0;
    for digit in digits {
        number = with_digit(number, *digit);
    }
    number
}

/// The first nine digits of a fraction, in billionths.
#[tactic(auto, unfolding(crate::specs::Decimals::billionths_of))]
fn billionths(digits: &[u8]) -> u32
    ensures { result ≡ min (billionths_of digits.now) 1000000000 }
{
    let mut number: u32 = 0;
    for place in 0..9 {
        let digit = digits.get(place).copied().unwrap_or(b'0');
        number = with_digit(number, digit);
    }
    number
}

/// A number with one more digit, cut.
fn with_digit(number: u32, digit: u8) -> u32
    requires { number ≤ 1000000000 }
    ensures { result ≡ min (10 * number + (digit - 48)) 1000000000 }
{
    let longer = 10 * u64::from(number) + u64::from(digit.saturating_sub(b'0'));
    longer.min(CUT_AT) as u32
}
