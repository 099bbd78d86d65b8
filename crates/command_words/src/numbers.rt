ghost use Rattle.std.specs.Prelude.{◌≡◌, ◌+◌, ◌-◌, ◌*◌, ◌≤◌, min, map, IfOk, IfSome};
ghost use Rattle.std.specs.List.{list_all};
ghost use Rattle.source_values.specs.Decimals.{are_digits, digits_value};
ghost use Rattle.command_words.specs.Commands.{coordinate_of, glyphs_of, is_number, is_path};
ghost use Rattle.command_words.specs.Commands.{is_place, number_between, number_of, pieces_of};
ghost use Rattle.command_words.specs.Commands.{place_of, seed_of};

use fixed_math::F2Dot14;
use refusal_codes::NoMemory;
use std::alloc::{AllocError, Global};

/// The word for no coordinates.
const NO_COORDINATES: &str = "none";

/// The number to which greater ones are cut: it is above each that a command takes.
const CUT_AT: u64 = 4_294_967_296;

/// The greatest number of glyphs of a sample.
const MOST_GLYPHS: u32 = 60_000;

/// The number of 1 to 10 digits that a word spells, where it is at most 65535.
pub fn number(word: &str) -> Option<u16>
    ensures { result ≡ number_of word.now }
{
    u16::try_from(number_between(word, 0, 65535)?).ok()
}

/// The seed that a word spells: a number of 1 to 10 digits, at most 4294967295.
pub fn seed(word: &str) -> Option<u32>
    ensures { result ≡ seed_of word.now }
{
    number_between(word, 0, u32::MAX)
}

/// The number of a sample's glyphs that a word spells: one of 1 to 10 digits, from 1 to 60,000.
pub fn glyph_count(word: &str) -> Option<u32>
    ensures number { result ≡ glyphs_of word.now }
    ensures within { IfSome result (λ count. (1 ≤ count) × (count ≤ 60000)) }
{
    number_between(word, 1, MOST_GLYPHS)
}

/// The number of 1 to 10 digits that a word spells, where it lies between these two.
#[tactic(auto, unfolding(crate::specs::Commands::number_between))]
fn number_between(word: &str, least: u32, greatest: u32) -> Option<u32>
    ensures number { result ≡ number_between least greatest word.now }
    ensures within { IfSome result (λ number. (least ≤ number) × (number ≤ greatest)) }
{
    let digits = word.as_bytes();
    if !are_digits(digits) || digits.len() > 10 {
        return None;
    }
    let number = u32::try_from(value_of(digits)).ok()?;
    if least <= number && number <= greatest {
        Some(number)
    } else {
        None
    }
}

/// Whether this is one digit or more, and nothing else.
#[tactic(auto, unfolding(source_values::specs::Decimals::are_digits))]
fn are_digits(word: &[u8]) -> bool
    ensures { result ≡ are_digits word.now }
{
    !word.is_empty() && word.iter().all(|byte| byte.is_ascii_digit())
}

/// The number that digits spell, cut.
#[tactic(auto, unfolding(source_values::specs::Decimals::digits_value))]
fn value_of(digits: &[u8]) -> u64
    ensures { result ≡ min (digits_value digits.now) 4294967296 }
{
    let mut value: u64 = 0;
    for digit in digits {
        value = with_digit(value, *digit);
    }
    value
}

/// A number with one more digit, cut.
fn with_digit(value: u64, digit: u8) -> u64
    requires { value ≤ 4294967296 }
    ensures { result ≡ min (10 * value + (digit - 48)) 4294967296 }
{
    (10 * value + u64::from(digit.saturating_sub(b'0'))).min(CUT_AT)
}

/// Whether a word spells a place of the design space: numbers joined by commas, or `none`.
#[tactic(auto, unfolding(crate::specs::Commands::is_place))]
pub fn is_place(word: &str) -> bool
    ensures { result ≡ is_place word.now }
{
    word == NO_COORDINATES || are_numbers(word)
}

/// Whether these are numbers joined by commas.
fn are_numbers(word: &str) -> bool
    ensures { result ≡ list_all is_number (pieces_of word.now) }
{
    word.split(',').all(|piece| number(piece).is_some())
}

/// The place of the design space that a word spells.
///
/// # Errors
///
/// `NoMemory` alone, where memory ran out.
#[tactic(auto, unfolding(crate::specs::Commands::place_of))]
pub fn place(alloc: Global, word: &str) -> Result<Vec<F2Dot14>, NoMemory>
    ensures { IfOk result (λ place. place.items ≡ place_of word.now) }
{
    if word == NO_COORDINATES {
        Ok(Vec::new(alloc))
    } else {
        Ok(coordinates(alloc, word)?)
    }
}

/// The coordinates of numbers joined by commas.
fn coordinates(alloc: Global, word: &str) -> Result<Vec<F2Dot14>, AllocError>
    ensures { IfOk result (λ place. place.items ≡ map coordinate_of (pieces_of word.now)) }
{
    word.split(',')
        .map(|piece| coordinate(piece))
        .collect(alloc)
}

/// The coordinate of the bits that a number spells.
fn coordinate(word: &str) -> F2Dot14
    ensures { result ≡ coordinate_of word.now }
{
    F2Dot14(number(word).unwrap_or(0).cast_signed())
}

/// Whether a word is a path: it doesn't begin with a hyphen.
pub fn is_path(word: &str) -> bool
    ensures { result ≡ is_path word.now }
{
    match word.as_bytes() {
        [] => true,
        [first, ..] => *first != b'-',
    }
}
