ghost use Rattle.std.specs.Prelude.{◌≡◌};
ghost use Rattle.plist_reader.specs.Escapes.{escape_begun, escape_digit, escape_next, escape_unit};
ghost use Rattle.plist_reader.specs.Escapes.{character_of};

use crate::characters::{hex_value, octal_value};

/// How far an escape is read. Digits are held by their values.
#[derive(Clone, Copy)]
pub(crate) enum Escape {
    /// The backslash.
    Begun,
    /// One octal digit.
    Octal(u8),
    /// Two octal digits.
    Octals(u8, u8),
    /// The `U` of a unit of UTF-16.
    Unit0,
    /// One digit of it.
    Unit1(u8),
    /// Two digits.
    Unit2(u8, u8),
    /// Three digits.
    Unit3(u8, u8, u8),
    /// A high surrogate, by its last ten bits: the backslash of the low one is awaited.
    High(u16),
    /// Its `U` is awaited.
    HighBackslash(u16),
    /// The `D` of the low surrogate is awaited.
    Low(u16),
    /// Its second digit, from `C` to `F`, is awaited.
    Low1(u16),
    /// The second digit is read, and held less 12.
    Low2(u16, u8),
    /// The third digit is read too.
    Low3(u16, u8, u8),
}

/// What a character makes of an escape.
#[derive(Clone, Copy)]
pub(crate) enum Escaped {
    /// The escape goes on.
    More(Escape),
    /// It ends, and stands for this character.
    Whole(char),
    /// No escape begins so.
    Wrong,
}

/// The character with this code, where there is one.
#[tactic(auto, unfolding(crate::specs::Escapes::character_of))]
fn character_of(code: u32) -> Escaped
    ensures { result ≡ character_of code }
{
    match char::from_u32(code) {
        Some(character) => Escaped::Whole(character),
        None => Escaped::Wrong,
    }
}

/// What follows the backslash.
#[tactic(auto, unfolding(crate::specs::Escapes::escape_begun))]
fn begun(character: char) -> Escaped
    ensures { result ≡ escape_begun character }
{
    match character {
        '"' | '\\' => Escaped::Whole(character),
        'n' => Escaped::Whole('\n'),
        'r' => Escaped::Whole('\r'),
        't' => Escaped::Whole('\t'),
        '0' => Escaped::More(Escape::Octal(0)),
        '1' => Escaped::More(Escape::Octal(1)),
        'U' => Escaped::More(Escape::Unit0),
        _ => Escaped::Wrong,
    }
}

/// The four digits of a unit of UTF-16.
#[tactic(auto, unfolding(crate::specs::Escapes::escape_unit))]
fn unit(a: u8, b: u8, c: u8, d: u8) -> Escaped
    ensures { result ≡ escape_unit a b c d }
{
    let unit = u32::from(a) * 4096 + u32::from(b) * 256 + u32::from(c) * 16 + u32::from(d);
    if unit >= 0xD800 && unit < 0xDC00 {
        Escaped::More(Escape::High((unit - 0xD800) as u16))
    } else {
        character_of(unit)
    }
}

impl Escape {
    /// What the next character makes of the escape.
    #[tactic(auto, unfolding(crate::specs::Escapes::escape_next))]
    pub(crate) fn next(self, character: char) -> Escaped
        ensures { result ≡ escape_next self character }
    {
        match self {
            Escape::Begun => begun(character),
            Escape::Octal(a) => match octal_value(character) {
                Some(b) => Escaped::More(Escape::Octals(a, b)),
                None => Escaped::Wrong,
            },
            Escape::Octals(a, b) => match octal_value(character) {
                Some(c) => character_of(u32::from(a) * 64 + u32::from(b) * 8 + u32::from(c)),
                None => Escaped::Wrong,
            },
            Escape::High(high) => {
                if character == '\\' {
                    Escaped::More(Escape::HighBackslash(high))
                } else {
                    Escaped::Wrong
                }
            }
            Escape::HighBackslash(high) => {
                if character == 'U' {
                    Escaped::More(Escape::Low(high))
                } else {
                    Escaped::Wrong
                }
            }
            _ => match hex_value(character) {
                Some(digit) => self.next_digit(digit),
                None => Escaped::Wrong,
            },
        }
    }

    /// What a hexadecimal digit makes of the escape.
    #[tactic(auto, unfolding(crate::specs::Escapes::escape_digit))]
    fn next_digit(self, digit: u8) -> Escaped
        ensures { result ≡ escape_digit self digit }
    {
        match self {
            Escape::Unit0 => Escaped::More(Escape::Unit1(digit)),
            Escape::Unit1(a) => {
                if a == 13 && digit >= 12 {
                    Escaped::Wrong
                } else {
                    Escaped::More(Escape::Unit2(a, digit))
                }
            }
            Escape::Unit2(a, b) => Escaped::More(Escape::Unit3(a, b, digit)),
            Escape::Unit3(a, b, c) => unit(a, b, c, digit),
            Escape::Low(high) => {
                if digit == 13 {
                    Escaped::More(Escape::Low1(high))
                } else {
                    Escaped::Wrong
                }
            }
            Escape::Low1(high) => {
                if digit >= 12 {
                    Escaped::More(Escape::Low2(high, digit - 12))
                } else {
                    Escaped::Wrong
                }
            }
            Escape::Low2(high, b) => Escaped::More(Escape::Low3(high, b, digit)),
            Escape::Low3(high, b, c) => {
                let low = u32::from(b) * 256 + u32::from(c) * 16 + u32::from(digit);
                character_of(0x1_0000 + u32::from(high) * 1024 + low)
            }
            _ => Escaped::Wrong,
        }
    }
}
