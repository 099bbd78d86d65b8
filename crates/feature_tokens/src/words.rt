//! Tokens as the grammar sees them: keywords, names, numbers and signs.

ghost use Rattle.std.specs.Prelude.{◌≡◌, ◌*◌, ◌+◌, ◌-◌, ◌≤◌, min, codes, drop, IfOk};
ghost use Rattle.std.specs.Cmp.Lexicographic.{pointwise};
ghost use Rattle.feature_tokens.specs.Words.{block_word, flag_word, rule_word, keyword_of};
ghost use Rattle.feature_tokens.specs.declared.tokens.TokenKind.TheVariants as kinds;
ghost use Rattle.feature_tokens.specs.Words.{is_word, digits_value, signed, number_of, lexeme_of};

use crate::tokens::TokenKind;
use plain_lists::Sequence;
use refusal_codes::NoMemory;
use std::alloc::Global;

/// A word of the grammar.
#[derive(Clone, Copy, Debug, PartialEq, Eq)]
pub enum Keyword {
    LanguageSystem,
    Lookup,
    Feature,
    Script,
    Language,
    IncludeDflt,
    ExcludeDflt,
    FeatureNames,
    LookupFlag,
    IgnoreBaseGlyphs,
    IgnoreLigatures,
    IgnoreMarks,
    MarkAttachmentType,
    UseMarkFilteringSet,
    Subtable,
    Sub,
    By,
    From,
    Ignore,
    Pos,
    Enum,
}

/// A token as the grammar sees it.
#[derive(Drop)]
pub enum Lexeme {
    /// A keyword, with its letters.
    Keyword(Keyword, Sequence<u8>),
    /// A name that is no keyword.
    Name(Sequence<u8>),
    /// A name behind `\`, without it.
    Escaped(Sequence<u8>),
    /// A class's name, without its `@`.
    Class(Sequence<u8>),
    Number(i16),
    Sign(u8),
    Cid,
    Reference,
    /// A number of more than five digits, or out of range.
    BadNumber,
}

/// Whether these are the letters of a word.
#[tactic(auto, unfolding(crate::specs::Words::is_word))]
pub fn is_word(text: &[u8], word: &[u8]) -> bool
    ensures { result ≡ is_word text.now word.now }
{
    text == word
}

#[tactic(auto, unfolding(crate::specs::Words::block_word))]
fn block_word(text: &[u8]) -> Option<Keyword>
    ensures { result ≡ block_word text.now }
{
    if is_word(text, b"languagesystem") {
        Some(Keyword::LanguageSystem)
    } else if is_word(text, b"lookup") {
        Some(Keyword::Lookup)
    } else if is_word(text, b"feature") {
        Some(Keyword::Feature)
    } else if is_word(text, b"script") {
        Some(Keyword::Script)
    } else if is_word(text, b"language") {
        Some(Keyword::Language)
    } else if is_word(text, b"include_dflt") {
        Some(Keyword::IncludeDflt)
    } else if is_word(text, b"exclude_dflt") {
        Some(Keyword::ExcludeDflt)
    } else if is_word(text, b"featureNames") {
        Some(Keyword::FeatureNames)
    } else {
        None
    }
}

#[tactic(auto, unfolding(crate::specs::Words::flag_word))]
fn flag_word(text: &[u8]) -> Option<Keyword>
    ensures { result ≡ flag_word text.now }
{
    if is_word(text, b"lookupflag") {
        Some(Keyword::LookupFlag)
    } else if is_word(text, b"IgnoreBaseGlyphs") {
        Some(Keyword::IgnoreBaseGlyphs)
    } else if is_word(text, b"IgnoreLigatures") {
        Some(Keyword::IgnoreLigatures)
    } else if is_word(text, b"IgnoreMarks") {
        Some(Keyword::IgnoreMarks)
    } else if is_word(text, b"MarkAttachmentType") {
        Some(Keyword::MarkAttachmentType)
    } else if is_word(text, b"UseMarkFilteringSet") {
        Some(Keyword::UseMarkFilteringSet)
    } else {
        None
    }
}

#[tactic(auto, unfolding(crate::specs::Words::rule_word))]
fn rule_word(text: &[u8]) -> Option<Keyword>
    ensures { result ≡ rule_word text.now }
{
    if is_word(text, b"subtable") {
        Some(Keyword::Subtable)
    } else if is_word(text, b"sub") || is_word(text, b"substitute") {
        Some(Keyword::Sub)
    } else if is_word(text, b"by") {
        Some(Keyword::By)
    } else if is_word(text, b"from") {
        Some(Keyword::From)
    } else if is_word(text, b"ignore") {
        Some(Keyword::Ignore)
    } else if is_word(text, b"pos") || is_word(text, b"position") {
        Some(Keyword::Pos)
    } else if is_word(text, b"enum") || is_word(text, b"enumerate") {
        Some(Keyword::Enum)
    } else {
        None
    }
}

/// The keyword that a name is, `None` where it is none.
#[tactic(auto, unfolding(crate::specs::Words::keyword_of))]
fn keyword_of(text: &[u8]) -> Option<Keyword>
    ensures { result ≡ keyword_of text.now }
{
    match rule_word(text) {
        Some(keyword) => Some(keyword),
        None => match block_word(text) {
            Some(keyword) => Some(keyword),
            None => flag_word(text),
        },
    }
}

/// The number that digits spell, cut to 100000.
#[tactic(auto, unfolding(crate::specs::Words::digits_value))]
fn natural(digits: &[u8]) -> u32
    ensures { result ≡ min (digits_value digits.now) 100000 }
{
    let mut number: u32 = 0;
    for digit in digits {
        number = with_digit(number, *digit);
    }
    number
}

/// A number with one more digit, cut.
fn with_digit(number: u32, digit: u8) -> u32
    requires { number ≤ 100000 }
    ensures { result ≡ min (10 * number + (digit - 48)) 100000 }
{
    (10 * number + u32::from(digit.saturating_sub(b'0'))).min(100_000)
}

/// The number of digits behind their sign.
#[tactic(auto, unfolding(crate::specs::Words::signed))]
fn signed(negative: bool, digits: &[u8]) -> Option<i16>
    ensures { result ≡ signed negative digits.now }
{
    let number = natural(digits);
    if digits.len() > 5 {
        None
    } else if negative && number <= 32768 {
        Some((-(number as i32)) as i16)
    } else if !negative && number <= 32767 {
        Some(number as i16)
    } else {
        None
    }
}

/// The number that a text spells, `None` where it is out of range.
#[tactic(auto, unfolding(crate::specs::Words::number_of))]
fn number_of(text: &[u8]) -> Option<i16>
    ensures { result ≡ number_of text.now }
{
    match text.first() {
        Some(b'-') => signed(true, &text[1..]),
        _ => signed(false, text),
    }
}

/// A copy of these letters.
fn letters(alloc: Global, text: &[u8]) -> Result<Sequence<u8>, NoMemory>
    ensures { IfOk result (λ copy. copy ≡ text.now) }
{
    Ok(Sequence::from_vec(Vec::from_slice(alloc, text)?))
}

/// What stands behind a first byte.
fn behind_first(text: &[u8]) -> &[u8]
    ensures { result.now ≡ drop 1 text.now }
{
    match text {
        [] => text,
        [_, rest @ ..] => rest,
    }
}

/// A name or a keyword.
#[tactic(auto, unfolding(crate::specs::Words::lexeme_of))]
fn name_lexeme(alloc: Global, text: &[u8]) -> Result<Lexeme, NoMemory>
    ensures { IfOk result (λ lexeme. lexeme ≡ lexeme_of kinds.Name text.now) }
{
    let name = letters(alloc, text)?;
    match keyword_of(text) {
        Some(keyword) => Ok(Lexeme::Keyword(keyword, name)),
        None => Ok(Lexeme::Name(name)),
    }
}

/// A token of this kind and these bytes, as the grammar sees it.
#[tactic(auto, unfolding(crate::specs::Words::lexeme_of))]
pub fn lexeme_of(alloc: Global, kind: TokenKind, text: &[u8]) -> Result<Lexeme, NoMemory>
    ensures { IfOk result (λ lexeme. lexeme ≡ lexeme_of kind text.now) }
{
    match kind {
        TokenKind::Name => name_lexeme(alloc, text),
        TokenKind::Class => Ok(Lexeme::Class(letters(alloc, behind_first(text))?)),
        TokenKind::Escaped => Ok(Lexeme::Escaped(letters(alloc, behind_first(text))?)),
        TokenKind::Cid => Ok(Lexeme::Cid),
        TokenKind::Number => match number_of(text) {
            Some(number) => Ok(Lexeme::Number(number)),
            None => Ok(Lexeme::BadNumber),
        },
        TokenKind::Reference => Ok(Lexeme::Reference),
        TokenKind::Sign(byte) => Ok(Lexeme::Sign(byte)),
    }
}
