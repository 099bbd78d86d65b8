ghost use Rattle.std.specs.Prelude.{◌≡◌, ◌∷◌, [], ◌++◌, ◌+◌, ◌<◌, IfOk, OnOk};
ghost use Rattle.std.specs.String.{string_bytes};
ghost use Rattle.name_tables.specs.Texts.{is_postscript as is_postscript_byte, postscript_family};
ghost use Rattle.name_tables.specs.Texts.{postscript_text, version_text};
ghost use Rattle.name_tables.specs.Stores.{with_postscript};

use font_ir::Header;
use std::alloc::{AllocError, Global};

/// The most bytes of the family's name in the PostScript name.
const POSTSCRIPT_BYTES: usize = 55;

/// Two texts as one.
pub fn joined(alloc: Global, first: &str, second: &str) -> Result<String, AllocError>
    ensures { IfOk result (λ text. string_bytes text ≡ first.now ++ second.now) }
{
    let mut text = String::from_str(alloc, first)?;
    text.push_str(second)?;
    Ok(text)
}

/// Appends a decimal digit.
fn push_digit(text: &mut String, digit: u16) -> Result<(), AllocError>
    requires { digit < 10 }
    ensures { OnOk result (string_bytes text.new ≡ string_bytes text.old ++ (48 + digit) ∷ []) }
{
    text.push(char::from(b'0' + digit as u8))
}

/// The major version, a point, and the minor version in three digits.
#[tactic(auto, unfolding(crate::specs::Texts::version_text))]
pub fn version_of(alloc: Global, header: &Header) -> Result<String, AllocError>
    ensures { IfOk result (λ text. string_bytes text ≡ version_text header.now) }
{
    let mut text = header.major.to_string(alloc)?;
    text.push_str(".")?;
    push_digit(&mut text, header.minor / 100 % 10)?;
    push_digit(&mut text, header.minor / 10 % 10)?;
    push_digit(&mut text, header.minor % 10)?;
    Ok(text)
}

/// Whether a PostScript name may have a character.
fn is_postscript(byte: u8) -> bool
    ensures { result ≡ is_postscript_byte byte }
{
    matches!(byte, 0x21..=0x7E) && !b"[](){}<>/%".contains(&byte)
}

/// Appends a character, where a PostScript name may have it and isn't full.
fn push_postscript(text: &mut String, byte: u8) -> Result<(), AllocError>
    ensures { OnOk result (string_bytes text.new ≡ with_postscript (string_bytes text.old) byte) }
{
    if text.len() < POSTSCRIPT_BYTES && is_postscript(byte) {
        return text.push(char::from(byte));
    }
    Ok(())
}

/// What may stand in a PostScript name of a family's name.
fn postscript_family_of(alloc: Global, family: &[u8]) -> Result<String, AllocError>
    ensures { IfOk result (λ text. string_bytes text ≡ postscript_family family.now) }
{
    let mut text = String::new(alloc);
    for byte in family {
        push_postscript(&mut text, *byte)?;
    }
    Ok(text)
}

/// The family's characters that a PostScript name may have, and the style.
#[tactic(auto, unfolding(crate::specs::Texts::postscript_text))]
pub fn postscript_name(alloc: Global, header: &Header) -> Result<String, AllocError>
    ensures { IfOk result (λ text. string_bytes text ≡ postscript_text header.now) }
{
    let mut text = postscript_family_of(alloc, header.family.as_bytes())?;
    text.push_str("-Regular")?;
    Ok(text)
}
