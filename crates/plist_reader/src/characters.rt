ghost use Rattle.std.specs.Prelude.{◌≡◌, ◌<◌, IfSome};
ghost use Rattle.plist_reader.specs.Characters.{is_space, is_word, octal_value, hex_value, byte_of};

/// Whether this character is white space.
#[tactic(auto, unfolding(crate::specs::Characters::is_space))]
pub(crate) fn is_space(character: char) -> bool
    ensures { result ≡ is_space character }
{
    character == ' ' || character == '\t' || character == '\r' || character == '\n'
}

/// Whether this character can stand in a bare word.
#[tactic(auto, unfolding(crate::specs::Characters::is_word))]
pub(crate) fn is_word(character: char) -> bool
    ensures { result ≡ is_word character }
{
    match character {
        '{' | '}' | '(' | ')' | '=' | ';' | ',' | '"' | '\'' | '<' | '>' | '\\' => false,
        _ => character > ' ' && character <= '~',
    }
}

/// The value of an octal digit.
#[tactic(auto, unfolding(crate::specs::Characters::octal_value))]
pub(crate) fn octal_value(character: char) -> Option<u8>
    ensures { result ≡ octal_value character }
{
    if character >= '0' && character <= '7' {
        Some((character as u32 - 48) as u8)
    } else {
        None
    }
}

/// The value of a hexadecimal digit, of either case.
#[tactic(auto, unfolding(crate::specs::Characters::hex_value))]
pub(crate) fn hex_value(character: char) -> Option<u8>
    ensures value { result ≡ hex_value character }
    ensures small { IfSome result (λ digit. digit < 16) }
{
    if character >= '0' && character <= '9' {
        Some((character as u32 - 48) as u8)
    } else if character >= 'A' && character <= 'F' {
        Some((character as u32 - 55) as u8)
    } else if character >= 'a' && character <= 'f' {
        Some((character as u32 - 87) as u8)
    } else {
        None
    }
}

/// The byte of two hexadecimal digits.
#[tactic(auto, unfolding(crate::specs::Characters::byte_of))]
pub(crate) fn byte_of(high: char, low: char) -> Option<u8>
    ensures { result ≡ byte_of high low }
{
    let high = hex_value(high)?;
    let low = hex_value(low)?;
    Some(high * 16 + low)
}
