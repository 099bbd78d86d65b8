ghost use Rattle.std.specs.Prelude.{◌≡◌, ◌+◌, ◌*◌, ◌≤◌, ◌++◌, length, OnOk};
ghost use Rattle.name_tables.specs.Texts.{utf16_bytes, utf16_character};

use std::alloc::AllocError;
use table_bytes::push_uint16;

/// The first character that takes two units in UTF-16.
const FIRST_PAIR: u32 = 0x1_0000;

/// Appends a character in UTF-16, the high byte of each unit first.
fn push_character(bytes: &mut Vec<u8>, character: char) -> Result<(), AllocError>
    ensures { OnOk result (bytes.new.items ≡ bytes.old.items ++ utf16_character character) }
{
    let code = u32::from(character);
    if code < FIRST_PAIR {
        return push_uint16(bytes, code as u16);
    }
    let over = code - FIRST_PAIR;
    push_uint16(bytes, (0xD800 + over / 0x400) as u16)?;
    push_uint16(bytes, (0xDC00 + over % 0x400) as u16)
}

/// Appends a text in UTF-16, which has at most as many units as the text has bytes in UTF-8.
pub fn push_utf16(bytes: &mut Vec<u8>, text: &str) -> Result<(), AllocError>
    ensures bytes { OnOk result (bytes.new.items ≡ bytes.old.items ++ utf16_bytes text.now) }
    ensures len { OnOk result (length (utf16_bytes text.now) ≤ 2 * length text.now) }
{
    for character in text.chars() {
        push_character(bytes, character)?;
    }
    Ok(())
}
