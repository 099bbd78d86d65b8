ghost use Rattle.std.specs.Prelude.{◌≡◌, ◌+◌, ◌^◌, ◌<◌, ◌≤◌, length};
ghost use Rattle.font_reader.specs.Fields.{IsWithin, u16_at, u32_at};
ghost use Rattle.font_reader.specs.Fields.{read_byte, read_i16, read_i8, read_u16, read_u32};

use crate::faults::{FaultKind, FontFault};

/// Where a table lies in the file, in bytes.
#[derive(Clone, Copy)]
pub struct Table {
    pub offset: u32,
    pub length: u32,
}

/// The number of 16 bits at a place of the file.
#[tactic(auto, unfolding(crate::specs::Fields::u16_at))]
pub fn u16_at(bytes: &[u8], place: usize) -> u16
    requires { place + 2 ≤ length bytes.now }
    ensures { result ≡ u16_at bytes.now place }
{
    u16::from(bytes[place]) * 256 + u16::from(bytes[place + 1])
}

/// The number of 32 bits at a place of the file.
#[tactic(auto, unfolding(crate::specs::Fields::u32_at))]
pub fn u32_at(bytes: &[u8], place: usize) -> u32
    requires { place + 4 ≤ length bytes.now }
    ensures { result ≡ u32_at bytes.now place }
{
    u32::from(u16_at(bytes, place)) * 65536 + u32::from(u16_at(bytes, place + 2))
}

/// The field that isn't within its table.
fn out_of_table(place: usize) -> FontFault
    ensures { result ≡ record { place = place; kind = FaultKind.OutOfTable } }
{
    FontFault {
        place: place as u64,
        kind: FaultKind::OutOfTable,
    }
}

/// The byte at a place of a table.
#[tactic(auto, unfolding(crate::specs::Fields::read_byte))]
pub fn read_byte(bytes: &[u8], table: Table, at: usize) -> Result<u8, FontFault>
    requires within { IsWithin bytes.now table }
    requires near { at < 2 ^ 56 }
    ensures { result ≡ read_byte bytes.now table at }
{
    let place = table.offset as usize + at;
    if at < table.length as usize {
        Ok(bytes[place])
    } else {
        Err(out_of_table(place))
    }
}

/// The number of 16 bits at a place of a table.
#[tactic(auto, unfolding(crate::specs::Fields::read_u16))]
pub fn read_u16(bytes: &[u8], table: Table, at: usize) -> Result<u16, FontFault>
    requires within { IsWithin bytes.now table }
    requires near { at < 2 ^ 56 }
    ensures { result ≡ read_u16 bytes.now table at }
{
    let place = table.offset as usize + at;
    if at + 2 <= table.length as usize {
        Ok(u16_at(bytes, place))
    } else {
        Err(out_of_table(place))
    }
}

/// The number of 16 bits with a sign at a place of a table.
#[tactic(auto, unfolding(crate::specs::Fields::read_i16))]
pub fn read_i16(bytes: &[u8], table: Table, at: usize) -> Result<i16, FontFault>
    requires within { IsWithin bytes.now table }
    requires near { at < 2 ^ 56 }
    ensures { result ≡ read_i16 bytes.now table at }
{
    let place = table.offset as usize + at;
    if at + 2 <= table.length as usize {
        Ok(u16_at(bytes, place).cast_signed())
    } else {
        Err(out_of_table(place))
    }
}

/// The number of 32 bits at a place of a table.
#[tactic(auto, unfolding(crate::specs::Fields::read_u32))]
pub fn read_u32(bytes: &[u8], table: Table, at: usize) -> Result<u32, FontFault>
    requires within { IsWithin bytes.now table }
    requires near { at < 2 ^ 56 }
    ensures { result ≡ read_u32 bytes.now table at }
{
    let place = table.offset as usize + at;
    if at + 4 <= table.length as usize {
        Ok(u32_at(bytes, place))
    } else {
        Err(out_of_table(place))
    }
}

/// The byte with a sign at a place of a table.
#[tactic(auto, unfolding(crate::specs::Fields::read_i8))]
pub fn read_i8(bytes: &[u8], table: Table, at: usize) -> Result<i8, FontFault>
    requires within { IsWithin bytes.now table }
    requires near { at < 2 ^ 56 }
    ensures { result ≡ read_i8 bytes.now table at }
{
    let place = table.offset as usize + at;
    if at < table.length as usize {
        Ok(bytes[place].cast_signed())
    } else {
        Err(out_of_table(place))
    }
}
