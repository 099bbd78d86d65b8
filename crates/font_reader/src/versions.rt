ghost use Rattle.std.specs.Prelude.{◌≡◌, ◌+◌, ◌^◌, ◌<◌, IfOk, length};
ghost use Rattle.font_reader.specs.Fields.{IsWithin};
ghost use Rattle.font_reader.specs.Versions.{axes_for, axes_in, axis_count, expect_u16, expect_u32};
ghost use Rattle.font_reader.specs.Versions.{glyph_among, glyph_count, required};

use crate::directory::{FVAR, MAXP, table_of};
use crate::faults::{FaultKind, FontFault};
use crate::fields::{Table, read_u16, read_u32};

/// The fault of a number at a place of a table that isn't one of those that are read.
pub fn bad_format(table: Table, at: usize) -> FontFault
    requires { at < 2 ^ 56 }
    ensures { result ≡ record { place = table.offset + at; kind = FaultKind.BadFormat } }
{
    FontFault {
        place: (table.offset as usize + at) as u64,
        kind: FaultKind::BadFormat,
    }
}

/// The number of 16 bits at a place of a table, which has to be this one.
#[tactic(auto, unfolding(crate::specs::Versions::expect_u16))]
pub fn expect_u16(bytes: &[u8], table: Table, at: usize, wanted: u16) -> Result<u16, FontFault>
    requires within { IsWithin bytes.now table }
    requires near { at < 2 ^ 56 }
    ensures { result ≡ expect_u16 bytes.now table at wanted }
{
    let value = read_u16(bytes, table, at)?;
    if value == wanted {
        Ok(value)
    } else {
        Err(bad_format(table, at))
    }
}

/// The number of 32 bits at a place of a table, which has to be this one.
#[tactic(auto, unfolding(crate::specs::Versions::expect_u32))]
pub fn expect_u32(bytes: &[u8], table: Table, at: usize, wanted: u32) -> Result<u32, FontFault>
    requires within { IsWithin bytes.now table }
    requires near { at < 2 ^ 56 }
    ensures { result ≡ expect_u32 bytes.now table at wanted }
{
    let value = read_u32(bytes, table, at)?;
    if value == wanted {
        Ok(value)
    } else {
        Err(bad_format(table, at))
    }
}

/// The table of a tag, with the number that is told where it is missing.
#[tactic(auto, unfolding(crate::specs::Versions::required))]
pub fn required(bytes: &[u8], tag: u32, number: u64) -> Result<Table, FontFault>
    ensures value { result ≡ required bytes.now tag number }
    ensures within { IfOk result (IsWithin bytes.now) }
{
    match table_of(bytes, tag) {
        Some(table) => Ok(table),
        None => Err(FontFault {
            place: number,
            kind: FaultKind::NoTable,
        }),
    }
}

/// How many glyphs the font has.
#[tactic(auto, unfolding(crate::specs::Versions::glyph_count))]
pub fn glyph_count(bytes: &[u8]) -> Result<u16, FontFault>
    ensures { result ≡ glyph_count bytes.now }
{
    let maxp = required(bytes, MAXP, 1)?;
    expect_u32(bytes, maxp, 0, 65536)?;
    read_u16(bytes, maxp, 4)
}

/// The same, where this glyph is one of them.
#[tactic(auto, unfolding(crate::specs::Versions::glyph_among))]
pub fn glyph_among(bytes: &[u8], gid: u16) -> Result<u16, FontFault>
    ensures value { result ≡ glyph_among bytes.now gid }
    ensures above { IfOk result (λ count. gid < count) }
{
    let count = glyph_count(bytes)?;
    if gid < count {
        Ok(count)
    } else {
        Err(FontFault {
            place: u64::from(gid),
            kind: FaultKind::NoPoint,
        })
    }
}

/// How many axes a font with this table has.
#[tactic(auto, unfolding(crate::specs::Versions::axes_in))]
fn axes_in(bytes: &[u8], fvar: Table) -> Result<u16, FontFault>
    requires { IsWithin bytes.now fvar }
    ensures { result ≡ axes_in bytes.now fvar }
{
    expect_u32(bytes, fvar, 0, 65536)?;
    read_u16(bytes, fvar, 8)
}

/// How many axes the font has.
#[tactic(auto, unfolding(crate::specs::Versions::axis_count))]
pub fn axis_count(bytes: &[u8]) -> Result<u16, FontFault>
    ensures { result ≡ axis_count bytes.now }
{
    match table_of(bytes, FVAR) {
        Some(fvar) => axes_in(bytes, fvar),
        None => Ok(0),
    }
}

/// The same, where there are so many coordinates.
#[tactic(auto, unfolding(crate::specs::Versions::axes_for))]
pub fn axes_for(bytes: &[u8], coordinates: usize) -> Result<u16, FontFault>
    ensures value { result ≡ axes_for bytes.now coordinates }
    ensures same { IfOk result (λ axes. axes ≡ coordinates) }
{
    let axes = axis_count(bytes)?;
    if coordinates == usize::from(axes) {
        Ok(axes)
    } else {
        Err(FontFault {
            place: u64::from(axes),
            kind: FaultKind::CoordCount,
        })
    }
}
