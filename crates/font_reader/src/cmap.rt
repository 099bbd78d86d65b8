ghost use Rattle.std.specs.Prelude.{◌≡◌, ◌+◌, ◌*◌, ◌^◌, ◌<◌, ◌≤◌, IfOk, length};
ghost use Rattle.font_reader.specs.Fields.{IsWithin};
ghost use Rattle.font_reader.specs.Cmap.{code_of, glyph_by, glyph_by_basic, glyph_by_segment};
ghost use Rattle.font_reader.specs.Cmap.{glyph_in_group, glyph_in_groups, glyph_in_segment};
ghost use Rattle.font_reader.specs.Cmap.{glyph_in_segments, subtable_in, subtable_of};
ghost use Rattle.font_reader.specs.Search.{first_found};

use crate::directory::{CMAP, FontView, table_of};
use crate::faults::FontFault;
use crate::fields::{Table, read_u16, read_u32};
use crate::versions::expect_u16;

impl FontView<'_> {
    /// The number of the glyph of a code (OpenType 1.9, "cmap"): by format 12 of platform 3 and
    /// encoding 10 where that subtable is there, and else by format 4 of platform 3 and encoding 1.
    ///
    /// In format 12 the first group that has the code decides, and in format 4 the first segment
    /// that ends at the code or after it. It is 0 where no segment or group has the code, where
    /// there is neither subtable, and for a code above 65535 without format 12. It takes no memory.
    ///
    /// # Errors
    ///
    /// `OutOfTable` at the first field that isn't within the table; `BadFormat` at the version, the
    /// format of the subtable, or an idRangeOffset that isn't 0.
    pub fn code_of(&self, code: u32) -> Result<u16, FontFault>
        ensures { result ≡ code_of self.now.bytes.now code }
    {
        glyph_of_code(self.bytes, code)
    }
}

/// The glyph of a code.
#[tactic(auto, unfolding(crate::specs::Cmap::code_of))]
fn glyph_of_code(bytes: &[u8], code: u32) -> Result<u16, FontFault>
    ensures { result ≡ code_of bytes.now code }
{
    match table_of(bytes, CMAP) {
        Some(cmap) => glyph_by(bytes, cmap, code),
        None => Ok(0),
    }
}

/// The glyph of a code, in a font with this table.
#[tactic(auto, unfolding(crate::specs::Cmap::glyph_by))]
fn glyph_by(bytes: &[u8], cmap: Table, code: u32) -> Result<u16, FontFault>
    requires { IsWithin bytes.now cmap }
    ensures { result ≡ glyph_by bytes.now cmap code }
{
    expect_u16(bytes, cmap, 0, 0)?;
    let count = read_u16(bytes, cmap, 2)?;
    match subtable_of(bytes, cmap, count, 10)? {
        Some(subtable) => glyph_in_groups(bytes, cmap, subtable, code),
        None => glyph_by_basic(bytes, cmap, count, code),
    }
}

/// The glyph of a code, in a font without the subtable of all codes.
#[tactic(auto, unfolding(crate::specs::Cmap::glyph_by_basic))]
fn glyph_by_basic(bytes: &[u8], cmap: Table, count: u16, code: u32) -> Result<u16, FontFault>
    requires { IsWithin bytes.now cmap }
    ensures { result ≡ glyph_by_basic bytes.now cmap count code }
{
    if code > 65535 {
        Ok(0)
    } else {
        match subtable_of(bytes, cmap, count, 1)? {
            Some(subtable) => glyph_in_segments(bytes, cmap, subtable, code),
            None => Ok(0),
        }
    }
}

/// Where a record's subtable is, if it is that of this encoding of platform 3.
#[tactic(auto, unfolding(crate::specs::Cmap::subtable_in))]
fn subtable_in(bytes: &[u8], cmap: Table, encoding: u16, i: usize) -> Result<Option<u32>, FontFault>
    requires within { IsWithin bytes.now cmap }
    requires near { i < 65536 }
    ensures { result ≡ subtable_in bytes.now cmap encoding i }
{
    let platform = read_u16(bytes, cmap, 4 + 8 * i)?;
    let encoding_id = read_u16(bytes, cmap, 6 + 8 * i)?;
    let offset = read_u32(bytes, cmap, 8 + 8 * i)?;
    if platform == 3 && encoding_id == encoding {
        Ok(Some(offset))
    } else {
        Ok(None)
    }
}

/// Where the first subtable of this encoding of platform 3 is.
#[tactic(auto, using(crate::proofs::Turns::found), unfolding(crate::specs::Cmap::subtable_of))]
fn subtable_of(
    bytes: &[u8],
    cmap: Table,
    count: u16,
    encoding: u16,
) -> Result<Option<u32>, FontFault>
    requires { IsWithin bytes.now cmap }
    ensures { result ≡ subtable_of bytes.now cmap count encoding }
{
    let end = usize::from(count);
    for i in 0..end {
        if let Some(offset) = subtable_in(bytes, cmap, encoding, i)? {
            return Ok(Some(offset));
        }
    }
    Ok(None)
}

/// The glyph of a code, if it lies in this group.
#[tactic(auto, unfolding(crate::specs::Cmap::glyph_in_group))]
fn glyph_in_group(
    bytes: &[u8],
    cmap: Table,
    groups: usize,
    code: u32,
    i: usize,
) -> Result<Option<u16>, FontFault>
    requires within { IsWithin bytes.now cmap }
    requires near { groups < 2 ^ 40 }
    requires few { i < 2 ^ 32 }
    ensures { result ≡ glyph_in_group bytes.now cmap groups code i }
{
    let first = read_u32(bytes, cmap, groups + 12 * i)?;
    let last = read_u32(bytes, cmap, groups + 12 * i + 4)?;
    let glyph = read_u32(bytes, cmap, groups + 12 * i + 8)?;
    if first <= code && code <= last {
        let number = u64::from(glyph) + u64::from(code - first);
        Ok(Some((number % 65536) as u16))
    } else {
        Ok(None)
    }
}

/// The glyph of a code in the first group that has it.
#[tactic(auto, using(crate::proofs::Turns::found))]
fn glyph_in_first(
    bytes: &[u8],
    cmap: Table,
    groups: usize,
    count: u32,
    code: u32,
) -> Result<Option<u16>, FontFault>
    requires within { IsWithin bytes.now cmap }
    requires near { groups < 2 ^ 40 }
    ensures { result ≡ first_found (glyph_in_group bytes.now cmap groups code) 0 count }
{
    let end = count as usize;
    for i in 0..end {
        if let Some(glyph) = glyph_in_group(bytes, cmap, groups, code, i)? {
            return Ok(Some(glyph));
        }
    }
    Ok(None)
}

/// The glyph of a code by a subtable of format 12.
#[tactic(auto, unfolding(crate::specs::Cmap::glyph_in_groups))]
fn glyph_in_groups(bytes: &[u8], cmap: Table, subtable: u32, code: u32) -> Result<u16, FontFault>
    requires { IsWithin bytes.now cmap }
    ensures { result ≡ glyph_in_groups bytes.now cmap subtable code }
{
    let place = subtable as usize;
    expect_u16(bytes, cmap, place, 12)?;
    let count = read_u32(bytes, cmap, place + 12)?;
    let found = glyph_in_first(bytes, cmap, place + 16, count, code)?;
    Ok(found.unwrap_or(0))
}

/// The glyph of a code by a segment of format 4 that ends at the code or after it.
#[tactic(auto, unfolding(crate::specs::Cmap::glyph_by_segment))]
fn glyph_by_segment(
    bytes: &[u8],
    cmap: Table,
    subtable: usize,
    count: usize,
    code: u32,
    i: usize,
) -> Result<u16, FontFault>
    requires within { IsWithin bytes.now cmap }
    requires near { subtable < 2 ^ 32 }
    requires few { count < 65536 }
    requires one { i < 65536 }
    ensures { result ≡ glyph_by_segment bytes.now cmap subtable count code i }
{
    let start = read_u16(bytes, cmap, subtable + 16 + 2 * count + 2 * i)?;
    let delta = read_u16(bytes, cmap, subtable + 16 + 4 * count + 2 * i)?;
    expect_u16(bytes, cmap, subtable + 16 + 6 * count + 2 * i, 0)?;
    if code < u32::from(start) {
        Ok(0)
    } else {
        let number = u64::from(code) + u64::from(delta);
        Ok((number % 65536) as u16)
    }
}

/// The glyph of a code by a segment of format 4, if the segment ends at the code or after it.
#[tactic(auto, unfolding(crate::specs::Cmap::glyph_in_segment))]
fn glyph_in_segment(
    bytes: &[u8],
    cmap: Table,
    subtable: usize,
    count: usize,
    code: u32,
    i: usize,
) -> Result<Option<u16>, FontFault>
    requires within { IsWithin bytes.now cmap }
    requires near { subtable < 2 ^ 32 }
    requires few { count < 65536 }
    requires one { i < 65536 }
    ensures { result ≡ glyph_in_segment bytes.now cmap subtable count code i }
{
    let end = read_u16(bytes, cmap, subtable + 14 + 2 * i)?;
    if u32::from(end) < code {
        Ok(None)
    } else {
        let glyph = glyph_by_segment(bytes, cmap, subtable, count, code, i)?;
        Ok(Some(glyph))
    }
}

/// The glyph of a code by the first segment that ends at the code or after it.
#[tactic(auto, using(crate::proofs::Turns::found))]
fn glyph_by_first(
    bytes: &[u8],
    cmap: Table,
    subtable: usize,
    count: usize,
    code: u32,
) -> Result<Option<u16>, FontFault>
    requires within { IsWithin bytes.now cmap }
    requires near { subtable < 2 ^ 32 }
    requires few { count < 65536 }
    ensures { result ≡ first_found (glyph_in_segment bytes.now cmap subtable count code) 0 count }
{
    for i in 0..count {
        if let Some(glyph) = glyph_in_segment(bytes, cmap, subtable, count, code, i)? {
            return Ok(Some(glyph));
        }
    }
    Ok(None)
}

/// The glyph of a code by a subtable of format 4.
#[tactic(auto, unfolding(crate::specs::Cmap::glyph_in_segments))]
fn glyph_in_segments(bytes: &[u8], cmap: Table, subtable: u32, code: u32) -> Result<u16, FontFault>
    requires { IsWithin bytes.now cmap }
    ensures { result ≡ glyph_in_segments bytes.now cmap subtable code }
{
    let place = subtable as usize;
    expect_u16(bytes, cmap, place, 4)?;
    let count = usize::from(read_u16(bytes, cmap, place + 6)? / 2);
    let found = glyph_by_first(bytes, cmap, place, count, code)?;
    Ok(found.unwrap_or(0))
}
