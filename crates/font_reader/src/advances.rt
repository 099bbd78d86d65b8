ghost use Rattle.std.specs.Prelude.{◌≡◌, ◌<◌, ◌≤◌, ◌*◌, ◌+ℤ◌, pos, unsigned_abs, IfOk, length};
ghost use Rattle.font_reader.specs.Fields.{IsWithin};
ghost use Rattle.font_reader.specs.Advances.{advance_at, advance_delta, advance_delta_in};
ghost use Rattle.font_reader.specs.Advances.{metric_count, stored_advance};

use crate::directory::{FontView, HHEA, HMTX, HVAR, table_of};
use crate::faults::FontFault;
use crate::fields::{Table, read_u16, read_u32};
use crate::stores::store_value;
use crate::versions::{axes_for, bad_format, expect_u32, glyph_among, required};
use fixed_math::F2Dot14;

impl FontView<'_> {
    /// The advance of a glyph at a place of the design space, in 16.16: that of `hmtx`, with the
    /// value of the glyph's row in `HVAR` where that table is there (OpenType 1.9, "hmtx" and
    /// "HVAR"). A glyph after the last metric has the advance of that metric. It takes no memory.
    ///
    /// # Errors
    ///
    /// `CoordCount` at the number of axes, where there are more or fewer coordinates; `NoPoint` at
    /// a glyph that isn't there; then the first fault on the way, in `hhea`, `hmtx` and `HVAR`:
    /// `OutOfTable` at a field that isn't within its table, `BadFormat` at a version, a count or a
    /// number of a region that isn't one that is read.
    pub fn advance_at(&self, gid: u16, at: &[F2Dot14]) -> Result<i64, FontFault>
        ensures { result ≡ advance_at self.now.bytes.now gid at.now }
    {
        advance_of(self.bytes, gid, at)
    }
}

/// The advance of a glyph.
#[tactic(auto, unfolding(crate::specs::Advances::advance_at))]
fn advance_of(bytes: &[u8], gid: u16, place: &[F2Dot14]) -> Result<i64, FontFault>
    ensures { result ≡ advance_at bytes.now gid place.now }
{
    axes_for(bytes, place.len())?;
    glyph_among(bytes, gid)?;
    let advance = stored_advance(bytes, gid)?;
    let delta = advance_delta(bytes, gid, place)?;
    Ok(with_delta(advance, delta))
}

/// An advance in 16.16, with a delta.
fn with_delta(advance: u16, delta: i64) -> i64
    requires { unsigned_abs delta ≤ 140737488355328 }
    ensures { result ≡ pos (advance * 65536) +ℤ delta }
{
    i64::from(advance) * 65536 + delta
}

/// How many metrics there are.
#[tactic(auto, unfolding(crate::specs::Advances::metric_count))]
fn metric_count(bytes: &[u8]) -> Result<u16, FontFault>
    ensures value { result ≡ metric_count bytes.now }
    ensures some { IfOk result (λ count. 0 < count) }
{
    let hhea = required(bytes, HHEA, 2)?;
    expect_u32(bytes, hhea, 0, 65536)?;
    let count = read_u16(bytes, hhea, 34)?;
    if count == 0 {
        Err(bad_format(hhea, 34))
    } else {
        Ok(count)
    }
}

/// The advance of a glyph, as it is stored.
#[tactic(auto, unfolding(crate::specs::Advances::stored_advance))]
pub fn stored_advance(bytes: &[u8], gid: u16) -> Result<u16, FontFault>
    ensures { result ≡ stored_advance bytes.now gid }
{
    let count = metric_count(bytes)?;
    let hmtx = required(bytes, HMTX, 3)?;
    read_u16(bytes, hmtx, 4 * usize::from(gid.min(count - 1)))
}

/// What varies of a glyph's advance, in a font with this table.
#[tactic(auto, unfolding(crate::specs::Advances::advance_delta_in))]
fn advance_delta_in(
    bytes: &[u8],
    hvar: Table,
    gid: u16,
    place: &[F2Dot14],
) -> Result<i64, FontFault>
    requires within { IsWithin bytes.now hvar }
    requires axes { length place.now < 65536 }
    ensures value { result ≡ advance_delta_in bytes.now hvar gid place.now }
    ensures small { IfOk result (λ sum. unsigned_abs sum ≤ 140737488355328) }
{
    expect_u32(bytes, hvar, 0, 65536)?;
    let store = read_u32(bytes, hvar, 4)?;
    expect_u32(bytes, hvar, 8, 0)?;
    if store == 0 {
        Ok(0)
    } else {
        store_value(bytes, hvar, store, 0, gid, place)
    }
}

/// What varies of a glyph's advance.
#[tactic(auto, unfolding(crate::specs::Advances::advance_delta))]
fn advance_delta(bytes: &[u8], gid: u16, place: &[F2Dot14]) -> Result<i64, FontFault>
    requires { length place.now < 65536 }
    ensures value { result ≡ advance_delta bytes.now gid place.now }
    ensures small { IfOk result (λ sum. unsigned_abs sum ≤ 140737488355328) }
{
    match table_of(bytes, HVAR) {
        Some(hvar) => advance_delta_in(bytes, hvar, gid, place),
        None => Ok(0),
    }
}
