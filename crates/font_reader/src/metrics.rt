ghost use Rattle.std.specs.Prelude.{◌≡◌, ◌<◌, ◌≤◌, ◌+ℤ◌, ◌*ℤ◌, pos, unsigned_abs, Some};
ghost use Rattle.std.specs.Prelude.{IfOk, IfSome, length};
ghost use Rattle.font_reader.specs.Fields.{IsWithin};
ghost use Rattle.font_reader.specs.Metrics.{metric_at, metric_delta, metric_delta_in, metric_field};
ghost use Rattle.font_reader.specs.Metrics.{metric_tag, stored_metric, value_in_record};
ghost use Rattle.font_reader.specs.Search.{first_found};

use crate::directory::{FontView, MVAR, OS2, table_of};
use crate::faults::FontFault;
use crate::fields::{Table, read_i16, read_u16, read_u32};
use crate::stores::store_value;
use crate::versions::{axes_for, expect_u16, expect_u32, required};
use fixed_math::F2Dot14;

/// A metric of a whole font (OpenType 1.9, "OS/2" and "MVAR", "Value tags").
#[derive(Clone, Copy, Debug, PartialEq, Eq)]
pub enum Metric {
    /// `sCapHeight`, which varies with the tag `cpht`.
    CapHeight,
    /// `sTypoAscender`, which varies with the tag `hasc`.
    Ascender,
    /// `sTypoDescender`, which varies with the tag `hdsc`.
    Descender,
    /// `sxHeight`, which varies with the tag `xhgt`.
    XHeight,
}

impl FontView<'_> {
    /// A metric of the font at a place of the design space, in 16.16: the field of `OS/2`, with the
    /// value of its row where `MVAR` has one (OpenType 1.9, "OS/2" and "MVAR"). It takes no memory.
    ///
    /// # Errors
    ///
    /// `CoordCount` at the number of axes, where there are more or fewer coordinates; `NoTable` at
    /// 7, where there is no `OS/2`; then the first fault on the way, in `OS/2` and `MVAR`:
    /// `OutOfTable` at a field that isn't within its table, `BadFormat` at a version, the size of
    /// the records, a count or a number of a region that isn't one that is read.
    pub fn metric_at(&self, metric: Metric, at: &[F2Dot14]) -> Result<i64, FontFault>
        ensures { result ≡ metric_at self.now.bytes.now metric at.now }
    {
        metric_of(self.bytes, metric, at)
    }
}

/// A metric of the font.
#[tactic(auto, unfolding(crate::specs::Metrics::metric_at))]
fn metric_of(bytes: &[u8], metric: Metric, place: &[F2Dot14]) -> Result<i64, FontFault>
    ensures { result ≡ metric_at bytes.now metric place.now }
{
    axes_for(bytes, place.len())?;
    let stored = stored_metric(bytes, metric)?;
    let delta = metric_delta(bytes, metric_tag(metric), place)?;
    Ok(with_delta(stored, delta))
}

/// A metric in 16.16, with a delta.
fn with_delta(stored: i16, delta: i64) -> i64
    requires { unsigned_abs delta ≤ 140737488355328 }
    ensures { result ≡ (stored *ℤ pos 65536) +ℤ delta }
{
    i64::from(stored) * 65536 + delta
}

/// Where `OS/2` has a metric.
#[tactic(auto, unfolding(crate::specs::Metrics::metric_field))]
fn metric_field(metric: Metric) -> usize
    ensures value { result ≡ metric_field metric }
    ensures near { result < 100 }
{
    match metric {
        Metric::CapHeight => 88,
        Metric::Ascender => 68,
        Metric::Descender => 70,
        Metric::XHeight => 86,
    }
}

/// The tag of a metric in `MVAR`: `cpht`, `hasc`, `hdsc`, `xhgt`.
#[tactic(auto, unfolding(crate::specs::Metrics::metric_tag))]
fn metric_tag(metric: Metric) -> u32
    ensures { result ≡ metric_tag metric }
{
    match metric {
        Metric::CapHeight => 0x6370_6874,
        Metric::Ascender => 0x6861_7363,
        Metric::Descender => 0x6864_7363,
        Metric::XHeight => 0x7868_6774,
    }
}

/// A metric, as it is stored.
#[tactic(auto, unfolding(crate::specs::Metrics::stored_metric))]
fn stored_metric(bytes: &[u8], metric: Metric) -> Result<i16, FontFault>
    ensures { result ≡ stored_metric bytes.now metric }
{
    let table = required(bytes, OS2, 7)?;
    expect_u16(bytes, table, 0, 4)?;
    read_i16(bytes, table, metric_field(metric))
}

/// The value of a record's row, if the record is that of the tag.
#[tactic(auto, unfolding(crate::specs::Metrics::value_in_record))]
fn value_in_record(
    bytes: &[u8],
    mvar: Table,
    store: u16,
    tag: u32,
    place: &[F2Dot14],
    i: usize,
) -> Result<Option<i64>, FontFault>
    requires within { IsWithin bytes.now mvar }
    requires axes { length place.now < 65536 }
    requires few { i < 65536 }
    ensures value { result ≡ value_in_record bytes.now mvar store tag place.now i }
    ensures small { IfOk result (λ found. IfSome found
        (λ sum. unsigned_abs sum ≤ 140737488355328)) }
{
    let value_tag = read_u32(bytes, mvar, 12 + 8 * i)?;
    let outer = read_u16(bytes, mvar, 16 + 8 * i)?;
    let inner = read_u16(bytes, mvar, 18 + 8 * i)?;
    if value_tag == tag {
        let value = store_value(bytes, mvar, u32::from(store), outer, inner, place)?;
        Ok(Some(value))
    } else {
        Ok(None)
    }
}

/// The value of the row of the first record of a tag.
#[tactic(auto, using(crate::proofs::Turns::found))]
fn value_in_records(
    bytes: &[u8],
    mvar: Table,
    store: u16,
    tag: u32,
    place: &[F2Dot14],
    count: u16,
) -> Result<Option<i64>, FontFault>
    requires within { IsWithin bytes.now mvar }
    requires axes { length place.now < 65536 }
    ensures value { result
        ≡ first_found (value_in_record bytes.now mvar store tag place.now) 0 count }
    ensures small { IfOk result (λ found. IfSome found
        (λ sum. unsigned_abs sum ≤ 140737488355328)) }
{
    let end = usize::from(count);
    for i in 0..end {
        if let Some(value) = value_in_record(bytes, mvar, store, tag, place, i)? {
            return Ok(Some(value));
        }
    }
    Ok(None)
}

/// What varies of a metric, in a font with this table.
#[tactic(auto, unfolding(crate::specs::Metrics::metric_delta_in))]
fn metric_delta_in(bytes: &[u8], mvar: Table, tag: u32, place: &[F2Dot14]) -> Result<i64, FontFault>
    requires within { IsWithin bytes.now mvar }
    requires axes { length place.now < 65536 }
    ensures value { result ≡ metric_delta_in bytes.now mvar tag place.now }
    ensures small { IfOk result (λ sum. unsigned_abs sum ≤ 140737488355328) }
{
    expect_u32(bytes, mvar, 0, 65536)?;
    expect_u16(bytes, mvar, 6, 8)?;
    let count = read_u16(bytes, mvar, 8)?;
    let store = read_u16(bytes, mvar, 10)?;
    if store == 0 {
        Ok(0)
    } else {
        let found = value_in_records(bytes, mvar, store, tag, place, count)?;
        Ok(found.unwrap_or(0))
    }
}

/// What varies of a metric.
#[tactic(auto, unfolding(crate::specs::Metrics::metric_delta))]
fn metric_delta(bytes: &[u8], tag: u32, place: &[F2Dot14]) -> Result<i64, FontFault>
    requires { length place.now < 65536 }
    ensures value { result ≡ metric_delta bytes.now tag place.now }
    ensures small { IfOk result (λ sum. unsigned_abs sum ≤ 140737488355328) }
{
    match table_of(bytes, MVAR) {
        Some(mvar) => metric_delta_in(bytes, mvar, tag, place),
        None => Ok(0),
    }
}
