ghost use Rattle.std.specs.Prelude.{◌≡◌, ◌+◌, ◌*◌, ◌^◌, ◌<◌, ◌≤◌, ◌≤ℤ◌, ◌+ℤ◌, ◌*ℤ◌, pos};
ghost use Rattle.std.specs.Prelude.{unsigned_abs};
ghost use Rattle.std.specs.Prelude.{IfOk, length};
ghost use Rattle.font_reader.specs.Fields.{IsWithin};
ghost use Rattle.font_reader.specs.Fold.{folded};
ghost use Rattle.font_reader.specs.Stores.{IsNear, known_regions, region_scalar, region_side};
ghost use Rattle.font_reader.specs.Stores.{row_delta, row_region, row_sum, row_value, store_value};
ghost use Rattle.font_reader.specs.Stores.{with_axis, with_region};

use crate::faults::FontFault;
use crate::fields::{Table, read_i8, read_i16, read_u16, read_u32};
use crate::versions::{bad_format, expect_u16};
use fixed_math::{F2Dot14, Fixed};
use variation_model::scalar_with_axis;

/// A row of a store: where its list of regions, the numbers of its regions and its deltas begin in
/// the table, how many of its deltas are words, and how many regions the list has.
#[derive(Clone, Copy)]
pub struct Row {
    pub regions: usize,
    pub indexes: usize,
    pub deltas: usize,
    pub words: usize,
    pub known: usize,
}

/// The start, the peak and the end of a region on an axis.
#[tactic(auto, unfolding(crate::specs::Stores::region_side))]
fn region_side(
    bytes: &[u8],
    table: Table,
    at: usize,
) -> Result<(F2Dot14, F2Dot14, F2Dot14), FontFault>
    requires within { IsWithin bytes.now table }
    requires near { at < 2 ^ 50 }
    ensures { result ≡ region_side bytes.now table at }
{
    let start = F2Dot14(read_i16(bytes, table, at)?);
    let peak = F2Dot14(read_i16(bytes, table, at + 2)?);
    let end = F2Dot14(read_i16(bytes, table, at + 4)?);
    Ok((start, peak, end))
}

/// The scalar of a region so far, with one more axis.
#[tactic(auto, unfolding(crate::specs::Stores::with_axis))]
fn with_axis(
    bytes: &[u8],
    table: Table,
    region: usize,
    place: &[F2Dot14],
    i: usize,
    before: Fixed,
) -> Result<Fixed, FontFault>
    requires within { IsWithin bytes.now table }
    requires near { region < 2 ^ 45 }
    requires few { length place.now < 65536 }
    requires one { i < length place.now }
    requires low { pos 0 ≤ℤ before.0 }
    requires high { before.0 ≤ℤ pos 65536 }
    ensures value { result ≡ with_axis bytes.now table region place.now i before }
    ensures low { IfOk result (λ scalar. pos 0 ≤ℤ scalar.0) }
    ensures high { IfOk result (λ scalar. scalar.0 ≤ℤ pos 65536) }
{
    let side = region_side(bytes, table, region + 6 * i)?;
    Ok(scalar_with_axis(before, side, place[i]))
}

/// The scalar of a region.
#[tactic(auto, using(crate::proofs::Turns::fold), unfolding(crate::specs::Stores::region_scalar))]
fn region_scalar(
    bytes: &[u8],
    table: Table,
    region: usize,
    place: &[F2Dot14],
) -> Result<Fixed, FontFault>
    requires within { IsWithin bytes.now table }
    requires near { region < 2 ^ 45 }
    requires few { length place.now < 65536 }
    ensures value { result ≡ region_scalar bytes.now table region place.now }
    ensures low { IfOk result (λ scalar. pos 0 ≤ℤ scalar.0) }
    ensures high { IfOk result (λ scalar. scalar.0 ≤ℤ pos 65536) }
{
    let axes = place.len();
    let mut scalar = Fixed(65536);
    for i in 0..axes {
        scalar = with_axis(bytes, table, region, place, i, scalar)?;
    }
    Ok(scalar)
}

/// The delta of a row for one of its regions.
#[tactic(auto, unfolding(crate::specs::Stores::row_delta))]
fn row_delta(bytes: &[u8], table: Table, row: Row, i: usize) -> Result<i16, FontFault>
    requires within { IsWithin bytes.now table }
    requires near { IsNear row }
    requires few { i < 65536 }
    ensures { result ≡ row_delta bytes.now table row i }
{
    if i < row.words {
        read_i16(bytes, table, row.deltas + 2 * i)
    } else {
        let delta = read_i8(bytes, table, row.deltas + row.words + i)?;
        Ok(i16::from(delta))
    }
}

/// The number of a region of a row.
#[tactic(auto, unfolding(crate::specs::Stores::row_region))]
fn row_region(bytes: &[u8], table: Table, row: Row, i: usize) -> Result<u16, FontFault>
    requires within { IsWithin bytes.now table }
    requires near { IsNear row }
    requires few { i < 65536 }
    ensures { result ≡ row_region bytes.now table row i }
{
    let at = row.indexes + 2 * i;
    let region = read_u16(bytes, table, at)?;
    if usize::from(region) < row.known {
        Ok(region)
    } else {
        Err(bad_format(table, at))
    }
}

/// The place after so many coordinates of regions.
fn region_place(row: Row, axes: usize, region: u16) -> usize
    requires near { IsNear row }
    requires few { axes < 65536 }
    ensures value { result ≡ row.regions + 6 * axes * region }
    ensures near { result < 2 ^ 45 }
{
    row.regions + 6 * axes * usize::from(region)
}

/// A delta times its scalar.
pub fn weighed(scalar: Fixed, delta: i16) -> i64
    requires low { pos 0 ≤ℤ scalar.0 }
    requires high { scalar.0 ≤ℤ pos 65536 }
    ensures value { result ≡ scalar.0 *ℤ delta }
    ensures small { unsigned_abs result ≤ 2147483648 }
{
    i64::from(scalar.0) * i64::from(delta)
}

/// A sum with one more delta, times its scalar.
fn with_delta(sum: i64, scalar: Fixed, delta: i16, i: usize) -> i64
    requires low { pos 0 ≤ℤ scalar.0 }
    requires high { scalar.0 ≤ℤ pos 65536 }
    requires few { i < 65536 }
    requires small { unsigned_abs sum ≤ 2147483648 * i }
    ensures value { result ≡ sum +ℤ (scalar.0 *ℤ delta) }
    ensures small { unsigned_abs result ≤ 2147483648 * (i + 1) }
{
    sum + weighed(scalar, delta)
}

/// The sum of a row's deltas so far, with one more region.
#[tactic(auto, unfolding(crate::specs::Stores::with_region))]
fn with_region(
    bytes: &[u8],
    table: Table,
    row: Row,
    place: &[F2Dot14],
    i: usize,
    sum: i64,
) -> Result<i64, FontFault>
    requires within { IsWithin bytes.now table }
    requires near { IsNear row }
    requires axes { length place.now < 65536 }
    requires few { i < 65536 }
    requires small { unsigned_abs sum ≤ 2147483648 * i }
    ensures value { result ≡ with_region bytes.now table row place.now i sum }
    ensures small { IfOk result (λ next. unsigned_abs next ≤ 2147483648 * (i + 1)) }
{
    let region = row_region(bytes, table, row, i)?;
    let at = region_place(row, place.len(), region);
    let scalar = region_scalar(bytes, table, at, place)?;
    let delta = row_delta(bytes, table, row, i)?;
    Ok(with_delta(sum, scalar, delta, i))
}

/// The sum of a row's deltas.
#[tactic(auto, using(crate::proofs::Turns::fold))]
fn all_regions(
    bytes: &[u8],
    table: Table,
    row: Row,
    place: &[F2Dot14],
    regions: u16,
) -> Result<i64, FontFault>
    requires within { IsWithin bytes.now table }
    requires near { IsNear row }
    requires axes { length place.now < 65536 }
    ensures value { result ≡ folded (with_region bytes.now table row place.now) 0 regions (pos 0) }
    ensures small { IfOk result (λ sum. unsigned_abs sum ≤ 140737488355328) }
{
    let end = usize::from(regions);
    let mut sum = 0;
    for i in 0..end {
        sum = with_region(bytes, table, row, place, i, sum)?;
    }
    Ok(sum)
}

/// How many regions a list of a font with so many axes has.
#[tactic(auto, unfolding(crate::specs::Stores::known_regions))]
fn known_regions(bytes: &[u8], table: Table, list: usize, axes: usize) -> Result<u16, FontFault>
    requires within { IsWithin bytes.now table }
    requires near { list < 2 ^ 40 }
    requires few { axes < 65536 }
    ensures { result ≡ known_regions bytes.now table list axes }
{
    expect_u16(bytes, table, list, axes as u16)?;
    read_u16(bytes, table, list + 2)
}

/// Where the deltas of a row begin.
fn deltas_place(data_at: usize, inner: u16, words: u16, regions: u16) -> usize
    requires { data_at < 2 ^ 39 }
    ensures value { result ≡ data_at + 6 + 2 * regions + (words + regions) * inner }
    ensures near { result < 2 ^ 40 }
{
    let size = usize::from(words) + usize::from(regions);
    data_at + 6 + 2 * usize::from(regions) + size * usize::from(inner)
}

/// The value of a row with so many words and regions.
#[tactic(auto, unfolding(crate::specs::Stores::row_sum))]
fn row_sum(
    bytes: &[u8],
    table: Table,
    list: usize,
    data_at: usize,
    inner: u16,
    words: u16,
    regions: u16,
    place: &[F2Dot14],
) -> Result<i64, FontFault>
    requires within { IsWithin bytes.now table }
    requires list { list < 2 ^ 39 }
    requires near { data_at < 2 ^ 39 }
    requires axes { length place.now < 65536 }
    ensures value { result ≡ row_sum bytes.now table list data_at inner words regions place.now }
    ensures small { IfOk result (λ sum. unsigned_abs sum ≤ 140737488355328) }
{
    let known = known_regions(bytes, table, list, place.len())?;
    let row = Row {
        regions: list + 4,
        indexes: data_at + 6,
        deltas: deltas_place(data_at, inner, words, regions),
        words: usize::from(words),
        known: usize::from(known),
    };
    all_regions(bytes, table, row, place, regions)
}

/// The value of a row.
#[tactic(auto, unfolding(crate::specs::Stores::row_value))]
fn row_value(
    bytes: &[u8],
    table: Table,
    list: usize,
    data_at: usize,
    inner: u16,
    place: &[F2Dot14],
) -> Result<i64, FontFault>
    requires within { IsWithin bytes.now table }
    requires list { list < 2 ^ 39 }
    requires near { data_at < 2 ^ 39 }
    requires axes { length place.now < 65536 }
    ensures value { result ≡ row_value bytes.now table list data_at inner place.now }
    ensures small { IfOk result (λ sum. unsigned_abs sum ≤ 140737488355328) }
{
    let items = read_u16(bytes, table, data_at)?;
    let words = read_u16(bytes, table, data_at + 2)?;
    let regions = read_u16(bytes, table, data_at + 4)?;
    if regions < words || words >= 32768 {
        Err(bad_format(table, data_at + 2))
    } else if items <= inner {
        Ok(0)
    } else {
        row_sum(bytes, table, list, data_at, inner, words, regions, place)
    }
}

/// The value of a row of a store at a place of the design space, in 16.16.
#[tactic(auto, unfolding(crate::specs::Stores::store_value))]
pub fn store_value(
    bytes: &[u8],
    table: Table,
    store: u32,
    outer: u16,
    inner: u16,
    place: &[F2Dot14],
) -> Result<i64, FontFault>
    requires within { IsWithin bytes.now table }
    requires axes { length place.now < 65536 }
    ensures value { result ≡ store_value bytes.now table store outer inner place.now }
    ensures small { IfOk result (λ sum. unsigned_abs sum ≤ 140737488355328) }
{
    let at = store as usize;
    expect_u16(bytes, table, at, 1)?;
    let list = read_u32(bytes, table, at + 2)? as usize;
    let count = read_u16(bytes, table, at + 6)?;
    if count <= outer {
        Ok(0)
    } else {
        let data_at = read_u32(bytes, table, at + 8 + 4 * usize::from(outer))? as usize;
        row_value(bytes, table, at + list, at + data_at, inner, place)
    }
}
