ghost use Rattle.std.specs.Prelude.{◌≡◌, ◌+◌, ◌*◌, ◌^◌, ◌<◌, ◌≤◌, ◌+ℤ◌, ◌≤ℤ◌, pos, unsigned_abs};
ghost use Rattle.std.specs.Prelude.{IfOk, IfSome, length};
ghost use Rattle.font_reader.specs.Fields.{IsWithin};
ghost use Rattle.fixed_math.specs.FixedPoint.{product};
ghost use Rattle.font_reader.specs.Fold.{folded};
ghost use Rattle.font_reader.specs.Inferred.{inferred};
ghost use Rattle.font_reader.specs.Tuples.{AreNear, all_points, around, glyph_offset, is_between};
ghost use Rattle.font_reader.specs.Tuples.{known, listed_points, offset_by, offset_in};
ghost use Rattle.font_reader.specs.Tuples.{own_peak, own_size, peak_place, point_offset, points_at};
ghost use Rattle.font_reader.specs.Tuples.{shared_points, sides_size, tuple_header, tuple_offset};
ghost use Rattle.font_reader.specs.Tuples.{tuple_count, tuple_index, tuple_points, tuple_scalar};
ghost use Rattle.font_reader.specs.Tuples.{tuple_side, variations_of, with_tuple, with_tuple_axis};

use crate::directory::{GVAR, table_of};
use crate::faults::FontFault;
use crate::fields::{Table, read_byte, read_i16, read_u16, read_u32};
use crate::inferred::{Moved, inferred, scaled};
use crate::packed::{Deltas, NamedPoint, Pair, Target, chosen, deltas_of, named_points};
use crate::versions::{bad_format, expect_u16, expect_u32};
use fixed_math::{F2Dot14, Fixed};
use variation_model::scalar_with_axis;

/// How many shared peaks there are, where they begin, and where the data of a glyph begin.
#[derive(Clone, Copy)]
pub struct Variations {
    pub shared_count: u16,
    pub shared_at: usize,
    pub at: usize,
}

/// A tuple: how many bytes its data have, where its peak and its starts and ends are, where the
/// next tuple is, whether it has starts and ends, and whether it has points of its own.
#[derive(Clone, Copy)]
pub struct TupleHeader {
    pub size: u16,
    pub peak: usize,
    pub sides: usize,
    pub next: usize,
    pub intermediate: bool,
    pub private_points: bool,
}

/// The points that a tuple names: how many, where the bytes after them are, and those between which
/// the point is.
#[derive(Clone, Copy)]
pub struct Points {
    pub count: usize,
    pub at: usize,
    pub pair: Option<Pair>,
}

/// How far a point is moved, in 16.16.
#[derive(Clone, Copy)]
pub struct Offset {
    pub x: i64,
    pub y: i64,
}

/// The tuples so far: where the next one and its data are, and how far they move the point.
#[derive(Clone, Copy)]
pub struct TupleRun {
    pub header: usize,
    pub body: usize,
    pub x: i64,
    pub y: i64,
}

/// Where the data of a glyph are, if it has any.
#[tactic(auto, unfolding(crate::specs::Tuples::variations_of))]
fn variations_of(
    bytes: &[u8],
    gvar: Table,
    gid: u16,
    axes: u16,
    glyphs: u16,
) -> Result<Option<Variations>, FontFault>
    requires { IsWithin bytes.now gvar }
    ensures value { result ≡ variations_of bytes.now gvar gid axes glyphs }
    ensures near { IfOk result (λ found. IfSome found AreNear) }
{
    expect_u32(bytes, gvar, 0, 65536)?;
    expect_u16(bytes, gvar, 4, axes)?;
    let shared_count = read_u16(bytes, gvar, 6)?;
    let shared_at = read_u32(bytes, gvar, 8)?;
    expect_u16(bytes, gvar, 12, glyphs)?;
    expect_u16(bytes, gvar, 14, 1)?;
    let array = read_u32(bytes, gvar, 16)?;
    let from = read_u32(bytes, gvar, 20 + 4 * usize::from(gid))?;
    let to = read_u32(bytes, gvar, 24 + 4 * usize::from(gid))?;
    if from == to {
        Ok(None)
    } else {
        Ok(Some(Variations {
            shared_count,
            shared_at: shared_at as usize,
            at: array as usize + from as usize,
        }))
    }
}

/// Whether a tuple has a peak of its own.
fn own_peak(index: u16) -> bool
    ensures { result ≡ own_peak index }
{
    index >= 32768
}

/// Where a shared peak is.
fn shared_place(variations: Variations, axes: usize, number: u16) -> usize
    requires near { AreNear variations }
    requires few { axes < 65536 }
    ensures value { result ≡ variations.shared_at + 2 * axes * number }
    ensures near { result < 2 ^ 36 }
{
    variations.shared_at + 2 * axes * usize::from(number)
}

/// Where the peak of a tuple is.
#[tactic(auto, unfolding(crate::specs::Tuples::peak_place))]
fn peak_place(
    gvar: Table,
    variations: Variations,
    axes: usize,
    at: usize,
    index: u16,
) -> Result<usize, FontFault>
    requires near { AreNear variations }
    requires few { axes < 65536 }
    requires at { at < 2 ^ 40 }
    ensures value { result ≡ peak_place gvar variations axes at index }
    ensures small { IfOk result (λ peak. peak < 2 ^ 41) }
{
    let number = index % 4096;
    if own_peak(index) {
        Ok(at + 4)
    } else if number < variations.shared_count {
        Ok(shared_place(variations, axes, number))
    } else {
        Err(bad_format(gvar, at + 2))
    }
}

/// How many bytes a tuple's own peak has.
fn own_size(axes: usize, index: u16) -> usize
    requires { axes < 65536 }
    ensures value { result ≡ own_size axes index }
    ensures small { result ≤ 131072 }
{
    if own_peak(index) { 2 * axes } else { 0 }
}

/// Whether a tuple has starts and ends.
fn is_between(index: u16) -> bool
    ensures { result ≡ is_between index }
{
    index / 16384 % 2 == 1
}

/// How many bytes a tuple's starts and ends have.
fn sides_size(axes: usize, index: u16) -> usize
    requires { axes < 65536 }
    ensures value { result ≡ sides_size axes index }
    ensures small { result ≤ 262144 }
{
    if is_between(index) { 4 * axes } else { 0 }
}

/// The flags of a tuple and the number of its shared peak.
#[tactic(auto, unfolding(crate::specs::Tuples::tuple_index))]
fn tuple_index(bytes: &[u8], gvar: Table, at: usize) -> Result<u16, FontFault>
    requires within { IsWithin bytes.now gvar }
    requires at { at < 2 ^ 41 }
    ensures { result ≡ tuple_index bytes.now gvar at }
{
    let index = read_u16(bytes, gvar, at)?;
    if index / 4096 % 2 == 0 {
        Ok(index)
    } else {
        Err(bad_format(gvar, at))
    }
}

/// A tuple.
#[tactic(auto, unfolding(crate::specs::Tuples::tuple_header))]
fn tuple_header(
    bytes: &[u8],
    gvar: Table,
    variations: Variations,
    axes: usize,
    at: usize,
) -> Result<TupleHeader, FontFault>
    requires within { IsWithin bytes.now gvar }
    requires near { AreNear variations }
    requires few { axes < 65536 }
    requires at { at < 2 ^ 40 }
    ensures value { result ≡ tuple_header bytes.now gvar variations axes at }
    ensures peak { IfOk result (λ header. header.peak < 2 ^ 41) }
    ensures sides { IfOk result (λ header. header.sides < 2 ^ 41) }
    ensures next { IfOk result (λ header. header.next ≤ at + 393220) }
{
    let size = read_u16(bytes, gvar, at)?;
    let index = tuple_index(bytes, gvar, at + 2)?;
    let peak = peak_place(gvar, variations, axes, at, index)?;
    let sides = at + 4 + own_size(axes, index);
    Ok(TupleHeader {
        size,
        peak,
        sides,
        next: sides + sides_size(axes, index),
        intermediate: is_between(index),
        private_points: index / 8192 % 2 == 1,
    })
}

/// The start, the peak and the end around a peak.
fn around(peak: i16) -> (F2Dot14, F2Dot14, F2Dot14)
    ensures { result ≡ around peak }
{
    if peak < 0 {
        (F2Dot14(peak), F2Dot14(peak), F2Dot14(0))
    } else {
        (F2Dot14(0), F2Dot14(peak), F2Dot14(peak))
    }
}

/// The start, the peak and the end of a tuple on an axis.
#[tactic(auto, unfolding(crate::specs::Tuples::tuple_side))]
fn tuple_side(
    bytes: &[u8],
    gvar: Table,
    axes: usize,
    header: TupleHeader,
    i: usize,
) -> Result<(F2Dot14, F2Dot14, F2Dot14), FontFault>
    requires within { IsWithin bytes.now gvar }
    requires few { axes < 65536 }
    requires one { i < 65536 }
    requires peak { header.peak < 2 ^ 41 }
    requires sides { header.sides < 2 ^ 41 }
    ensures { result ≡ tuple_side bytes.now gvar axes header i }
{
    let peak = read_i16(bytes, gvar, header.peak + 2 * i)?;
    if header.intermediate {
        let start = read_i16(bytes, gvar, header.sides + 2 * i)?;
        let end = read_i16(bytes, gvar, header.sides + 2 * axes + 2 * i)?;
        Ok((F2Dot14(start), F2Dot14(peak), F2Dot14(end)))
    } else {
        Ok(around(peak))
    }
}

/// The scalar of a tuple so far, with one more axis.
#[tactic(auto, unfolding(crate::specs::Tuples::with_tuple_axis))]
fn with_tuple_axis(
    bytes: &[u8],
    gvar: Table,
    header: TupleHeader,
    place: &[F2Dot14],
    i: usize,
    before: Fixed,
) -> Result<Fixed, FontFault>
    requires within { IsWithin bytes.now gvar }
    requires few { length place.now < 65536 }
    requires one { i < length place.now }
    requires peak { header.peak < 2 ^ 41 }
    requires sides { header.sides < 2 ^ 41 }
    requires low { pos 0 ≤ℤ before.0 }
    requires high { before.0 ≤ℤ pos 65536 }
    ensures value { result ≡ with_tuple_axis bytes.now gvar header place.now i before }
    ensures low { IfOk result (λ scalar. pos 0 ≤ℤ scalar.0) }
    ensures high { IfOk result (λ scalar. scalar.0 ≤ℤ pos 65536) }
{
    let side = tuple_side(bytes, gvar, place.len(), header, i)?;
    Ok(scalar_with_axis(before, side, place[i]))
}

/// The scalar of a tuple.
#[tactic(auto, using(crate::proofs::Turns::fold), unfolding(crate::specs::Tuples::tuple_scalar))]
fn tuple_scalar(
    bytes: &[u8],
    gvar: Table,
    header: TupleHeader,
    place: &[F2Dot14],
) -> Result<Fixed, FontFault>
    requires within { IsWithin bytes.now gvar }
    requires few { length place.now < 65536 }
    requires peak { header.peak < 2 ^ 41 }
    requires sides { header.sides < 2 ^ 41 }
    ensures value { result ≡ tuple_scalar bytes.now gvar header place.now }
    ensures low { IfOk result (λ scalar. pos 0 ≤ℤ scalar.0) }
    ensures high { IfOk result (λ scalar. scalar.0 ≤ℤ pos 65536) }
{
    let axes = place.len();
    let mut scalar = Fixed(65536);
    for i in 0..axes {
        scalar = with_tuple_axis(bytes, gvar, header, place, i, scalar)?;
    }
    Ok(scalar)
}

/// All points.
fn all_points(target: Target, at: usize) -> Points
    ensures { result ≡ all_points target at }
{
    let itself = NamedPoint {
        ordinal: target.index,
        point: target.index,
    };
    Points {
        count: target.points,
        at,
        pair: Some(Pair {
            before: itself,
            after: itself,
        }),
    }
}

/// The points of a list.
#[tactic(auto, unfolding(crate::specs::Tuples::listed_points))]
fn listed_points(
    bytes: &[u8],
    gvar: Table,
    target: Target,
    at: usize,
    count: usize,
) -> Result<Points, FontFault>
    requires within { IsWithin bytes.now gvar }
    requires near { at ≤ 2 ^ 40 }
    requires few { count ≤ 65536 }
    requires points { target.points < 2 ^ 40 }
    ensures value { result ≡ listed_points bytes.now gvar target at count }
    ensures near { IfOk result (λ points. points.at ≤ at + 196608) }
    ensures few { IfOk result (λ points. points.count < 2 ^ 40) }
{
    let run = named_points(bytes, gvar, target, at, count)?;
    Ok(Points {
        count,
        at: run.at,
        pair: chosen(run.near),
    })
}

/// The points that are named at a place.
#[tactic(auto, unfolding(crate::specs::Tuples::points_at))]
fn points_at(bytes: &[u8], gvar: Table, target: Target, at: usize) -> Result<Points, FontFault>
    requires within { IsWithin bytes.now gvar }
    requires near { at < 2 ^ 39 }
    requires points { target.points < 2 ^ 40 }
    ensures value { result ≡ points_at bytes.now gvar target at }
    ensures near { IfOk result (λ points. points.at ≤ at + 196610) }
    ensures few { IfOk result (λ points. points.count < 2 ^ 40) }
{
    let first = read_byte(bytes, gvar, at)?;
    if first == 0 {
        Ok(all_points(target, at + 1))
    } else if first < 128 {
        listed_points(bytes, gvar, target, at + 1, usize::from(first))
    } else {
        let second = read_byte(bytes, gvar, at + 1)?;
        let count = (usize::from(first) - 128) * 256 + usize::from(second);
        listed_points(bytes, gvar, target, at + 2, count)
    }
}

/// The points that tuples share.
#[tactic(auto, unfolding(crate::specs::Tuples::shared_points))]
fn shared_points(
    bytes: &[u8],
    gvar: Table,
    target: Target,
    count: u16,
    at: usize,
) -> Result<Points, FontFault>
    requires within { IsWithin bytes.now gvar }
    requires near { at < 2 ^ 39 }
    requires points { target.points < 2 ^ 40 }
    ensures value { result ≡ shared_points bytes.now gvar target count at }
    ensures near { IfOk result (λ points. points.at ≤ at + 196610) }
    ensures few { IfOk result (λ points. points.count < 2 ^ 40) }
{
    if count >= 32768 {
        points_at(bytes, gvar, target, at)
    } else {
        Ok(all_points(target, at))
    }
}

/// The points of a tuple.
#[tactic(auto, unfolding(crate::specs::Tuples::tuple_points))]
fn tuple_points(
    bytes: &[u8],
    gvar: Table,
    target: Target,
    shared: Points,
    header: TupleHeader,
    body: usize,
) -> Result<Points, FontFault>
    requires within { IsWithin bytes.now gvar }
    requires near { body < 2 ^ 39 }
    requires points { target.points < 2 ^ 40 }
    requires few { shared.count < 2 ^ 40 }
    ensures value { result ≡ tuple_points bytes.now gvar target shared header body }
    ensures near { IfOk result (λ points. points.at ≤ 2 ^ 41) }
    ensures few { IfOk result (λ points. points.count < 2 ^ 40) }
{
    if header.private_points {
        points_at(bytes, gvar, target, body)
    } else {
        Ok(Points {
            count: shared.count,
            at: body,
            pair: shared.pair,
        })
    }
}

/// A coordinate of a point, and 0 where it isn't known.
pub fn known(values: &[i32], i: usize) -> i32
    ensures { result ≡ known values.now i }
{
    if i < values.len() { values[i] } else { 0 }
}

/// How far a tuple moves a point in one coordinate.
fn moved_by(scalar: Fixed, pair: Pair, before: i16, after: i16, index: usize, values: &[i32]) -> i64
    requires low { pos 0 ≤ℤ scalar.0 }
    requires high { scalar.0 ≤ℤ pos 65536 }
    ensures value { result ≡ product (inferred (known values.now pair.before.point) before
        (known values.now pair.after.point) after (known values.now index)) scalar.0 }
    ensures small { unsigned_abs result ≤ 4294967296 }
{
    let first = Moved {
        at: known(values, pair.before.point),
        delta: before,
    };
    let second = Moved {
        at: known(values, pair.after.point),
        delta: after,
    };
    scaled(inferred(first, second, known(values, index)), scalar)
}

/// How far a tuple moves a point that is between two that it names.
#[tactic(auto, unfolding(crate::specs::Tuples::offset_by))]
fn offset_by(
    scalar: Fixed,
    pair: Pair,
    deltas: Deltas,
    index: usize,
    xs: &[i32],
    ys: &[i32],
) -> Offset
    requires low { pos 0 ≤ℤ scalar.0 }
    requires high { scalar.0 ≤ℤ pos 65536 }
    ensures value { result ≡ offset_by scalar pair deltas index xs.now ys.now }
    ensures x { unsigned_abs result.x ≤ 4294967296 }
    ensures y { unsigned_abs result.y ≤ 4294967296 }
{
    Offset {
        x: moved_by(scalar, pair, deltas.before_x, deltas.after_x, index, xs),
        y: moved_by(scalar, pair, deltas.before_y, deltas.after_y, index, ys),
    }
}

/// How far a tuple moves a point.
#[tactic(auto, unfolding(crate::specs::Tuples::tuple_offset))]
fn tuple_offset(
    bytes: &[u8],
    gvar: Table,
    scalar: Fixed,
    points: Points,
    index: usize,
    xs: &[i32],
    ys: &[i32],
) -> Result<Offset, FontFault>
    requires within { IsWithin bytes.now gvar }
    requires low { pos 0 ≤ℤ scalar.0 }
    requires high { scalar.0 ≤ℤ pos 65536 }
    requires near { points.at ≤ 2 ^ 41 }
    requires few { points.count < 2 ^ 40 }
    ensures value { result ≡ tuple_offset bytes.now gvar scalar points index xs.now ys.now }
    ensures x { IfOk result (λ offset. unsigned_abs offset.x ≤ 4294967296) }
    ensures y { IfOk result (λ offset. unsigned_abs offset.y ≤ 4294967296) }
{
    match points.pair {
        Some(pair) => {
            let deltas = deltas_of(bytes, gvar, pair, points.at, points.count)?;
            Ok(offset_by(scalar, pair, deltas, index, xs, ys))
        }
        None => Ok(Offset { x: 0, y: 0 }),
    }
}

/// A sum of so many offsets, with one more.
fn added(sum: i64, offset: i64, i: usize) -> i64
    requires few { i < 65536 }
    requires sum { unsigned_abs sum ≤ 4294967296 * i }
    requires offset { unsigned_abs offset ≤ 4294967296 }
    ensures value { result ≡ sum +ℤ offset }
    ensures small { unsigned_abs result ≤ 4294967296 * (i + 1) }
{
    sum + offset
}

/// The tuples so far, with one more.
#[tactic(auto, unfolding(crate::specs::Tuples::with_tuple))]
fn with_tuple(
    bytes: &[u8],
    gvar: Table,
    variations: Variations,
    target: Target,
    shared: Points,
    place: &[F2Dot14],
    xs: &[i32],
    ys: &[i32],
    i: usize,
    run: TupleRun,
) -> Result<TupleRun, FontFault>
    requires within { IsWithin bytes.now gvar }
    requires near { AreNear variations }
    requires axes { length place.now < 65536 }
    requires points { target.points < 2 ^ 40 }
    requires shared { shared.count < 2 ^ 40 }
    requires few { i < 4096 }
    requires header { run.header ≤ 2 ^ 34 + 393220 * i }
    requires body { run.body < 2 ^ 38 + 65536 * i }
    requires x { unsigned_abs run.x ≤ 4294967296 * i }
    requires y { unsigned_abs run.y ≤ 4294967296 * i }
    ensures value { result
        ≡ with_tuple bytes.now gvar variations target shared place.now xs.now ys.now i run }
    ensures header { IfOk result (λ next. next.header ≤ 2 ^ 34 + 393220 * (i + 1)) }
    ensures body { IfOk result (λ next. next.body < 2 ^ 38 + 65536 * (i + 1)) }
    ensures x { IfOk result (λ next. unsigned_abs next.x ≤ 4294967296 * (i + 1)) }
    ensures y { IfOk result (λ next. unsigned_abs next.y ≤ 4294967296 * (i + 1)) }
{
    let header = tuple_header(bytes, gvar, variations, place.len(), run.header)?;
    let scalar = tuple_scalar(bytes, gvar, header, place)?;
    let points = tuple_points(bytes, gvar, target, shared, header, run.body)?;
    let offset = tuple_offset(bytes, gvar, scalar, points, target.index, xs, ys)?;
    Ok(TupleRun {
        header: header.next,
        body: run.body + usize::from(header.size),
        x: added(run.x, offset.x, i),
        y: added(run.y, offset.y, i),
    })
}

/// All of so many tuples.
#[tactic(auto, using(crate::proofs::Turns::fold))]
fn all_tuples(
    bytes: &[u8],
    gvar: Table,
    variations: Variations,
    target: Target,
    shared: Points,
    place: &[F2Dot14],
    xs: &[i32],
    ys: &[i32],
    count: usize,
) -> Result<TupleRun, FontFault>
    requires within { IsWithin bytes.now gvar }
    requires near { AreNear variations }
    requires axes { length place.now < 65536 }
    requires points { target.points < 2 ^ 40 }
    requires shared { shared.count < 2 ^ 40 }
    requires body { shared.at < 2 ^ 38 }
    requires few { count ≤ 4096 }
    ensures value { result ≡ folded
        (with_tuple bytes.now gvar variations target shared place.now xs.now ys.now) 0 count
        (record { header = variations.at + 4; body = shared.at; x = pos 0; y = pos 0 }) }
    ensures x { IfOk result (λ run. unsigned_abs run.x ≤ 17592186044416) }
    ensures y { IfOk result (λ run. unsigned_abs run.y ≤ 17592186044416) }
{
    let mut run = TupleRun {
        header: variations.at + 4,
        body: shared.at,
        x: 0,
        y: 0,
    };
    for i in 0..count {
        run = with_tuple(
            bytes, gvar, variations, target, shared, place, xs, ys, i, run,
        )?;
    }
    Ok(run)
}

/// How many tuples a glyph has, and whether they share points.
#[tactic(auto, unfolding(crate::specs::Tuples::tuple_count))]
fn tuple_count(bytes: &[u8], gvar: Table, at: usize) -> Result<u16, FontFault>
    requires within { IsWithin bytes.now gvar }
    requires at { at < 2 ^ 41 }
    ensures { result ≡ tuple_count bytes.now gvar at }
{
    let count = read_u16(bytes, gvar, at)?;
    if count / 4096 % 8 == 0 {
        Ok(count)
    } else {
        Err(bad_format(gvar, at))
    }
}

/// How far the tuples of a glyph move a point.
#[tactic(auto, unfolding(crate::specs::Tuples::glyph_offset))]
fn glyph_offset(
    bytes: &[u8],
    gvar: Table,
    variations: Variations,
    target: Target,
    place: &[F2Dot14],
    xs: &[i32],
    ys: &[i32],
) -> Result<Offset, FontFault>
    requires within { IsWithin bytes.now gvar }
    requires near { AreNear variations }
    requires axes { length place.now < 65536 }
    requires points { target.points < 2 ^ 40 }
    ensures value { result
        ≡ glyph_offset bytes.now gvar variations target place.now xs.now ys.now }
    ensures x { IfOk result (λ offset. unsigned_abs offset.x ≤ 17592186044416) }
    ensures y { IfOk result (λ offset. unsigned_abs offset.y ≤ 17592186044416) }
{
    let count = tuple_count(bytes, gvar, variations.at)?;
    let offset = read_u16(bytes, gvar, variations.at + 2)?;
    let body = variations.at + usize::from(offset);
    let shared = shared_points(bytes, gvar, target, count, body)?;
    let tuples = usize::from(count % 4096);
    let run = all_tuples(
        bytes, gvar, variations, target, shared, place, xs, ys, tuples,
    )?;
    Ok(Offset { x: run.x, y: run.y })
}

/// How far a point is moved, in a font with this table.
#[tactic(auto, unfolding(crate::specs::Tuples::offset_in))]
fn offset_in(
    bytes: &[u8],
    gvar: Table,
    gid: u16,
    glyphs: u16,
    target: Target,
    place: &[F2Dot14],
    xs: &[i32],
    ys: &[i32],
) -> Result<Offset, FontFault>
    requires within { IsWithin bytes.now gvar }
    requires axes { length place.now < 65536 }
    requires points { target.points < 2 ^ 40 }
    ensures value { result
        ≡ offset_in bytes.now gvar gid glyphs target place.now xs.now ys.now }
    ensures x { IfOk result (λ offset. unsigned_abs offset.x ≤ 17592186044416) }
    ensures y { IfOk result (λ offset. unsigned_abs offset.y ≤ 17592186044416) }
{
    match variations_of(bytes, gvar, gid, place.len() as u16, glyphs)? {
        Some(variations) => glyph_offset(bytes, gvar, variations, target, place, xs, ys),
        None => Ok(Offset { x: 0, y: 0 }),
    }
}

/// How far a point is moved.
#[tactic(auto, unfolding(crate::specs::Tuples::point_offset))]
pub fn point_offset(
    bytes: &[u8],
    gid: u16,
    glyphs: u16,
    target: Target,
    place: &[F2Dot14],
    xs: &[i32],
    ys: &[i32],
) -> Result<Offset, FontFault>
    requires axes { length place.now < 65536 }
    requires points { target.points < 2 ^ 40 }
    ensures value { result ≡ point_offset bytes.now gid glyphs target place.now xs.now ys.now }
    ensures x { IfOk result (λ offset. unsigned_abs offset.x ≤ 17592186044416) }
    ensures y { IfOk result (λ offset. unsigned_abs offset.y ≤ 17592186044416) }
{
    match table_of(bytes, GVAR) {
        Some(gvar) => offset_in(bytes, gvar, gid, glyphs, target, place, xs, ys),
        None => Ok(Offset { x: 0, y: 0 }),
    }
}
