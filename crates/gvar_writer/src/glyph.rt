ghost use Rattle.std.specs.Prelude.{◌≡◌, ◌+◌, ◌<◌, ◌≤◌, ◌++◌, [], length, map, drop, nat_eq, IfOk};
ghost use Rattle.std.specs.Prelude.{OnOk, if◌then◌else◌};
ghost use Rattle.std.specs.List.{All, list_any};
ghost use Rattle.font_ir.specs.FlatGlyphs.{IsFlatGlyph, point_count};
ghost use Rattle.gvar_writer.specs.TupleData.{is_nonzero};
ghost use Rattle.gvar_writer.specs.GlyphVariations as spec;

use crate::headers::push_header;
use crate::named::{Outline, outline_of};
use crate::padded::pad;
use crate::positions::{Coordinate, positions_by_place};
use crate::rows::{column, rows_of};
use crate::tuples::tuple_data;
use font_ir::{Contour, FlatGlyph, Region};
use refusal_codes::NoMemory;
use std::alloc::Global;
use table_bytes::push_uint16;
use variation_model::{DeltaError, Model};

/// The tuples of a glyph, as they are written.
#[derive(Drop)]
pub struct Tuples {
    pub count: u16,
    pub headers: Vec<u8>,
    pub serialized: Vec<u8>,
}

/// Whether a delta isn't zero.
fn moves(deltas: &[i16]) -> bool
    ensures { result ≡ list_any is_nonzero deltas.now }
{
    deltas.iter().any(|delta| *delta != 0)
}

/// Adds the tuple of a region.
fn push_tuple(
    alloc: Global,
    tuples: &mut Tuples,
    shared: &[Region],
    region: &Region,
    outline: &Outline,
    xs: &[i16],
    ys: &[i16],
) -> Result<(), NoMemory>
    requires shared { length shared.now ≤ 4096 }
    requires count { tuples.old.count < 65535 }
    requires pairs { length ys.now ≡ length xs.now }
    requires points { outline.now.points ≤ length xs.now }
    requires few { length xs.now ≤ 8004 }
    ensures count { OnOk result (tuples.new.count ≡ tuples.old.count + 1) }
    ensures headers { OnOk result (tuples.new.headers.items ≡ tuples.old.headers.items
        ++ spec.header_bytes shared.now (map (λ contour. contour.items)
        outline.now.contours.items)
        (record { region = region.now; xs = xs.now; ys = ys.now })) }
    ensures serialized { OnOk result (tuples.new.serialized.items ≡ tuples.old.serialized.items
        ++ spec.data_of (map (λ contour. contour.items) outline.now.contours.items)
        (record { region = region.now; xs = xs.now; ys = ys.now })) }
{
    let bytes = tuple_data(alloc, outline, xs, ys)?;
    push_header(&mut tuples.headers, shared, region, bytes.len() as u16)?;
    tuples.serialized.extend_from_slice(bytes.as_slice())?;
    tuples.count += 1;
    Ok(())
}

/// Adds the tuple of a region, if a point moves there.
fn push_region(
    alloc: Global,
    tuples: &mut Tuples,
    shared: &[Region],
    region: &Region,
    outline: &Outline,
    xs: &[i16],
    ys: &[i16],
) -> Result<(), NoMemory>
    requires shared { length shared.now ≤ 4096 }
    requires count { tuples.old.count < 65535 }
    requires pairs { length ys.now ≡ length xs.now }
    requires points { outline.now.points ≤ length xs.now }
    requires few { length xs.now ≤ 8004 }
    ensures count { OnOk result (tuples.new.count ≡ tuples.old.count + length
        (spec.where_moving (record { region = region.now; xs = xs.now; ys = ys.now }))) }
    ensures headers { OnOk result (tuples.new.headers.items ≡ tuples.old.headers.items
        ++ spec.headers_of shared.now (map (λ contour. contour.items)
        outline.now.contours.items) (spec.where_moving
        (record { region = region.now; xs = xs.now; ys = ys.now }))) }
    ensures serialized { OnOk result (tuples.new.serialized.items ≡ tuples.old.serialized.items
        ++ spec.all_data_of (map (λ contour. contour.items) outline.now.contours.items)
        (spec.where_moving (record { region = region.now; xs = xs.now; ys = ys.now }))) }
{
    if moves(xs) || moves(ys) {
        push_tuple(alloc, tuples, shared, region, outline, xs, ys)?;
    }
    Ok(())
}

/// The tuples of all regions but the first, at which nothing moves.
fn tuples_of(
    alloc: Global,
    shared: &[Region],
    regions: &[Region],
    outline: &Outline,
    x_rows: &[Vec<i16>],
    y_rows: &[Vec<i16>],
) -> Result<Tuples, NoMemory>
    requires shared { length shared.now ≤ 4096 }
    requires regions { length regions.now ≤ 64 }
    requires pairs { length y_rows.now ≡ length x_rows.now }
    requires points { outline.now.points ≤ length x_rows.now }
    requires few { length x_rows.now ≤ 8004 }
    requires x { All (λ row. length row.items ≡ length regions.now) x_rows.now }
    requires y { All (λ row. length row.items ≡ length regions.now) y_rows.now }
    ensures count { IfOk result (λ tuples. tuples.count ≡ length
        (spec.tuples_from (map (λ row. row.items) x_rows.now)
        (map (λ row. row.items) y_rows.now) 1 (drop 1 regions.now))) }
    ensures headers { IfOk result (λ tuples. tuples.headers.items ≡ spec.headers_of shared.now
        (map (λ contour. contour.items) outline.now.contours.items)
        (spec.tuples_from (map (λ row. row.items) x_rows.now)
        (map (λ row. row.items) y_rows.now) 1 (drop 1 regions.now))) }
    ensures serialized { IfOk result (λ tuples. tuples.serialized.items ≡ spec.all_data_of
        (map (λ contour. contour.items) outline.now.contours.items)
        (spec.tuples_from (map (λ row. row.items) x_rows.now)
        (map (λ row. row.items) y_rows.now) 1 (drop 1 regions.now))) }
{
    let mut tuples = Tuples {
        count: 0,
        headers: Vec::new(alloc),
        serialized: Vec::new(alloc),
    };
    for k in 1..regions.len() {
        let xs = column(alloc, x_rows, k)?;
        let ys = column(alloc, y_rows, k)?;
        push_region(
            alloc,
            &mut tuples,
            shared,
            &regions[k],
            outline,
            xs.as_slice(),
            ys.as_slice(),
        )?;
    }
    Ok(tuples)
}

/// The bytes of some tuples.
fn with_head(alloc: Global, tuples: &Tuples) -> Result<Vec<u8>, NoMemory>
    ensures { IfOk result (λ bytes. bytes.items ≡ spec.with_head tuples.now.count
        tuples.now.headers.items tuples.now.serialized.items) }
{
    let mut bytes = Vec::new(alloc);
    let data_offset = 4 + tuples.headers.len();
    push_uint16(&mut bytes, tuples.count)?;
    push_uint16(&mut bytes, (data_offset % 65536) as u16)?;
    bytes.extend_from_slice(tuples.headers.as_slice())?;
    bytes.extend_from_slice(tuples.serialized.as_slice())?;
    pad(&mut bytes)?;
    Ok(bytes)
}

/// The variation data of a glyph with these contours, from the deltas of its points.
fn data_of(
    alloc: Global,
    shared: &[Region],
    regions: &[Region],
    contours: &[Contour],
    x_rows: &[Vec<i16>],
    y_rows: &[Vec<i16>],
) -> Result<Vec<u8>, NoMemory>
    requires shared { length shared.now ≤ 4096 }
    requires regions { length regions.now ≤ 64 }
    requires some { 0 < length regions.now }
    requires pairs { length y_rows.now ≡ length x_rows.now }
    requires points { point_count contours.now ≤ length x_rows.now }
    requires few { length x_rows.now ≤ 8004 }
    requires x { All (λ row. length row.items ≡ length regions.now) x_rows.now }
    requires y { All (λ row. length row.items ≡ length regions.now) y_rows.now }
    ensures { IfOk result (λ bytes. bytes.items ≡ spec.rows_bytes shared.now regions.now
        (map (λ contour. length contour.points) contours.now)
        (map (λ row. row.items) x_rows.now) (map (λ row. row.items) y_rows.now)) }
{
    let xs = column(alloc, x_rows, 0)?;
    let ys = column(alloc, y_rows, 0)?;
    let outline = outline_of(alloc, contours, xs.as_slice(), ys.as_slice())?;
    let tuples = tuples_of(alloc, shared, regions, &outline, x_rows, y_rows)?;
    if tuples.count == 0 {
        Ok(Vec::new(alloc))
    } else {
        with_head(alloc, &tuples)
    }
}

/// The contours of the outline that a glyph is written as, if it is.
fn own_contours(glyph: &FlatGlyph) -> &[Contour]
    requires { 0 < length glyph.now.drawn }
    ensures { result.now ≡ spec.own_contours glyph.now }
{
    if glyph.kept.is_empty() {
        glyph.drawn.as_slice()[0].as_slice()
    } else {
        &[]
    }
}

/// The variation data of a glyph in the table "gvar" (OpenType 1.9, "gvar", "Glyph variation
/// data"), padded to four bytes.
///
/// `shared` are the regions of the font: those of the model of its masters, but for the first.
/// `model` is that of the glyph's own places. A region in which no point moves has no tuple, and a
/// glyph without tuples has no bytes. A tuple names its points where that makes it shorter. It
/// takes time for the points times the square of the places, and for the search of each contour.
///
/// # Errors
///
/// `TooLarge` exactly where a delta of a coordinate, in font units, is outside an `i16`, unless
/// memory ran out: of the first such coordinate, where x of all points comes before y, the first
/// such delta, with its number in the model's order.
pub fn glyph_variations(
    alloc: Global,
    shared: &[Region],
    model: &Model,
    glyph: &FlatGlyph,
) -> Result<Vec<u8>, DeltaError>
    requires shared { spec.AreShared shared.now }
    requires model { model.now ≡ glyph.now.places }
    requires flat { IsFlatGlyph glyph.now }
    ensures { spec.GivesVariations result shared.now glyph.now }
{
    let by_place = positions_by_place(alloc, glyph)?;
    let by_place = by_place.as_slice();
    let count = by_place[0].len();
    let x_rows = rows_of(alloc, model, by_place, count, Coordinate::X)?;
    let y_rows = rows_of(alloc, model, by_place, count, Coordinate::Y)?;
    Ok(data_of(
        alloc,
        shared,
        model.supports(),
        own_contours(glyph),
        x_rows.as_slice(),
        y_rows.as_slice(),
    )?)
}
