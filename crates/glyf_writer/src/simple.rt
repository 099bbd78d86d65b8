ghost use Rattle.std.specs.Prelude.{◌≡◌, ◌<◌, ◌≤◌, [], length, Some, IfOk, OnOk};
ghost use Rattle.std.specs.List.{All};
ghost use Rattle.refusal_codes.specs.declared.limits.TheConstants.{POINTS};
ghost use Rattle.font_ir.specs.FlatGlyphs.{IsFlatGlyph, point_count};
ghost use Rattle.font_ir.specs.Outlines.{outline_at, stored_contours, stored_points, bounds_of};
ghost use Rattle.glyf_writer.specs.Outlines.{AreSmall};
ghost use Rattle.glyf_writer.specs.GlyphData.{simple_data, glyph_bytes, glyph_of};

use crate::bytes::{pad, push_bounds, push_end_points, push_x_coordinates, push_y_coordinates};
use crate::flags::{flags_of, push_flags};
use crate::outline::{steps_of, stored_points_of};
use font_ir::{Contour, FlatGlyph, StoredPoint, bounds_of};
use refusal_codes::NoMemory;
use std::alloc::Global;
use table_bytes::push_uint16;

/// The data of a simple glyph in the table "glyf" (OpenType 1.9, "Simple Glyph Description"),
/// padded to four bytes.
///
/// The outline is that at the place `origin`, of the glyph's list of places. `variable` says
/// whether the font has axes. A glyph without points has no bytes.
///
/// # Errors
///
/// `NoMemory` alone, where memory ran out.
pub fn simple_bytes(
    alloc: Global,
    glyph: &FlatGlyph,
    origin: u32,
    variable: bool,
) -> Result<Vec<u8>, NoMemory>
    requires flat { IsFlatGlyph glyph.now }
    requires origin { origin < length glyph.now.places }
    requires simple { glyph.now.kept ≡ [] }
    ensures { IfOk result (λ bytes. bytes.items
        ≡ simple_data variable (outline_at origin glyph.now)) }
{
    let contours = glyph.drawn.as_slice()[origin as usize].as_slice();
    let Some(bounds) = bounds_of(contours) else {
        return Ok(Vec::new(alloc));
    };
    let points = stored_points_of(alloc, contours)?;
    let mut bytes = Vec::with_capacity(alloc, 16 + 2 * contours.len() + 5 * points.len())?;
    push_glyph(
        alloc,
        &mut bytes,
        contours,
        points.as_slice(),
        bounds,
        variable,
    )?;
    pad(&mut bytes)?;
    Ok(bytes)
}

/// Writes a glyph with points, without padding.
fn push_glyph(
    alloc: Global,
    bytes: &mut Vec<u8>,
    contours: &[Contour],
    points: &[StoredPoint],
    bounds: [i16; 4],
    variable: bool,
) -> Result<(), NoMemory>
    requires points { points.now ≡ stored_points contours.now }
    requires bounds { bounds_of points.now ≡ Some bounds }
    requires small { AreSmall points.now }
    requires few { point_count contours.now ≤ POINTS }
    requires none_empty { All (λ contour. 0 < length contour.points) contours.now }
    requires empty { bytes.old.items ≡ [] }
    ensures { OnOk result (bytes.new.items
        ≡ glyph_bytes (glyph_of variable (stored_contours contours.now))) }
{
    let steps = steps_of(alloc, points)?;
    let flags = flags_of(alloc, steps.as_slice(), variable)?;
    push_uint16(bytes, count_of(contours))?;
    push_bounds(bytes, bounds)?;
    push_end_points(bytes, contours)?;
    push_uint16(bytes, 0)?;
    push_flags(bytes, flags.as_slice())?;
    push_x_coordinates(bytes, steps.as_slice())?;
    push_y_coordinates(bytes, steps.as_slice())?;
    Ok(())
}

/// How many contours there are, of at most 8,000 points.
fn count_of(contours: &[Contour]) -> u16
    requires few { point_count contours.now ≤ POINTS }
    requires none_empty { All (λ contour. 0 < length contour.points) contours.now }
    ensures { result ≡ length contours.now }
{
    contours.len() as u16
}
