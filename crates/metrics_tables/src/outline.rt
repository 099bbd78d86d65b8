ghost use Rattle.std.specs.Prelude.{◌≡◌, ◌≤◌, length, unsigned_abs};
ghost use Rattle.refusal_codes.specs.declared.limits.TheConstants.{POINTS};
ghost use Rattle.font_ir.specs.FlatGlyphs.{point_count as point_count_of};
ghost use Rattle.font_ir.specs.Outlines.{stored_points, contours_at, points_at, bounds_of};
ghost use Rattle.metrics_tables.specs.Measuring.{width_at, IsMeasurable};

use font_ir::{Contour, FlatGlyph, bounds_of};

/// How many points an outline has.
fn point_count(contours: &[Contour]) -> u16
    requires { point_count_of contours.now ≤ POINTS }
    ensures { result ≡ length (stored_points contours.now) }
{
    let mut count = 0;
    for contour in contours {
        count += contour.points.len();
    }
    count as u16
}

/// A glyph's advance width at a place.
pub fn advance_at(glyph: &FlatGlyph, place: u32) -> u16
    requires { IsMeasurable place glyph.now }
    ensures { result ≡ unsigned_abs (width_at place glyph.now) }
{
    glyph.widths.as_slice()[place as usize].unsigned_abs() as u16
}

/// A glyph's bounds at a place, where it has a point.
pub fn bounds_at(glyph: &FlatGlyph, place: u32) -> Option<[i16; 4]>
    requires { IsMeasurable place glyph.now }
    ensures { result ≡ bounds_of (points_at place glyph.now) }
{
    bounds_of(glyph.drawn.as_slice()[place as usize].as_slice())
}

/// How many points a glyph has.
pub fn points_of(glyph: &FlatGlyph, place: u32) -> u16
    requires { IsMeasurable place glyph.now }
    ensures { result ≡ length (points_at place glyph.now) }
{
    point_count(glyph.drawn.as_slice()[place as usize].as_slice())
}

/// How many contours a glyph has.
pub fn contours_of(glyph: &FlatGlyph, place: u32) -> u16
    requires { IsMeasurable place glyph.now }
    ensures { result ≡ length (contours_at place glyph.now) }
{
    glyph.drawn.as_slice()[place as usize].len() as u16
}
