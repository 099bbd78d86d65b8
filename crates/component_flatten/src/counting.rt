ghost use Rattle.std.specs.Prelude.{◌≡◌, ◌≤◌, ◌<◌, ◌+◌, ◌-◌, ◌^◌, length, drop, nat_lt, min};
ghost use Rattle.std.specs.List.{All, list_any};
ghost use Rattle.font_ir.specs.FlatGlyphs.{IsFlatGlyph, glyphs_of};
ghost use Rattle.font_ir.specs.ReadGlyphs.{IsReadGlyph};
ghost use Rattle.component_flatten.specs.Drawing.{glyph_drawn, names_of};
ghost use Rattle.component_flatten.specs.Flattening.{IsBase, HasBases, has_many_points};
ghost use Rattle.component_flatten.specs.Judging.{shape_points, points_of, bases_taken};
ghost use Rattle.component_flatten.specs.Judging.{first_base_points};

use crate::between::{base_at, first_drawn};
use crate::composites::first_shapes;
use crate::limits::count_points;
use font_ir::{FlatGlyph, GlyphIr, Shape};
use refusal_codes::limits::POINTS;
use std::sync::Arc;

/// Whether a glyph draws too many points at a place. They are counted before any is drawn: a layer
/// has as many at each place as its shapes and their bases have at the first one.
pub fn has_many_points(glyph: &GlyphIr, bases: &[Arc<FlatGlyph>]) -> bool
    requires read { IsReadGlyph glyph.now }
    requires enough { HasBases glyph.now (glyphs_of bases.now) }
    requires bases { All (IsBase glyph.now.places) (glyphs_of bases.now) }
    ensures { result ≡ list_any has_many_points (glyph_drawn glyph.now (glyphs_of bases.now)) }
{
    are_many_points(first_shapes(glyph), bases)
}

/// Whether shapes have too many points, with the bases of the components among them.
fn are_many_points(shapes: &[Shape], bases: &[Arc<FlatGlyph>]) -> bool
    requires flat { All IsFlatGlyph (glyphs_of bases.now) }
    requires enough { length bases.now ≡ length (names_of shapes.now) }
    ensures { result ≡ nat_lt POINTS (points_of (glyphs_of bases.now) shapes.now) }
{
    let mut count: usize = 0;
    let mut next = 0;
    for shape in shapes {
        count = count.saturating_add(shape_points(shape, bases, next));
        if count > POINTS {
            return true;
        }
        next += bases_taken(shape);
    }
    false
}

/// How many bases a shape takes.
fn bases_taken(shape: &Shape) -> usize
    ensures { result ≡ bases_taken shape.now }
{
    match shape {
        Shape::Path(_) => 0,
        Shape::Component { .. } => 1,
    }
}

/// How many points a shape has, with the number of the next base.
fn shape_points(shape: &Shape, bases: &[Arc<FlatGlyph>], next: usize) -> usize
    requires flat { All IsFlatGlyph (glyphs_of bases.now) }
    requires enough { next + bases_taken shape.now ≤ length bases.now }
    ensures { result ≡ min (shape_points (drop next (glyphs_of bases.now)) shape.now)
        (2 ^ 64 - 1) }
{
    match shape {
        Shape::Path(contour) => contour.points.len(),
        Shape::Component { .. } => base_points(bases, next),
    }
}

fn base_points(bases: &[Arc<FlatGlyph>], n: usize) -> usize
    requires flat { All IsFlatGlyph (glyphs_of bases.now) }
    requires within { n < length bases.now }
    ensures { result ≡ min (first_base_points (drop n (glyphs_of bases.now))) (2 ^ 64 - 1) }
{
    let base = base_at(bases, n);
    count_points(first_drawn(base))
}
