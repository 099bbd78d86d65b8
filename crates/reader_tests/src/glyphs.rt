ghost use Rattle.std.specs.Prelude.{◌≡◌, ◌<◌, length, Ok};
ghost use Rattle.glyphs_source.specs.HeaderReading.{header_of};
ghost use Rattle.glyphs_source.specs.IndexReading.{index_of};

use component_flatten::{component_count, flatten};
use fixed_math::Fixed;
use fixtures::SOURCE;
use font_ir::{DrawnPoint, FlatGlyph, Header};
use glyphs_layers::raw_glyph;
use glyphs_source::{GlyphIndex, glyph_index, header};
use plist_reader::{Tree, read};
use refusal_codes::ReadError;
use std::alloc::Global;
use std::test::Fail;

/// The first glyph of a source, drawn.
fn first_drawn(
    alloc: Global,
    tree: &Tree,
    header: &Header,
    index: &GlyphIndex,
) -> Result<FlatGlyph, ReadError>
    requires header { header_of tree.now ≡ Ok header.now }
    requires index { index_of tree.now ≡ Ok index.now }
    requires number { 0 < length index.now }
{
    let glyph = raw_glyph(alloc, tree, header, index, 0)?;
    if component_count(&glyph) != 0 {
        return Err(ReadError::NoMemory);
    }
    flatten(alloc, &glyph, index, &[])
}

/// Whether a glyph has one contour at its one place, of these corners in 16.16.
fn has_corners(glyph: &FlatGlyph, corners: &[(i32, i32)]) -> bool {
    match glyph.drawn.as_slice() {
        [contours] => match contours.as_slice() {
            [contour] => are_corners(contour.points.as_slice(), corners),
            _ => false,
        },
        _ => false,
    }
}

/// Whether points are these, in 16.16, all on the curve.
pub fn are_corners(points: &[DrawnPoint], corners: &[(i32, i32)]) -> bool {
    if points.len() != corners.len() {
        return false;
    }
    for (i, point) in points.iter().enumerate() {
        let (x, y) = corners[i];
        if (point.x, point.y, point.on) != (Fixed(x), Fixed(y), true) {
            return false;
        }
    }
    true
}

#[test]
fn the_last_node_stored_starts_a_contour(rt: HostRuntime) -> Result<(), Fail> {
    let tree = read(rt.alloc(), SOURCE)?;
    let header = header(rt.alloc(), &tree)?;
    let index = glyph_index(rt.alloc(), &tree)?;
    assert!(rt; index.len() == 1);
    let glyph = first_drawn(rt.alloc(), &tree, &header, &index)?;
    assert!(rt;
        (glyph.number, glyph.place) == (0, 82) && glyph.widths.as_slice() == [500].as_slice()
    );
    let corners = [(16384000, 45875200), (0, 0), (32768000, 0)];
    assert!(rt; has_corners(&glyph, corners.as_slice()));
    Ok(())
}
