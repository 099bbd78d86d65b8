ghost use Rattle.std.specs.Prelude.{◌≡◌, ◌<◌, ◌++◌, pos, neg_ℤ, ◌≤ℤ◌, length, map, IfOk, OnOk};
ghost use Rattle.std.specs.List.{All};
ghost use Rattle.font_ir.specs.FlatGlyphs.{IsFlatGlyph, IsSmall};
ghost use Rattle.gvar_writer.specs.GlyphPoints.{along, position_of, contour_positions, whole};
ghost use Rattle.gvar_writer.specs.GlyphPoints.{outline_positions, offset_position};
ghost use Rattle.gvar_writer.specs.GlyphPoints.{component_position, phantom_positions};
ghost use Rattle.gvar_writer.specs.GlyphPoints.{own_positions, positions_at, positions_by_place};
ghost use Rattle.gvar_writer.specs.GlyphPoints.{point_total};

use fixed_math::Fixed;
use font_ir::{Contour, DrawnPoint, FlatGlyph, Kept};
use refusal_codes::NoMemory;
use std::alloc::Global;

/// Where a point of a glyph lies at one place of the design space.
#[derive(Clone, Copy, Debug, PartialEq, Eq)]
pub struct Position {
    pub x: Fixed,
    pub y: Fixed,
}

/// One of a point's two coordinates.
#[derive(Clone, Copy, Debug, PartialEq, Eq)]
pub enum Coordinate {
    X,
    Y,
}

impl Position {
    /// One of its coordinates.
    pub fn along(self, coordinate: Coordinate) -> Fixed
        ensures { result ≡ along coordinate self }
    {
        match coordinate {
            Coordinate::X => self.x,
            Coordinate::Y => self.y,
        }
    }
}

/// Where a point of a contour lies.
fn position_of(point: DrawnPoint) -> Position
    ensures { result ≡ position_of point }
{
    Position {
        x: point.x,
        y: point.y,
    }
}

/// A whole number of font units.
fn whole(units: i32) -> Fixed
    requires low { neg_ℤ (pos 32767) ≤ℤ units }
    requires high { units ≤ℤ pos 32767 }
    ensures { result ≡ whole units }
{
    Fixed(65536 * units)
}

/// Where a component lies that is moved by this offset.
fn offset_position(offset: (i16, i16)) -> Position
    requires x { IsSmall offset.0 }
    requires y { IsSmall offset.1 }
    ensures { result ≡ offset_position offset }
{
    Position {
        x: whole(i32::from(offset.0)),
        y: whole(i32::from(offset.1)),
    }
}

/// Adds the points of a contour.
fn push_contour(positions: &mut Vec<Position>, points: &[DrawnPoint]) -> Result<(), NoMemory>
    ensures { OnOk result (positions.new.items
        ≡ positions.old.items ++ map position_of points.now) }
{
    for point in points {
        positions.push(position_of(*point))?;
    }
    Ok(())
}

/// Adds the points of an outline.
fn push_outline(positions: &mut Vec<Position>, contours: &[Contour]) -> Result<(), NoMemory>
    ensures { OnOk result (positions.new.items
        ≡ positions.old.items ++ outline_positions contours.now) }
{
    for contour in contours {
        push_contour(positions, contour.points.as_slice())?;
    }
    Ok(())
}

/// Adds a point for each component.
fn push_components(
    positions: &mut Vec<Position>,
    kept: &[Kept],
    place: usize,
) -> Result<(), NoMemory>
    requires within { All (λ kept. place < length kept.at) kept.now }
    requires small { All (λ kept. All (λ offset. IsSmall offset.0 × IsSmall offset.1) kept.at)
        kept.now }
    ensures { OnOk result (positions.new.items
        ≡ positions.old.items ++ map (component_position place) kept.now) }
{
    for component in kept {
        positions.push(offset_position(component.at.as_slice()[place]))?;
    }
    Ok(())
}

/// Adds the four phantom points of a glyph of this width.
fn push_phantoms(positions: &mut Vec<Position>, width: i32) -> Result<(), NoMemory>
    requires low { pos 0 ≤ℤ width }
    requires high { width ≤ℤ pos 32767 }
    ensures { OnOk result (positions.new.items
        ≡ positions.old.items ++ phantom_positions width) }
{
    let origin = offset_position((0, 0));
    positions.push(origin)?;
    positions.push(Position {
        x: whole(width),
        y: origin.y,
    })?;
    positions.push(origin)?;
    positions.push(origin)?;
    Ok(())
}

/// Adds the points of a glyph's outline, or one for each of its components.
fn push_own(positions: &mut Vec<Position>, glyph: &FlatGlyph, place: usize) -> Result<(), NoMemory>
    requires flat { IsFlatGlyph glyph.now }
    requires place { place < length glyph.now.places }
    ensures { OnOk result (positions.new.items
        ≡ positions.old.items ++ own_positions place glyph.now) }
{
    if glyph.kept.is_empty() {
        push_outline(positions, glyph.drawn.as_slice()[place].as_slice())
    } else {
        push_components(positions, glyph.kept.as_slice(), place)
    }
}

/// Where the points of a glyph lie at one of its places.
fn positions_at(alloc: Global, glyph: &FlatGlyph, place: usize) -> Result<Vec<Position>, NoMemory>
    requires flat { IsFlatGlyph glyph.now }
    requires place { place < length glyph.now.places }
    ensures { IfOk result (λ positions. positions.items ≡ positions_at glyph.now place) }
{
    let mut positions = Vec::new(alloc);
    push_own(&mut positions, glyph, place)?;
    push_phantoms(&mut positions, glyph.widths.as_slice()[place])?;
    Ok(positions)
}

/// Where the points of a glyph lie at each of its places.
pub fn positions_by_place(alloc: Global, glyph: &FlatGlyph) -> Result<Vec<Vec<Position>>, NoMemory>
    requires { IsFlatGlyph glyph.now }
    ensures value { IfOk result (λ by_place. map (λ positions. positions.items) by_place.items
        ≡ positions_by_place glyph.now) }
    ensures places { IfOk result (λ by_place. length by_place.items
        ≡ length glyph.now.places) }
    ensures as_many { IfOk result (λ by_place. All (λ positions. length positions.items
        ≡ point_total glyph.now) by_place.items) }
{
    let count = glyph.places.len();
    let mut by_place = Vec::with_capacity(alloc, count)?;
    for place in 0..count {
        by_place.push(positions_at(alloc, glyph, place)?)?;
    }
    Ok(by_place)
}
