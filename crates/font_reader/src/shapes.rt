ghost use Rattle.std.specs.Prelude.{◌≡◌, ◌+◌, ◌*◌, ◌^◌, ◌<◌, ◌≤◌, IfOk, IfSome, length};
ghost use Rattle.font_reader.specs.Fields.{IsWithin};
ghost use Rattle.font_reader.specs.Fold.{folded};
ghost use Rattle.font_reader.specs.Search.{first_found};
ghost use Rattle.font_reader.specs.Shapes.{component_count, composite_shape};
ghost use Rattle.font_reader.specs.Shapes.{glyph_data, last_component, own_points, points_to};
ghost use Rattle.font_reader.specs.Shapes.{room_for, shape_at, shape_in, shape_of, simple_points};
ghost use Rattle.font_reader.specs.Shapes.{simple_shape, IsShape};

use crate::directory::{FontView, GLYF, HEAD, LOCA};
use crate::faults::FontFault;
use crate::fields::{Table, read_i16, read_u16, read_u32};
use crate::versions::{bad_format, expect_u16, expect_u32, glyph_among, required};

/// What a glyph is made of, with the place in `glyf` where its data begin.
#[derive(Clone, Copy)]
pub enum Shape {
    /// It has no data.
    Empty,
    /// So many contours with so many points.
    Simple(usize, usize, usize),
    /// So many components.
    Composite(usize, usize),
}

impl FontView<'_> {
    /// How many points a glyph has, or how many components, with the four phantom points
    /// (OpenType 1.9, "loca" and "glyf"): the points that a room needs for `point_at`. It takes no
    /// memory.
    ///
    /// # Errors
    ///
    /// `NoPoint` at a glyph that isn't there; then the first fault on the way, in `maxp`, `head`,
    /// `loca` and `glyf`: `OutOfTable` at a field that isn't within its table, `BadFormat` at a
    /// version, a format of offsets, a number of contours or a component's flags that aren't read.
    pub fn room_for(&self, gid: u16) -> Result<usize, FontFault>
        ensures { result ≡ room_for self.now.bytes.now gid }
    {
        points_of(self.bytes, gid)
    }
}

/// How many points a glyph has, or how many components, with the four phantom points.
#[tactic(auto, unfolding(crate::specs::Shapes::room_for))]
fn points_of(bytes: &[u8], gid: u16) -> Result<usize, FontFault>
    ensures { result ≡ room_for bytes.now gid }
{
    glyph_among(bytes, gid)?;
    let shape = shape_of(bytes, gid)?;
    Ok(own_points(shape) + 4)
}

/// How many points or components a glyph has of its own.
#[tactic(auto, unfolding(crate::specs::Shapes::own_points))]
pub fn own_points(shape: Shape) -> usize
    requires { IsShape shape }
    ensures value { result ≡ own_points shape }
    ensures few { result < 2 ^ 33 }
{
    match shape {
        Shape::Empty => 0,
        Shape::Simple(_, _, points) => points,
        Shape::Composite(_, components) => components,
    }
}

/// Where the data of a glyph begin, if it has any.
#[tactic(auto, unfolding(crate::specs::Shapes::glyph_data))]
fn glyph_data(bytes: &[u8], gid: u16) -> Result<Option<usize>, FontFault>
    ensures value { result ≡ glyph_data bytes.now gid }
    ensures near { IfOk result (λ found. IfSome found (λ at. at < 2 ^ 32)) }
{
    let head = required(bytes, HEAD, 0)?;
    expect_u32(bytes, head, 0, 65536)?;
    expect_u16(bytes, head, 50, 1)?;
    let loca = required(bytes, LOCA, 4)?;
    let from = read_u32(bytes, loca, 4 * usize::from(gid))?;
    let to = read_u32(bytes, loca, 4 * usize::from(gid) + 4)?;
    if from == to {
        Ok(None)
    } else {
        Ok(Some(from as usize))
    }
}

/// How many points there are up to the end of a contour.
#[tactic(auto, unfolding(crate::specs::Shapes::points_to))]
fn points_to(
    bytes: &[u8],
    glyf: Table,
    at: usize,
    i: usize,
    before: usize,
) -> Result<usize, FontFault>
    requires within { IsWithin bytes.now glyf }
    requires near { at < 2 ^ 32 }
    requires few { i < 65536 }
    ensures value { result ≡ points_to bytes.now glyf at i before }
    ensures small { IfOk result (λ points. points ≤ 65536) }
{
    let _before = before;
    let end = read_u16(bytes, glyf, at + 10 + 2 * i)?;
    Ok(usize::from(end) + 1)
}

/// How many points a simple glyph has.
#[tactic(auto, using(crate::proofs::Turns::fold), unfolding(crate::specs::Shapes::simple_points))]
fn simple_points(bytes: &[u8], glyf: Table, at: usize, contours: usize) -> Result<usize, FontFault>
    requires within { IsWithin bytes.now glyf }
    requires near { at < 2 ^ 32 }
    requires few { contours < 65536 }
    ensures value { result ≡ simple_points bytes.now glyf at contours }
    ensures small { IfOk result (λ points. points ≤ 65536) }
{
    let mut points = 0;
    for i in 0..contours {
        points = points_to(bytes, glyf, at, i, points)?;
    }
    Ok(points)
}

/// How many components there are, if this is the last one.
#[tactic(auto, unfolding(crate::specs::Shapes::last_component))]
fn last_component(
    bytes: &[u8],
    glyf: Table,
    at: usize,
    i: usize,
) -> Result<Option<usize>, FontFault>
    requires within { IsWithin bytes.now glyf }
    requires near { at < 2 ^ 32 }
    requires few { i < 2 ^ 32 }
    ensures value { result ≡ last_component bytes.now glyf at i }
    ensures few { IfOk result (λ found. IfSome found (λ count. count ≤ 4294967296)) }
{
    let place = at + 10 + 8 * i;
    let flags = read_u16(bytes, glyf, place)?;
    if flags == 35 {
        Ok(None)
    } else if flags == 3 {
        Ok(Some(i + 1))
    } else {
        Err(bad_format(glyf, place))
    }
}

/// How many components there are up to the last one.
#[tactic(auto, using(crate::proofs::Turns::found))]
fn components_to_last(bytes: &[u8], glyf: Table, at: usize) -> Result<Option<usize>, FontFault>
    requires within { IsWithin bytes.now glyf }
    requires near { at < 2 ^ 32 }
    ensures value { result ≡ first_found (last_component bytes.now glyf at) 0 glyf.length }
    ensures few { IfOk result (λ found. IfSome found (λ count. count ≤ 4294967296)) }
{
    let end = glyf.length as usize;
    for i in 0..end {
        if let Some(count) = last_component(bytes, glyf, at, i)? {
            return Ok(Some(count));
        }
    }
    Ok(None)
}

/// How many components a composite glyph has.
#[tactic(auto, unfolding(crate::specs::Shapes::component_count))]
fn component_count(bytes: &[u8], glyf: Table, at: usize) -> Result<usize, FontFault>
    requires within { IsWithin bytes.now glyf }
    requires near { at < 2 ^ 32 }
    ensures value { result ≡ component_count bytes.now glyf at }
    ensures few { IfOk result (λ count. count ≤ 4294967296) }
{
    let found = components_to_last(bytes, glyf, at)?;
    Ok(found.unwrap_or(0))
}

/// A simple glyph with so many contours.
#[tactic(auto, unfolding(crate::specs::Shapes::simple_shape))]
fn simple_shape(bytes: &[u8], glyf: Table, at: usize, contours: usize) -> Result<Shape, FontFault>
    requires within { IsWithin bytes.now glyf }
    requires near { at < 2 ^ 32 }
    requires few { contours < 65536 }
    ensures value { result ≡ simple_shape bytes.now glyf at contours }
    ensures shape { IfOk result IsShape }
{
    let points = simple_points(bytes, glyf, at, contours)?;
    Ok(Shape::Simple(at, contours, points))
}

/// A composite glyph.
#[tactic(auto, unfolding(crate::specs::Shapes::composite_shape))]
fn composite_shape(bytes: &[u8], glyf: Table, at: usize) -> Result<Shape, FontFault>
    requires within { IsWithin bytes.now glyf }
    requires near { at < 2 ^ 32 }
    ensures value { result ≡ composite_shape bytes.now glyf at }
    ensures shape { IfOk result IsShape }
{
    let components = component_count(bytes, glyf, at)?;
    Ok(Shape::Composite(at, components))
}

/// The glyph whose data begin at a place of `glyf`.
#[tactic(auto, unfolding(crate::specs::Shapes::shape_at))]
fn shape_at(bytes: &[u8], glyf: Table, at: usize) -> Result<Shape, FontFault>
    requires within { IsWithin bytes.now glyf }
    requires near { at < 2 ^ 32 }
    ensures value { result ≡ shape_at bytes.now glyf at }
    ensures shape { IfOk result IsShape }
{
    let contours = read_i16(bytes, glyf, at)?;
    if contours < 0 {
        if contours == -1 {
            composite_shape(bytes, glyf, at)
        } else {
            Err(bad_format(glyf, at))
        }
    } else {
        simple_shape(bytes, glyf, at, usize::from(contours.unsigned_abs()))
    }
}

/// The glyph whose data begin at a place of `glyf`, or one without data.
#[tactic(auto, unfolding(crate::specs::Shapes::shape_in))]
fn shape_in(bytes: &[u8], found: Option<usize>) -> Result<Shape, FontFault>
    requires { IfSome found (λ at. at < 2 ^ 32) }
    ensures value { result ≡ shape_in bytes.now found }
    ensures shape { IfOk result IsShape }
{
    match found {
        Some(at) => {
            let glyf = required(bytes, GLYF, 5)?;
            shape_at(bytes, glyf, at)
        }
        None => Ok(Shape::Empty),
    }
}

/// What a glyph is made of.
#[tactic(auto, unfolding(crate::specs::Shapes::shape_of))]
pub fn shape_of(bytes: &[u8], gid: u16) -> Result<Shape, FontFault>
    ensures value { result ≡ shape_of bytes.now gid }
    ensures shape { IfOk result IsShape }
{
    let found = glyph_data(bytes, gid)?;
    shape_in(bytes, found)
}
