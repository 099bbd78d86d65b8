ghost use Rattle.std.specs.Prelude.{◌≡◌, ◌+◌, ◌*◌, ◌^◌, ◌<◌, ◌≤◌, ◌*ℤ◌, ◌+ℤ◌, pos};
ghost use Rattle.std.specs.Prelude.{unsigned_abs, IfOk, length};
ghost use Rattle.font_reader.specs.Shapes.{IsShape, own_points, room_for, shape_of};
ghost use Rattle.font_reader.specs.Points.{Fills, alone, component_place, contour_at, contour_for};
ghost use Rattle.font_reader.specs.Points.{moved_point, outline_at, outline_for, phantom_place};
ghost use Rattle.font_reader.specs.Points.{point_at, point_in, point_of, point_with};
ghost use Rattle.font_reader.specs.Points.{stored_place};
ghost use Rattle.font_reader.specs.Rooms.{HasRoomFor, IsAsLarge};

use crate::advances::stored_advance;
use crate::directory::{FontView, GLYF};
use crate::faults::{FaultKind, FontFault};
use crate::fields::read_i16;
use crate::outlines::{Contour, contour_of, fill_outline};
use crate::packed::Target;
use crate::room::Room;
use crate::shapes::{Shape, own_points, shape_of};
use crate::tuples::{Offset, known, point_offset};
use crate::versions::{axes_for, glyph_among, required};
use fixed_math::F2Dot14;

/// A point in 16.16: 65536 stands for one font unit.
#[derive(Clone, Copy, Debug, PartialEq, Eq)]
pub struct Point {
    pub x: i64,
    pub y: i64,
}

/// A point that is stored, in font units.
#[derive(Clone, Copy)]
pub struct Place {
    pub x: i32,
    pub y: i32,
}

impl FontView<'_> {
    /// A point of a glyph at a place of the design space, in 16.16: the stored point, moved by each
    /// of the glyph's tuples by its delta times its scalar (OpenType 1.9, "glyf" and "gvar"). Where
    /// a tuple doesn't name the point, its delta is inferred from the nearest named points of its
    /// contour.
    ///
    /// Of a composite glyph a point is a component, and the answer is its offset. After the points
    /// stand the four phantom points, of which the second is at the advance.
    ///
    /// It takes time for the glyph's data and for those of its tuples. It takes no memory: it works
    /// in the room, which has at least as many points as `room_for` says. Where that is a fault,
    /// any room does. Afterwards the room is as large as before, and what it holds doesn't matter.
    ///
    /// # Errors
    ///
    /// `CoordCount` at the number of axes, where there are more or fewer coordinates; `NoPoint` at
    /// a glyph that isn't there; then the first fault on the way, in `head`, `loca` and `glyf`,
    /// with `NoPoint` at a point that isn't there once its number of points is known, and at last
    /// in `hhea` and `hmtx`, for the second phantom point alone, and in `gvar`. In each table that
    /// is `OutOfTable` at a field that isn't within it, or `BadFormat` at a version, a format, a
    /// flag or a count that isn't one of those that are read, or at the number of a shared peak or
    /// of a point that isn't there.
    pub fn point_at(
        &self,
        gid: u16,
        index: u32,
        at: &[F2Dot14],
        room: &mut Room,
    ) -> Result<Point, FontFault>
        requires { IfOk (room_for self.now.bytes.now gid) (HasRoomFor room.old) }
        ensures value { result ≡ point_at self.now.bytes.now gid index at.now }
        ensures room { IsAsLarge room.old room.new }
    {
        let xs = room.xs.as_mut_slice();
        let ys = room.ys.as_mut_slice();
        point_by(self.bytes, gid, index as usize, at, xs, ys)
    }
}

/// A point of a glyph, found in a room.
#[tactic(auto, unfolding(crate::specs::Points::point_at, crate::specs::Shapes::room_for))]
fn point_by(
    bytes: &[u8],
    gid: u16,
    index: usize,
    place: &[F2Dot14],
    xs: &mut [i32],
    ys: &mut [i32],
) -> Result<Point, FontFault>
    requires xs { IfOk (room_for bytes.now gid) (λ points. points ≤ length xs.old) }
    requires ys { IfOk (room_for bytes.now gid) (λ points. points ≤ length ys.old) }
    ensures { result ≡ point_at bytes.now gid index place.now }
{
    axes_for(bytes, place.len())?;
    let glyphs = glyph_among(bytes, gid)?;
    let shape = shape_of(bytes, gid)?;
    point_in(bytes, gid, glyphs, shape, index, place, xs, ys)
}

/// A point of a glyph, if it is there.
fn point_in(
    bytes: &[u8],
    gid: u16,
    glyphs: u16,
    shape: Shape,
    index: usize,
    place: &[F2Dot14],
    xs: &mut [i32],
    ys: &mut [i32],
) -> Result<Point, FontFault>
    requires shape { IsShape shape }
    requires axes { length place.now < 65536 }
    requires xs { own_points shape + 4 ≤ length xs.old }
    requires ys { own_points shape + 4 ≤ length ys.old }
    ensures { result ≡ point_in bytes.now gid glyphs shape index place.now }
{
    if index < own_points(shape) + 4 {
        point_of(bytes, gid, glyphs, shape, index, place, xs, ys)
    } else {
        Err(FontFault {
            place: index as u64,
            kind: FaultKind::NoPoint,
        })
    }
}

/// A point that is there.
#[tactic(auto, unfolding(crate::specs::Points::point_of))]
fn point_of(
    bytes: &[u8],
    gid: u16,
    glyphs: u16,
    shape: Shape,
    index: usize,
    place: &[F2Dot14],
    xs: &mut [i32],
    ys: &mut [i32],
) -> Result<Point, FontFault>
    requires shape { IsShape shape }
    requires axes { length place.now < 65536 }
    requires xs { own_points shape + 4 ≤ length xs.old }
    requires ys { own_points shape + 4 ≤ length ys.old }
    ensures { result ≡ point_of bytes.now gid glyphs shape index place.now }
{
    let count = fill_for(bytes, shape, index, xs, ys)?;
    point_with(
        bytes,
        gid,
        glyphs,
        shape,
        index,
        place,
        &xs[..count],
        &ys[..count],
    )
}

/// Puts the outline into a room, where the point is one of it. The answer is how many points there
/// are in the room.
#[tactic(auto, unfolding(crate::specs::Points::outline_for, crate::specs::Shapes::own_points))]
fn fill_for(
    bytes: &[u8],
    shape: Shape,
    index: usize,
    xs: &mut [i32],
    ys: &mut [i32],
) -> Result<usize, FontFault>
    requires shape { IsShape shape }
    requires xs { own_points shape + 4 ≤ length xs.old }
    requires ys { own_points shape + 4 ≤ length ys.old }
    ensures { Fills result xs.new ys.new (outline_for bytes.now shape index) }
{
    match shape {
        Shape::Empty => Ok(0),
        Shape::Composite(_, _) => Ok(0),
        Shape::Simple(at, contours, points) => {
            if index < points {
                fill_at(bytes, at, contours, points, xs, ys)
            } else {
                Ok(0)
            }
        }
    }
}

/// Puts the outline of a simple glyph into a room.
#[tactic(auto, unfolding(crate::specs::Points::outline_at))]
fn fill_at(
    bytes: &[u8],
    at: usize,
    contours: usize,
    points: usize,
    xs: &mut [i32],
    ys: &mut [i32],
) -> Result<usize, FontFault>
    requires near { at < 2 ^ 32 }
    requires contours { contours < 65536 }
    requires few { points ≤ 65536 }
    requires xs { points ≤ length xs.old }
    requires ys { points ≤ length ys.old }
    ensures { Fills result xs.new ys.new (outline_at bytes.now at contours points) }
{
    let glyf = required(bytes, GLYF, 5)?;
    fill_outline(bytes, glyf, at, contours, points, xs, ys)?;
    Ok(points)
}

/// A point by itself.
fn alone(index: usize) -> Contour
    ensures { result ≡ alone index }
{
    Contour {
        first: index,
        last: index,
    }
}

/// The contour of a point of a simple glyph.
#[tactic(auto, unfolding(crate::specs::Points::contour_at))]
fn contour_at(
    bytes: &[u8],
    at: usize,
    contours: usize,
    points: usize,
    index: usize,
) -> Result<Contour, FontFault>
    requires near { at < 2 ^ 32 }
    requires contours { contours < 65536 }
    requires some { 0 < points }
    ensures { result ≡ contour_at bytes.now at contours points index }
{
    let glyf = required(bytes, GLYF, 5)?;
    let contour = contour_of(bytes, glyf, at, contours, index)?;
    Ok(Contour {
        first: contour.first,
        last: contour.last.min(points - 1),
    })
}

/// The contour of a point.
#[tactic(auto, unfolding(crate::specs::Points::contour_for))]
fn contour_for(bytes: &[u8], shape: Shape, index: usize) -> Result<Contour, FontFault>
    requires { IsShape shape }
    ensures { result ≡ contour_for bytes.now shape index }
{
    match shape {
        Shape::Empty => Ok(alone(index)),
        Shape::Composite(_, _) => Ok(alone(index)),
        Shape::Simple(at, contours, points) => {
            if index < points {
                contour_at(bytes, at, contours, points, index)
            } else {
                Ok(alone(index))
            }
        }
    }
}

/// A phantom point.
#[tactic(auto, unfolding(crate::specs::Points::phantom_place))]
fn phantom_place(bytes: &[u8], gid: u16, k: usize) -> Result<Place, FontFault>
    ensures { result ≡ phantom_place bytes.now gid k }
{
    if k == 1 {
        let advance = stored_advance(bytes, gid)?;
        Ok(Place {
            x: i32::from(advance),
            y: 0,
        })
    } else {
        Ok(Place { x: 0, y: 0 })
    }
}

/// Where a component is put.
#[tactic(auto, unfolding(crate::specs::Points::component_place))]
fn component_place(bytes: &[u8], at: usize, i: usize) -> Result<Place, FontFault>
    requires near { at < 2 ^ 32 }
    requires few { i ≤ 4294967296 }
    ensures { result ≡ component_place bytes.now at i }
{
    let glyf = required(bytes, GLYF, 5)?;
    let x = read_i16(bytes, glyf, at + 14 + 8 * i)?;
    let y = read_i16(bytes, glyf, at + 16 + 8 * i)?;
    Ok(Place {
        x: i32::from(x),
        y: i32::from(y),
    })
}

/// The point that is stored.
#[tactic(auto, unfolding(crate::specs::Points::stored_place))]
fn stored_place(
    bytes: &[u8],
    gid: u16,
    shape: Shape,
    index: usize,
    xs: &[i32],
    ys: &[i32],
) -> Result<Place, FontFault>
    requires { IsShape shape }
    ensures { result ≡ stored_place bytes.now gid shape index xs.now ys.now }
{
    match shape {
        Shape::Empty => phantom_place(bytes, gid, index),
        Shape::Simple(_, _, points) => {
            if index < points {
                Ok(Place {
                    x: known(xs, index),
                    y: known(ys, index),
                })
            } else {
                phantom_place(bytes, gid, index - points)
            }
        }
        Shape::Composite(at, components) => {
            if index < components {
                component_place(bytes, at, index)
            } else {
                phantom_place(bytes, gid, index - components)
            }
        }
    }
}

/// A coordinate in 16.16, moved.
fn moved(at: i32, offset: i64) -> i64
    requires { unsigned_abs offset ≤ 17592186044416 }
    ensures { result ≡ (at *ℤ pos 65536) +ℤ offset }
{
    i64::from(at) * 65536 + offset
}

/// The point in 16.16, moved.
fn moved_point(place: Place, offset: Offset) -> Point
    requires x { unsigned_abs offset.x ≤ 17592186044416 }
    requires y { unsigned_abs offset.y ≤ 17592186044416 }
    ensures { result ≡ moved_point place offset }
{
    Point {
        x: moved(place.x, offset.x),
        y: moved(place.y, offset.y),
    }
}

/// A point, with the outline that it is one of.
#[tactic(auto, unfolding(crate::specs::Points::point_with))]
fn point_with(
    bytes: &[u8],
    gid: u16,
    glyphs: u16,
    shape: Shape,
    index: usize,
    place: &[F2Dot14],
    xs: &[i32],
    ys: &[i32],
) -> Result<Point, FontFault>
    requires shape { IsShape shape }
    requires axes { length place.now < 65536 }
    ensures { result ≡ point_with bytes.now gid glyphs shape index place.now xs.now ys.now }
{
    let contour = contour_for(bytes, shape, index)?;
    let stored = stored_place(bytes, gid, shape, index, xs, ys)?;
    let target = Target {
        index,
        first: contour.first,
        last: contour.last,
        points: own_points(shape) + 4,
    };
    let offset = point_offset(bytes, gid, glyphs, target, place, xs, ys)?;
    Ok(moved_point(stored, offset))
}
