ghost use Rattle.std.specs.Prelude.{◌≡◌, ◌+◌, ◌<◌, ◌≤◌, ◌++◌, length, map, not, IfOk, OnOk};
ghost use Rattle.std.specs.List.{items_where_true, zip};
ghost use Rattle.font_ir.specs.FlatGlyphs.{point_count};
ghost use Rattle.gvar_writer.specs.PackedPoints.{differences};
ghost use Rattle.gvar_writer.specs.TupleData.{is_moved, contours_of, count_of, named_points};
ghost use Rattle.gvar_writer.specs.TupleData.{numbers_from};

use delta_infer::omit;
use font_ir::Contour;
use refusal_codes::NoMemory;
use std::alloc::Global;

/// The outline of a glyph as it is stored: its contours, and how many points they have.
#[derive(Drop)]
pub struct Outline {
    pub contours: Vec<Vec<(i32, i32)>>,
    pub points: usize,
    ghost counted: { points ≡ count_of (map (λ contour. contour.items) contours.items) },
}

/// Coordinates or deltas in x and y, point by point.
fn pairs(alloc: Global, xs: &[i16], ys: &[i16]) -> Result<Vec<(i16, i16)>, NoMemory>
    requires { length ys.now ≡ length xs.now }
    ensures { IfOk result (λ pairs. pairs.items ≡ zip xs.now ys.now) }
{
    let mut pairs = Vec::with_capacity(alloc, xs.len())?;
    for (i, x) in xs.iter().enumerate() {
        pairs.push((*x, ys[i]))?;
    }
    Ok(pairs)
}

/// The points of a contour, in 32 bits.
fn contour_points(alloc: Global, points: &[(i16, i16)]) -> Result<Vec<(i32, i32)>, NoMemory>
    ensures { IfOk result (λ contour. contour.items ≡ points.now) }
{
    let mut contour = Vec::with_capacity(alloc, points.len())?;
    for point in points {
        contour.push((i32::from(point.0), i32::from(point.1)))?;
    }
    Ok(contour)
}

/// The outline whose contours have as many points as these, and whose points lie at these
/// coordinates.
fn cut_outline(
    alloc: Global,
    contours: &[Contour],
    points: &[(i16, i16)],
) -> Result<Outline, NoMemory>
    requires { point_count contours.now ≤ length points.now }
    ensures value { IfOk result (λ outline. map (λ contour. contour.items)
        outline.contours.items
        ≡ contours_of (map (λ contour. length contour.points) contours.now) points.now) }
    ensures points { IfOk result (λ outline. outline.points ≡ point_count contours.now) }
{
    let mut outline = Vec::with_capacity(alloc, contours.len())?;
    let mut from = 0;
    for contour in contours {
        let end = from + contour.points.len();
        outline.push(contour_points(alloc, &points[from..end])?)?;
        from = end;
    }
    Ok(Outline {
        contours: outline,
        points: from,
    })
}

/// The outline whose contours have as many points as these, and whose points lie at these
/// coordinates in x and y.
pub fn outline_of(
    alloc: Global,
    contours: &[Contour],
    xs: &[i16],
    ys: &[i16],
) -> Result<Outline, NoMemory>
    requires pairs { length ys.now ≡ length xs.now }
    requires points { point_count contours.now ≤ length xs.now }
    ensures value { IfOk result (λ outline. map (λ contour. contour.items)
        outline.contours.items
        ≡ contours_of (map (λ contour. length contour.points) contours.now)
        (zip xs.now ys.now)) }
    ensures points { IfOk result (λ outline. outline.points ≡ point_count contours.now) }
{
    let points = pairs(alloc, xs, ys)?;
    cut_outline(alloc, contours, points.as_slice())
}

/// Adds the points of an outline, of which these can be left out.
fn push_outline(named: &mut Vec<bool>, left_out: &[bool]) -> Result<(), NoMemory>
    ensures { OnOk result (named.new.items ≡ named.old.items ++ map not left_out.now) }
{
    for mark in left_out {
        named.push(!*mark)?;
    }
    Ok(())
}

/// Whether a point moves.
fn is_moved(delta: (i16, i16)) -> bool
    ensures { result ≡ is_moved delta }
{
    delta.0 != 0 || delta.1 != 0
}

/// Adds the other points.
fn push_others(named: &mut Vec<bool>, deltas: &[(i16, i16)]) -> Result<(), NoMemory>
    ensures { OnOk result (named.new.items ≡ named.old.items ++ map is_moved deltas.now) }
{
    for delta in deltas {
        named.push(is_moved(*delta))?;
    }
    Ok(())
}

/// Whether each of some points is named, of which those of the outline are the first.
pub fn named_points(
    alloc: Global,
    outline: &Outline,
    xs: &[i16],
    ys: &[i16],
) -> Result<Vec<bool>, NoMemory>
    requires pairs { length ys.now ≡ length xs.now }
    requires points { outline.now.points ≤ length xs.now }
    ensures value { IfOk result (λ named. named.items ≡ named_points
        (map (λ contour. contour.items) outline.now.contours.items) (zip xs.now ys.now)) }
    ensures as_many { IfOk result (λ named. length named.items ≡ length xs.now) }
{
    let deltas = pairs(alloc, xs, ys)?;
    let (own, others) = deltas.as_slice().split_at(outline.points);
    let left_out = omit(alloc, outline.contours.as_slice(), own)?;
    let mut named = Vec::with_capacity(alloc, deltas.len())?;
    push_outline(&mut named, left_out.as_slice())?;
    push_others(&mut named, others)?;
    Ok(named)
}

/// The differences between the numbers of the points that are named.
pub fn differences(alloc: Global, named: &[bool]) -> Result<Vec<u16>, NoMemory>
    requires { length named.now ≤ 65536 }
    ensures value { IfOk result (λ numbers. numbers.items
        ≡ differences 0 (numbers_from 0 named.now)) }
    ensures few { IfOk result (λ numbers. length numbers.items ≤ length named.now) }
{
    let mut differences = Vec::with_capacity(alloc, named.len())?;
    let mut before = 0;
    for (number, is_named) in named.iter().enumerate() {
        if *is_named {
            differences.push((number - before) as u16)?;
            before = number;
        }
    }
    Ok(differences)
}

/// The deltas of the points that are named.
pub fn named_deltas(alloc: Global, named: &[bool], deltas: &[i16]) -> Result<Vec<i16>, NoMemory>
    requires { length named.now ≡ length deltas.now }
    ensures { IfOk result (λ kept. kept.items ≡ items_where_true named.now deltas.now) }
{
    let mut kept = Vec::with_capacity(alloc, deltas.len())?;
    for (i, is_named) in named.iter().enumerate() {
        if *is_named {
            kept.push(deltas[i])?;
        }
    }
    Ok(kept)
}
