ghost use Rattle.std.specs.Prelude.{◌≡◌, ◌<◌, length, map, IfOk, slice_index_or};
ghost use Rattle.std.specs.List.{All, list_all};
ghost use Rattle.std.specs.Prelude.{position};
ghost use Rattle.font_ir.specs.FlatGlyphs.{IsFlatGlyph, glyphs_of};
ghost use Rattle.refusal_codes.specs.declared.rule.Rule.TheVariants.{DeltaTooLarge};
ghost use Rattle.variation_model.specs.Deltas.{deltas_of, is_storable};
ghost use Rattle.component_flatten.specs.Places.{same_place, has_places, point_in};
ghost use Rattle.component_flatten.specs.Places.{deltas_over, point_deltas, contour_deltas};
ghost use Rattle.component_flatten.specs.Places.{glyph_deltas, is_storable_point, are_storable};
ghost use Rattle.component_flatten.specs.Places.{contour_in, first_drawn};
ghost use Rattle.component_flatten.specs.Judging.{Judges, HasPoint, between_of};
ghost use Rattle.component_flatten.specs.Judging.{has_no_large_deltas};

use crate::limits::LimitError;
use fixed_math::{F2Dot14, Fixed};
use font_ir::{Contour, DrawnPoint, FlatGlyph, Location};
use plain_lists::Sequence;
use refusal_codes::Rule;
use std::alloc::{AllocError, Global};
use std::sync::Arc;
use variation_model::{DeltaError, Model};

/// The deltas of a point's coordinates over its glyph's places, in the model's order.
#[derive(Debug, Drop)]
pub struct PointDeltas {
    pub x: Sequence<i16>,
    pub y: Sequence<i16>,
    /// Whether the point is on the curve.
    pub on: bool,
}

/// The deltas of a contour's points.
#[derive(Debug, Drop)]
pub struct ContourDeltas {
    pub points: Sequence<PointDeltas>,
}

/// What gives a glyph's contours between its places: the model of these, and the deltas.
#[derive(Debug, Drop)]
pub struct Between {
    pub model: Model,
    pub contours: Sequence<ContourDeltas>,
}

/// The number of a place among others.
pub fn number_of(places: &[Location], at: &[F2Dot14]) -> Option<usize>
    ensures { result ≡ position (λ place. same_place place at.now) places.now }
{
    places.iter().position(|place| place.as_slice() == at)
}

/// What gives a base between its places, if it lacks one of these. The error is that a delta is
/// outside an `i16`.
pub fn between_of(
    alloc: Global,
    places: &[Location],
    base: &FlatGlyph,
) -> Result<Option<Between>, LimitError>
    requires { IsFlatGlyph base.now }
    ensures value { IfOk result (λ made. made ≡ between_of places.now base.now) }
    ensures limit { Judges DeltaTooLarge (has_no_large_deltas places.now base.now) result }
{
    if has_places(places, base) {
        return Ok(None);
    }
    let model = Model::new(alloc, base.places.as_slice())?;
    let contours = glyph_deltas(alloc, &model, base)?;
    Ok(Some(Between { model, contours }))
}

/// Whether a glyph has all of these places.
fn has_places(places: &[Location], glyph: &FlatGlyph) -> bool
    ensures { result ≡ has_places places.now glyph.now }
{
    places.iter().all(|at| number_of(glyph.places.as_slice(), at.as_slice()).is_some())
}

/// The deltas of a glyph's points.
fn glyph_deltas(
    alloc: Global,
    model: &Model,
    glyph: &FlatGlyph,
) -> Result<Sequence<ContourDeltas>, LimitError>
    requires glyph { IsFlatGlyph glyph.now }
    requires model { model.now ≡ glyph.now.places }
    ensures value { IfOk result (λ made. made ≡ glyph_deltas glyph.now) }
    ensures limit { Judges DeltaTooLarge (are_storable (glyph_deltas glyph.now)) result }
{
    let contours = first_drawn(glyph);
    let mut made = Sequence::from_vec(Vec::with_capacity(alloc, contours.len())?);
    for (c, contour) in contours.iter().enumerate() {
        made.push(contour_deltas(alloc, model, glyph, c, contour)?)?;
    }
    Ok(made)
}

/// The contours at a glyph's first place.
pub fn first_drawn(glyph: &FlatGlyph) -> &[Contour]
    requires { IsFlatGlyph glyph.now }
    ensures { result.now ≡ first_drawn glyph.now }
{
    glyph.drawn.as_slice()[0].as_slice()
}

/// The deltas of the points of the contour c.
fn contour_deltas(
    alloc: Global,
    model: &Model,
    glyph: &FlatGlyph,
    c: usize,
    contour: &Contour,
) -> Result<ContourDeltas, LimitError>
    requires glyph { IsFlatGlyph glyph.now }
    requires model { model.now ≡ glyph.now.places }
    requires within { c < length (first_drawn glyph.now) }
    requires contour { contour.now ≡ contour_in (first_drawn glyph.now) c }
    ensures value { IfOk result (λ made. made ≡ contour_deltas glyph.now c contour.now) }
    ensures limit { Judges DeltaTooLarge
        (list_all is_storable_point (contour_deltas glyph.now c contour.now).points) result }
{
    let points = contour.points.as_slice();
    let mut made = Sequence::from_vec(Vec::with_capacity(alloc, points.len())?);
    for (j, point) in points.iter().enumerate() {
        made.push(point_deltas(alloc, model, glyph, (c, j), point)?)?;
    }
    Ok(ContourDeltas { points: made })
}

/// The deltas of one point, told by the numbers of its contour and of itself.
fn point_deltas(
    alloc: Global,
    model: &Model,
    glyph: &FlatGlyph,
    at: (usize, usize),
    point: &DrawnPoint,
) -> Result<PointDeltas, LimitError>
    requires model { model.now ≡ glyph.now.places }
    requires drawn { length glyph.now.drawn ≡ length glyph.now.places }
    requires within { All (HasPoint at.0 at.1) glyph.now.drawn }
    ensures value { IfOk result (λ made. made ≡ point_deltas glyph.now at.0 at.1 point.now) }
    ensures limit { Judges DeltaTooLarge
        (is_storable_point (point_deltas glyph.now at.0 at.1 point.now)) result }
{
    let points = over_places(alloc, glyph.drawn.as_slice(), at.0, at.1)?;
    deltas_over(alloc, model, points.as_slice(), point.on)
}

/// The deltas of a point that is so at each place.
fn deltas_over(
    alloc: Global,
    model: &Model,
    points: &[DrawnPoint],
    on: bool,
) -> Result<PointDeltas, LimitError>
    requires { length points.now ≡ length model.now }
    ensures value { IfOk result (λ made. made ≡ deltas_over model.now points.now on) }
    ensures limit { Judges DeltaTooLarge
        (is_storable_point (deltas_over model.now points.now on)) result }
{
    let x = x_deltas(alloc, model, points)?;
    let y = y_deltas(alloc, model, points)?;
    Ok(PointDeltas { x, y, on })
}

fn x_deltas(
    alloc: Global,
    model: &Model,
    points: &[DrawnPoint],
) -> Result<Sequence<i16>, LimitError>
    requires { length points.now ≡ length model.now }
    ensures value { IfOk result (λ made. made
        ≡ deltas_of model.now (map (λ point. point.x) points.now)) }
    ensures limit { Judges DeltaTooLarge (list_all is_storable
        (deltas_of model.now (map (λ point. point.x) points.now))) result }
{
    let values = xs(alloc, points)?;
    coordinate_deltas(alloc, model, values.as_slice())
}

fn y_deltas(
    alloc: Global,
    model: &Model,
    points: &[DrawnPoint],
) -> Result<Sequence<i16>, LimitError>
    requires { length points.now ≡ length model.now }
    ensures value { IfOk result (λ made. made
        ≡ deltas_of model.now (map (λ point. point.y) points.now)) }
    ensures limit { Judges DeltaTooLarge (list_all is_storable
        (deltas_of model.now (map (λ point. point.y) points.now))) result }
{
    let values = ys(alloc, points)?;
    coordinate_deltas(alloc, model, values.as_slice())
}

fn xs(alloc: Global, points: &[DrawnPoint]) -> Result<Vec<Fixed>, AllocError>
    ensures { IfOk result (λ values. values.items ≡ map (λ point. point.x) points.now) }
{
    points.iter().map(|point| point.x).collect(alloc)
}

fn ys(alloc: Global, points: &[DrawnPoint]) -> Result<Vec<Fixed>, AllocError>
    ensures { IfOk result (λ values. values.items ≡ map (λ point. point.y) points.now) }
{
    points.iter().map(|point| point.y).collect(alloc)
}

/// Where a point is at each place.
fn over_places(
    alloc: Global,
    drawn: &[Sequence<Contour>],
    c: usize,
    j: usize,
) -> Result<Sequence<DrawnPoint>, AllocError>
    requires { All (HasPoint c j) drawn.now }
    ensures { IfOk result (λ points. points
        ≡ map (λ contours. point_in contours c j) drawn.now) }
{
    let mut points = Sequence::from_vec(Vec::with_capacity(alloc, drawn.len())?);
    for contours in drawn {
        points.push(point_in(contours.as_slice(), c, j))?;
    }
    Ok(points)
}

fn point_in(contours: &[Contour], c: usize, j: usize) -> DrawnPoint
    requires { HasPoint c j contours.now }
    ensures { result ≡ point_in contours.now c j }
{
    contours[c].points.as_slice()[j]
}

/// The deltas of a coordinate. The error is that one of them is outside an `i16`.
fn coordinate_deltas(
    alloc: Global,
    model: &Model,
    values: &[Fixed],
) -> Result<Sequence<i16>, LimitError>
    requires { length values.now ≡ length model.now }
    ensures value { IfOk result (λ made. made ≡ deltas_of model.now values.now) }
    ensures limit { Judges DeltaTooLarge (list_all is_storable (deltas_of model.now values.now))
        result }
{
    match model.deltas(alloc, values) {
        Ok(deltas) => Ok(Sequence::from_vec(deltas)),
        Err(DeltaError::TooLarge { .. }) => Err(LimitError::Broken(Rule::DeltaTooLarge)),
        Err(DeltaError::NoMemory) => Err(LimitError::NoMemory),
    }
}

/// The base with this number.
#[tactic(auto, using(crate::proofs::BaseLemmas::base_is))]
pub fn base_at(bases: &[Arc<FlatGlyph>], n: usize) -> &FlatGlyph
    requires { n < length bases.now }
    ensures { result.now ≡ slice_index_or (glyphs_of bases.now) n result.now }
{
    &bases[n]
}
