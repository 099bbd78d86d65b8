ghost use Rattle.std.specs.Prelude.{◌≡◌, ℕ, ◌+◌, ◌<◌, ◌≤◌, ◌++◌, ◌∷◌, [], map, length, IfOk, OnOk};
ghost use Rattle.std.specs.Prelude.{slice_index_or, drop, option_copied};
ghost use Rattle.std.specs.List.{All, list_all};
ghost use Rattle.font_ir.specs.FlatGlyphs.{IsFlatGlyph, IsSmallPoint, glyphs_of};
ghost use Rattle.font_ir.specs.ReadGlyphs.{IsInRange, IsReadGlyph};
ghost use Rattle.font_ir.specs.Places.{axis_count, place_at};
ghost use Rattle.refusal_codes.specs.declared.rule.Rule.TheVariants.{CoordinateTooLarge};
ghost use Rattle.component_flatten.specs.Transforms.{IsTransform, transformed_point};
ghost use Rattle.component_flatten.specs.Places.{placed, point_between, contour_between};
ghost use Rattle.component_flatten.specs.Drawing as spec;
ghost use Rattle.component_flatten.specs.Flattening.{is_small_point, has_small_points, are_small};
ghost use Rattle.component_flatten.specs.Judging.{Judges, IsReady, AreReady, bases_taken};
ghost use Rattle.component_flatten.specs.Judging.{between_of};
ghost use Rattle.component_flatten.specs.Flattening.{IsBase, HasBases};
ghost use Rattle.component_flatten.specs.Judging.{HasDeltas, FitsModel};

use crate::between::{Between, ContourDeltas, PointDeltas, base_at, number_of};
use crate::betweens::Betweens;
use crate::limits::LimitError;
use crate::transform::{Spot, Transform};
use fixed_math::F2Dot14;
use font_ir::{Contour, DrawnPoint, FlatGlyph, GlyphIr, LayerIr, Location, Shape};
use plain_lists::Sequence;
use std::alloc::{AllocError, Global};
use std::sync::Arc;
use variation_model::Model;

/// The layers' widths.
pub fn widths(alloc: Global, layers: &[LayerIr]) -> Result<Sequence<i32>, AllocError>
    ensures { IfOk result (λ widths. widths ≡ map (λ layer. layer.width) layers.now) }
{
    let mut widths = Vec::with_capacity(alloc, layers.len())?;
    for layer in layers {
        push_width(layer, &mut widths)?;
    }
    Ok(Sequence::from_vec(widths))
}

fn push_width(layer: &LayerIr, widths: &mut Vec<i32>) -> Result<(), AllocError>
    ensures { OnOk result (widths.new.items ≡ widths.old.items ++ layer.now.width ∷ []) }
{
    widths.push(layer.width)?;
    Ok(())
}

/// The contours of a base that a component draws at a place. The base has the place, or what gives
/// it between its places is there.
fn push_component(
    alloc: Global,
    at: &[F2Dot14],
    transform: &Transform,
    base: &FlatGlyph,
    between: Option<&Between>,
    contours: &mut Sequence<Contour>,
) -> Result<(), LimitError>
    requires flat { IsFlatGlyph base.now }
    requires axes { length at.now ≡ axis_count base.now.places }
    requires transform { IsTransform transform.now }
    requires ready { IsReady at.now base.now (option_copied between) }
    ensures added { OnOk result (contours.new ≡ contours.old
        ++ spec.component_drawn at.now transform.now base.now) }
    ensures limit { Judges CoordinateTooLarge
        (are_small (spec.component_drawn at.now transform.now base.now)) result }
{
    match number_of(base.places.as_slice(), at) {
        Some(k) => push_transformed(
            alloc,
            transform,
            base.drawn.as_slice()[k].as_slice(),
            contours,
        ),
        None => match between {
            Some(between) => push_between(alloc, at, transform, between, contours),
            None => Ok(()),
        },
    }
}

/// Contours, transformed.
fn push_transformed(
    alloc: Global,
    transform: &Transform,
    drawn: &[Contour],
    contours: &mut Sequence<Contour>,
) -> Result<(), LimitError>
    requires small { All (λ contour. All IsSmallPoint contour.points) drawn.now }
    requires transform { IsTransform transform.now }
    ensures added { OnOk result (contours.new ≡ contours.old
        ++ map (spec.transformed_contour transform.now) drawn.now) }
    ensures limit { Judges CoordinateTooLarge
        (are_small (map (spec.transformed_contour transform.now) drawn.now)) result }
{
    for contour in drawn {
        contours.push(transformed_contour(alloc, transform, contour)?)?;
    }
    Ok(())
}

fn transformed_contour(
    alloc: Global,
    transform: &Transform,
    contour: &Contour,
) -> Result<Contour, LimitError>
    requires small { All IsSmallPoint contour.now.points }
    requires transform { IsTransform transform.now }
    ensures value { IfOk result (λ made. made
        ≡ spec.transformed_contour transform.now contour.now) }
    ensures limit { Judges CoordinateTooLarge
        (has_small_points (spec.transformed_contour transform.now contour.now)) result }
{
    let mut points = Sequence::from_vec(Vec::with_capacity(alloc, contour.points.len())?);
    for point in contour.points.as_slice() {
        points.push(transformed_point(transform, point)?)?;
    }
    Ok(Contour { points })
}

fn transformed_point(transform: &Transform, point: &DrawnPoint) -> Result<DrawnPoint, LimitError>
    requires small { IsSmallPoint point.now }
    requires transform { IsTransform transform.now }
    ensures value { IfOk result (λ made. made ≡ transformed_point transform.now point.now) }
    ensures limit { Judges CoordinateTooLarge
        (is_small_point (transformed_point transform.now point.now)) result }
{
    transform.point(Spot::of(point), point.on)
}

/// Contours between a base's places, transformed.
fn push_between(
    alloc: Global,
    at: &[F2Dot14],
    transform: &Transform,
    between: &Between,
    contours: &mut Sequence<Contour>,
) -> Result<(), LimitError>
    requires deltas { All (HasDeltas between.now.model) between.now.contours }
    requires axes { FitsModel at.now between.now.model }
    requires transform { IsTransform transform.now }
    ensures added { OnOk result (contours.new ≡ contours.old
        ++ map (spec.transformed_contour transform.now)
        (map (contour_between between.now.model at.now) between.now.contours)) }
    ensures limit { Judges CoordinateTooLarge
        (are_small (map (spec.transformed_contour transform.now)
        (map (contour_between between.now.model at.now) between.now.contours))) result }
{
    for deltas in between.contours.as_slice() {
        contours.push(contour_between(alloc, at, transform, &between.model, deltas)?)?;
    }
    Ok(())
}

fn contour_between(
    alloc: Global,
    at: &[F2Dot14],
    transform: &Transform,
    model: &Model,
    deltas: &ContourDeltas,
) -> Result<Contour, LimitError>
    requires deltas { HasDeltas model.now deltas.now }
    requires axes { FitsModel at.now model.now }
    requires transform { IsTransform transform.now }
    ensures value { IfOk result (λ made. made ≡ spec.transformed_contour transform.now
        (contour_between model.now at.now deltas.now)) }
    ensures limit { Judges CoordinateTooLarge
        (has_small_points (spec.transformed_contour transform.now
        (contour_between model.now at.now deltas.now))) result }
{
    let mut points = Sequence::from_vec(Vec::with_capacity(alloc, deltas.points.len())?);
    for point in deltas.points.as_slice() {
        points.push(point_between(at, transform, model, point)?)?;
    }
    Ok(Contour { points })
}

fn point_between(
    at: &[F2Dot14],
    transform: &Transform,
    model: &Model,
    deltas: &PointDeltas,
) -> Result<DrawnPoint, LimitError>
    requires x { length deltas.now.x ≡ length model.now }
    requires y { length deltas.now.y ≡ length model.now }
    requires axes { FitsModel at.now model.now }
    requires transform { IsTransform transform.now }
    ensures value { IfOk result (λ made. made ≡ transformed_point transform.now
        (point_between model.now at.now deltas.now)) }
    ensures limit { Judges CoordinateTooLarge (is_small_point (transformed_point transform.now
        (point_between model.now at.now deltas.now))) result }
{
    let spot = Spot {
        x: model.value_at(deltas.x.as_slice(), at),
        y: model.value_at(deltas.y.as_slice(), at),
    };
    transform.point(spot, deltas.on)
}

/// What a component draws, with the number of its base.
fn push_base(
    alloc: Global,
    at: &[F2Dot14],
    bases: &[Arc<FlatGlyph>],
    made: &Betweens,
    n: usize,
    transform: &Transform,
    contours: &mut Sequence<Contour>,
) -> Result<(), LimitError>
    requires flat { All IsFlatGlyph (glyphs_of bases.now) }
    requires axes { All (λ base. axis_count base.places ≡ length at.now) (glyphs_of bases.now) }
    requires ready { AreReady at.now (glyphs_of bases.now) made.now }
    requires within { n < length bases.now }
    requires transform { IsTransform transform.now }
    ensures added { OnOk result (contours.new ≡ contours.old
        ++ spec.first_base_drawn at.now transform.now (drop n (glyphs_of bases.now))) }
    ensures limit { Judges CoordinateTooLarge (are_small (spec.first_base_drawn at.now
        transform.now (drop n (glyphs_of bases.now)))) result }
{
    let base = base_at(bases, n);
    push_component(alloc, at, transform, base, made.get(n), contours)
}

/// What a layer's shape draws, with the number of the next base. It gives the number behind those
/// that the shape takes.
#[tactic(auto, using(crate::proofs::BaseLemmas::path_small))]
fn push_shape(
    alloc: Global,
    at: &[F2Dot14],
    bases: &[Arc<FlatGlyph>],
    made: &Betweens,
    next: usize,
    shape: &Shape,
    contours: &mut Sequence<Contour>,
) -> Result<usize, LimitError>
    requires flat { All IsFlatGlyph (glyphs_of bases.now) }
    requires axes { All (λ base. axis_count base.places ≡ length at.now) (glyphs_of bases.now) }
    requires ready { AreReady at.now (glyphs_of bases.now) made.now }
    requires enough { next + bases_taken shape.now ≤ length bases.now }
    requires range { IsInRange shape.now }
    ensures added { OnOk result (contours.new ≡ contours.old
        ++ spec.shape_drawn at.now (drop next (glyphs_of bases.now)) shape.now) }
    ensures next { IfOk result (λ n. n ≡ next + bases_taken shape.now) }
    ensures limit { Judges CoordinateTooLarge
        (are_small (spec.shape_drawn at.now (drop next (glyphs_of bases.now)) shape.now)) result }
{
    match shape {
        Shape::Path(contour) => {
            let points = contour.points.copy(alloc)?;
            contours.push(Contour { points })?;
            Ok(next)
        }
        Shape::Component {
            at: to,
            scale,
            quarters,
            ..
        } => {
            let transform = Transform {
                at: *to,
                scale: *scale,
                quarters: *quarters,
            };
            push_base(alloc, at, bases, made, next, &transform, contours)?;
            Ok(next + 1)
        }
    }
}

/// What a layer's shapes draw at a place, with the bases of their components and what is made of
/// each. The error is that a drawn coordinate is beyond 16383 in size.
fn shapes_drawn(
    alloc: Global,
    at: &[F2Dot14],
    bases: &[Arc<FlatGlyph>],
    made: &Betweens,
    shapes: &[Shape],
) -> Result<Sequence<Contour>, LimitError>
    requires flat { All IsFlatGlyph (glyphs_of bases.now) }
    requires axes { All (λ base. axis_count base.places ≡ length at.now) (glyphs_of bases.now) }
    requires ready { AreReady at.now (glyphs_of bases.now) made.now }
    requires enough { length (spec.names_of shapes.now) ≡ length bases.now }
    requires ranges { All IsInRange shapes.now }
    ensures value { IfOk result (λ drawn. drawn
        ≡ spec.shapes_drawn at.now (glyphs_of bases.now) shapes.now) }
    ensures limit { Judges CoordinateTooLarge
        (are_small (spec.shapes_drawn at.now (glyphs_of bases.now) shapes.now)) result }
{
    let mut contours = Sequence::from_vec(Vec::with_capacity(alloc, shapes.len())?);
    let mut next = 0;
    for shape in shapes {
        next = push_shape(alloc, at, bases, made, next, shape, &mut contours)?;
    }
    Ok(contours)
}

/// What a glyph draws at each of its places, with the bases of its components and what is made of
/// each. The error is that a drawn coordinate is beyond 16383 in size.
pub fn drawn(
    alloc: Global,
    glyph: &GlyphIr,
    bases: &[Arc<FlatGlyph>],
    made: &Betweens,
) -> Result<Sequence<Sequence<Contour>>, LimitError>
    requires read { IsReadGlyph glyph.now }
    requires bases { All (IsBase glyph.now.places) (glyphs_of bases.now) }
    requires enough { HasBases glyph.now (glyphs_of bases.now) }
    requires made { made.now ≡ map (between_of glyph.now.places) (glyphs_of bases.now) }
    ensures value { IfOk result (λ drawn. drawn
        ≡ spec.glyph_drawn glyph.now (glyphs_of bases.now)) }
    ensures limit { Judges CoordinateTooLarge
        (list_all are_small (spec.glyph_drawn glyph.now (glyphs_of bases.now))) result }
{
    let layers = glyph.layers.as_slice();
    let mut drawn = Sequence::from_vec(Vec::with_capacity(alloc, layers.len())?);
    for (i, layer) in layers.iter().enumerate() {
        drawn.push(layer_drawn(alloc, glyph, bases, made, i, layer)?)?;
    }
    Ok(drawn)
}

/// What the layer at the place with this number draws.
fn layer_drawn(
    alloc: Global,
    glyph: &GlyphIr,
    bases: &[Arc<FlatGlyph>],
    made: &Betweens,
    i: usize,
    layer: &LayerIr,
) -> Result<Sequence<Contour>, LimitError>
    requires read { IsReadGlyph glyph.now }
    requires bases { All (IsBase glyph.now.places) (glyphs_of bases.now) }
    requires enough { HasBases glyph.now (glyphs_of bases.now) }
    requires made { made.now ≡ map (between_of glyph.now.places) (glyphs_of bases.now) }
    requires within { i < length glyph.now.layers }
    requires layer { layer.now ≡ slice_index_or glyph.now.layers i layer.now }
    ensures value { IfOk result (λ drawn. drawn
        ≡ spec.layer_drawn glyph.now.places (glyphs_of bases.now) i layer.now) }
    ensures limit { Judges CoordinateTooLarge
        (are_small (spec.layer_drawn glyph.now.places (glyphs_of bases.now) i layer.now)) result }
{
    let at = location(glyph.places.as_slice(), i);
    shapes_drawn(alloc, at, bases, made, layer.shapes.as_slice())
}

fn location(places: &[Location], i: usize) -> &[F2Dot14]
    requires { i < length places.now }
    ensures { result.now ≡ place_at places.now i }
{
    places[i].as_slice()
}
