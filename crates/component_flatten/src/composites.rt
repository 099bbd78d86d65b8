ghost use Rattle.std.specs.Prelude.{◌≡◌, ◌<◌, ◌++◌, map, length, IfOk, OnOk, slice_index_or};
ghost use Rattle.std.specs.List.{All, list_all};
ghost use Rattle.font_ir.specs.FlatGlyphs.{IsSmallFixed};
ghost use Rattle.font_ir.specs.ReadGlyphs.{IsReadGlyph, IsInRange, is_component};
ghost use Rattle.component_flatten.specs.Numbered.{flat_numbered};
ghost use Rattle.component_flatten.specs.Drawing as drawing;
ghost use Rattle.component_flatten.specs.Composites as spec;

use fixed_math::Fixed;
use font_ir::{GlyphIr, Kept, LayerIr, Name, Shape};
use glyphs_source::GlyphIndex;
use plain_lists::Sequence;
use std::alloc::{AllocError, Global};

/// One, in 16.16: a font unit, or a scale that changes nothing.
const ONE: i32 = 65536;

/// The components of a glyph that stays a composite, by what the index says of their bases; else
/// none.
pub fn kept(
    alloc: Global,
    index: &GlyphIndex,
    glyph: &GlyphIr,
) -> Result<Sequence<Kept>, AllocError>
    requires { IsReadGlyph glyph.now }
    ensures { IfOk result (λ kept. kept ≡ spec.kept_of index.now glyph.now) }
{
    if stays_composite(index, glyph) {
        kept_shapes(alloc, glyph)
    } else {
        Ok(Sequence::new(alloc))
    }
}

/// How many bases `flatten` asks for: one for each component of a layer.
#[tactic(auto, using(crate::specs::BaseLaws::names_counted))]
pub fn component_count(glyph: &GlyphIr) -> usize
    requires { IsReadGlyph glyph.now }
    ensures { result ≡ length (drawing.component_names glyph.now) }
{
    first_shapes(glyph)
        .iter()
        .filter(|shape| is_component(shape))
        .count()
}

fn is_component(shape: &Shape) -> bool
    ensures { result ≡ is_component shape.now }
{
    matches!(shape, Shape::Component { .. })
}

/// The shapes of a glyph's first layer.
pub fn first_shapes(glyph: &GlyphIr) -> &[Shape]
    requires { IsReadGlyph glyph.now }
    ensures { result.now ≡ drawing.first_shapes glyph.now }
{
    glyph.layers.as_slice()[0].shapes.as_slice()
}

/// Whether a glyph has only components, at least one, which are only moved, and their bases are
/// exported.
fn stays_composite(index: &GlyphIndex, glyph: &GlyphIr) -> bool
    requires { IsReadGlyph glyph.now }
    ensures { result ≡ spec.stays_composite index.now glyph.now }
{
    let shapes = first_shapes(glyph);
    !shapes.is_empty()
        && are_all_only_moved(glyph.layers.as_slice())
        && have_exported_bases(index, shapes)
}

fn are_all_only_moved(layers: &[LayerIr]) -> bool
    ensures { result ≡ list_all spec.are_only_moved layers.now }
{
    layers.iter().all(are_only_moved)
}

fn have_exported_bases(index: &GlyphIndex, shapes: &[Shape]) -> bool
    ensures { result ≡ list_all (spec.has_exported_base index.now) shapes.now }
{
    shapes.iter().all(|shape| has_exported_base(index, shape))
}

/// Whether all shapes of a layer are components that are only moved, by whole font units.
fn are_only_moved(layer: &LayerIr) -> bool
    ensures { result ≡ spec.are_only_moved layer.now }
{
    layer.shapes.as_slice().iter().all(is_only_moved)
}

fn is_only_moved(shape: &Shape) -> bool
    ensures { result ≡ spec.is_only_moved shape.now }
{
    match shape {
        Shape::Path(_) => false,
        Shape::Component {
            at,
            scale,
            quarters,
            ..
        } => {
            scale.0.0 == ONE
                && scale.1.0 == ONE
                && *quarters == 0
                && is_whole(at.0)
                && is_whole(at.1)
        }
    }
}

/// Whether a number in 16.16 is a whole number of font units.
fn is_whole(f: Fixed) -> bool
    ensures { result ≡ spec.is_whole f }
{
    i64::from(f.0.div_euclid(ONE)) * i64::from(ONE) == i64::from(f.0)
}

/// Whether the base of a component is exported.
fn has_exported_base(index: &GlyphIndex, shape: &Shape) -> bool
    ensures { result ≡ spec.has_exported_base index.now shape.now }
{
    match shape {
        Shape::Path(_) => true,
        Shape::Component { base, .. } => is_exported(index, base),
    }
}

fn is_exported(index: &GlyphIndex, name: &Name) -> bool
    ensures { result ≡ spec.is_exported index.now name.now }
{
    match index.get(name) {
        Some(entry) => entry.exported,
        None => false,
    }
}

/// The components of a glyph, with their offsets at each place.
fn kept_shapes(alloc: Global, glyph: &GlyphIr) -> Result<Sequence<Kept>, AllocError>
    requires { IsReadGlyph glyph.now }
    ensures { IfOk result (λ kept. kept
        ≡ flat_numbered (spec.kept_shape glyph.now.layers) 0 (drawing.first_shapes glyph.now)) }
{
    let shapes = first_shapes(glyph);
    let mut kept = Sequence::from_vec(Vec::with_capacity(alloc, shapes.len())?);
    for (n, shape) in shapes.iter().enumerate() {
        push_kept(alloc, glyph, n, shape, &mut kept)?;
    }
    Ok(kept)
}

fn push_kept(
    alloc: Global,
    glyph: &GlyphIr,
    n: usize,
    shape: &Shape,
    kept: &mut Sequence<Kept>,
) -> Result<(), AllocError>
    requires read { IsReadGlyph glyph.now }
    requires within { n < length (drawing.first_shapes glyph.now) }
    ensures { OnOk result (kept.new ≡ kept.old
        ++ spec.kept_shape glyph.now.layers n shape.now) }
{
    if let Shape::Component { base, .. } = shape {
        let at = offsets(alloc, glyph.layers.as_slice(), n)?;
        kept.push(Kept {
            base: base.copy(alloc)?,
            at,
        })?;
    }
    Ok(())
}

/// By how much the shape with this number is moved in each layer.
fn offsets(alloc: Global, layers: &[LayerIr], n: usize) -> Result<Sequence<(i16, i16)>, AllocError>
    requires within { All (λ layer. n < length layer.shapes) layers.now }
    requires ranges { All (λ layer. All IsInRange layer.shapes) layers.now }
    ensures { IfOk result (λ offsets. offsets ≡ map (spec.offset_in n) layers.now) }
{
    let mut offsets = Sequence::from_vec(Vec::with_capacity(alloc, layers.len())?);
    for layer in layers {
        offsets.push(offset_in(layer, n))?;
    }
    Ok(offsets)
}

fn offset_in(layer: &LayerIr, n: usize) -> (i16, i16)
    requires within { n < length layer.now.shapes }
    requires ranges { All IsInRange layer.now.shapes }
    ensures { result ≡ spec.offset_in n layer.now }
{
    offset_of(&layer.shapes.as_slice()[n])
}

fn offset_of(shape: &Shape) -> (i16, i16)
    requires { IsInRange shape.now }
    ensures { result ≡ spec.offset_of shape.now }
{
    match shape {
        Shape::Path(_) => (0, 0),
        Shape::Component { at, .. } => (units(at.0), units(at.1)),
    }
}

/// A number in 16.16, in font units, rounded down.
fn units(f: Fixed) -> i16
    requires { IsSmallFixed f }
    ensures { result ≡ spec.units f }
{
    f.0.div_euclid(ONE) as i16
}
