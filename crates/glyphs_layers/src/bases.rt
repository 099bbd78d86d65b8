ghost use Rattle.std.specs.Prelude.{◌≡◌, ◌++◌, IfOk, OnOk, flat_map, map};
ghost use Rattle.std.specs.List.{count_by, filter};
ghost use Rattle.font_ir.specs.ReadGlyphs.{is_component};
ghost use Rattle.refusal_codes.specs.First.{noted, first_of};
ghost use Rattle.glyphs_layers.specs.Forms.{record_of};
ghost use Rattle.layer_shapes.specs.LayerRules.{is_component_at, component_numbers};
ghost use Rattle.glyphs_layers.specs.Bases.{without_base, unknown_components, too_many_components};

use crate::layers::SourceLayer;
use font_ir::{LayerIr, Shape};
use glyphs_source::GlyphIndex;
use layer_shapes::{base_of, is_component};
use plist_reader::Tree;
use refusal_codes::{Failure, FirstFailure, Rule, limits};
use source_values::{copied, items_under, note_at};
use std::alloc::{AllocError, Global};

/// The first component that names no glyph.
pub fn unknown_component(
    alloc: Global,
    tree: &Tree,
    index: &GlyphIndex,
    layers: &[SourceLayer],
) -> Result<Option<Failure>, AllocError>
    ensures { IfOk result (λ failure. failure
        ≡ first_of (flat_map (unknown_components tree.now index.now) layers.now)) }
{
    let mut first = FirstFailure::new();
    for layer in layers {
        note_unknown(alloc, tree, index, layer.number, &mut first)?;
    }
    Ok(first.get())
}

/// Notes the components of a layer that name no glyph.
#[tactic(auto, unfolding(layer_shapes::specs::LayerRules::component_numbers))]
fn note_unknown(
    alloc: Global,
    tree: &Tree,
    index: &GlyphIndex,
    layer: u32,
    first: &mut FirstFailure,
) -> Result<(), AllocError>
    ensures { OnOk result (first.new ≡ noted first.old
        (flat_map (without_base tree.now index.now) (component_numbers tree.now layer))) }
{
    note_each_unknown(
        alloc,
        tree,
        index,
        items_under(tree, layer, b"shapes"),
        first,
    )
}

/// Notes the components among these shapes that name no glyph.
fn note_each_unknown(
    alloc: Global,
    tree: &Tree,
    index: &GlyphIndex,
    shapes: &[u32],
    first: &mut FirstFailure,
) -> Result<(), AllocError>
    ensures { OnOk result (first.new ≡ noted first.old
        (flat_map (without_base tree.now index.now)
        (filter (is_component_at tree.now) shapes.now))) }
{
    for shape in shapes {
        if is_component(tree, *shape) {
            note_without_base(alloc, tree, index, *shape, first)?;
        }
    }
    Ok(())
}

/// Notes a component that names no glyph.
fn note_without_base(
    alloc: Global,
    tree: &Tree,
    index: &GlyphIndex,
    component: u32,
    first: &mut FirstFailure,
) -> Result<(), AllocError>
    ensures { OnOk result (first.new
        ≡ noted first.old (without_base tree.now index.now component)) }
{
    let base = copied(alloc, Some(base_of(tree, component)))?;
    if index.get(&base).is_none() {
        note_at(tree, component, Rule::UnknownComponent, first);
    }
    Ok(())
}

/// The first layer with more components than a layer may have.
pub fn crowded_layer(tree: &Tree, layers: &[SourceLayer], records: &[LayerIr]) -> Option<Failure>
    requires { records.now ≡ map (record_of tree.now) layers.now }
    ensures { result ≡ first_of (flat_map (too_many_components tree.now) layers.now) }
{
    let mut first = FirstFailure::new();
    for (i, layer) in layers.iter().enumerate() {
        note_if_crowded(tree, layer, &records[i], &mut first);
    }
    first.get()
}

fn note_if_crowded(tree: &Tree, layer: &SourceLayer, held: &LayerIr, first: &mut FirstFailure)
    requires { held.now ≡ record_of tree.now layer.now }
    ensures { first.new ≡ noted first.old (too_many_components tree.now layer.now) }
{
    if component_count(held.shapes.as_slice()) > limits::COMPONENTS {
        note_at(tree, layer.number, Rule::TooManyComponents, first);
    }
}

/// How many of these shapes are components.
fn component_count(shapes: &[Shape]) -> usize
    ensures { result ≡ count_by is_component shapes.now }
{
    shapes.iter().filter(|shape| is_drawn_glyph(shape)).count()
}

/// Whether a shape is a component.
fn is_drawn_glyph(shape: &Shape) -> bool
    ensures { result ≡ is_component shape.now }
{
    matches!(shape, Shape::Component { .. })
}
