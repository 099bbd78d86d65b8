ghost use Rattle.std.specs.Prelude.{◌≡◌, ◌++◌, flat_map, codes, IfOk, OnOk};
ghost use Rattle.refusal_codes.specs.First.{noted};
ghost use Rattle.source_values.specs.Values.{text_or_empty};
ghost use Rattle.layer_shapes.specs.LayerRules.{other_shape_failures, shape_parts_failures};
ghost use Rattle.layer_shapes.specs.LayerRules.{shape_failures, shapes_failures, is_component_at};
ghost use Rattle.layer_shapes.specs.LayerReading.{other_shape, shapes_of, all_shapes};

use crate::components::read_component;
use crate::paths::read_path;
use font_ir::Shape;
use plain_lists::Sequence;
use plist_reader::Tree;
use refusal_codes::{FirstFailure, Rule};
use source_values::{is_dictionary, items_at, note_at, text_under};
use std::alloc::{AllocError, Global};

/// Whether a shape of a layer is a component: it has `ref`, but not `nodes`. The components of a
/// layer are the values of its list `shapes` of which this holds.
pub fn is_component(tree: &Tree, shape: u32) -> bool
    ensures { result ≡ is_component_at tree.now shape }
{
    tree.find(shape, b"nodes").is_none() && tree.find(shape, b"ref").is_some()
}

/// The name of the glyph that a component draws, its `ref`; empty where that is no text.
pub fn base_of<'t>(tree: &'t Tree, component: u32) -> &'t str
    ensures { result.now ≡ text_or_empty tree.now component (codes "ref") }
{
    match text_under(tree, component, b"ref") {
        Some(name) => name,
        None => "",
    }
}

/// The shapes of a layer, none where it has no such list, and what fails of them.
#[tactic(auto, unfolding(crate::specs::LayerRules::shapes_failures))]
pub fn read_shapes_under(
    alloc: Global,
    tree: &Tree,
    layer: u32,
    first: &mut FirstFailure,
) -> Result<Sequence<Shape>, AllocError>
    ensures shapes { IfOk result (λ shapes. shapes ≡ all_shapes tree.now layer) }
    ensures failures { OnOk result (first.new ≡ noted first.old (shapes_failures tree.now layer)) }
{
    let Some(number) = tree.find(layer, b"shapes") else {
        return Ok(Sequence::new(alloc));
    };
    match items_at(tree, number) {
        Some(numbers) => read_shapes(alloc, tree, numbers, first),
        None => {
            note_at(tree, number, Rule::WrongShape, first);
            Ok(Sequence::new(alloc))
        }
    }
}

fn read_shapes(
    alloc: Global,
    tree: &Tree,
    numbers: &[u32],
    first: &mut FirstFailure,
) -> Result<Sequence<Shape>, AllocError>
    ensures shapes { IfOk result (λ shapes. shapes ≡ flat_map (shapes_of tree.now) numbers.now) }
    ensures failures { OnOk result (first.new
        ≡ noted first.old (flat_map (shape_failures tree.now) numbers.now)) }
{
    let mut shapes = Vec::with_capacity(alloc, numbers.len())?;
    for number in numbers {
        read_shape(alloc, tree, *number, &mut shapes, first)?;
    }
    Ok(Sequence::from_vec(shapes))
}

/// Adds a path, unless it has no nodes, or a component, and notes what fails of the shape.
#[tactic(auto, unfolding(crate::specs::LayerRules::shape_failures, crate::specs::LayerReading::shapes_of))]
fn read_shape(
    alloc: Global,
    tree: &Tree,
    shape: u32,
    shapes: &mut Vec<Shape>,
    first: &mut FirstFailure,
) -> Result<(), AllocError>
    ensures shapes { OnOk result (shapes.new.items ≡ shapes.old.items ++ shapes_of tree.now shape) }
    ensures failures { OnOk result (first.new ≡ noted first.old (shape_failures tree.now shape)) }
{
    if is_dictionary(tree, shape) {
        read_shape_parts(alloc, tree, shape, shapes, first)
    } else {
        note_at(tree, shape, Rule::WrongShape, first);
        Ok(())
    }
}

#[tactic(auto, unfolding(crate::specs::LayerRules::shape_parts_failures, crate::specs::LayerReading::shapes_of))]
fn read_shape_parts(
    alloc: Global,
    tree: &Tree,
    shape: u32,
    shapes: &mut Vec<Shape>,
    first: &mut FirstFailure,
) -> Result<(), AllocError>
    ensures shapes { OnOk result (shapes.new.items ≡ shapes.old.items ++ shapes_of tree.now shape) }
    ensures failures { OnOk result (first.new
        ≡ noted first.old (shape_parts_failures tree.now shape)) }
{
    match tree.find(shape, b"nodes") {
        Some(nodes) => read_path(alloc, tree, shape, nodes, shapes, first),
        None => read_other_shape(alloc, tree, shape, shapes, first),
    }
}

/// Adds a component; a shape without `nodes` and without `ref` lacks a key.
#[tactic(auto, unfolding(crate::specs::LayerRules::other_shape_failures))]
fn read_other_shape(
    alloc: Global,
    tree: &Tree,
    shape: u32,
    shapes: &mut Vec<Shape>,
    first: &mut FirstFailure,
) -> Result<(), AllocError>
    ensures shapes { OnOk result (shapes.new.items
        ≡ shapes.old.items ++ other_shape tree.now shape) }
    ensures failures { OnOk result (first.new
        ≡ noted first.old (other_shape_failures tree.now shape)) }
{
    if tree.find(shape, b"ref").is_some() {
        shapes.push(read_component(alloc, tree, shape, first)?)?;
    } else {
        note_at(tree, shape, Rule::MissingKey, first);
    }
    Ok(())
}
