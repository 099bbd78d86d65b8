ghost use Rattle.std.specs.Prelude.{◌≡◌, ◌++◌, IfOk, OnOk, flat_map};
ghost use Rattle.glyphs_layers.specs.SourceLayers.{layer_numbers, is_layer_of, layer_of, layers_of};
ghost use Rattle.glyphs_layers.specs.SourceLayers.{masters_layers, attribute_at, has_attribute};
ghost use Rattle.glyphs_layers.specs.SourceLayers.{is_among_layers, is_intermediate};
ghost use Rattle.glyphs_layers.specs.SourceLayers.{if_intermediate, intermediate_layers};
ghost use Rattle.glyphs_layers.specs.SourceLayers.{source_layers};

use font_ir::{Header, Master};
use layer_shapes::LayerKind;
use plist_reader::Tree;
use source_values::{items_under, text_under};
use std::alloc::{AllocError, Global};

/// A layer of a glyph that is read, by its number in the tree.
#[derive(Clone, Copy, Debug)]
pub struct SourceLayer {
    pub kind: LayerKind,
    pub number: u32,
}

/// The layers of a glyph that are read: those of the masters that have one, and then the
/// intermediate ones.
#[tactic(auto, unfolding(crate::specs::SourceLayers::source_layers))]
pub fn source_layers(
    alloc: Global,
    tree: &Tree,
    header: &Header,
    glyph: u32,
) -> Result<Vec<SourceLayer>, AllocError>
    ensures { IfOk result (λ layers. layers.items ≡ source_layers tree.now header.now glyph) }
{
    let numbers = layer_numbers(tree, glyph);
    let mut layers = masters_layers(alloc, tree, header.masters.as_slice(), numbers)?;
    let others = intermediate_layers(alloc, tree, header, layers.as_slice(), numbers)?;
    layers.extend_from_slice(others.as_slice())?;
    Ok(layers)
}

/// The values of a glyph's list of layers.
#[tactic(auto, unfolding(crate::specs::SourceLayers::layer_numbers))]
pub fn layer_numbers(tree: &Tree, glyph: u32) -> &[u32]
    ensures { result.now ≡ layer_numbers tree.now glyph }
{
    items_under(tree, glyph, b"layers")
}

/// The layer of each master that has one.
fn masters_layers(
    alloc: Global,
    tree: &Tree,
    masters: &[Master],
    numbers: &[u32],
) -> Result<Vec<SourceLayer>, AllocError>
    ensures { IfOk result (λ layers. layers.items
        ≡ masters_layers tree.now masters.now numbers.now) }
{
    let mut layers = Vec::with_capacity(alloc, masters.len())?;
    for master in masters {
        add_masters_layer(tree, master, numbers, &mut layers)?;
    }
    Ok(layers)
}

fn add_masters_layer(
    tree: &Tree,
    master: &Master,
    numbers: &[u32],
    layers: &mut Vec<SourceLayer>,
) -> Result<(), AllocError>
    ensures { OnOk result (layers.new.items
        ≡ layers.old.items ++ layers_of tree.now numbers.now master.now) }
{
    if let Some(number) = layer_of(tree, numbers, master) {
        layers.push(SourceLayer {
            kind: LayerKind::Master,
            number,
        })?;
    }
    Ok(())
}

/// The number of a master's layer.
fn layer_of(tree: &Tree, numbers: &[u32], master: &Master) -> Option<u32>
    ensures { result ≡ layer_of tree.now numbers.now master.now }
{
    for number in numbers {
        if is_layer_of(tree, master.id.as_bytes(), *number) {
            return Some(*number);
        }
    }
    None
}

fn is_layer_of(tree: &Tree, id: &[u8], number: u32) -> bool
    ensures { result ≡ is_layer_of tree.now id.now number }
{
    match text_under(tree, number, b"layerId") {
        Some(text) => text.as_bytes() == id,
        None => false,
    }
}

/// The intermediate layers, in a font with axes: none of these, which are the masters'.
fn intermediate_layers(
    alloc: Global,
    tree: &Tree,
    header: &Header,
    masters: &[SourceLayer],
    numbers: &[u32],
) -> Result<Vec<SourceLayer>, AllocError>
    requires { masters.now ≡ masters_layers tree.now header.now.masters numbers.now }
    ensures { IfOk result (λ layers. layers.items
        ≡ intermediate_layers tree.now header.now numbers.now) }
{
    if header.axes.is_empty() {
        Ok(Vec::new(alloc))
    } else {
        each_intermediate(alloc, tree, masters, numbers)
    }
}

fn each_intermediate(
    alloc: Global,
    tree: &Tree,
    masters: &[SourceLayer],
    numbers: &[u32],
) -> Result<Vec<SourceLayer>, AllocError>
    ensures { IfOk result (λ layers. layers.items
        ≡ flat_map (if_intermediate tree.now masters.now) numbers.now) }
{
    let mut layers = Vec::new(alloc);
    for number in numbers {
        add_if_intermediate(tree, masters, *number, &mut layers)?;
    }
    Ok(layers)
}

fn add_if_intermediate(
    tree: &Tree,
    masters: &[SourceLayer],
    number: u32,
    layers: &mut Vec<SourceLayer>,
) -> Result<(), AllocError>
    ensures { OnOk result (layers.new.items
        ≡ layers.old.items ++ if_intermediate tree.now masters.now number) }
{
    if is_intermediate(tree, masters, number) {
        layers.push(SourceLayer {
            kind: LayerKind::Intermediate,
            number,
        })?;
    }
    Ok(())
}

fn is_intermediate(tree: &Tree, masters: &[SourceLayer], number: u32) -> bool
    ensures { result ≡ is_intermediate tree.now masters.now number }
{
    has_attribute(tree, number, b"coordinates")
        && !has_attribute(tree, number, b"axisRules")
        && !is_among(masters, number)
}

/// Whether a layer is one of these.
fn is_among(layers: &[SourceLayer], number: u32) -> bool
    ensures { result ≡ is_among_layers layers.now number }
{
    layers.iter().any(|layer| layer.number == number)
}

fn has_attribute(tree: &Tree, number: u32, key: &[u8]) -> bool
    ensures { result ≡ has_attribute tree.now number key.now }
{
    attribute_at(tree, number, key).is_some()
}

/// What the `attr` of a layer has under a key.
pub fn attribute_at(tree: &Tree, number: u32, key: &[u8]) -> Option<u32>
    ensures { result ≡ attribute_at tree.now number key.now }
{
    tree.find(tree.find(number, b"attr")?, key)
}
