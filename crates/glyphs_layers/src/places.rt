ghost use Rattle.std.specs.Prelude.{◌≡◌, ◌++◌, ◌<◌, length, map, flat_map, All, None, IfOk, OnOk};
ghost use Rattle.std.specs.Prelude.{true, option_map, slice_get};
ghost use Rattle.std.specs.List.{count_by};
ghost use Rattle.font_ir.specs.Headers.{IsHeader};
ghost use Rattle.refusal_codes.specs.First.{foremost};
ghost use Rattle.font_ir.specs.Coordinates.{HasAxis};
ghost use Rattle.axis_space.specs.Placing.{HasAxes, place_of as place_in};
ghost use Rattle.glyphs_layers.specs.SourceLayers.{source_layers};
ghost use Rattle.glyphs_layers.specs.GlyphPlaces.{is_masters, missing_layer, design_of, is_within};
ghost use Rattle.glyphs_layers.specs.GlyphPlaces.{are_within, lies_within, coordinates_place};
ghost use Rattle.glyphs_layers.specs.GlyphPlaces.{is_placed, misplaced, own_place, places_of};
ghost use Rattle.glyphs_layers.specs.GlyphPlaces.{same_place, too_many_layers, layers_failure};
ghost use Rattle.glyphs_layers.specs.GlyphPlaces.{at_same_place, places_failure};

use crate::layers::{SourceLayer, attribute_at};
use axis_space::{place_of, repeated_place, scale_of};
use fixed_math::Fixed;
use font_ir::{CoordinateScale, Header, Location, Master, locations_of};
use layer_shapes::LayerKind;
use plain_lists::Sequence;
use plist_reader::Tree;
use refusal_codes::{Failure, NoMemory, Rule, limits};
use source_axes::read_coordinates;
use source_values::place_at;
use std::alloc::{AllocError, Global};

/// That a master has no layer, or else the first layer that doesn't lie between the masters.
#[tactic(auto, unfolding(crate::specs::GlyphPlaces::layers_failure))]
pub fn layers_failure(
    alloc: Global,
    tree: &Tree,
    header: &Header,
    glyph: u32,
    layers: &[SourceLayer],
) -> Result<Option<Failure>, AllocError>
    requires header { IsHeader header.now }
    requires layers { layers.now ≡ source_layers tree.now header.now glyph }
    ensures { IfOk result (λ failure. failure ≡ layers_failure tree.now header.now glyph) }
{
    let missing = missing_layer(tree, header, glyph, layers);
    if missing.is_some() {
        return Ok(missing);
    }
    misplaced_layer(alloc, tree, header, layers)
}

/// That a master has no layer.
fn missing_layer(
    tree: &Tree,
    header: &Header,
    glyph: u32,
    layers: &[SourceLayer],
) -> Option<Failure>
    requires { layers.now ≡ source_layers tree.now header.now glyph }
    ensures { result ≡ foremost (missing_layer tree.now header.now.masters glyph) }
{
    let missing = masters_layer_count(layers) < header.masters.len();
    if missing {
        Some(Failure {
            rule: Rule::MissingLayer,
            place: place_at(tree, glyph),
        })
    } else {
        None
    }
}

/// How many layers are those of masters.
fn masters_layer_count(layers: &[SourceLayer]) -> usize
    ensures { result ≡ count_by is_masters layers.now }
{
    layers.iter().filter(|layer| is_masters(layer)).count()
}

fn is_masters(layer: &SourceLayer) -> bool
    ensures { result ≡ is_masters layer.now }
{
    match layer.kind {
        LayerKind::Master => true,
        LayerKind::Intermediate => false,
    }
}

/// The first intermediate layer that doesn't lie between the masters, at its coordinates.
fn misplaced_layer(
    alloc: Global,
    tree: &Tree,
    header: &Header,
    layers: &[SourceLayer],
) -> Result<Option<Failure>, AllocError>
    requires { IsHeader header.now }
    ensures { IfOk result (λ failure. failure
        ≡ foremost (flat_map (misplaced tree.now header.now) layers.now)) }
{
    for layer in layers {
        if !is_placed(alloc, tree, header, layer)? {
            return Ok(Some(Failure {
                rule: Rule::LayerPlace,
                place: coordinates_place(tree, layer.number),
            }));
        }
    }
    Ok(None)
}

/// The place of a layer's list of coordinates in the source.
fn coordinates_place(tree: &Tree, layer: u32) -> u64
    ensures { result ≡ coordinates_place tree.now layer }
{
    match attribute_at(tree, layer, b"coordinates") {
        Some(coordinates) => place_at(tree, coordinates),
        None => 0,
    }
}

/// Whether a layer lies somewhere.
fn is_placed(
    alloc: Global,
    tree: &Tree,
    header: &Header,
    layer: &SourceLayer,
) -> Result<bool, AllocError>
    requires { IsHeader header.now }
    ensures { IfOk result (λ placed. placed ≡ is_placed tree.now header.now layer.now) }
{
    match layer.kind {
        LayerKind::Master => Ok(true),
        LayerKind::Intermediate => {
            let design = design_of(alloc, tree, layer.number)?;
            Ok(lies_within(header, design.as_slice()))
        }
    }
}

/// The design coordinates of an intermediate layer, in 16.16.
#[tactic(auto, unfolding(crate::specs::GlyphPlaces::design_of))]
fn design_of(alloc: Global, tree: &Tree, layer: u32) -> Result<Sequence<Fixed>, AllocError>
    ensures { IfOk result (λ design. design ≡ design_of tree.now layer) }
{
    match tree.find(layer, b"attr") {
        Some(attributes) => read_coordinates(alloc, tree, attributes, b"coordinates"),
        None => Ok(Sequence::new(alloc)),
    }
}

/// Whether there is one coordinate per axis, and each lies between the masters.
fn lies_within(header: &Header, design: &[Fixed]) -> bool
    requires { IsHeader header.now }
    ensures { result ≡ lies_within header.now design.now }
{
    design.len() == header.axes.len()
        && are_within(header.masters.as_slice(), header.origin as usize, design)
}

fn are_within(masters: &[Master], origin: usize, design: &[Fixed]) -> bool
    requires origin { origin < length masters.now }
    requires axes { All (HasAxes (length design.now)) masters.now }
    ensures { result ≡ are_within masters.now 0 design.now }
{
    for (axis, v) in design.iter().enumerate() {
        if !is_within(masters, origin, axis, *v) {
            return false;
        }
    }
    true
}

/// Whether a coordinate lies between the masters on its axis.
fn is_within(masters: &[Master], origin: usize, axis: usize, v: Fixed) -> bool
    requires origin { origin < length masters.now }
    requires axes { All (HasAxis axis) masters.now }
    ensures { result ≡ is_within masters.now axis v }
{
    let scale = scale_of(masters, CoordinateScale::Design, origin, axis);
    scale.least.0 <= v.0 && v.0 <= scale.greatest.0
}

/// The places of a glyph: those of the masters, and then those of the intermediate layers.
#[tactic(auto, unfolding(crate::specs::GlyphPlaces::places_of))]
pub fn places_of(
    alloc: Global,
    tree: &Tree,
    header: &Header,
    glyph: u32,
    layers: &[SourceLayer],
) -> Result<Vec<Location>, NoMemory>
    requires header { IsHeader header.now }
    requires layers { layers.now ≡ source_layers tree.now header.now glyph }
    requires placed { layers_failure tree.now header.now glyph ≡ None }
    ensures { IfOk result (λ places. places.items ≡ places_of tree.now header.now glyph) }
{
    let mut places = locations_of(alloc, header.masters.as_slice())?.into_vec();
    add_own_places(alloc, tree, header, layers, &mut places)?;
    Ok(places)
}

/// Adds the places of the intermediate layers.
fn add_own_places(
    alloc: Global,
    tree: &Tree,
    header: &Header,
    layers: &[SourceLayer],
    places: &mut Vec<Location>,
) -> Result<(), NoMemory>
    requires header { IsHeader header.now }
    requires placed { All (λ layer. is_placed tree.now header.now layer ≡ true) layers.now }
    ensures { OnOk result (places.new.items
        ≡ places.old.items ++ flat_map (own_place tree.now header.now) layers.now) }
{
    for layer in layers {
        add_own_place(alloc, tree, header, layer, places)?;
    }
    Ok(())
}

fn add_own_place(
    alloc: Global,
    tree: &Tree,
    header: &Header,
    layer: &SourceLayer,
    places: &mut Vec<Location>,
) -> Result<(), NoMemory>
    requires header { IsHeader header.now }
    requires placed { is_placed tree.now header.now layer.now ≡ true }
    ensures { OnOk result (places.new.items
        ≡ places.old.items ++ own_place tree.now header.now layer.now) }
{
    match layer.kind {
        LayerKind::Master => {}
        LayerKind::Intermediate => {
            let design = design_of(alloc, tree, layer.number)?;
            places.push(place_within(alloc, header, design.as_slice())?)?;
        }
    }
    Ok(())
}

/// The place of design coordinates that lie between the masters.
fn place_within(alloc: Global, header: &Header, design: &[Fixed]) -> Result<Location, NoMemory>
    requires header { IsHeader header.now }
    requires within { lies_within header.now design.now ≡ true }
    ensures { IfOk result (λ place. place ≡ place_in header.now.masters header.now.origin
        (length header.now.axes) design.now) }
{
    place_of(alloc, header.masters.as_slice(), header.origin, design)
}

/// The layer of the first place that an earlier one equals, or else that there are too many layers.
#[tactic(auto, unfolding(crate::specs::GlyphPlaces::places_failure))]
pub fn places_failure(
    alloc: Global,
    tree: &Tree,
    glyph: u32,
    layers: &[SourceLayer],
    places: &[Location],
) -> Result<Option<Failure>, NoMemory>
    ensures { IfOk result (λ failure. failure
        ≡ places_failure tree.now glyph layers.now places.now) }
{
    let same = same_place(alloc, tree, layers, places)?;
    if same.is_some() {
        return Ok(same);
    }
    Ok(too_many_layers(tree, glyph, places))
}

#[tactic(auto, unfolding(crate::specs::GlyphPlaces::same_place))]
fn same_place(
    alloc: Global,
    tree: &Tree,
    layers: &[SourceLayer],
    places: &[Location],
) -> Result<Option<Failure>, NoMemory>
    ensures { IfOk result (λ failure. failure ≡ same_place tree.now layers.now places.now) }
{
    match repeated_place(alloc, places)? {
        None => Ok(None),
        Some(i) => Ok(at_same_place(tree, layers, i)),
    }
}

/// That the layer at this position lies where an earlier one does.
fn at_same_place(tree: &Tree, layers: &[SourceLayer], i: usize) -> Option<Failure>
    ensures { result ≡ option_map (at_same_place tree.now) (slice_get layers.now i) }
{
    let layer = layers.get(i)?;
    Some(Failure {
        rule: Rule::SameLayerPlace,
        place: place_at(tree, layer.number),
    })
}

fn too_many_layers(tree: &Tree, glyph: u32, places: &[Location]) -> Option<Failure>
    ensures { result ≡ too_many_layers tree.now glyph places.now }
{
    if places.len() > limits::PLACES {
        Some(Failure {
            rule: Rule::TooManyLayers,
            place: place_at(tree, glyph),
        })
    } else {
        None
    }
}
