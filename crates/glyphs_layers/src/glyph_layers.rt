ghost use Rattle.std.specs.Prelude.{◌≡◌, ◌<◌, ◌++◌, length, map, flat_map, Ok, IfOk, OnOk};
ghost use Rattle.font_ir.specs.Headers.{IsHeader};
ghost use Rattle.font_ir.specs.ReadGlyphs.{IsReadGlyph};
ghost use Rattle.refusal_codes.specs.First.{noted, judged, refusal_of, or_next};
ghost use Rattle.refusal_codes.specs.declared.job.TheConstants.{RAW};
ghost use Rattle.refusal_codes.specs.Gives.{Gives};
ghost use Rattle.layer_shapes.specs.LayerRules.{layer_failures};
ghost use Rattle.glyphs_source.specs.HeaderReading.{header_of};
ghost use Rattle.glyphs_source.specs.IndexReading.{index_of};
ghost use Rattle.glyphs_layers.specs.SourceLayers.{source_layers};
ghost use Rattle.glyphs_layers.specs.GlyphRules.{place_failures, source_failures, glyph_failures};
ghost use Rattle.glyphs_layers.specs.GlyphPlaces.{places_of, layers_failure, places_failure};
ghost use Rattle.glyphs_layers.specs.Forms.{record_of};
ghost use Rattle.glyphs_layers.specs.GlyphReading.{glyph_in, name_in, shapes_failure, glyph_record};
ghost use Rattle.glyphs_layers.specs.GlyphReading.{whole_failure, glyph_of};
ghost use Rattle.glyphs_layers.specs.SourceGlyphs.{HasMastersFirst, HasKnownBases};

use crate::bases::{crowded_layer, unknown_component};
use crate::forms::incompatible;
use crate::layers::{SourceLayer, source_layers};
use crate::places::{layers_failure, places_failure, places_of};
use crate::rule_laws::read_glyphs_are_whole;
use font_ir::{GlyphIr, Header, LayerIr, Name};
use glyphs_source::{GlyphIndex, read_headers_are_whole};
use layer_shapes::{LayerKind, read_layer};
use plain_lists::Sequence;
use plist_reader::Tree;
use refusal_codes::{Failure, FirstFailure, ReadError, job};
use source_axes::AxisCoordinate;
use source_values::{Asked, Dictionary, Each, PlainText, optional, place_at};
use std::alloc::{AllocError, Global};

/// The layers of the glyph with this number in the index: one per master, and in a font with axes
/// the intermediate ones, in the order of the file (Glyphs file format, version 3). What is read
/// fulfils what flattening asks of a glyph, and the bases of its components are in the index. Its
/// places are normalised coordinates in 2.14 (OpenType 1.9, "Coordinate scales and normalization").
///
/// The header and the index are those of the tree: what `header` and `glyph_index` answer for it.
///
/// The error is the least failure by place, then by rule, of the rules of single values, of the
/// layers that are there. Where none of them fails, it is the first of these, fontc's own: a master
/// has no layer, at the glyph; an intermediate layer has not one coordinate per axis between the
/// masters' ends, at its coordinates; it lies where a master or an earlier layer does, at the layer;
/// there are more than 64 layers, at the glyph; a layer can't be interpolated with the first
/// master's, at the layer; a component names no glyph, at the component; a layer has more than 256
/// components, at the layer. Or it is want of memory.
pub fn raw_glyph(
    alloc: Global,
    tree: &Tree,
    header: &Header,
    index: &GlyphIndex,
    number: u32,
) -> Result<GlyphIr, ReadError>
    requires header { header_of tree.now ≡ Ok header.now }
    requires index { index_of tree.now ≡ Ok index.now }
    requires number { number < length index.now }
    ensures record { Gives (λ glyph. glyph) result
        (glyph_of tree.now header.now index.now number) }
    ensures number { IfOk result (λ glyph. glyph.number ≡ number) }
    ensures places { IfOk result (λ glyph. glyph.places
        ≡ places_of tree.now header.now (glyph_in index.now number)) }
    ensures read { IfOk result IsReadGlyph }
    ensures masters { IfOk result (HasMastersFirst header.now) }
    ensures bases { IfOk result (HasKnownBases index.now) }
{
    read_headers_are_whole();
    read_glyphs_are_whole();
    let (name, entry) = index.at(number).unwrap();
    let mut first = FirstFailure::new();
    let glyph = Glyph {
        number,
        name,
        node: entry.node,
    };
    let held = read_layers(alloc, tree, header, entry.node, &mut first)?;
    judge(alloc, tree, header, index, glyph, held, first.get())
}

/// A glyph of the source: its number, its name and its dictionary.
#[derive(Clone, Copy)]
struct Glyph<'a> {
    number: u32,
    name: &'a Name,
    node: u32,
}

/// The layers that are read, and what each of them holds.
#[derive(Drop)]
struct Held {
    layers: Vec<SourceLayer>,
    records: Vec<LayerIr>,
}

/// The layers of a glyph, and what fails of them by the rules of single values.
#[tactic(auto, using(refusal_codes::specs::FirstLaws::noting), unfolding(crate::specs::GlyphRules::glyph_failures, crate::specs::GlyphRules::entries_failures))]
fn read_layers(
    alloc: Global,
    tree: &Tree,
    header: &Header,
    glyph: u32,
    first: &mut FirstFailure,
) -> Result<Held, AllocError>
    ensures layers { IfOk result (λ held. held.layers.items
        ≡ source_layers tree.now header.now glyph) }
    ensures records { IfOk result (λ held. held.records.items
        ≡ map (record_of tree.now) (source_layers tree.now header.now glyph)) }
    ensures failures { OnOk result (first.new
        ≡ noted first.old (glyph_failures tree.now header.now glyph)) }
{
    optional(tree, glyph, b"layers", &Each(Dictionary(Entry)), first);
    let layers = source_layers(alloc, tree, header, glyph)?;
    let records = read_each(alloc, tree, layers.as_slice(), first)?;
    Ok(Held { layers, records })
}

/// What each layer of a glyph holds, also where it is not read.
#[derive(Clone, Copy)]
struct Entry;

impl Asked for Entry {
    ghost use Rattle.glyphs_layers.specs.GlyphRules.{entry_failures};

    ghost failures = { λ asked. entry_failures };

    #[tactic(auto, unfolding(crate::specs::GlyphRules::entry_failures))]
    fn note(&self, tree: &Tree, layer: u32, first: &mut FirstFailure) {
        optional(tree, layer, b"layerId", &PlainText, first);
    }
}

/// What these layers hold, and what fails of them.
fn read_each(
    alloc: Global,
    tree: &Tree,
    layers: &[SourceLayer],
    first: &mut FirstFailure,
) -> Result<Vec<LayerIr>, AllocError>
    ensures records { IfOk result (λ records. records.items
        ≡ map (record_of tree.now) layers.now) }
    ensures failures { OnOk result (first.new
        ≡ noted first.old (flat_map (source_failures tree.now) layers.now)) }
{
    let mut records = Vec::with_capacity(alloc, layers.len())?;
    for layer in layers {
        records.push(read_one(alloc, tree, layer, first)?)?;
    }
    Ok(records)
}

#[tactic(auto, using(refusal_codes::specs::FirstLaws::noting))]
fn read_one(
    alloc: Global,
    tree: &Tree,
    layer: &SourceLayer,
    first: &mut FirstFailure,
) -> Result<LayerIr, AllocError>
    ensures record { IfOk result (λ held. held ≡ record_of tree.now layer.now) }
    ensures failures { OnOk result (first.new
        ≡ noted first.old (source_failures tree.now layer.now)) }
{
    note_place(tree, layer, first);
    read_layer(alloc, tree, layer.number, layer.kind, first)
}

/// Notes what fails of where a layer says that it lies.
#[tactic(auto, unfolding(crate::specs::GlyphRules::coordinates_failures))]
fn note_place(tree: &Tree, layer: &SourceLayer, first: &mut FirstFailure)
    ensures { first.new
        ≡ noted first.old (place_failures layer.now.kind tree.now layer.now.number) }
{
    match layer.kind {
        LayerKind::Master => {}
        LayerKind::Intermediate => {
            optional(tree, layer.number, b"attr", &Attributes, first);
        }
    }
}

/// The `attr` of an intermediate layer.
#[derive(Clone, Copy)]
struct Attributes;

impl Asked for Attributes {
    ghost use Rattle.std.specs.Prelude.{codes};
    ghost use Rattle.source_values.specs.Asking.{optional, each};
    ghost use Rattle.source_axes.specs.AxisValues.{axis_value_failures};

    ghost failures = { λ asked. optional (codes "coordinates") (each axis_value_failures) };

    fn note(&self, tree: &Tree, attributes: u32, first: &mut FirstFailure) {
        optional(
            tree,
            attributes,
            b"coordinates",
            &Each(AxisCoordinate),
            first,
        );
    }
}

/// The glyph of these layers, unless a local rule fails, which is the failure given, or a whole
/// rule.
#[tactic(auto, unfolding(crate::specs::GlyphReading::glyph_record, crate::specs::GlyphReading::whole_failure))]
fn judge(
    alloc: Global,
    tree: &Tree,
    header: &Header,
    index: &GlyphIndex,
    glyph: Glyph,
    held: Held,
    local: Option<Failure>,
) -> Result<GlyphIr, ReadError>
    requires header { IsHeader header.now }
    requires layers { held.layers.items ≡ source_layers tree.now header.now glyph.node }
    requires records { held.records.items
        ≡ map (record_of tree.now) (source_layers tree.now header.now glyph.node) }
    ensures { Gives (λ read. read) result (judged (refusal_of RAW glyph.entry.name.now) local
        (whole_failure tree.now header.now index.now glyph.entry.node)
        (glyph_record tree.now header.now glyph.entry.number glyph.entry.node)) }
{
    let layers = held.layers.as_slice();
    if let Some(failure) = local {
        return Err(failure.refused(job::RAW, glyph.name.copy(alloc)?));
    }
    if let Some(failure) = layers_failure(alloc, tree, header, glyph.node, layers)? {
        return Err(failure.refused(job::RAW, glyph.name.copy(alloc)?));
    }
    let places = places_of(alloc, tree, header, glyph.node, layers)?;
    if let Some(failure) = places_failure(alloc, tree, glyph.node, layers, places.as_slice())? {
        return Err(failure.refused(job::RAW, glyph.name.copy(alloc)?));
    }
    if let Some(failure) = shapes_failure(alloc, tree, index, layers, held.records.as_slice())? {
        return Err(failure.refused(job::RAW, glyph.name.copy(alloc)?));
    }
    Ok(GlyphIr {
        number: glyph.number,
        place: place_at(tree, glyph.node),
        masters: header.masters.len() as u32,
        places: Sequence::from_vec(places),
        layers: Sequence::from_vec(held.records),
    })
}

/// The first layer that can't be interpolated with the first one, or else the first component that
/// names no glyph, or else the first layer with too many components.
#[tactic(auto, unfolding(crate::specs::GlyphReading::shapes_failure))]
fn shapes_failure(
    alloc: Global,
    tree: &Tree,
    index: &GlyphIndex,
    layers: &[SourceLayer],
    records: &[LayerIr],
) -> Result<Option<Failure>, AllocError>
    requires { records.now ≡ map (record_of tree.now) layers.now }
    ensures { IfOk result (λ failure. failure
        ≡ shapes_failure tree.now index.now layers.now) }
{
    let unlike = incompatible(tree, layers, records);
    if unlike.is_some() {
        return Ok(unlike);
    }
    let unknown = unknown_component(alloc, tree, index, layers)?;
    if unknown.is_some() {
        return Ok(unknown);
    }
    Ok(crowded_layer(tree, layers, records))
}
