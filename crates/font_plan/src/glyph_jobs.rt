//! The jobs of one glyph: its layers, its drawn contours, its data and its variations.

ghost use Rattle.std.specs.Prelude.{◌≡◌, ◌<◌, ◌++◌, ◌&&◌, [], length, true, IfOk, OnOk, Ok};
ghost use Rattle.std.specs.List.{All};
ghost use Rattle.std.specs.Option.{option_to_list};
ghost use Rattle.refusal_codes.specs.Gives.{Gives};
ghost use Rattle.font_ir.specs.FlatGlyphs.{IsFlatGlyph, glyphs_of};
ghost use Rattle.font_ir.specs.Glyphs.{gid_of};
ghost use Rattle.font_ir.specs.Headers.{IsHeader};
ghost use Rattle.font_ir.specs.ReadGlyphs.{IsReadGlyph};
ghost use Rattle.glyphs_source.specs.HeaderReading.{header_of};
ghost use Rattle.glyphs_source.specs.IndexReading.{index_of};
ghost use Rattle.component_flatten.specs.Flattening.{IsBase, HasBases};
ghost use Rattle.metrics_tables.specs.Nesting.{bases_of};
ghost use Rattle.font_graph.specs.Graph.{after_raw, after_flat};
ghost use Rattle.font_graph.specs.Same.{same_id};
ghost use Rattle.font_graph.specs.declared.items.Item.TheVariants as an;
ghost use Rattle.font_plan.specs.Bases.{is_exported, bases_in, HasBasesIn};
ghost use Rattle.font_plan.specs.Drawn.{IsDrawn, DrawingLaws};
ghost use Rattle.font_plan.specs.Jobs.{parts, raw_in, flat_in, has_axes, simple_in, variations_in};
ghost use Rattle.font_plan.specs.Jobs.{is_composite, composite_in};
ghost use Rattle.font_plan.specs.Known.{IsIndex};
ghost use Rattle.font_plan.specs.Settling.{Comes, made_by, none};

use crate::bases::{bases_in, is_exported};
use crate::items::Item;
use crate::known::Known;
use crate::order::entry_at;
use crate::outcomes::{PlanOutcome, made, made_last, refused};
use crate::specs_of;
use component_flatten::{drawn_glyphs_are_flat, flatten};
use font_ir::{FlatGlyph, GlyphIr, GlyphOrder, Header, Kept};
use font_tables::variations;
use glyf_writer::{composite_bytes, simple_bytes};
use glyphs_layers::{raw_glyph, read_glyphs_are_whole};
use glyphs_source::{GlyphIndex, read_headers_are_whole};
use plist_reader::Tree;
use refusal_codes::{NoMemory, ReadError};
use shared_values::{Shared, SharedBytes};
use std::alloc::Global;
use std::sync::Arc;

/// What holds of the header of each source, and of each of its glyphs as it is read and drawn. A
/// law: the function does nothing.
pub fn drawing_laws()
    ensures { DrawingLaws }
{
    read_headers_are_whole();
    read_glyphs_are_whole();
    drawn_glyphs_are_flat();
}

/// Whether a font has axes, so that its glyphs vary.
pub fn has_axes(header: &Header) -> bool
    ensures { result ≡ has_axes header.now }
{
    !header.axes.is_empty()
}

/// The layers of a glyph.
fn read_raw(
    alloc: Global,
    tree: &Tree,
    header: &Header,
    index: &GlyphIndex,
    glyph: u32,
) -> Result<GlyphIr, ReadError>
    requires header { header_of tree.now ≡ Ok header.now }
    requires index { index_of tree.now ≡ Ok index.now }
    requires glyph { glyph < length index.now }
    ensures raw { Gives (λ raw. raw) result (raw_in tree.now header.now index.now glyph) }
    ensures known { IfOk result IsReadGlyph }
{
    raw_glyph(alloc, tree, header, index, glyph)
}

/// Reads the layers of a glyph, and adds the jobs of its drawing, of its bases and, where it goes
/// into a font with axes, of its variations.
pub fn run_raw(
    alloc: Global,
    tree: &Tree,
    header: &Header,
    index: &GlyphIndex,
    glyph: u32,
) -> Result<PlanOutcome, NoMemory>
    requires header { header_of tree.now ≡ Ok header.now }
    requires index { index_of tree.now ≡ Ok index.now }
    requires known { IsIndex index.now }
    requires glyph { glyph < length index.now }
    ensures { Comes result (made_by an.Raw (λ raw. after_raw (parts []) same_id
        (has_axes header.now && is_exported index.now glyph) (bases_in raw index.now) glyph)
        (raw_in tree.now header.now index.now glyph)) }
{
    match read_raw(alloc, tree, header, index, glyph) {
        Ok(raw) => {
            let varies = has_axes(header) && is_exported(index, glyph);
            let bases = bases_in(alloc, &raw, index)?;
            let next = specs_of::after_raw(alloc, varies, bases.as_slice(), glyph)?;
            made(alloc, Item::Raw(Known::of(raw)), next)
        }
        Err(ReadError::Refused(refusal)) => Ok(refused(alloc, refusal)),
        Err(ReadError::NoMemory) => Err(NoMemory),
    }
}

/// Whether a glyph that is drawn is written as a composite of the components that it keeps.
pub fn is_composite(glyph: &FlatGlyph) -> bool
    ensures { result ≡ is_composite glyph.now }
{
    !glyph.kept.is_empty()
}

/// The drawn contours of a glyph with these bases.
fn draw(
    alloc: Global,
    raw: &GlyphIr,
    index: &GlyphIndex,
    bases: &[Arc<FlatGlyph>],
) -> Result<FlatGlyph, ReadError>
    requires raw { IsReadGlyph raw.now }
    requires glyph { raw.now.number < length index.now }
    requires enough { HasBases raw.now (glyphs_of bases.now) }
    requires bases { All (IsBase raw.now.places) (glyphs_of bases.now) }
    ensures flat { Gives (λ flat. flat) result
        (flat_in raw.now index.now (glyphs_of bases.now)) }
    ensures known { IfOk result IsFlatGlyph }
{
    flatten(alloc, raw, index, bases)
}

/// Draws the contours of a glyph with these bases, and adds the job of its data where it goes into
/// the font.
pub fn run_flat(
    alloc: Global,
    raw: &GlyphIr,
    index: &GlyphIndex,
    bases: &[Arc<FlatGlyph>],
    glyph: u32,
) -> Result<PlanOutcome, NoMemory>
    requires raw { IsReadGlyph raw.now }
    requires index { IsIndex index.now }
    requires number { raw.now.number ≡ glyph }
    requires glyph { glyph < length index.now }
    requires enough { HasBases raw.now (glyphs_of bases.now) }
    requires bases { All (IsBase raw.now.places) (glyphs_of bases.now) }
    ensures { Comes result (made_by an.Flat (λ flat. after_flat (parts []) same_id
        (is_exported index.now glyph) (is_composite flat) glyph)
        (flat_in raw.now index.now (glyphs_of bases.now))) }
{
    match draw(alloc, raw, index, bases) {
        Ok(flat) => {
            let exported = is_exported(index, glyph);
            let next = specs_of::after_flat(alloc, exported, is_composite(&flat), glyph)?;
            let flat = Shared::of(Arc::new(alloc, flat)?);
            made(alloc, Item::Flat(Known::of(flat)), next)
        }
        Err(ReadError::Refused(refusal)) => Ok(refused(alloc, refusal)),
        Err(ReadError::NoMemory) => Err(NoMemory),
    }
}

/// Writes the data of a simple glyph.
pub fn run_simple(alloc: Global, header: &Header, flat: &FlatGlyph) -> Result<PlanOutcome, NoMemory>
    requires header { IsHeader header.now }
    requires drawn { IsDrawn header.now flat.now }
    requires simple { flat.now.kept ≡ [] }
    ensures { Comes result (made_by an.Simple none (Ok (simple_in header.now flat.now))) }
{
    let bytes = simple_data(alloc, header, flat)?;
    made_last(
        alloc,
        Item::Simple(SharedBytes::of(Arc::new(alloc, bytes)?)),
    )
}

/// The data of a simple glyph at the default master.
pub fn simple_data(alloc: Global, header: &Header, flat: &FlatGlyph) -> Result<Vec<u8>, NoMemory>
    requires header { IsHeader header.now }
    requires drawn { IsDrawn header.now flat.now }
    requires simple { flat.now.kept ≡ [] }
    ensures { IfOk result (λ bytes. bytes.items ≡ simple_in header.now flat.now) }
{
    simple_bytes(alloc, flat, header.origin, has_axes(header))
}

/// Writes the data of a composite.
pub fn run_composite(
    alloc: Global,
    header: &Header,
    order: &GlyphOrder,
    flat: &FlatGlyph,
) -> Result<PlanOutcome, NoMemory>
    requires header { IsHeader header.now }
    requires drawn { IsDrawn header.now flat.now }
    requires composite { is_composite flat.now ≡ true }
    requires bases { HasBasesIn order.now.names flat.now }
    ensures { Comes result (made_by an.Composite none
        (Ok (composite_in header.now order.now flat.now))) }
{
    let bytes = composite_data(alloc, header, order, flat)?;
    made_last(
        alloc,
        Item::Composite(SharedBytes::of(Arc::new(alloc, bytes)?)),
    )
}

/// The data of a composite at the default master.
fn composite_data(
    alloc: Global,
    header: &Header,
    order: &GlyphOrder,
    flat: &FlatGlyph,
) -> Result<Vec<u8>, NoMemory>
    requires header { IsHeader header.now }
    requires drawn { IsDrawn header.now flat.now }
    requires composite { is_composite flat.now ≡ true }
    requires bases { HasBasesIn order.now.names flat.now }
    ensures { IfOk result (λ bytes. bytes.items ≡ composite_in header.now order.now flat.now) }
{
    let gids = gids_of(alloc, order, flat)?;
    composite_bytes(alloc, flat, header.origin, gids.as_slice())
}

/// The glyph numbers of the components that a glyph keeps, in their order.
fn gids_of(alloc: Global, order: &GlyphOrder, flat: &FlatGlyph) -> Result<Vec<u16>, NoMemory>
    ensures { IfOk result (λ gids. gids.items ≡ bases_of order.now.names flat.now) }
{
    let kept = flat.kept.as_slice();
    let mut gids = Vec::with_capacity(alloc, kept.len())?;
    for component in kept {
        push_gid(order, component, &mut gids)?;
    }
    Ok(gids)
}

/// Adds the glyph number of a component.
fn push_gid(order: &GlyphOrder, component: &Kept, gids: &mut Vec<u16>) -> Result<(), NoMemory>
    ensures { OnOk result (gids.new.items
        ≡ gids.old.items ++ option_to_list (gid_of order.now.names component.now.base)) }
{
    if let Some(gid) = order.gid(component.base.as_bytes()) {
        gids.push(gid)?;
    }
    Ok(())
}

/// How the points of a glyph change over the design space, as bytes.
fn variation_data(
    alloc: Global,
    header: &Header,
    index: &GlyphIndex,
    flat: &FlatGlyph,
) -> Result<Vec<u8>, ReadError>
    requires header { IsHeader header.now }
    requires flat { IsFlatGlyph flat.now }
    requires glyph { flat.now.number < length index.now }
    ensures { Gives (λ bytes. bytes.items) result (variations_in header.now index.now flat.now) }
{
    let (name, _) = entry_at(index, flat.number);
    variations(alloc, header, name, flat)
}

/// Writes how a glyph's points change over the design space.
pub fn run_variations(
    alloc: Global,
    header: &Header,
    index: &GlyphIndex,
    flat: &FlatGlyph,
) -> Result<PlanOutcome, NoMemory>
    requires header { IsHeader header.now }
    requires flat { IsFlatGlyph flat.now }
    requires glyph { flat.now.number < length index.now }
    ensures { Comes result (made_by an.Variations none
        (variations_in header.now index.now flat.now)) }
{
    match variation_data(alloc, header, index, flat) {
        Ok(bytes) => made_last(
            alloc,
            Item::Variations(SharedBytes::of(Arc::new(alloc, bytes)?)),
        ),
        Err(ReadError::Refused(refusal)) => Ok(refused(alloc, refusal)),
        Err(ReadError::NoMemory) => Err(NoMemory),
    }
}
