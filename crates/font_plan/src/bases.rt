//! The bases of a glyph's components, among the glyphs of a source.

ghost use Rattle.std.specs.Prelude.{◌≡◌, ◌<◌, ◌++◌, [], length, map, Some, IsSome, IfOk, OnOk};
ghost use Rattle.std.specs.List.{All, flat_map};
ghost use Rattle.std.specs.Option.{option_map};
ghost use Rattle.std.specs.Arc.{arc_value};
ghost use Rattle.font_ir.specs.FlatGlyphs.{IsFlatGlyph};
ghost use Rattle.font_graph.specs.Running.{flat_read};
ghost use Rattle.font_plan.specs.Bases.{is_exported, named_from, shape_bases, bases_in};
ghost use Rattle.font_plan.specs.Jobs.{parts};
ghost use Rattle.font_plan.specs.Known.{IsIndex};

use crate::order::entry_at;
use crate::reads::{PlanReads, flat_in};
use font_ir::{FlatGlyph, GlyphIr, Name, Shape};
use glyphs_source::GlyphIndex;
use refusal_codes::NoMemory;
use std::alloc::Global;
use std::sync::Arc;

/// Whether the glyph with this number goes into the font.
pub fn is_exported(index: &GlyphIndex, glyph: u32) -> bool
    requires index { IsIndex index.now }
    requires glyph { glyph < length index.now }
    ensures { result ≡ is_exported index.now glyph }
{
    let (_, entry) = entry_at(index, glyph);
    entry.exported
}

/// The number of the glyph with this name.
fn number_of(index: &GlyphIndex, name: &Name) -> Option<u32>
    requires { IsIndex index.now }
    ensures { result ≡ option_map (λ glyph. glyph.0) (named_from 0 name.now index.now) }
{
    match index.get(name) {
        Some(entry) => Some(entry.number),
        None => None,
    }
}

/// The numbers of the bases of a glyph's components, in their order.
pub fn bases_in(alloc: Global, glyph: &GlyphIr, index: &GlyphIndex) -> Result<Vec<u32>, NoMemory>
    requires { IsIndex index.now }
    ensures { IfOk result (λ bases. bases.items ≡ bases_in glyph.now index.now) }
{
    let mut bases = Vec::new(alloc);
    if let Some(layer) = glyph.layers.as_slice().first() {
        push_bases(&mut bases, layer.shapes.as_slice(), index)?;
    }
    Ok(bases)
}

/// Adds the numbers of the bases of the components among shapes.
fn push_bases(bases: &mut Vec<u32>, shapes: &[Shape], index: &GlyphIndex) -> Result<(), NoMemory>
    requires { IsIndex index.now }
    ensures { OnOk result (bases.new.items
        ≡ bases.old.items ++ flat_map (shape_bases index.now) shapes.now) }
{
    for shape in shapes {
        push_base(bases, shape, index)?;
    }
    Ok(())
}

/// Adds the number of the base of a component.
fn push_base(bases: &mut Vec<u32>, shape: &Shape, index: &GlyphIndex) -> Result<(), NoMemory>
    requires { IsIndex index.now }
    ensures { OnOk result (bases.new.items ≡ bases.old.items ++ shape_bases index.now shape.now) }
{
    if let Shape::Component { base, .. } = shape
        && let Some(number) = number_of(index, base)
    {
        bases.push(number)?;
    }
    Ok(())
}

/// The glyphs with these numbers, drawn.
pub fn flats_in(
    alloc: Global,
    glyphs: &[u32],
    reads: &PlanReads,
) -> Result<Vec<Arc<FlatGlyph>>, NoMemory>
    requires { All (λ glyph. IsSome (flat_read (parts []) glyph reads.now)) glyphs.now }
    ensures flats { IfOk result (λ flats. map (λ flat. Some (arc_value flat)) flats.items
        ≡ map (λ glyph. flat_read (parts []) glyph reads.now) glyphs.now) }
    ensures known { IfOk result (λ flats. All (λ flat. IsFlatGlyph (arc_value flat)) flats.items) }
{
    let mut flats = Vec::with_capacity(alloc, glyphs.len())?;
    for glyph in glyphs {
        let flat = flat_at(*glyph, reads)?;
        flats.push(flat)?;
    }
    Ok(flats)
}

/// The glyph with this number, drawn.
pub fn flat_at(glyph: u32, reads: &PlanReads) -> Result<Arc<FlatGlyph>, NoMemory>
    requires { IsSome (flat_read (parts []) glyph reads.now) }
    ensures flat { IfOk result (λ flat. flat_read (parts []) glyph reads.now
        ≡ Some (arc_value flat)) }
    ensures known { IfOk result (λ flat. IsFlatGlyph (arc_value flat)) }
{
    Ok(Arc::try_clone(flat_in(reads, glyph).get().arc())?)
}
