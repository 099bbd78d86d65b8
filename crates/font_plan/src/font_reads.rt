//! What the jobs of the whole font read: all its glyphs in its order, and all its tables.

ghost use Rattle.std.specs.Prelude.{◌≡◌, ◌++◌, ◌∷◌, [], map, Some, IsSome, IfOk, OnOk};
ghost use Rattle.std.specs.Prelude.{option_and_then};
ghost use Rattle.std.specs.List.{All, flat_map};
ghost use Rattle.std.specs.Option.{option_map};
ghost use Rattle.std.specs.Arc.{arc_value};
ghost use Rattle.access_context.specs.Plain.{plain, done_value};
ghost use Rattle.access_context.specs.Read.{plain_item};
ghost use Rattle.font_ir.specs.FlatGlyphs.{IsFlatGlyph};
ghost use Rattle.font_ir.specs.Headers.{IsHeader};
ghost use Rattle.font_ir.specs.Notdef.{made_notdef_of};
ghost use Rattle.font_assembly.specs.Assembled as assembled;
ghost use Rattle.font_tables.specs.declared.tags.TheConstants.{TABLE_TAGS};
ghost use Rattle.font_graph.specs.Graph.{as_data, data_in};
ghost use Rattle.font_graph.specs.Running.{flat_read};
ghost use Rattle.font_graph.specs.Same.{same_id};
ghost use Rattle.font_plan.specs.Drawn.{IsDrawn};
ghost use Rattle.font_plan.specs.Jobs.{parts, simple_in, parts_with, variations_with};
ghost use Rattle.cmap_writer.specs.Cmap.{AreCodes};
ghost use Rattle.character_codes.specs.CharacterCodes.{codes_of};
ghost use Rattle.font_plan.specs.Known.{IsIndex};
ghost use Rattle.font_plan.specs.Order.{order_in};
ghost use Rattle.font_plan.specs.Reading.{glyph_read, table_read, present_table};
ghost use Rattle.font_plan.specs.Reading.{begins_with_made, data_at, part_read};

use crate::bases::flat_at;
use crate::glyph_jobs::{is_composite, simple_data};
use crate::items::Item;
use crate::reads::{PlanReads, flat_in, table_in};
use access_context::Settled;
use character_codes::{codes_in, codes_rise};
use font_graph::JobId;
use font_ir::{FlatGlyph, GlyphOrder, Header, Tag, made_notdef};
use font_tables::TABLE_TAGS;
use glyphs_source::GlyphIndex;
use refusal_codes::NoMemory;
use shared_values::SharedBytes;
use std::alloc::Global;
use std::sync::Arc;

/// The font's glyphs in its order, drawn.
pub fn glyphs_in(
    alloc: Global,
    header: &Header,
    order: &GlyphOrder,
    reads: &PlanReads,
) -> Result<Vec<Arc<FlatGlyph>>, NoMemory>
    requires header { IsHeader header.now }
    requires there { All (λ number. IsSome (glyph_read header.now reads.now number))
        order.now.numbers }
    ensures glyphs { IfOk result (λ glyphs. map (λ glyph. Some (arc_value glyph)) glyphs.items
        ≡ map (glyph_read header.now reads.now) order.now.numbers) }
    ensures known { IfOk result (λ glyphs. All (λ glyph. IsFlatGlyph (arc_value glyph))
        glyphs.items) }
{
    let numbers = order.numbers();
    let mut glyphs = Vec::with_capacity(alloc, numbers.len())?;
    for number in numbers {
        let glyph = glyph_in(alloc, header, *number, reads)?;
        glyphs.push(glyph)?;
    }
    Ok(glyphs)
}

/// The glyph with this number of the order, drawn: one without a number is a made `.notdef`.
fn glyph_in(
    alloc: Global,
    header: &Header,
    number: Option<u32>,
    reads: &PlanReads,
) -> Result<Arc<FlatGlyph>, NoMemory>
    requires header { IsHeader header.now }
    requires there { IsSome (glyph_read header.now reads.now number) }
    ensures glyph { IfOk result (λ glyph. glyph_read header.now reads.now number
        ≡ Some (arc_value glyph)) }
    ensures known { IfOk result (λ glyph. IsFlatGlyph (arc_value glyph)) }
{
    match number {
        Some(number) => flat_at(number, reads),
        None => Ok(Arc::new(alloc, notdef(alloc, header)?)?),
    }
}

/// The made `.notdef`.
fn notdef(alloc: Global, header: &Header) -> Result<FlatGlyph, NoMemory>
    requires { IsHeader header.now }
    ensures glyph { IfOk result (λ glyph. glyph_read header.now [] None ≡ Some glyph) }
    ensures drawn { IfOk result (IsDrawn header.now) }
    ensures simple { IfOk result (λ glyph. glyph.kept ≡ []) }
{
    made_notdef(alloc, header)
}

/// The jobs of the data of glyphs in `glyf`, by their contours.
pub fn outline_jobs(
    alloc: Global,
    glyphs: &[u32],
    reads: &PlanReads,
) -> Result<Vec<JobId>, NoMemory>
    requires { All (λ glyph. IsSome (flat_read (parts []) glyph reads.now)) glyphs.now }
    ensures { IfOk result (λ jobs. jobs.items ≡ map (part_read reads.now) glyphs.now) }
{
    let mut jobs = Vec::with_capacity(alloc, glyphs.len())?;
    for glyph in glyphs {
        jobs.push(outline_job(*glyph, reads))?;
    }
    Ok(jobs)
}

/// The job of the data of a glyph in `glyf`, by its contours.
fn outline_job(glyph: u32, reads: &PlanReads) -> JobId
    requires { IsSome (flat_read (parts []) glyph reads.now) }
    ensures { result ≡ part_read reads.now glyph }
{
    if is_composite(flat_in(reads, glyph).get().get()) {
        JobId::Composite(glyph)
    } else {
        JobId::Simple(glyph)
    }
}

/// The data of the font's glyphs in its order: what is read, behind that of a made `.notdef`.
pub fn parts_in(
    alloc: Global,
    header: &Header,
    order: &GlyphOrder,
    reads: &PlanReads,
) -> Result<Vec<Arc<Vec<u8>>>, NoMemory>
    requires { IsHeader header.now }
    ensures { IfOk result (λ found. map (λ part. part.value.items) found.items
        ≡ parts_with header.now order.now (data_in (parts []) same_id reads.now)) }
{
    let mut parts = Vec::new(alloc);
    if begins_with_made(order) {
        let part = made_part(alloc, header)?;
        parts.push(part)?;
    }
    push_data(reads.items(), &mut parts)?;
    Ok(parts)
}

/// The data of a made `.notdef`.
fn made_part(alloc: Global, header: &Header) -> Result<Arc<Vec<u8>>, NoMemory>
    requires { IsHeader header.now }
    ensures { IfOk result (λ part. part.value.items
        ≡ simple_in header.now (made_notdef_of header.now)) }
{
    let glyph = notdef(alloc, header)?;
    let bytes = simple_data(alloc, header, &glyph)?;
    Ok(Arc::new(alloc, bytes)?)
}

/// The data of a glyph that has none.
fn no_bytes(alloc: Global) -> Result<Arc<Vec<u8>>, NoMemory>
    ensures { IfOk result (λ part. part.value.items ≡ []) }
{
    Ok(Arc::new(alloc, Vec::new(alloc))?)
}

/// The variations of the font's glyphs in its order: what is read, behind that of a made
/// `.notdef`, which doesn't vary.
pub fn variations_in(
    alloc: Global,
    order: &GlyphOrder,
    reads: &PlanReads,
) -> Result<Vec<Arc<Vec<u8>>>, NoMemory>
    ensures { IfOk result (λ found. map (λ part. part.value.items) found.items
        ≡ variations_with order.now (data_in (parts []) same_id reads.now)) }
{
    let mut parts = Vec::new(alloc);
    if begins_with_made(order) {
        let part = no_bytes(alloc)?;
        parts.push(part)?;
    }
    push_data(reads.items(), &mut parts)?;
    Ok(parts)
}

/// The characters of the font, each with the number of its glyph.
pub fn characters_in(
    alloc: Global,
    index: &GlyphIndex,
    order: &GlyphOrder,
) -> Result<Vec<(u32, u16)>, NoMemory>
    requires index { IsIndex index.now }
    requires order { order.now ≡ order_in index.now }
    ensures codes { IfOk result (λ codes. codes.items ≡ codes_of index.now order.now.numbers) }
    ensures known { IfOk result (λ codes. AreCodes codes.items) }
{
    codes_rise();
    codes_in(alloc, index, order)
}

/// Whether the first glyph of an order is a made `.notdef`.
fn begins_with_made(order: &GlyphOrder) -> bool
    ensures { result ≡ begins_with_made order.now.numbers }
{
    match order.numbers().first() {
        Some(number) => number.is_none(),
        None => false,
    }
}

/// Adds the data of glyphs among what is read.
fn push_data(
    items: &[(JobId, Settled<Item>)],
    parts: &mut Vec<Arc<Vec<u8>>>,
) -> Result<(), NoMemory>
    ensures { OnOk result (map (λ part. part.value.items) parts.new.items
        ≡ map (λ part. part.value.items) parts.old.items
        ++ flat_map data_at (map plain_item items.now)) }
{
    for (_, settled) in items {
        if let Some(bytes) = data_of(settled) {
            parts.push(Arc::try_clone(bytes.arc())?)?;
        }
    }
    Ok(())
}

/// The data of a glyph, where an item is that.
fn data_of(settled: &Settled<Item>) -> Option<&SharedBytes>
    ensures { option_map (λ bytes. bytes.now) result
        ≡ option_and_then (as_data (parts [])) (done_value (plain settled.now)) }
{
    match settled {
        Settled::Done(item) => match &**item {
            Item::Simple(bytes) | Item::Composite(bytes) | Item::Variations(bytes) => Some(bytes),
            _ => None,
        },
        _ => None,
    }
}

/// The tables that aren't absent, in the order of their tags.
pub fn tables_in(alloc: Global, reads: &PlanReads) -> Result<Vec<(Tag, Arc<Vec<u8>>)>, NoMemory>
    requires { All (λ tag. IsSome (table_read tag reads.now)) TABLE_TAGS }
    ensures { IfOk result (λ tables. assembled.tables_of tables.items
        ≡ flat_map (λ tag. present_table tag (table_read tag reads.now)) TABLE_TAGS) }
{
    let mut tables = Vec::with_capacity(alloc, TABLE_TAGS.len())?;
    for tag in TABLE_TAGS {
        push_table(reads, tag, &mut tables)?;
    }
    Ok(tables)
}

/// Adds the table with this tag, where it isn't absent.
fn push_table(
    reads: &PlanReads,
    tag: Tag,
    tables: &mut Vec<(Tag, Arc<Vec<u8>>)>,
) -> Result<(), NoMemory>
    requires { IsSome (table_read tag reads.now) }
    ensures { OnOk result (assembled.tables_of tables.new.items
        ≡ assembled.tables_of tables.old.items
        ++ present_table tag (table_read tag reads.now)) }
{
    if let Some(table) = table_in(reads, tag) {
        tables.push((tag, Arc::try_clone(table.arc())?))?;
    }
    Ok(())
}
