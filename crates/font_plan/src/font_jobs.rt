//! The jobs of the whole font: the order of its glyphs, what is measured of them, its tables and
//! its file.

ghost use Rattle.std.specs.Prelude.{◌≡◌, ◌≤◌, List, ℕ, Option, Some, Result, Ok, Err, [], length};
ghost use Rattle.std.specs.Prelude.{slice_get};
ghost use Rattle.std.specs.Prelude.{IfOk};
ghost use Rattle.std.specs.List.{All};
ghost use Rattle.std.specs.Option.{option_map};
ghost use Rattle.refusal_codes.specs.Gives.{Gives, RefusesRead};
ghost use Rattle.refusal_codes.specs.declared.limits.TheConstants.{TABLES};
ghost use Rattle.refusal_codes.specs.declared.refusal.Refusal.{Refusal};
ghost use Rattle.font_ir.specs.Headers.{IsHeader};
ghost use Rattle.font_ir.specs.FlatGlyphs.{glyphs_of};
ghost use Rattle.metrics_tables.specs.Nesting.{NoneLeadsToItself, bases_in};
ghost use Rattle.metrics_tables.specs.Tables.{AreMeasures};
ghost use Rattle.font_assembly.specs.File.{TagsRise, HasHead};
ghost use Rattle.font_assembly.specs.Assembled as assembled;
ghost use Rattle.font_graph.specs.Graph.{after_order, varied_of};
ghost use Rattle.font_graph.specs.Same.{same_id};
ghost use Rattle.font_graph.specs.declared.items.Item.TheVariants as an;
ghost use Rattle.font_plan.specs.Drawn.{IsDrawn};
ghost use Rattle.font_plan.specs.FontFile.{font_too_large, filed};
ghost use Rattle.font_plan.specs.Jobs.{parts, has_axes, measures_over, told_name};
ghost use Rattle.font_plan.specs.Jobs.{advance_refused, too_many_regions};
ghost use Rattle.font_plan.specs.Known.{IsIndex};
ghost use Rattle.font_plan.specs.Order.{numbers_in, order_or_refused, too_many_glyphs};
ghost use Rattle.font_plan.specs.Reading.{of_all};
ghost use Rattle.font_plan.specs.Settling.{Comes, made_by, none};

use crate::glyph_jobs::has_axes;
use crate::items::Item;
use crate::known::Known;
use crate::order::{glyph_count, order_in};
use crate::outcomes::{PlanOutcome, made, made_last, refused};
use crate::specs_of;
use font_assembly::assemble;
use font_graph::JobId;
use font_ir::{FlatGlyph, GlyphOrder, Header, Tag};
use glyphs_source::GlyphIndex;
use metrics_tables::{MeasureError, Measures, measure};
use plain_lists::Text;
use refusal_codes::limits::GLYPHS;
use refusal_codes::{Failure, NoMemory, ReadError, Refusal, Rule, job};
use shared_values::SharedBytes;
use std::alloc::Global;
use std::sync::Arc;
use table_bytes::TableError;

// ---- the order

/// Orders the font's glyphs, and adds the jobs of what is measured, of the font and of its tables.
/// `outlines` are the jobs of these glyphs' data in `glyf`.
pub fn run_order(
    alloc: Global,
    header: &Header,
    index: &GlyphIndex,
    glyphs: &[u32],
    outlines: &[JobId],
) -> Result<PlanOutcome, NoMemory>
    requires index { IsIndex index.now }
    requires glyphs { glyphs.now ≡ numbers_in index.now }
    ensures { Comes result (made_by an.Order (λ order. after_order (parts []) same_id
        (of_all glyphs.now (varied_of (has_axes header.now) glyphs.now) outlines.now))
        (order_or_refused index.now)) }
{
    let count = glyph_count(index, glyphs);
    if count > GLYPHS as u64 {
        return Ok(refused(alloc, too_many_glyphs(alloc, count)));
    }
    let order = order_in(alloc, index)?;
    let added = specs_of::after_order(alloc, glyphs, has_axes(header), outlines)?;
    made(alloc, Item::Order(order), added)
}

/// The refusal of too many glyphs.
fn too_many_glyphs(alloc: Global, count: u64) -> Refusal
    ensures { result ≡ too_many_glyphs count }
{
    let failure = Failure {
        rule: Rule::TooManyGlyphs,
        place: count,
    };
    failure.refusal(job::ORDER, Text::new(alloc))
}

// ---- what is measured

/// Measures the font's glyphs.
pub fn run_advances(
    alloc: Global,
    header: &Header,
    order: &GlyphOrder,
    glyphs: &[Arc<FlatGlyph>],
) -> Result<PlanOutcome, NoMemory>
    requires header { IsHeader header.now }
    requires drawn { All (IsDrawn header.now) (glyphs_of glyphs.now) }
    requires order { length glyphs.now ≡ length order.now.names }
    requires nesting { NoneLeadsToItself (bases_in order.now.names (glyphs_of glyphs.now)) }
    ensures { Comes result (made_by an.Advances none
        (measures_over header.now order.now.names (glyphs_of glyphs.now))) }
{
    match measured(alloc, header, order, glyphs) {
        Ok(measures) => made_last(alloc, Item::Advances(Known::of(measures))),
        Err(ReadError::Refused(refusal)) => Ok(refused(alloc, refusal)),
        Err(ReadError::NoMemory) => Err(NoMemory),
    }
}

/// What the tables of metrics need of the glyphs.
fn measured(
    alloc: Global,
    header: &Header,
    order: &GlyphOrder,
    glyphs: &[Arc<FlatGlyph>],
) -> Result<Measures, ReadError>
    requires header { IsHeader header.now }
    requires drawn { All (IsDrawn header.now) (glyphs_of glyphs.now) }
    requires order { length glyphs.now ≡ length order.now.names }
    requires nesting { NoneLeadsToItself (bases_in order.now.names (glyphs_of glyphs.now)) }
    ensures measures { Gives (λ measures. measures) result
        (measures_over header.now order.now.names (glyphs_of glyphs.now)) }
    ensures known { IfOk result AreMeasures }
{
    match measure(alloc, header, order, glyphs) {
        Ok(measures) => Ok(measures),
        Err(MeasureError::TooLarge { gid, .. }) => Err(advance_refused(alloc, order, glyphs, gid)),
        Err(MeasureError::Regions(count)) => Err(ReadError::Refused(too_many_regions(
            alloc, count,
        ))),
        Err(MeasureError::NoMemory) => Err(ReadError::NoMemory),
    }
}

/// The refusal of a glyph whose advance width changes by too much: its job has the glyph's name.
fn advance_refused(
    alloc: Global,
    order: &GlyphOrder,
    glyphs: &[Arc<FlatGlyph>],
    gid: u16,
) -> ReadError
    ensures { RefusesRead {Y = ℕ} result (Err (advance_refused (slice_get order.now.names gid)
        (slice_get (glyphs_of glyphs.now) gid))) }
{
    let place = match glyphs.get(gid as usize) {
        Some(glyph) => glyph.place,
        None => 0,
    };
    let failure = Failure {
        rule: Rule::DeltaTooLarge,
        place,
    };
    match String::from_str(alloc, told_name(order, gid)) {
        Ok(name) => failure.refused(job::ADVANCES, Text::from_string(name)),
        Err(_) => ReadError::NoMemory,
    }
}

/// The name of the glyph with this ID.
fn told_name(order: &GlyphOrder, gid: u16) -> &str
    ensures { result.now ≡ told_name (slice_get order.now.names gid) }
{
    match order.names().get(gid as usize) {
        Some(name) => text_of(name.as_slice()),
        None => "",
    }
}

/// The text that these bytes are; none where they are no text.
fn text_of(name: &[u8]) -> &str
    ensures { result.now ≡ told_name (Some name.now) }
{
    match std::str::from_utf8(name) {
        Ok(text) => text,
        Err(_) => "",
    }
}

/// The refusal of a font whose advance widths change in too many regions.
fn too_many_regions(alloc: Global, count: u64) -> Refusal
    ensures { result ≡ too_many_regions count }
{
    let failure = Failure {
        rule: Rule::TooManyRegions,
        place: count,
    };
    failure.refusal(job::ADVANCES, Text::new(alloc))
}

// ---- the tables

/// What comes of a table that was written, that the font doesn't have, or that is refused.
pub fn table_comes(
    alloc: Global,
    table: Result<Option<Vec<u8>>, ReadError>,
) -> Result<PlanOutcome, NoMemory>
    ensures { (definition : Result (Option (List ℕ)) Refusal)
        → Gives (option_map (λ bytes. bytes.items)) table definition
        → Comes result (made_by an.Table none definition) }
{
    match table {
        Ok(Some(bytes)) => {
            let bytes = SharedBytes::of(Arc::new(alloc, bytes)?);
            made_last(alloc, Item::Table(Some(bytes)))
        }
        Ok(None) => made_last(alloc, Item::Table(None)),
        Err(ReadError::Refused(refusal)) => Ok(refused(alloc, refusal)),
        Err(ReadError::NoMemory) => Err(NoMemory),
    }
}

// ---- the file

/// Puts the tables together as the font's file.
pub fn run_font(alloc: Global, tables: &[(Tag, Arc<Vec<u8>>)]) -> Result<PlanOutcome, NoMemory>
    requires count { length tables.now ≤ TABLES }
    requires tags { TagsRise (assembled.tables_of tables.now) }
    requires head { HasHead (assembled.tables_of tables.now) }
    ensures { Comes result (made_by an.Font none (filed (assembled.tables_of tables.now))) }
{
    match assemble(alloc, tables) {
        Ok(font) => font_made(alloc, font),
        Err(TableError::TooLarge(length)) => Ok(refused(alloc, font_too_large(alloc, length))),
        Err(TableError::NoMemory) => Err(NoMemory),
    }
}

/// What comes of a font that was put together.
fn font_made(alloc: Global, font: Vec<u8>) -> Result<PlanOutcome, NoMemory>
    ensures { Comes result (made_by an.Font none (Ok font.items)) }
{
    made_last(alloc, Item::Font(SharedBytes::of(Arc::new(alloc, font)?)))
}

/// The refusal of a font that is too long, which has no name.
fn font_too_large(alloc: Global, length: u64) -> Refusal
    ensures { result ≡ font_too_large length }
{
    let failure = Failure {
        rule: Rule::TableTooLarge,
        place: length,
    };
    failure.refusal(job::FONT, Text::new(alloc))
}
