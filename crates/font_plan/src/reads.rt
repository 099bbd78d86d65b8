//! What a job reads, by its kinds.

ghost use Rattle.std.specs.Prelude.{◌≡◌, IsSome, Some, []};
ghost use Rattle.font_graph.specs.Running.{tree_read, header_read, index_read, raw_read, flat_read};
ghost use Rattle.font_graph.specs.Running.{order_read, measures_read};
ghost use Rattle.font_plan.specs.Jobs.{parts};
ghost use Rattle.font_plan.specs.Reading.{table_read};

use crate::items::{DrawnGlyph, Item};
use crate::known::Known;
use access_context::Reads;
use font_graph::JobId;
use font_ir::{GlyphIr, GlyphOrder, Header, Tag};
use glyphs_source::GlyphIndex;
use metrics_tables::Measures;
use plist_reader::Tree;
use shared_values::SharedBytes;

/// What a job of a source reads.
pub type PlanReads = Reads<JobId, Item>;

/// The source's property list.
pub fn tree_in(reads: &PlanReads) -> &Known<Tree>
    requires { IsSome (tree_read (parts []) reads.now) }
    ensures { tree_read (parts []) reads.now ≡ Some result.now }
{
    match reads.done(&JobId::Tree) {
        Item::Tree(tree) => tree,
        _ => unreachable!(),
    }
}

/// The source's header.
pub fn header_in(reads: &PlanReads) -> &Known<Header>
    requires { IsSome (header_read (parts []) reads.now) }
    ensures { header_read (parts []) reads.now ≡ Some result.now }
{
    match reads.done(&JobId::Header) {
        Item::Header(header) => header,
        _ => unreachable!(),
    }
}

/// The source's index of glyphs.
pub fn index_in(reads: &PlanReads) -> &Known<GlyphIndex>
    requires { IsSome (index_read (parts []) reads.now) }
    ensures { index_read (parts []) reads.now ≡ Some result.now }
{
    match reads.done(&JobId::Index) {
        Item::Index(index) => index,
        _ => unreachable!(),
    }
}

/// The glyph with this number, as it was read.
pub fn raw_in(reads: &PlanReads, glyph: u32) -> &Known<GlyphIr>
    requires { IsSome (raw_read (parts []) glyph reads.now) }
    ensures { raw_read (parts []) glyph reads.now ≡ Some result.now }
{
    match reads.done(&JobId::Raw(glyph)) {
        Item::Raw(raw) => raw,
        _ => unreachable!(),
    }
}

/// The glyph with this number, drawn.
pub fn flat_in(reads: &PlanReads, glyph: u32) -> &DrawnGlyph
    requires { IsSome (flat_read (parts []) glyph reads.now) }
    ensures { flat_read (parts []) glyph reads.now ≡ Some result.now }
{
    match reads.done(&JobId::Flat(glyph)) {
        Item::Flat(flat) => flat,
        _ => unreachable!(),
    }
}

/// The order of the font's glyphs.
pub fn order_in(reads: &PlanReads) -> &GlyphOrder
    requires { IsSome (order_read (parts []) reads.now) }
    ensures { order_read (parts []) reads.now ≡ Some result.now }
{
    match reads.done(&JobId::Order) {
        Item::Order(order) => order,
        _ => unreachable!(),
    }
}

/// What was measured of the font's glyphs.
pub fn measures_in(reads: &PlanReads) -> &Known<Measures>
    requires { IsSome (measures_read (parts []) reads.now) }
    ensures { measures_read (parts []) reads.now ≡ Some result.now }
{
    match reads.done(&JobId::Advances) {
        Item::Advances(measures) => measures,
        _ => unreachable!(),
    }
}

/// The table with this tag, where it isn't absent.
pub fn table_in(reads: &PlanReads, tag: Tag) -> &Option<SharedBytes>
    requires { IsSome (table_read tag reads.now) }
    ensures { table_read tag reads.now ≡ Some result.now }
{
    match reads.done(&JobId::Table(tag)) {
        Item::Table(table) => table,
        _ => unreachable!(),
    }
}
