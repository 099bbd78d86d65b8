//! The plan of a source's jobs.

ghost use Rattle.std.specs.Prelude.{◌≡◌, IsTrue, Some};
ghost use Rattle.std.specs.Arc.{arc_value};
ghost use Rattle.access_context.specs.Read.{all_done};
ghost use Rattle.job_graph.specs.Rounds.{IsDue};
ghost use Rattle.font_tables.specs.Tags.{group_of};
ghost use Rattle.font_tables.specs.declared.tags.TableGroup.TheVariants as groups;
ghost use Rattle.font_graph.specs.Graph.{plan, spec_of, There, value_of};
ghost use Rattle.font_graph.specs.Same.{same_id};
ghost use Rattle.font_graph.specs.Due.{lawful, solved_by};
ghost use Rattle.font_graph.specs.declared.ids.JobId.TheVariants as job;
ghost use Rattle.font_plan.specs.Jobs.{parts};
ghost use Rattle.font_plan.specs.Settling.{Comes};

use crate::bases::{bases_in, flats_in};
use crate::font_jobs::table_comes;
use crate::font_reads::{
    characters_in, glyphs_in, outline_jobs, parts_in, tables_in, variations_in,
};
use crate::glyph_jobs::drawing_laws;
use crate::items::Item;
use crate::order::numbers_in;
use crate::outcomes::{PlanOutcome, blocked};
use crate::reads::{
    PlanReads, flat_in, header_in, index_in, measures_in, order_in, raw_in, tree_in,
};
use crate::{font_jobs, glyph_jobs, source_jobs, specs_of};
use access_context::Spec;
use font_graph::JobId;
use font_ir::{Tag, made_notdef_is_flat};
use font_tables::{
    TableGroup, code_table, group_of, metrics_table, os2_table, outline_table, plain_table,
    style_table, variations_table,
};
use glyphs_source::entries_are_numbered;
use job_graph::{Plan, Solved};
use metrics_tables::measures_are_for_their_header;
use refusal_codes::NoMemory;
use std::alloc::Global;
use std::marker::Model;
use std::sync::Arc;

/// The jobs of a source, whose graph makes its font. A contract sees them as the source's bytes.
#[derive(Debug, Drop)]
pub struct FontPlan {
    source: Arc<Vec<u8>>,
}

impl Model for FontPlan {
    ghost use Rattle.std.specs.Prelude.{List, ℕ};
    ghost use Rattle.std.specs.Arc.{arc_value};

    ghost Value = { List ℕ };

    ghost view = { λ plan. (arc_value plan.source).items };
}

impl FontPlan {
    /// The jobs of this source. It takes no memory.
    pub fn over(source: Arc<Vec<u8>>) -> FontPlan
        ensures { result ≡ (arc_value source).items }
    {
        FontPlan { source }
    }

    /// The source's bytes. It takes no memory.
    pub fn source(&self) -> &[u8]
        ensures { result.now ≡ self.now }
    {
        self.source.as_slice()
    }

    /// Reads the source's property list.
    fn run_tree(&self, alloc: Global, _reads: &PlanReads) -> Result<PlanOutcome, NoMemory>
        ensures { Comes result
            ((plan (parts self.now) same_id).outcome job.Tree _reads.now) }
    {
        source_jobs::run_tree(alloc, self.source())
    }

    /// Reads the source's header.
    fn run_header(&self, alloc: Global, reads: &PlanReads) -> Result<PlanOutcome, NoMemory>
        requires due { IsDue same_id (plan (parts self.now) same_id) job.Header reads.now }
        requires done { IsTrue (all_done reads.now) }
        ensures { Comes result
            ((plan (parts self.now) same_id).outcome job.Header reads.now) }
    {
        source_jobs::run_header(alloc, tree_in(reads).get())
    }

    /// Reads the source's index of glyphs.
    fn run_index(&self, alloc: Global, reads: &PlanReads) -> Result<PlanOutcome, NoMemory>
        requires due { IsDue same_id (plan (parts self.now) same_id) job.Index reads.now }
        requires done { IsTrue (all_done reads.now) }
        ensures { Comes result
            ((plan (parts self.now) same_id).outcome job.Index reads.now) }
    {
        source_jobs::run_index(alloc, tree_in(reads).get())
    }

    /// Reads the layers of a glyph.
    fn run_raw(&self, alloc: Global, glyph: u32, reads: &PlanReads) -> Result<PlanOutcome, NoMemory>
        requires due { IsDue same_id (plan (parts self.now) same_id) (job.Raw glyph) reads.now }
        requires done { IsTrue (all_done reads.now) }
        ensures { Comes result
            ((plan (parts self.now) same_id).outcome (job.Raw glyph) reads.now) }
    {
        let tree = tree_in(reads).get();
        let header = header_in(reads).get();
        let index = index_in(reads).get();
        glyph_jobs::run_raw(alloc, tree, header, index, glyph)
    }

    /// Draws the contours of a glyph.
    fn run_flat(
        &self,
        alloc: Global,
        glyph: u32,
        reads: &PlanReads,
    ) -> Result<PlanOutcome, NoMemory>
        requires due { IsDue same_id (plan (parts self.now) same_id) (job.Flat glyph) reads.now }
        requires done { IsTrue (all_done reads.now) }
        ensures { Comes result
            ((plan (parts self.now) same_id).outcome (job.Flat glyph) reads.now) }
    {
        drawing_laws();
        let raw = raw_in(reads, glyph).get();
        let index = index_in(reads).get();
        let numbers = bases_in(alloc, raw, index)?;
        let glyphs = numbers.as_slice();
        let flats = flats_in(alloc, glyphs, reads)?;
        let bases = flats.as_slice();
        glyph_jobs::run_flat(alloc, raw, index, bases, glyph)
    }

    /// Writes the data of a simple glyph.
    fn run_simple(
        &self,
        alloc: Global,
        glyph: u32,
        reads: &PlanReads,
    ) -> Result<PlanOutcome, NoMemory>
        requires due { IsDue same_id (plan (parts self.now) same_id) (job.Simple glyph) reads.now }
        requires done { IsTrue (all_done reads.now) }
        ensures { Comes result
            ((plan (parts self.now) same_id).outcome (job.Simple glyph) reads.now) }
    {
        drawing_laws();
        let header = header_in(reads).get();
        let flat = flat_in(reads, glyph).get().get();
        glyph_jobs::run_simple(alloc, header, flat)
    }

    /// Writes the data of a composite.
    fn run_composite(
        &self,
        alloc: Global,
        glyph: u32,
        reads: &PlanReads,
    ) -> Result<PlanOutcome, NoMemory>
        requires due { IsDue same_id (plan (parts self.now) same_id) (job.Composite glyph)
            reads.now }
        requires done { IsTrue (all_done reads.now) }
        ensures { Comes result
            ((plan (parts self.now) same_id).outcome (job.Composite glyph) reads.now) }
    {
        drawing_laws();
        let header = header_in(reads).get();
        let order = order_in(reads);
        let flat = flat_in(reads, glyph).get().get();
        glyph_jobs::run_composite(alloc, header, order, flat)
    }

    /// Writes how a glyph's points change over the design space.
    fn run_variations(
        &self,
        alloc: Global,
        glyph: u32,
        reads: &PlanReads,
    ) -> Result<PlanOutcome, NoMemory>
        requires due { IsDue same_id (plan (parts self.now) same_id) (job.Variations glyph)
            reads.now }
        requires done { IsTrue (all_done reads.now) }
        ensures { Comes result
            ((plan (parts self.now) same_id).outcome (job.Variations glyph) reads.now) }
    {
        let header = header_in(reads).get();
        let index = index_in(reads).get();
        let flat = flat_in(reads, glyph).get().get();
        glyph_jobs::run_variations(alloc, header, index, flat)
    }

    /// Orders the font's glyphs.
    fn run_order(&self, alloc: Global, reads: &PlanReads) -> Result<PlanOutcome, NoMemory>
        requires due { IsDue same_id (plan (parts self.now) same_id) job.Order reads.now }
        requires done { IsTrue (all_done reads.now) }
        ensures { Comes result
            ((plan (parts self.now) same_id).outcome job.Order reads.now) }
    {
        let header = header_in(reads).get();
        let index = index_in(reads).get();
        let numbers = numbers_in(alloc, index)?;
        let glyphs = numbers.as_slice();
        let jobs = outline_jobs(alloc, glyphs, reads)?;
        let outlines = jobs.as_slice();
        font_jobs::run_order(alloc, header, index, glyphs, outlines)
    }

    /// Measures the font's glyphs.
    fn run_advances(&self, alloc: Global, reads: &PlanReads) -> Result<PlanOutcome, NoMemory>
        requires due { IsDue same_id (plan (parts self.now) same_id) job.Advances reads.now }
        requires done { IsTrue (all_done reads.now) }
        ensures { Comes result
            ((plan (parts self.now) same_id).outcome job.Advances reads.now) }
    {
        drawing_laws();
        entries_are_numbered();
        made_notdef_is_flat();
        let header = header_in(reads).get();
        let order = order_in(reads);
        let glyphs = glyphs_in(alloc, header, order, reads)?;
        font_jobs::run_advances(alloc, header, order, glyphs.as_slice())
    }

    /// Writes a table.
    fn run_table(&self, alloc: Global, tag: Tag, reads: &PlanReads) -> Result<PlanOutcome, NoMemory>
        requires due { IsDue same_id (plan (parts self.now) same_id) (job.Table tag) reads.now }
        requires done { IsTrue (all_done reads.now) }
        ensures { Comes result
            ((plan (parts self.now) same_id).outcome (job.Table tag) reads.now) }
    {
        match group_of(tag) {
            Some(TableGroup::Plain) => self.run_plain(alloc, tag, reads),
            Some(TableGroup::Style) => self.run_style(alloc, tag, reads),
            Some(TableGroup::Codes) => self.run_codes(alloc, tag, reads),
            Some(TableGroup::CodeMetrics) => self.run_code_metrics(alloc, tag, reads),
            Some(TableGroup::Metrics) => self.run_metrics(alloc, tag, reads),
            Some(TableGroup::Outlines) => self.run_outlines(alloc, tag, reads),
            Some(TableGroup::Variations) => self.run_all_variations(alloc, tag, reads),
            None => table_comes(alloc, Ok(None)),
        }
    }

    /// Writes a table that is made of the header and the order.
    fn run_plain(&self, alloc: Global, tag: Tag, reads: &PlanReads) -> Result<PlanOutcome, NoMemory>
        requires group { group_of tag ≡ Some groups.Plain }
        requires due { IsDue same_id (plan (parts self.now) same_id) (job.Table tag) reads.now }
        requires done { IsTrue (all_done reads.now) }
        ensures { Comes result
            ((plan (parts self.now) same_id).outcome (job.Table tag) reads.now) }
    {
        let header = header_in(reads).get();
        let order = order_in(reads);
        table_comes(alloc, plain_table(alloc, tag, header, order))
    }

    /// Writes a table of the font's styles.
    fn run_style(&self, alloc: Global, tag: Tag, reads: &PlanReads) -> Result<PlanOutcome, NoMemory>
        requires group { group_of tag ≡ Some groups.Style }
        requires due { IsDue same_id (plan (parts self.now) same_id) (job.Table tag) reads.now }
        requires done { IsTrue (all_done reads.now) }
        ensures { Comes result
            ((plan (parts self.now) same_id).outcome (job.Table tag) reads.now) }
    {
        table_comes(alloc, style_table(alloc, tag, header_in(reads).get()))
    }

    /// Writes the table of the font's characters.
    fn run_codes(&self, alloc: Global, tag: Tag, reads: &PlanReads) -> Result<PlanOutcome, NoMemory>
        requires group { group_of tag ≡ Some groups.Codes }
        requires due { IsDue same_id (plan (parts self.now) same_id) (job.Table tag) reads.now }
        requires done { IsTrue (all_done reads.now) }
        ensures { Comes result
            ((plan (parts self.now) same_id).outcome (job.Table tag) reads.now) }
    {
        let order = order_in(reads);
        let characters = characters_in(alloc, index_in(reads).get(), order)?;
        table_comes(alloc, code_table(alloc, order, characters.as_slice()))
    }

    /// Writes the table of the font's metrics and characters.
    fn run_code_metrics(
        &self,
        alloc: Global,
        tag: Tag,
        reads: &PlanReads,
    ) -> Result<PlanOutcome, NoMemory>
        requires group { group_of tag ≡ Some groups.CodeMetrics }
        requires due { IsDue same_id (plan (parts self.now) same_id) (job.Table tag) reads.now }
        requires done { IsTrue (all_done reads.now) }
        ensures { Comes result
            ((plan (parts self.now) same_id).outcome (job.Table tag) reads.now) }
    {
        let header = header_in(reads).get();
        let measures = measures_in(reads).get();
        let characters = characters_in(alloc, index_in(reads).get(), order_in(reads))?;
        table_comes(
            alloc,
            os2_table(alloc, header, measures, characters.as_slice()),
        )
    }

    /// Writes a table of metrics.
    fn run_metrics(
        &self,
        alloc: Global,
        tag: Tag,
        reads: &PlanReads,
    ) -> Result<PlanOutcome, NoMemory>
        requires group { group_of tag ≡ Some groups.Metrics }
        requires due { IsDue same_id (plan (parts self.now) same_id) (job.Table tag) reads.now }
        requires done { IsTrue (all_done reads.now) }
        ensures { Comes result
            ((plan (parts self.now) same_id).outcome (job.Table tag) reads.now) }
    {
        measures_are_for_their_header();
        drawing_laws();
        made_notdef_is_flat();
        let header = header_in(reads).get();
        let measures = measures_in(reads).get();
        table_comes(alloc, metrics_table(alloc, tag, header, measures))
    }

    /// Writes a table that is made of the glyphs' data.
    fn run_outlines(
        &self,
        alloc: Global,
        tag: Tag,
        reads: &PlanReads,
    ) -> Result<PlanOutcome, NoMemory>
        requires group { group_of tag ≡ Some groups.Outlines }
        requires due { IsDue same_id (plan (parts self.now) same_id) (job.Table tag) reads.now }
        requires done { IsTrue (all_done reads.now) }
        ensures { Comes result
            ((plan (parts self.now) same_id).outcome (job.Table tag) reads.now) }
    {
        let header = header_in(reads).get();
        let parts = parts_in(alloc, header, order_in(reads), reads)?;
        table_comes(alloc, outline_table(alloc, tag, parts.as_slice()))
    }

    /// Writes the table of the glyphs' variations.
    fn run_all_variations(
        &self,
        alloc: Global,
        tag: Tag,
        reads: &PlanReads,
    ) -> Result<PlanOutcome, NoMemory>
        requires group { group_of tag ≡ Some groups.Variations }
        requires due { IsDue same_id (plan (parts self.now) same_id) (job.Table tag) reads.now }
        requires done { IsTrue (all_done reads.now) }
        ensures { Comes result
            ((plan (parts self.now) same_id).outcome (job.Table tag) reads.now) }
    {
        let header = header_in(reads).get();
        let parts = variations_in(alloc, order_in(reads), reads)?;
        table_comes(alloc, variations_table(alloc, header, parts.as_slice()))
    }

    /// Puts the tables together.
    fn run_font(&self, alloc: Global, reads: &PlanReads) -> Result<PlanOutcome, NoMemory>
        requires due { IsDue same_id (plan (parts self.now) same_id) job.Font reads.now }
        requires done { IsTrue (all_done reads.now) }
        ensures { Comes result
            ((plan (parts self.now) same_id).outcome job.Font reads.now) }
    {
        let tables = tables_in(alloc, reads)?;
        font_jobs::run_font(alloc, tables.as_slice())
    }
}

impl Plan for FontPlan {
    type Id = JobId;

    type Value = Item;

    ghost meaning = { λ source. plan (parts source) same_id };

    fn opening(&self, alloc: Global) -> Result<Vec<Spec<JobId>>, NoMemory> {
        specs_of::opening(alloc)
    }

    fn stratum(&self, id: &JobId) -> u8 {
        id.kind().stratum
    }

    fn run(&self, alloc: Global, id: &JobId, reads: &PlanReads) -> Result<PlanOutcome, NoMemory> {
        match *id {
            JobId::Tree => self.run_tree(alloc, reads),
            JobId::Header => self.run_header(alloc, reads),
            JobId::Index => self.run_index(alloc, reads),
            JobId::Raw(glyph) => self.run_raw(alloc, glyph, reads),
            JobId::Flat(glyph) => self.run_flat(alloc, glyph, reads),
            JobId::Simple(glyph) => self.run_simple(alloc, glyph, reads),
            JobId::Composite(glyph) => self.run_composite(alloc, glyph, reads),
            JobId::Variations(glyph) => self.run_variations(alloc, glyph, reads),
            JobId::Order => self.run_order(alloc, reads),
            JobId::Advances => self.run_advances(alloc, reads),
            JobId::Table(tag) => self.run_table(alloc, tag, reads),
            JobId::Font => self.run_font(alloc, reads),
            // No job adds these yet.
            JobId::FeatureParse
            | JobId::Kern
            | JobId::Marks
            | JobId::Rules
            | JobId::Lookup(_)
            | JobId::Store => Ok(blocked(alloc)),
        }
    }

    ghost lawful = { λ source. lawful (parts source) };
}

impl Solved for FontPlan {
    ghost spec_of = { λ source. spec_of (parts source) same_id };

    ghost is_there = { λ source. There (parts source) same_id };

    ghost value_of = { λ source. value_of (parts source) same_id };

    ghost solution = { λ source. solved_by (parts source) };
}
