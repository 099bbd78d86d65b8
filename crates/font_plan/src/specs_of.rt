//! The jobs of a source: what each reads, and which each adds.

ghost use Rattle.std.specs.Prelude.{◌≡◌, ◌++◌, [], map, OnOk, IfOk};
ghost use Rattle.font_tables.specs.Tags.{group_of};
ghost use Rattle.font_tables.specs.declared.tags.TheConstants.{TABLE_TAGS};
ghost use Rattle.font_graph.specs.Kinds.{awaited_by};
ghost use Rattle.font_graph.specs.Graph.{needed, varied_of, of_glyph, of_bases, spec_with};
ghost use Rattle.font_graph.specs.Graph.{after_index, after_raw, after_flat, after_order, plan};
ghost use Rattle.font_graph.specs.Same.{same_id};
ghost use Rattle.font_graph.specs.declared.ids.JobId.TheVariants as job;
ghost use Rattle.font_plan.specs.Jobs.{parts, needs_in};
ghost use Rattle.font_plan.specs.Reading.{exported_alone, of_outlines, of_all};

use access_context::{Access, Spec};
use font_graph::JobId;
use font_ir::Tag;
use font_tables::{TABLE_TAGS, TableGroup, group_of};
use plain_lists::Sequence;
use refusal_codes::NoMemory;
use std::alloc::Global;

/// The job with this id, where it reads these items.
fn spec(id: JobId, reads: Vec<JobId>) -> Spec<JobId>
    ensures { result
        ≡ record { id = id; access = record { reads = reads.items; awaits = awaited_by id } } }
{
    Spec {
        id,
        access: Access {
            reads: Sequence::from_vec(reads),
            awaits: id.awaits(),
        },
    }
}

/// The same of few items.
fn small(alloc: Global, id: JobId, reads: &[JobId]) -> Result<Spec<JobId>, NoMemory>
    ensures { IfOk result (λ s. s
        ≡ record { id = id; access = record { reads = reads.now; awaits = awaited_by id } }) }
{
    Ok(spec(id, Vec::from_slice(alloc, reads)?))
}

/// Adds the flat glyphs with these numbers.
fn push_flats(reads: &mut Vec<JobId>, glyphs: &[u32]) -> Result<(), NoMemory>
    ensures { OnOk result (reads.new.items ≡ reads.old.items ++ map job.Flat glyphs.now) }
{
    for glyph in glyphs {
        reads.push(JobId::Flat(*glyph))?;
    }
    Ok(())
}

/// Adds the variations of the glyphs with these numbers.
fn push_variations(reads: &mut Vec<JobId>, glyphs: &[u32]) -> Result<(), NoMemory>
    ensures { OnOk result (reads.new.items ≡ reads.old.items ++ map job.Variations glyphs.now) }
{
    for glyph in glyphs {
        reads.push(JobId::Variations(*glyph))?;
    }
    Ok(())
}

/// Adds what a table of this group needs.
fn push_needed(
    reads: &mut Vec<JobId>,
    group: Option<TableGroup>,
    outlines: &[JobId],
    varied: &[u32],
) -> Result<(), NoMemory>
    ensures { OnOk result (reads.new.items ≡ reads.old.items
        ++ needed outlines.now varied.now (needs_in group)) }
{
    match group {
        Some(TableGroup::Codes) => reads.push(JobId::Index)?,
        Some(TableGroup::Metrics) => reads.push(JobId::Advances)?,
        Some(TableGroup::CodeMetrics) => {
            reads.push(JobId::Advances)?;
            reads.push(JobId::Index)?;
        }
        Some(TableGroup::Outlines) => reads.extend_from_slice(outlines)?,
        Some(TableGroup::Variations) => push_variations(reads, varied)?,
        Some(TableGroup::Plain) | Some(TableGroup::Style) | None => {}
    }
    Ok(())
}

/// The job of the font's order.
fn order(alloc: Global, glyphs: &[u32]) -> Result<Spec<JobId>, NoMemory>
    ensures { IfOk result (λ s. s ≡ spec_with (parts []) same_id
        (exported_alone glyphs.now) job.Order) }
{
    let mut reads = Vec::from_slice(alloc, &[JobId::Header, JobId::Index])?;
    push_flats(&mut reads, glyphs)?;
    Ok(spec(JobId::Order, reads))
}

/// The job that measures the glyphs.
fn advances(alloc: Global, glyphs: &[u32]) -> Result<Spec<JobId>, NoMemory>
    ensures { IfOk result (λ s. s ≡ spec_with (parts []) same_id
        (exported_alone glyphs.now) job.Advances) }
{
    let mut reads = Vec::from_slice(alloc, &[JobId::Header, JobId::Order])?;
    push_flats(&mut reads, glyphs)?;
    Ok(spec(JobId::Advances, reads))
}

/// The job of a table.
fn table(
    alloc: Global,
    outlines: &[JobId],
    varied: &[u32],
    tag: Tag,
) -> Result<Spec<JobId>, NoMemory>
    ensures { IfOk result (λ s. s ≡ spec_with (parts []) same_id
        (of_outlines outlines.now varied.now) (job.Table tag)) }
{
    let mut reads = Vec::from_slice(alloc, &[JobId::Header, JobId::Order])?;
    push_needed(&mut reads, group_of(tag), outlines, varied)?;
    Ok(spec(JobId::Table(tag), reads))
}

/// The job of the font.
fn font(alloc: Global) -> Result<Spec<JobId>, NoMemory>
    ensures { IfOk result (λ s. s ≡ spec_with (parts []) same_id
        (of_glyph (parts []) same_id) job.Font) }
{
    let mut reads = Vec::with_capacity(alloc, TABLE_TAGS.len())?;
    for tag in TABLE_TAGS {
        reads.push(JobId::Table(tag))?;
    }
    Ok(spec(JobId::Font, reads))
}

/// The job that reads a glyph.
pub fn raw(alloc: Global, glyph: u32) -> Result<Spec<JobId>, NoMemory>
    ensures { IfOk result (λ s. s ≡ spec_with (parts []) same_id
        (of_glyph (parts []) same_id) (job.Raw glyph)) }
{
    small(
        alloc,
        JobId::Raw(glyph),
        &[JobId::Tree, JobId::Header, JobId::Index],
    )
}

/// The job that draws a glyph with these bases.
pub fn flat(alloc: Global, bases: &[u32], glyph: u32) -> Result<Spec<JobId>, NoMemory>
    ensures { IfOk result (λ s. s ≡ spec_with (parts []) same_id
        (of_bases (parts []) same_id bases.now) (job.Flat glyph)) }
{
    let mut reads = Vec::from_slice(alloc, &[JobId::Raw(glyph), JobId::Index])?;
    push_flats(&mut reads, bases)?;
    Ok(spec(JobId::Flat(glyph), reads))
}

/// The job that writes a simple glyph's data.
pub fn simple(alloc: Global, glyph: u32) -> Result<Spec<JobId>, NoMemory>
    ensures { IfOk result (λ s. s ≡ spec_with (parts []) same_id
        (of_glyph (parts []) same_id) (job.Simple glyph)) }
{
    small(
        alloc,
        JobId::Simple(glyph),
        &[JobId::Header, JobId::Flat(glyph)],
    )
}

/// The job that writes a composite's data.
pub fn composite(alloc: Global, glyph: u32) -> Result<Spec<JobId>, NoMemory>
    ensures { IfOk result (λ s. s ≡ spec_with (parts []) same_id
        (of_glyph (parts []) same_id) (job.Composite glyph)) }
{
    small(
        alloc,
        JobId::Composite(glyph),
        &[JobId::Header, JobId::Order, JobId::Flat(glyph)],
    )
}

/// The job that writes how a glyph's points change over the design space.
pub fn variations(alloc: Global, glyph: u32) -> Result<Spec<JobId>, NoMemory>
    ensures { IfOk result (λ s. s ≡ spec_with (parts []) same_id
        (of_glyph (parts []) same_id) (job.Variations glyph)) }
{
    small(
        alloc,
        JobId::Variations(glyph),
        &[JobId::Header, JobId::Index, JobId::Flat(glyph)],
    )
}

/// The jobs that are there from the start.
pub fn opening(alloc: Global) -> Result<Vec<Spec<JobId>>, NoMemory>
    ensures { IfOk result (λ jobs. jobs.items ≡ (plan (parts []) same_id).opening) }
{
    let mut jobs = Vec::with_capacity(alloc, 3)?;
    jobs.push(small(alloc, JobId::Tree, &[])?)?;
    jobs.push(small(alloc, JobId::Header, &[JobId::Tree])?)?;
    jobs.push(small(alloc, JobId::Index, &[JobId::Tree])?)?;
    Ok(jobs)
}

/// The jobs that the index adds: those that read the exported glyphs, and the order's.
pub fn after_index(alloc: Global, glyphs: &[u32]) -> Result<Vec<Spec<JobId>>, NoMemory>
    ensures { IfOk result (λ jobs. jobs.items ≡ after_index (parts []) same_id
        (exported_alone glyphs.now)) }
{
    let mut jobs = Vec::new(alloc);
    push_raws(alloc, &mut jobs, glyphs)?;
    jobs.push(order(alloc, glyphs)?)?;
    Ok(jobs)
}

/// Adds the jobs that read these glyphs.
fn push_raws(alloc: Global, jobs: &mut Vec<Spec<JobId>>, glyphs: &[u32]) -> Result<(), NoMemory>
    ensures { OnOk result (jobs.new.items ≡ jobs.old.items
        ++ map (λ glyph. spec_with (parts []) same_id
        (of_glyph (parts []) same_id) (job.Raw glyph)) glyphs.now) }
{
    for glyph in glyphs {
        jobs.push(raw(alloc, *glyph)?)?;
    }
    Ok(())
}

/// The jobs that a glyph that is read adds: the one that draws it, those that read its bases, and
/// where it varies the one of its variations.
pub fn after_raw(
    alloc: Global,
    varies: bool,
    bases: &[u32],
    glyph: u32,
) -> Result<Vec<Spec<JobId>>, NoMemory>
    ensures { IfOk result (λ jobs. jobs.items
        ≡ after_raw (parts []) same_id varies bases.now glyph) }
{
    let mut jobs = Vec::new(alloc);
    jobs.push(flat(alloc, bases, glyph)?)?;
    push_raws(alloc, &mut jobs, bases)?;
    if varies {
        jobs.push(variations(alloc, glyph)?)?;
    }
    Ok(jobs)
}

/// The job that a glyph that is drawn adds where it goes into the font: that of its data.
pub fn after_flat(
    alloc: Global,
    exported: bool,
    composite: bool,
    glyph: u32,
) -> Result<Vec<Spec<JobId>>, NoMemory>
    ensures { IfOk result (λ jobs. jobs.items
        ≡ after_flat (parts []) same_id exported composite glyph) }
{
    let mut jobs = Vec::new(alloc);
    if exported {
        let data = if composite {
            self::composite(alloc, glyph)?
        } else {
            simple(alloc, glyph)?
        };
        jobs.push(data)?;
    }
    Ok(jobs)
}

/// The jobs that the order adds: what measures the glyphs, the font, and its tables. `outlines`
/// are the jobs of its glyphs' data in `glyf`.
pub fn after_order(
    alloc: Global,
    glyphs: &[u32],
    varies: bool,
    outlines: &[JobId],
) -> Result<Vec<Spec<JobId>>, NoMemory>
    ensures { IfOk result (λ jobs. jobs.items ≡ after_order (parts []) same_id
        (of_all glyphs.now (varied_of varies glyphs.now) outlines.now)) }
{
    let varied = if varies { glyphs } else { &[] };
    let mut jobs = Vec::new(alloc);
    jobs.push(advances(alloc, glyphs)?)?;
    jobs.push(font(alloc)?)?;
    push_tables(alloc, &mut jobs, outlines, varied)?;
    Ok(jobs)
}

/// Adds the jobs of the tables.
fn push_tables(
    alloc: Global,
    jobs: &mut Vec<Spec<JobId>>,
    outlines: &[JobId],
    varied: &[u32],
) -> Result<(), NoMemory>
    ensures { OnOk result (jobs.new.items ≡ jobs.old.items
        ++ map (λ tag. spec_with (parts []) same_id
        (of_outlines outlines.now varied.now) (job.Table tag)) TABLE_TAGS) }
{
    for tag in TABLE_TAGS {
        jobs.push(table(alloc, outlines, varied, tag)?)?;
    }
    Ok(())
}
