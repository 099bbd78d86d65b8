//! The verdict on a source, as a board over it tells it.

ghost use Rattle.std.specs.Prelude.{◌≡◌, [], Some, IsSome, option_map, IfOk};
ghost use Rattle.std.specs.List.{flat_map};
ghost use Rattle.std.specs.Arc.{arc_value};
ghost use Rattle.refusal_codes.specs.Gives.{Compiles};
ghost use Rattle.font_graph.specs.Ended.{told, told_of};
ghost use Rattle.font_graph.specs.Graph.{as_raw, as_index};
ghost use Rattle.font_graph.specs.Verdicts.{least, refusals, ended_as, endless_of};
ghost use Rattle.font_graph.specs.declared.ids.JobId.TheVariants as job;
ghost use Rattle.font_graph.specs.declared.items.Item.TheVariants as an;
ghost use Rattle.font_plan.specs.Alone.{HasEnded};
ghost use Rattle.font_plan.specs.Bases.{endless_in};
ghost use Rattle.font_plan.specs.Jobs.{parts};
ghost use Rattle.font_plan.specs.Settling.{AnItem};
ghost use Rattle.font_plan.specs.Telling.{font_item, ended_font_item, IsFont};
ghost use Rattle.font_plan.specs.Telling.{at_most_one, lesser_of};

use crate::items::Item;
use crate::known::Known;
use crate::plan::FontPlan;
use access_context::Settled;
use font_graph::JobId;
use font_ir::GlyphIr;
use glyphs_source::GlyphIndex;
use job_graph::{Board, Event, ended_history_is_complete};
use plain_lists::Text;
use refusal_codes::{CompileError, Failure, NoMemory, Refusal, Rule, job};
use std::alloc::Global;
use std::sync::Arc;

/// What has become of the source of a board that has ended: its font, as an item; or the least
/// refusal of all its jobs. Refusals are ordered by stratum, kind, name, rule and place.
///
/// # Errors
///
/// `Refused` exactly where a job is refused. `NoMemory` comes only where an allocation fails.
pub fn verdict(alloc: Global, board: &Board<FontPlan>) -> Result<Arc<Item>, CompileError>
    requires { HasEnded board.now }
    ensures { Compiles {Y = AnItem} (λ item. arc_value item) result (font_item board.now.plan) }
{
    let refused = least_refused(alloc, board)?;
    if let Some(refusal) = refused {
        return Err(CompileError::Refused(refusal));
    }
    Ok(Arc::try_clone(font_in(board))?)
}

/// The item of the font, where that was made.
fn font_in(board: &Board<FontPlan>) -> &Arc<Item>
    requires ended { HasEnded board.now }
    requires made { IsSome (ended_font_item board.now.plan) }
    ensures { ended_font_item board.now.plan ≡ Some (arc_value result.now) }
{
    match board.get(&JobId::Font) {
        Some(Settled::Done(item)) => item,
        _ => unreachable!(),
    }
}

/// The bytes of a font that is an item.
pub fn font_bytes(alloc: Global, item: &Item) -> Result<Vec<u8>, NoMemory>
    requires { IsFont item.now }
    ensures { IfOk result (λ bytes. item.now ≡ an.Font bytes.items) }
{
    match item {
        Item::Font(font) => Ok(Vec::from_slice(alloc, font.as_slice())?),
        _ => unreachable!(),
    }
}

/// The least refusal of the jobs of a board that has ended.
fn least_refused(alloc: Global, board: &Board<FontPlan>) -> Result<Option<Refusal>, NoMemory>
    requires { HasEnded board.now }
    ensures { IfOk result (λ least_of. least_of ≡ least (refusals (parts board.now.plan))) }
{
    ended_history_is_complete(board.plan());
    least_told(alloc, board, board.events())
}

/// The least refusal that events of such a board tell.
fn least_told(
    alloc: Global,
    board: &Board<FontPlan>,
    events: &[Event<JobId>],
) -> Result<Option<Refusal>, NoMemory>
    requires { HasEnded board.now }
    ensures { IfOk result (λ least_of. least_of
        ≡ least (flat_map (told (parts board.now.plan)) events.now)) }
{
    let mut least = None;
    for event in events {
        let found = refusal_of_event(alloc, board, event)?;
        least = lesser(found, least);
    }
    Ok(least)
}

/// The refusal that the job tells which an event finishes: its own; or of a glyph that was read,
/// and whose contours were never drawn, the one for that.
fn refusal_of_event(
    alloc: Global,
    board: &Board<FontPlan>,
    event: &Event<JobId>,
) -> Result<Option<Refusal>, NoMemory>
    requires { HasEnded board.now }
    ensures { IfOk result (λ refusal. at_most_one refusal ≡ told (parts board.now.plan) event.now) }
{
    match event {
        Event::Finish(_, id) => refusal_of_job(alloc, board, id),
        Event::Claim(..) | Event::Halt(_) => Ok(None),
    }
}

/// The same of a job.
fn refusal_of_job(
    alloc: Global,
    board: &Board<FontPlan>,
    id: &JobId,
) -> Result<Option<Refusal>, NoMemory>
    requires { HasEnded board.now }
    ensures { IfOk result (λ refusal. at_most_one refusal
        ≡ told_of (parts board.now.plan) id.now) }
{
    if let Some(Settled::Refused(refusal)) = board.get(id) {
        return Ok(Some(refusal.copy(alloc)?));
    }
    match id {
        JobId::Raw(glyph) => endless(alloc, board, *glyph),
        _ => Ok(None),
    }
}

/// The refusal of a glyph that was read, and whose contours were never drawn.
fn endless(alloc: Global, board: &Board<FontPlan>, glyph: u32) -> Result<Option<Refusal>, NoMemory>
    requires { HasEnded board.now }
    ensures { IfOk result (λ refusal. at_most_one refusal
        ≡ endless_of (parts board.now.plan) glyph) }
{
    if board.get(&JobId::Flat(glyph)).is_some() {
        return Ok(None);
    }
    match (raw_on(board, glyph), index_on(board)) {
        (Some(raw), Some(index)) => Ok(Some(component_cycle(alloc, raw.get(), index.get())?)),
        _ => Ok(None),
    }
}

/// The glyph with this number as it was read, where it was.
fn raw_on(board: &Board<FontPlan>, glyph: u32) -> Option<&Known<GlyphIr>>
    requires { HasEnded board.now }
    ensures { option_map (λ raw. raw.now) result
        ≡ ended_as (parts board.now.plan) (as_raw (parts [])) (job.Raw glyph) }
{
    match board.get(&JobId::Raw(glyph)) {
        Some(Settled::Done(item)) => match &**item {
            Item::Raw(raw) => Some(raw),
            _ => None,
        },
        _ => None,
    }
}

/// The source's index of glyphs, where it was read.
fn index_on(board: &Board<FontPlan>) -> Option<&Known<GlyphIndex>>
    requires { HasEnded board.now }
    ensures { option_map (λ index. index.now) result
        ≡ ended_as (parts board.now.plan) (as_index (parts [])) job.Index }
{
    match board.get(&JobId::Index) {
        Some(Settled::Done(item)) => match &**item {
            Item::Index(index) => Some(index),
            _ => None,
        },
        _ => None,
    }
}

/// The refusal of a glyph whose components lead to a cycle.
fn component_cycle(alloc: Global, glyph: &GlyphIr, index: &GlyphIndex) -> Result<Refusal, NoMemory>
    ensures { IfOk result (λ refusal. refusal ≡ endless_in glyph.now index.now) }
{
    let failure = Failure {
        rule: Rule::ComponentCycle,
        place: glyph.place,
    };
    let name = match index.at(glyph.number) {
        Some((name, _)) => name.copy(alloc)?,
        None => Text::new(alloc),
    };
    Ok(failure.refusal(job::FLAT, name))
}

/// The lesser of two refusals, where they are there.
fn lesser(found: Option<Refusal>, least: Option<Refusal>) -> Option<Refusal>
    ensures { result ≡ lesser_of found least }
{
    match (found, least) {
        (None, least) => least,
        (Some(found), None) => Some(found),
        (Some(found), Some(least)) => {
            if found.cmp(&least).is_gt() {
                Some(least)
            } else {
                Some(found)
            }
        }
    }
}
