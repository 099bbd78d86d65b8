//! How the advance widths of a font's glyphs change over its design space.

ghost use Rattle.std.specs.Prelude.{◌≡◌, ◌+◌, ◌<◌, ◌≤◌, length, map, take, drop, pos, replicate};
ghost use Rattle.std.specs.Prelude.{Some, IfOk, OnOk};
ghost use Rattle.std.specs.List.{All};
ghost use Rattle.font_ir.specs.FlatGlyphs.{glyphs_of, IsFlatGlyph};
ghost use Rattle.font_ir.specs.Headers.{IsHeader};
ghost use Rattle.font_ir.specs.Places.{axis_count};
ghost use Rattle.variation_model.specs.Deltas.{GivesDeltas};
ghost use Rattle.variation_model.specs.Supports.{supports_of};
ghost use Rattle.metrics_tables.specs.Changes as spec;
ghost use Rattle.metrics_tables.specs.Changes.{BeginsWithMasters, advance_deltas, first_of};
ghost use Rattle.metrics_tables.specs.Changes.{in_16_16, large_from, large_of, with_changes};
ghost use Rattle.metrics_tables.specs.RegionIndexes.{AreTold, GivesAllChanges, GivesChanges};
ghost use Rattle.metrics_tables.specs.RegionIndexes.{GivesRows, HasSides, IsIndexed, IsWithin};
ghost use Rattle.metrics_tables.specs.RegionIndexes.{changes_at, IsToldOneMore, row_by, row_with};

use crate::measures::MeasureError;
use crate::region_index::RegionIndex;
use fixed_math::Fixed;
use font_ir::{FlatGlyph, Header, Region, locations_of, made_notdef_is_flat};
use plain_lists::Sequence;
use refusal_codes::{NoMemory, limits};
use std::alloc::Global;
use std::sync::Arc;
use variation_model::{DeltaError, Model};

/// By how much an advance width changes at the region of this place among the font's regions.
#[derive(Clone, Copy)]
pub struct PlacedDelta {
    pub place: usize,
    pub delta: i16,
}

/// A glyph's first delta that an `i16` doesn't hold.
#[derive(Clone, Copy)]
pub struct LargeDelta {
    /// The glyph's place in the source's list of glyphs.
    pub number: u32,
    /// The glyph's number in the font.
    pub gid: u16,
    pub value: i64,
}

/// A glyph's advance widths in 16.16.
fn widths_of(alloc: Global, glyph: &FlatGlyph) -> Result<Vec<Fixed>, NoMemory>
    requires { IsFlatGlyph glyph.now }
    ensures { IfOk result (λ widths. widths.items ≡ map in_16_16 glyph.now.widths) }
{
    let mut widths = Vec::with_capacity(alloc, glyph.widths.len())?;
    let numbers = glyph.widths.as_slice();
    for width in numbers {
        widths.push(Fixed(*width * 65536))?;
    }
    Ok(widths)
}

/// The deltas of a glyph's advance width, by the model of its places.
fn deltas_by(alloc: Global, model: &Model, glyph: &FlatGlyph) -> Result<Vec<i16>, DeltaError>
    requires model { model.now ≡ glyph.now.places }
    requires flat { IsFlatGlyph glyph.now }
    ensures deltas { GivesDeltas result (advance_deltas glyph.now) }
    ensures as_many { IfOk result (λ deltas. length deltas.items ≡ length model.now) }
{
    let widths = widths_of(alloc, glyph)?;
    model.deltas(alloc, widths.as_slice())
}

/// The changes at supports at which the delta isn't zero, whose regions are put into the index.
fn add_changes(
    alloc: Global,
    index: &mut RegionIndex,
    supports: &[Region],
    deltas: &[i16],
) -> Result<Vec<PlacedDelta>, NoMemory>
    requires index { IsIndexed index.old }
    requires sides { All (HasSides index.old.axes) supports.now }
    requires one_each { length deltas.now ≡ length supports.now }
    ensures index { OnOk result (IsIndexed index.new) }
    ensures axes { OnOk result (index.new.axes ≡ index.old.axes) }
    ensures regions { OnOk result (index.new.regions.items
        ≡ with_changes index.old.regions.items (spec.changes_over supports.now deltas.now)) }
    ensures changes { IfOk result (λ placed. AreTold index.new.regions.items placed.items
        (spec.changes_over supports.now deltas.now)) }
{
    let mut changes = Vec::new(alloc);
    for (k, region) in supports.iter().enumerate() {
        add_change(alloc, index, &mut changes, region, deltas[k])?;
    }
    Ok(changes)
}

/// A change at a region behind the others, where the delta isn't zero. The region is put into the
/// index.
fn add_change(
    alloc: Global,
    index: &mut RegionIndex,
    changes: &mut Vec<PlacedDelta>,
    region: &Region,
    delta: i16,
) -> Result<(), NoMemory>
    requires index { IsIndexed index.old }
    requires sides { HasSides index.old.axes region.now }
    ensures index { OnOk result (IsIndexed index.new) }
    ensures axes { OnOk result (index.new.axes ≡ index.old.axes) }
    ensures regions { OnOk result (index.new.regions.items
        ≡ with_changes index.old.regions.items (changes_at region.now delta)) }
    ensures changes { OnOk result (IsToldOneMore index.old.regions.items changes.old.items
        index.new.regions.items changes.new.items (changes_at region.now delta)) }
{
    if delta != 0 {
        let place = index.add(alloc, region)?;
        changes.push(PlacedDelta { place, delta })?;
    }
    Ok(())
}

/// A glyph's changes, by the model of its places.
fn changes_by(
    alloc: Global,
    index: &mut RegionIndex,
    model: &Model,
    glyph: &FlatGlyph,
) -> Result<Vec<PlacedDelta>, DeltaError>
    requires index { IsIndexed index.old }
    requires axes { axis_count glyph.now.places ≡ index.old.axes }
    requires model { model.now ≡ glyph.now.places }
    requires flat { IsFlatGlyph glyph.now }
    ensures index { OnOk result (IsIndexed index.new) }
    ensures axes { OnOk result (index.new.axes ≡ index.old.axes) }
    ensures changes { GivesChanges result index.old.regions.items index.new.regions.items
        glyph.now }
{
    let deltas = deltas_by(alloc, model, glyph)?;
    let supports = model.supports();
    Ok(add_changes(alloc, index, &supports[1..], &deltas.as_slice()[1..])?)
}

/// A glyph's changes. The model of the masters serves a glyph that has no places but theirs.
fn changes_of(
    alloc: Global,
    index: &mut RegionIndex,
    masters: &Model,
    glyph: &FlatGlyph,
) -> Result<Vec<PlacedDelta>, DeltaError>
    requires index { IsIndexed index.old }
    requires axes { axis_count masters.now ≡ index.old.axes }
    requires some { 0 < length masters.now }
    requires flat { IsFlatGlyph glyph.now }
    requires places { take (length masters.now) glyph.now.places ≡ masters.now }
    ensures index { OnOk result (IsIndexed index.new) }
    ensures axes { OnOk result (index.new.axes ≡ index.old.axes) }
    ensures changes { GivesChanges result index.old.regions.items index.new.regions.items
        glyph.now }
{
    if glyph.places.len() == masters.supports().len() {
        return changes_by(alloc, index, masters, glyph);
    }
    let model = Model::new(alloc, glyph.places.as_slice())?;
    changes_by(alloc, index, &model, glyph)
}

/// A glyph's first delta that an `i16` doesn't hold.
fn large_of(alloc: Global, gid: u16, glyph: &FlatGlyph) -> Result<Option<LargeDelta>, NoMemory>
    requires { IsFlatGlyph glyph.now }
    ensures { IfOk result (λ large. large ≡ large_of gid glyph.now) }
{
    let model = Model::new(alloc, glyph.places.as_slice())?;
    match deltas_by(alloc, &model, glyph) {
        Ok(_) => Ok(None),
        Err(DeltaError::TooLarge { at: _, value }) => Ok(Some(LargeDelta {
            number: glyph.number,
            gid,
            value,
        })),
        Err(DeltaError::NoMemory) => Err(NoMemory),
    }
}

/// Of a large delta and that of a glyph behind it, the one whose glyph stands first in the source.
#[tactic(auto, using(crate::proofs::LargeLemmas::stays, crate::proofs::LargeLemmas::gives_way))]
fn first_of_two(
    alloc: Global,
    found: LargeDelta,
    gid: u16,
    glyph: &FlatGlyph,
) -> Result<LargeDelta, NoMemory>
    requires { IsFlatGlyph glyph.now }
    ensures { IfOk result (λ first. Some first ≡ first_of (Some found) (large_of gid glyph.now)) }
{
    if found.number <= glyph.number {
        return Ok(found);
    }
    Ok(large_of(alloc, gid, glyph)?.unwrap_or(found))
}

/// Of a large delta and those of the glyphs behind it, the one whose glyph stands first in the
/// source.
fn first_in_source(
    alloc: Global,
    glyphs: &[Arc<FlatGlyph>],
    found: LargeDelta,
) -> Result<LargeDelta, NoMemory>
    requires few { length glyphs.now ≤ 65535 }
    requires there { found.gid < length glyphs.now }
    requires flat { All (λ glyph. IsFlatGlyph glyph.value) glyphs.now }
    ensures { IfOk result (λ first. Some first ≡ first_of (Some found)
        (large_from (found.gid + 1) (glyphs_of (drop (found.gid + 1) glyphs.now)))) }
{
    let mut first = found;
    for gid in found.gid + 1..glyphs.len() as u16 {
        first = first_of_two(alloc, first, gid, &glyphs[usize::from(gid)])?;
    }
    Ok(first)
}

/// The changes of each glyph. Their regions are put into the index.
fn all_changes(
    alloc: Global,
    index: &mut RegionIndex,
    masters: &Model,
    glyphs: &[Arc<FlatGlyph>],
) -> Result<Vec<Sequence<PlacedDelta>>, MeasureError>
    requires index { IsIndexed index.old }
    requires axes { axis_count masters.now ≡ index.old.axes }
    requires some { 0 < length masters.now }
    requires few { length glyphs.now ≤ 65535 }
    requires flat { All (λ glyph. IsFlatGlyph glyph.value) glyphs.now }
    requires places { All (λ glyph. take (length masters.now) glyph.value.places ≡ masters.now)
        glyphs.now }
    ensures index { OnOk result (IsIndexed index.new) }
    ensures axes { OnOk result (index.new.axes ≡ index.old.axes) }
    ensures changes { GivesAllChanges result index.old.regions.items index.new.regions.items
        (glyphs_of glyphs.now) }
{
    let mut all = Vec::with_capacity(alloc, glyphs.len())?;
    for (gid, glyph) in glyphs.iter().enumerate() {
        match changes_of(alloc, index, masters, glyph) {
            Ok(changes) => all.push(Sequence::from_vec(changes))?,
            Err(DeltaError::TooLarge { at: _, value }) => {
                let found = LargeDelta {
                    number: glyph.number,
                    gid: gid as u16,
                    value,
                };
                let LargeDelta { gid, value, .. } = first_in_source(alloc, glyphs, found)?;
                return Err(MeasureError::TooLarge { gid, value });
            }
            Err(DeltaError::NoMemory) => return Err(MeasureError::NoMemory),
        }
    }
    Ok(all)
}

/// A glyph's row over so many regions: its deltas, and 0 at every other region.
fn row_of(alloc: Global, count: usize, changes: &[PlacedDelta]) -> Result<Sequence<i16>, NoMemory>
    requires { All (IsWithin count) changes.now }
    ensures { IfOk result (λ row. row ≡ row_by count changes.now) }
{
    let mut row = zeros(alloc, count)?;
    put_deltas(row.as_mut_slice(), changes);
    Ok(Sequence::from_vec(row))
}

/// So many zeros.
fn zeros(alloc: Global, count: usize) -> Result<Vec<i16>, NoMemory>
    ensures { IfOk result (λ row. row.items ≡ replicate count (pos 0)) }
{
    let mut row = Vec::with_capacity(alloc, count)?;
    for _region in 0..count {
        row.push(0)?;
    }
    Ok(row)
}

/// Writes deltas at their places.
fn put_deltas(row: &mut [i16], changes: &[PlacedDelta])
    requires { All (IsWithin (length row.old)) changes.now }
    ensures { row.new ≡ row_with row.old changes.now }
{
    for change in changes {
        row[change.place] = change.delta;
    }
}

/// Each glyph's row.
fn all_rows(
    alloc: Global,
    count: usize,
    all: &[Sequence<PlacedDelta>],
) -> Result<Vec<Sequence<i16>>, NoMemory>
    requires { All (All (IsWithin count)) all.now }
    ensures { IfOk result (λ rows. rows.items ≡ map (row_by count) all.now) }
{
    let mut rows = Vec::with_capacity(alloc, all.len())?;
    for changes in all {
        rows.push(row_of(alloc, count, changes.as_slice())?)?;
    }
    Ok(rows)
}

/// The masters' regions behind the first, in an index.
fn master_regions(alloc: Global, axes: usize, masters: &Model) -> Result<RegionIndex, NoMemory>
    requires some { 0 < length masters.now }
    requires axes { axis_count masters.now ≡ axes }
    ensures index { IfOk result IsIndexed }
    ensures axes { IfOk result (λ index. index.axes ≡ axes) }
    ensures regions { IfOk result (λ index. index.regions.items
        ≡ drop 1 (supports_of masters.now)) }
{
    let mut index = RegionIndex::new(alloc, axes);
    let supports = masters.supports();
    index.add_all(alloc, &supports[1..])?;
    Ok(index)
}

/// The model of the masters' places.
fn masters_model(alloc: Global, header: &Header) -> Result<Model, NoMemory>
    requires { IsHeader header.now }
    ensures places { IfOk result (λ model. model ≡ spec.master_places header.now) }
    ensures axes { IfOk result (λ model. axis_count model ≡ length header.now.axes) }
{
    made_notdef_is_flat();
    let places = locations_of(alloc, header.masters.as_slice())?;
    Model::new(alloc, places.as_slice())
}

/// The masters' regions behind the first and the others in which advance widths change, and each
/// glyph's row of deltas over them.
pub fn regions_and_rows(
    alloc: Global,
    header: &Header,
    glyphs: &[Arc<FlatGlyph>],
) -> Result<(Vec<Region>, Vec<Sequence<i16>>), MeasureError>
    requires header { IsHeader header.now }
    requires few { length glyphs.now ≤ 65535 }
    requires flat { All IsFlatGlyph (glyphs_of glyphs.now) }
    requires places { All (BeginsWithMasters header.now) (glyphs_of glyphs.now) }
    ensures { GivesRows result header.now (glyphs_of glyphs.now) }
{
    let masters = masters_model(alloc, header)?;
    let mut index = master_regions(alloc, header.axes.len(), &masters)?;
    let all = all_changes(alloc, &mut index, &masters, glyphs)?;
    let count = index.regions.len();
    if count > limits::REGIONS {
        return Err(MeasureError::Regions(count as u64));
    }
    let rows = all_rows(alloc, count, all.as_slice())?;
    Ok((index.regions, rows))
}
