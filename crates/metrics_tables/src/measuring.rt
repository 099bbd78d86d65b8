ghost use Rattle.std.specs.Prelude.{◌≡◌, ◌≤◌, ◌<◌, length, map, max, unsigned_abs, IfOk};
ghost use Rattle.std.specs.List.{All};
ghost use Rattle.font_ir.specs.FlatGlyphs.{glyphs_of, IsFlatGlyph};
ghost use Rattle.font_ir.specs.Headers.{IsHeader};
ghost use Rattle.font_ir.specs.Outlines.{points_at, bounds_of};
ghost use Rattle.metrics_tables.specs.Changes.{BeginsWithMasters};
ghost use Rattle.metrics_tables.specs.Comparisons.{greatest_count};
ghost use Rattle.metrics_tables.specs.Hvar.{AreMeasuresFor};
ghost use Rattle.metrics_tables.specs.Measuring as spec;
ghost use Rattle.metrics_tables.specs.Measuring.{IsMeasurable, Measured};
ghost use Rattle.metrics_tables.specs.Measuring.{measured_of, width_at};
ghost use Rattle.metrics_tables.specs.Nesting.{bases_in, bases_of, greatest_depth};
ghost use Rattle.metrics_tables.specs.Nesting.{NoneLeadsToItself};
ghost use Rattle.metrics_tables.specs.Tables.{AreMeasures};
ghost use Rattle.metrics_tables.specs.Walks.{AreBases};

use crate::changes::regions_and_rows;
use crate::measures::{Maxima, MeasureError, Measures};
use crate::nesting::{all_bases, greatest_depth};
use crate::outline::{advance_at, bounds_at, contours_of, points_of};
use font_ir::{FlatGlyph, GlyphOrder, Header, Region};
use plain_lists::Sequence;
use refusal_codes::NoMemory;
use std::alloc::Global;
use std::sync::Arc;

/// The glyphs' advance widths at a place.
fn advances_of(alloc: Global, glyphs: &[Arc<FlatGlyph>], place: u32) -> Result<Vec<u16>, NoMemory>
    requires { All (λ glyph. IsMeasurable place glyph.value) glyphs.now }
    ensures { IfOk result (λ advances. advances.items
        ≡ map (λ glyph. unsigned_abs (width_at place glyph.value)) glyphs.now) }
{
    let mut advances = Vec::with_capacity(alloc, glyphs.len())?;
    for glyph in glyphs {
        advances.push(advance_at(glyph, place))?;
    }
    Ok(advances)
}

/// The glyphs' bounds at a place.
fn all_bounds(
    alloc: Global,
    glyphs: &[Arc<FlatGlyph>],
    place: u32,
) -> Result<Vec<Option<[i16; 4]>>, NoMemory>
    requires { All (λ glyph. IsMeasurable place glyph.value) glyphs.now }
    ensures { IfOk result (λ bounds. bounds.items
        ≡ map (λ glyph. bounds_of (points_at place glyph.value)) glyphs.now) }
{
    let mut bounds = Vec::with_capacity(alloc, glyphs.len())?;
    for glyph in glyphs {
        bounds.push(bounds_at(glyph, place))?;
    }
    Ok(bounds)
}

/// The counts of a glyph, without its depth.
fn counts_of(glyph: &FlatGlyph, place: u32) -> Maxima
    requires { IsMeasurable place glyph.now }
    ensures points { result.points ≡ spec.simple_points place glyph.now }
    ensures contours { result.contours ≡ spec.simple_contours place glyph.now }
    ensures composite_points { result.composite_points ≡ spec.composite_points place glyph.now }
    ensures composite_contours { result.composite_contours
        ≡ spec.composite_contours place glyph.now }
    ensures components { result.components ≡ length glyph.now.kept }
{
    let points = points_of(glyph, place);
    let contours = contours_of(glyph, place);
    let components = glyph.kept.len() as u16;
    if glyph.kept.is_empty() {
        Maxima {
            points,
            contours,
            composite_points: 0,
            composite_contours: 0,
            components,
            depth: 0,
        }
    } else {
        Maxima {
            points: 0,
            contours: 0,
            composite_points: points,
            composite_contours: contours,
            components,
            depth: 0,
        }
    }
}

/// The greater of each two counts, without the depth.
fn greater(a: Maxima, b: Maxima) -> Maxima
    ensures points { result.points ≡ max a.points b.points }
    ensures contours { result.contours ≡ max a.contours b.contours }
    ensures composite_points { result.composite_points
        ≡ max a.composite_points b.composite_points }
    ensures composite_contours { result.composite_contours
        ≡ max a.composite_contours b.composite_contours }
    ensures components { result.components ≡ max a.components b.components }
{
    Maxima {
        points: a.points.max(b.points),
        contours: a.contours.max(b.contours),
        composite_points: a.composite_points.max(b.composite_points),
        composite_contours: a.composite_contours.max(b.composite_contours),
        components: a.components.max(b.components),
        depth: 0,
    }
}

/// The greatest counts over all glyphs, without the depth.
fn greatest_counts(glyphs: &[Arc<FlatGlyph>], place: u32) -> Maxima
    requires { All (λ glyph. IsMeasurable place glyph.value) glyphs.now }
    ensures points { result.points
        ≡ greatest_count (map (λ glyph. spec.simple_points place glyph.value) glyphs.now) }
    ensures contours { result.contours
        ≡ greatest_count (map (λ glyph. spec.simple_contours place glyph.value) glyphs.now) }
    ensures composite_points { result.composite_points
        ≡ greatest_count (map (λ glyph. spec.composite_points place glyph.value) glyphs.now) }
    ensures composite_contours { result.composite_contours
        ≡ greatest_count (map (λ glyph. spec.composite_contours place glyph.value) glyphs.now) }
    ensures components { result.components
        ≡ greatest_count (map (λ glyph. length glyph.value.kept) glyphs.now) }
{
    let mut so_far = Maxima {
        points: 0,
        contours: 0,
        composite_points: 0,
        composite_contours: 0,
        components: 0,
        depth: 0,
    };
    for glyph in glyphs {
        so_far = greater(so_far, counts_of(glyph, place));
    }
    so_far
}

/// The greatest counts over all glyphs.
fn maxima_of(
    alloc: Global,
    order: &GlyphOrder,
    glyphs: &[Arc<FlatGlyph>],
    place: u32,
) -> Result<Maxima, NoMemory>
    requires glyphs { All (λ glyph. IsMeasurable place glyph.value) glyphs.now }
    requires one_glyph { length glyphs.now ≡ length order.now.names }
    requires nesting { NoneLeadsToItself (bases_in order.now.names (glyphs_of glyphs.now)) }
    ensures { IfOk result (λ maxima. maxima
        ≡ spec.maxima_of order.now.names (glyphs_of glyphs.now) place) }
{
    let _count = order.len();
    let bases = all_bases(alloc, order, glyphs)?;
    let depth = greatest_depth(alloc, bases.as_slice())?;
    let counts = greatest_counts(glyphs, place);
    Ok(Maxima { depth, ..counts })
}

/// The measures of glyphs at a place, with these regions and rows.
fn measures_at(
    alloc: Global,
    order: &GlyphOrder,
    glyphs: &[Arc<FlatGlyph>],
    place: u32,
    regions: Vec<Region>,
    rows: Vec<Sequence<i16>>,
) -> Result<Measures, NoMemory>
    requires glyphs { All (λ glyph. IsMeasurable place glyph.value) glyphs.now }
    requires one_glyph { length glyphs.now ≡ length order.now.names }
    requires nesting { NoneLeadsToItself (bases_in order.now.names (glyphs_of glyphs.now)) }
    ensures advances { IfOk result (λ measures. measures.advances
        ≡ map (λ glyph. unsigned_abs (width_at place glyph.value)) glyphs.now) }
    ensures bounds { IfOk result (λ measures. measures.bounds
        ≡ map (λ glyph. bounds_of (points_at place glyph.value)) glyphs.now) }
    ensures regions { IfOk result (λ measures. measures.regions ≡ regions.items) }
    ensures rows { IfOk result (λ measures. measures.rows ≡ rows.items) }
    ensures maxima { IfOk result (λ measures. measures.maxima
        ≡ spec.maxima_of order.now.names (glyphs_of glyphs.now) place) }
{
    let advances = advances_of(alloc, glyphs, place)?;
    let bounds = all_bounds(alloc, glyphs, place)?;
    let maxima = maxima_of(alloc, order, glyphs, place)?;
    Ok(Measures {
        advances: Sequence::from_vec(advances),
        bounds: Sequence::from_vec(bounds),
        regions: Sequence::from_vec(regions),
        rows: Sequence::from_vec(rows),
        maxima,
    })
}

/// Measures the glyphs of a font at its default master, and how their advance widths change over
/// its design space.
///
/// The glyphs stand in the order of their glyph numbers, one for each name of the order. The places
/// of each begin with those of the masters, and none leads to itself by its components, which are
/// found by their names.
///
/// It takes time for the glyphs' points and components, for the model of each glyph that has places
/// besides the masters', and for a row over all regions for each glyph.
///
/// # Errors
///
/// `TooLarge` exactly where a glyph's advance width has a delta outside an `i16`: of such glyphs the
/// one that stands first in the source, with its first such delta in the order of the model of its
/// places. `Regions` exactly where there are more than 1,024 regions and no such delta. `NoMemory`
/// where memory runs out.
pub fn measure(
    alloc: Global,
    header: &Header,
    order: &GlyphOrder,
    glyphs: &[Arc<FlatGlyph>],
) -> Result<Measures, MeasureError>
    requires header { IsHeader header.now }
    requires flat { All IsFlatGlyph (glyphs_of glyphs.now) }
    requires places { All (BeginsWithMasters header.now) (glyphs_of glyphs.now) }
    requires one_glyph { length glyphs.now ≡ length order.now.names }
    requires nesting { NoneLeadsToItself (bases_in order.now.names (glyphs_of glyphs.now)) }
    ensures measured { Measured result
        (measured_of header.now order.now.names (glyphs_of glyphs.now)) }
    ensures measures { IfOk result AreMeasures }
    ensures for_header { IfOk result (AreMeasuresFor header.now) }
{
    let _count = order.len();
    let (regions, rows) = regions_and_rows(alloc, header, glyphs)?;
    Ok(measures_at(alloc, order, glyphs, header.origin, regions, rows)?)
}
