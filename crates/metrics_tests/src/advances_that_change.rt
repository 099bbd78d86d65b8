ghost use Rattle.std.specs.Prelude.{◌≡◌, ◌<◌, pos, ◌<ℤ◌, ◌≤ℤ◌, [], ◌∷◌, length, map, IfOk, OnOk};
ghost use Rattle.std.specs.List.{All};
ghost use Rattle.fixtures.specs.Families.{ends};
ghost use Rattle.font_ir.specs.Headers.{IsHeader};
ghost use Rattle.metrics_tests.specs.Simple.{AreSimpleIn, IsSimpleIn};

use crate::metrics_that_change::CORNERS;
use fixed_math::{F2Dot14, Fixed};
use fixtures::{growing_header, moving_glyph};
use font_ir::{FlatGlyph, GlyphOrder, Header, Location, Region, made_notdef};
use glyphs_source::header;
use metrics_tables::{Maxima, MeasureError, Measures, measure};
use plain_lists::Sequence;
use plist_reader::read;
use refusal_codes::NoMemory;
use std::alloc::{AllocError, Global};
use std::sync::Arc;
use std::test::Fail;

/// A place on one axis.
fn on_one_axis(alloc: Global, x: i16) -> Result<Location, AllocError>
    ensures { IfOk result (λ place. place ≡ record { 0 = x } ∷ []) }
{
    Ok(Sequence::from_vec(vec![in alloc; F2Dot14(x)]?))
}

/// A triangle at the ends of an axis, where two masters lie, and at a place between them, with its
/// widths there.
fn between(
    alloc: Global,
    header: &Header,
    x: i16,
    widths: [i32; 3],
) -> Result<FlatGlyph, AllocError>
    requires low { pos 0 <ℤ x }
    requires high { x <ℤ pos 16384 }
    requires masters { map (λ master. master.location) header.now.masters ≡ ends }
    requires widths { All (λ width. (pos 0 ≤ℤ width) × (width ≤ℤ pos 32767)) widths }
    ensures { IfOk result (IsSimpleIn header.now) }
{
    let places = vec![in alloc;
        on_one_axis(alloc, 0)?,
        on_one_axis(alloc, 16_384)?,
        on_one_axis(alloc, x)?,
    ]?;
    let widths = Vec::from_slice(alloc, widths.as_slice())?;
    let top = Fixed(16_384_000);
    moving_glyph(alloc, places, widths, [top, top, top].as_slice())
}

/// A glyph without outlines, which stands here in the source, with its width at each master.
fn at_masters(
    alloc: Global,
    header: &Header,
    number: u32,
    widths: &[i32],
) -> Result<FlatGlyph, NoMemory>
    requires header { IsHeader header.now }
    requires one_each { length widths.now ≡ length header.now.masters }
    requires widths { All (λ width. (pos 0 ≤ℤ width) × (width ≤ℤ pos 32767)) widths.now }
    ensures { IfOk result (IsSimpleIn header.now) }
{
    let mut glyph = made_notdef(alloc, header)?;
    glyph.number = number;
    glyph.widths = Sequence::from_vec(Vec::from_slice(alloc, widths)?);
    Ok(glyph)
}

/// Puts a glyph behind others.
fn add(
    alloc: Global,
    header: &Header,
    glyphs: &mut Vec<Arc<FlatGlyph>>,
    glyph: FlatGlyph,
) -> Result<(), NoMemory>
    requires others { AreSimpleIn header.now glyphs.old.items }
    requires glyph { IsSimpleIn header.now glyph }
    ensures { OnOk result (AreSimpleIn header.now glyphs.new.items) }
{
    glyphs.push(Arc::new(alloc, glyph)?)?;
    Ok(())
}

/// An order of so many glyphs, each of which has a name of its own.
fn order_of(alloc: Global, count: u16) -> Result<GlyphOrder, NoMemory> {
    let mut order = GlyphOrder::new(alloc);
    for gid in 0..count {
        order.push(alloc, Some(u32::from(gid)), gid.to_be_bytes().as_slice())?;
    }
    Ok(order)
}

/// What is measured of glyphs, whatever their names.
fn measured(
    alloc: Global,
    header: &Header,
    glyphs: &[Arc<FlatGlyph>],
) -> Result<Measures, MeasureError>
    requires header { IsHeader header.now }
    requires glyphs { AreSimpleIn header.now glyphs.now }
{
    let Ok(count) = u16::try_from(glyphs.len()) else {
        return Err(MeasureError::NoMemory);
    };
    let order = order_of(alloc, count)?;
    if order.len() != glyphs.len() {
        return Err(MeasureError::NoMemory);
    }
    measure(alloc, header, &order, glyphs)
}

/// Whether this is measured of glyphs.
fn is_measured(
    alloc: Global,
    header: &Header,
    glyphs: &[Arc<FlatGlyph>],
    expected: &Measures,
) -> bool
    requires header { IsHeader header.now }
    requires glyphs { AreSimpleIn header.now glyphs.now }
{
    match measured(alloc, header, glyphs) {
        Ok(measures) => measures == *expected,
        Err(_) => false,
    }
}

/// A region, by its start, peak and end on each axis.
fn region(alloc: Global, sides: &[(i16, i16, i16)]) -> Result<Region, AllocError> {
    let mut all = Vec::with_capacity(alloc, sides.len())?;
    for (start, peak, end) in sides {
        all.push((F2Dot14(*start), F2Dot14(*peak), F2Dot14(*end)))?;
    }
    Ok(Region {
        sides: Sequence::from_vec(all),
    })
}

/// Rows without and with changes.
fn rows(alloc: Global, row: &[i16]) -> Result<Sequence<Sequence<i16>>, AllocError> {
    let still = vec![in alloc; 0, 0, 0]?;
    let row = Vec::from_slice(alloc, row)?;
    let rows = vec![in alloc; Sequence::from_vec(still), Sequence::from_vec(row)]?;
    Ok(Sequence::from_vec(rows))
}

/// The measures of two glyphs that are 500 units wide, of which the second one has so many points
/// on so many contours, and a row of changes.
fn two_glyphs(
    alloc: Global,
    bounds: Option<[i16; 4]>,
    points: u16,
    contours: u16,
    regions: Sequence<Region>,
    row: &[i16],
) -> Result<Measures, AllocError> {
    let rows = rows(alloc, row)?;
    Ok(Measures {
        advances: Sequence::from_vec(vec![in alloc; 500, 500]?),
        bounds: Sequence::from_vec(vec![in alloc; None, bounds]?),
        regions,
        rows,
        maxima: Maxima {
            points,
            contours,
            composite_points: 0,
            composite_contours: 0,
            components: 0,
            depth: 0,
        },
    })
}

/// A glyph without outlines at two masters, and a triangle with a place half way between them.
fn glyphs_half_way(alloc: Global, header: &Header) -> Result<Vec<Arc<FlatGlyph>>, NoMemory>
    requires header { IsHeader header.now }
    requires masters { map (λ master. master.location) header.now.masters ≡ ends }
    ensures { IfOk result (λ glyphs. AreSimpleIn header.now glyphs.items) }
{
    let mut glyphs = Vec::new(alloc);
    add(alloc, header, &mut glyphs, made_notdef(alloc, header)?)?;
    let letter = between(alloc, header, 8192, [500, 520, 512])?;
    add(alloc, header, &mut glyphs, letter)?;
    Ok(glyphs)
}

/// The region of the second master, and those of the triangle's place and, cut by it, of the
/// second master.
fn regions_half_way(alloc: Global) -> Result<Sequence<Region>, AllocError> {
    let mut regions = Sequence::new(alloc);
    regions.push(region(alloc, &[(0, 16_384, 16_384)])?)?;
    regions.push(region(alloc, &[(0, 8192, 16_384)])?)?;
    regions.push(region(alloc, &[(8192, 16_384, 16_384)])?)?;
    Ok(regions)
}

#[test]
fn a_place_half_way_has_two_regions_of_its_own(rt: HostRuntime) -> Result<(), Fail> {
    let alloc = rt.alloc();
    let header = growing_header(alloc, 500)?;
    let glyphs = glyphs_half_way(alloc, &header)?;
    let regions = regions_half_way(alloc)?;
    let bounds = Some([0, 0, 500, 700]);
    let expected = two_glyphs(alloc, bounds, 3, 1, regions, &[0, 12, 20])?;
    assert!(rt; is_measured(alloc, &header, glyphs.as_slice(), &expected));
    Ok(())
}

/// Two glyphs without outlines at four masters.
fn glyphs_at_corners(alloc: Global, header: &Header) -> Result<Vec<Arc<FlatGlyph>>, NoMemory>
    requires header { IsHeader header.now }
    requires masters { length header.now.masters ≡ 4 }
    ensures { IfOk result (λ glyphs. AreSimpleIn header.now glyphs.items) }
{
    let mut glyphs = Vec::new(alloc);
    let still = at_masters(alloc, header, 0, &[500, 500, 500, 500])?;
    add(alloc, header, &mut glyphs, still)?;
    let changing = at_masters(alloc, header, 1, &[500, 530, 480, 600])?;
    add(alloc, header, &mut glyphs, changing)?;
    Ok(glyphs)
}

/// The regions of three masters at the corners of two axes, of which the last one has both.
fn regions_at_corners(alloc: Global) -> Result<Sequence<Region>, AllocError> {
    let mut regions = Sequence::new(alloc);
    regions.push(region(alloc, &[(0, 16_384, 16_384), (0, 0, 0)])?)?;
    regions.push(region(alloc, &[(0, 0, 0), (0, 16_384, 16_384)])?)?;
    regions.push(region(alloc, &[(0, 16_384, 16_384), (0, 16_384, 16_384)])?)?;
    Ok(regions)
}

#[test]
fn each_glyph_has_a_row_over_the_regions_of_four_masters(rt: HostRuntime) -> Result<(), Fail> {
    let alloc = rt.alloc();
    let tree = read(alloc, CORNERS)?;
    let header = header(alloc, &tree)?;
    assert!(rt; header.masters.len() == 4);
    let glyphs = glyphs_at_corners(alloc, &header)?;
    let regions = regions_at_corners(alloc)?;
    // At the last master the glyph is 100 wider than at the first: 30 from the second, -20 from the
    // third, and 90 of its own.
    let expected = two_glyphs(alloc, None, 0, 0, regions, &[30, -20, 90])?;
    assert!(rt; is_measured(alloc, &header, glyphs.as_slice(), &expected));
    Ok(())
}

/// Glyphs whose advance widths change, at the last of four masters, by 0, by -32,768, and by one
/// and two more than an i16 holds. The last glyph stands before the third in the source.
fn glyphs_that_change_much(alloc: Global, header: &Header) -> Result<Vec<Arc<FlatGlyph>>, NoMemory>
    requires header { IsHeader header.now }
    requires masters { length header.now.masters ≡ 4 }
    ensures { IfOk result (λ glyphs. AreSimpleIn header.now glyphs.items) }
{
    let mut glyphs = Vec::new(alloc);
    let still = at_masters(alloc, header, 0, &[500, 500, 500, 500])?;
    add(alloc, header, &mut glyphs, still)?;
    let least = at_masters(alloc, header, 4, &[0, 16_384, 16_384, 0])?;
    add(alloc, header, &mut glyphs, least)?;
    let second = at_masters(alloc, header, 6, &[0, 16_384, 16_386, 0])?;
    add(alloc, header, &mut glyphs, second)?;
    let first = at_masters(alloc, header, 5, &[0, 16_384, 16_385, 0])?;
    add(alloc, header, &mut glyphs, first)?;
    Ok(glyphs)
}

/// The glyph and the change of its advance width that glyphs are refused for.
fn too_large(alloc: Global, header: &Header, glyphs: &[Arc<FlatGlyph>]) -> Option<(u16, i64)>
    requires header { IsHeader header.now }
    requires glyphs { AreSimpleIn header.now glyphs.now }
{
    match measured(alloc, header, glyphs) {
        Err(MeasureError::TooLarge { gid, value }) => Some((gid, value)),
        _ => None,
    }
}

#[test]
fn the_first_change_in_the_source_that_is_too_large_is_refused(
    rt: HostRuntime,
) -> Result<(), Fail> {
    let alloc = rt.alloc();
    let tree = read(alloc, CORNERS)?;
    let header = header(alloc, &tree)?;
    assert!(rt; header.masters.len() == 4);
    let glyphs = glyphs_that_change_much(alloc, &header)?;
    assert!(rt; too_large(alloc, &header, glyphs.as_slice()) == Some((3, -32_769)));
    Ok(())
}

/// So many glyphs, each with a place of its own, where it is wider than at the masters.
fn glyphs_with_places(
    alloc: Global,
    header: &Header,
    count: u16,
) -> Result<Vec<Arc<FlatGlyph>>, NoMemory>
    requires few { count < 16384 }
    requires masters { map (λ master. master.location) header.now.masters ≡ ends }
    ensures { IfOk result (λ glyphs. AreSimpleIn header.now glyphs.items) }
{
    let mut glyphs = Vec::new(alloc);
    for k in 1..count + 1 {
        let glyph = between(alloc, header, k as i16, [500, 500, 512])?;
        add(alloc, header, &mut glyphs, glyph)?;
    }
    Ok(glyphs)
}

/// How many regions there are of so many glyphs with a place of their own, or how many are
/// refused.
fn region_count(alloc: Global, header: &Header, count: u16) -> Option<Result<usize, u64>>
    requires header { IsHeader header.now }
    requires few { count < 16384 }
    requires masters { map (λ master. master.location) header.now.masters ≡ ends }
{
    let Ok(glyphs) = glyphs_with_places(alloc, header, count) else {
        return None;
    };
    match measured(alloc, header, glyphs.as_slice()) {
        Ok(measures) => Some(Ok(measures.regions.len())),
        Err(MeasureError::Regions(count)) => Some(Err(count)),
        Err(_) => None,
    }
}

#[test]
fn regions_up_to_1024_are_told_and_one_more_is_refused(rt: HostRuntime) -> Result<(), Fail> {
    let alloc = rt.alloc();
    let header = growing_header(alloc, 500)?;
    // The second master has a region too.
    assert!(rt; region_count(alloc, &header, 1023) == Some(Ok(1024)));
    assert!(rt; region_count(alloc, &header, 1024) == Some(Err(1025)));
    Ok(())
}
