ghost use Rattle.std.specs.Prelude.{◌≡◌, length, IfOk};
ghost use Rattle.std.specs.List.{All};
ghost use Rattle.font_ir.specs.Headers.{IsHeader};
ghost use Rattle.metrics_tables.specs.Hvar.{AreMeasuresFor};
ghost use Rattle.metrics_tables.specs.Tables.{AreMeasures};

use fixed_math::F2Dot14;
use fixtures::growing_header;
use font_ir::{Header, Region};
use metrics_tables::{Maxima, Measures, hvar};
use plain_lists::Sequence;
use std::alloc::{AllocError, Global};
use std::test::Fail;

/// A region on one axis.
fn region(alloc: Global, start: i16, peak: i16, end: i16) -> Result<Region, AllocError>
    ensures { IfOk result (λ region. length region.sides ≡ 1) }
{
    let sides = vec![in alloc; (F2Dot14(start), F2Dot14(peak), F2Dot14(end))]?;
    Ok(Region {
        sides: Sequence::from_vec(sides),
    })
}

/// The region of two masters, and two of a glyph that has a place half way.
fn regions(alloc: Global) -> Result<Vec<Region>, AllocError>
    ensures count { IfOk result (λ regions. length regions.items ≡ 3) }
    ensures sides { IfOk result (λ regions. All (λ region. length region.sides ≡ 1) regions.items) }
{
    let mut regions = Vec::new(alloc);
    regions.push(region(alloc, 0, 16384, 16384)?)?;
    regions.push(region(alloc, 0, 8192, 16384)?)?;
    regions.push(region(alloc, 8192, 16384, 16384)?)?;
    Ok(regions)
}

/// The changes of two advance widths.
fn rows(alloc: Global) -> Result<Vec<Sequence<i16>>, AllocError>
    ensures count { IfOk result (λ rows. length rows.items ≡ 2) }
    ensures deltas { IfOk result (λ rows. All (λ row. length row ≡ 3) rows.items) }
{
    let mut rows = Vec::new(alloc);
    rows.push(Sequence::from_vec(vec![in alloc; 0, 0, 0]?))?;
    rows.push(Sequence::from_vec(vec![in alloc; 0, 12, 20]?))?;
    Ok(rows)
}

/// The measures of two glyphs without points, 500 units wide.
fn measures(alloc: Global) -> Result<Measures, AllocError>
    ensures are { IfOk result AreMeasures }
    ensures regions { IfOk result (λ measures. length measures.regions ≡ 3) }
    ensures sides { IfOk result (λ measures. All (λ region. length region.sides ≡ 1)
        measures.regions) }
    ensures rows { IfOk result (λ measures. length measures.rows ≡ length measures.advances) }
    ensures deltas { IfOk result (λ measures. All (λ row. length row ≡ 3) measures.rows) }
{
    let advances = vec![in alloc; 500, 500]?;
    let bounds = vec![in alloc; None, None]?;
    Ok(Measures {
        advances: Sequence::from_vec(advances),
        bounds: Sequence::from_vec(bounds),
        regions: Sequence::from_vec(regions(alloc)?),
        rows: Sequence::from_vec(rows(alloc)?),
        maxima: Maxima {
            points: 0,
            contours: 0,
            composite_points: 0,
            composite_contours: 0,
            components: 0,
            depth: 0,
        },
    })
}

/// Whether the table HVAR is these bytes.
fn is_hvar(alloc: Global, header: &Header, measures: &Measures, expected: &[u8]) -> bool
    requires header { IsHeader header.now }
    requires measures { AreMeasures measures.now }
    requires for_header { AreMeasuresFor header.now measures.now }
{
    match hvar(alloc, header, measures) {
        Ok(table) => table.as_slice() == expected,
        Err(_) => false,
    }
}

/// A row of three changes for each of the two glyphs.
const TABLE: &str = "0001000000000014000000000000000000000000\
    00010000000c000100000022\
    00010003000040004000000020004000200040004000\
    000200030003000000010002\
    0000000000000000000c0014";

#[test]
fn each_glyph_has_a_row_over_all_regions(rt: HostRuntime) -> Result<(), Fail> {
    let header = growing_header(rt.alloc(), 500)?;
    let measures = measures(rt.alloc())?;
    let expected = hex::decode(rt.alloc(), TABLE)?;
    assert!(rt; is_hvar(rt.alloc(), &header, &measures, expected.as_slice()));
    Ok(())
}
