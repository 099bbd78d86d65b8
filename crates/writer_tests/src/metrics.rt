ghost use Rattle.std.specs.Prelude.{◌≡◌, [], ◌∷◌, length, map, IfOk};
ghost use Rattle.font_ir.specs.Headers.{IsHeader};
ghost use Rattle.metrics_tables.specs.Tables.{AreMeasures};

use fixtures::{glyph, header, triangle};
use font_ir::{GlyphOrder, Header};
use metrics_tables::{Measures, head, hhea, hmtx, maxp, measure, os2, post};
use plain_lists::Sequence;
use std::alloc::Global;
use std::process::Abort;
use std::sync::Arc;
use std::test::Fail;

fn order(rt: &impl Abort, alloc: Global) -> Result<GlyphOrder, Fail>
    ensures { IfOk result (λ order. length order.names ≡ 2) }
{
    let mut order = GlyphOrder::new(alloc);
    let first = order.push(alloc, None, b".notdef")?;
    assert!(rt; first);
    let second = order.push(alloc, Some(0), b"A")?;
    assert!(rt; second);
    Ok(order)
}

/// The measures of a `.notdef` without points and the triangle.
fn measured(rt: &impl Abort, alloc: Global, header: &Header) -> Result<Measures, Fail>
    requires header { IsHeader header.now }
    requires axes { header.now.axes ≡ [] }
    requires locations { map (λ master. master.location) header.now.masters ≡ [] ∷ [] }
    ensures { IfOk result AreMeasures }
{
    let notdef = Arc::new(alloc, glyph(alloc, Sequence::new(alloc))?)?;
    let letter = Arc::new(alloc, glyph(alloc, triangle(alloc)?)?)?;
    let glyphs = vec![in alloc; notdef, letter]?;
    Ok(measure(alloc, header, &order(rt, alloc)?, glyphs.as_slice())?)
}

/// The tables head, hhea, maxp and hmtx, one after another.
fn tables(alloc: Global, header: &Header, measures: &Measures) -> Result<Vec<u8>, Fail>
    requires header { IsHeader header.now }
    requires measures { AreMeasures measures.now }
{
    let mut tables = head(alloc, header, measures)?;
    tables.extend_from_slice(hhea(alloc, header, measures)?.as_slice())?;
    tables.extend_from_slice(maxp(alloc, header, measures)?.as_slice())?;
    tables.extend_from_slice(hmtx(alloc, header, measures)?.as_slice())?;
    Ok(tables)
}

/// These tables of the triangle's font, with no adjustment in the table head.
const TABLES: &str = "0001000000010000000000005f0f3cf5000303e8000000000000000000000000\
    000000000000000001f402bc00000006000200010000\
    000100000320ff38000001f40000000001f4000100000000000000000000000000000002\
    0001000000020003000100000000000200000000000000000000000000000000\
    01f4000001f40000";

#[test]
fn a_triangle_and_a_notdef_have_these_tables(rt: HostRuntime) -> Result<(), Fail> {
    let header = header(rt.alloc(), 1000)?;
    let measures = measured(&rt, rt.alloc(), &header)?;
    let tables = tables(rt.alloc(), &header, &measures)?;
    assert!(rt; tables == hex::decode(rt.alloc(), TABLES)?);
    Ok(())
}

/// The table OS/2 of the triangle's font.
const OS_2: &str = "000401f4019000050000028a028a0000008c028a028a000001e0003201040000\
    00000000000000000000\
    00000000000000000000000000000000\
    4e4f4e4500c000410041\
    0320ff380000032000c8\
    000000000000000000000000000000200000";

#[test]
fn a_triangle_has_this_style(rt: HostRuntime) -> Result<(), Fail> {
    let header = header(rt.alloc(), 1000)?;
    let measures = measured(&rt, rt.alloc(), &header)?;
    let table = os2(rt.alloc(), &header, &measures, &[(0x41, 1)])?;
    assert!(rt; table == hex::decode(rt.alloc(), OS_2)?);
    Ok(())
}

/// The table post of that font: the name A is the first one behind the standard names.
const POST: &str = "0002000000000000ff9c003200000000000000000000000000000000\
    000000000002000001020141";

#[test]
fn a_glyph_keeps_its_name(rt: HostRuntime) -> Result<(), Fail> {
    let header = header(rt.alloc(), 1000)?;
    let order = order(&rt, rt.alloc())?;
    let table = post(rt.alloc(), &header, &order)?;
    assert!(rt; table == hex::decode(rt.alloc(), POST)?);
    Ok(())
}
