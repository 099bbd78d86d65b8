use character_codes::codes_in;
use font_ir::GlyphOrder;
use glyphs_source::glyph_index;
use plist_reader::read;
use std::alloc::Global;
use std::process::Abort;
use std::test::Fail;

/// `B` of two codes, `.notdef` and `A`, in this order.
const WITH_NOTDEF: &[u8] =
    b"{glyphs=({glyphname=B;unicode=(98,66);},{glyphname=.notdef;},{glyphname=A;unicode=65;});}";

/// The order of a `.notdef`, of `A` and of `B`, which have these numbers.
fn order_of(
    rt: &impl Abort,
    alloc: Global,
    notdef: Option<u32>,
    a: u32,
    b: u32,
) -> Result<GlyphOrder, Fail> {
    let mut order = GlyphOrder::new(alloc);
    let first = order.push(alloc, notdef, b".notdef")?;
    assert!(rt; first);
    let second = order.push(alloc, Some(a), b"A")?;
    assert!(rt; second);
    let third = order.push(alloc, Some(b), b"B")?;
    assert!(rt; third);
    Ok(order)
}

#[test]
fn codes_rise_and_lead_to_the_glyphs_of_the_order(rt: HostRuntime) -> Result<(), Fail> {
    let tree = read(rt.alloc(), WITH_NOTDEF)?;
    let index = glyph_index(rt.alloc(), &tree)?;
    let order = order_of(&rt, rt.alloc(), Some(1), 2, 0)?;
    let codes = codes_in(rt.alloc(), &index, &order)?;
    assert!(rt; codes.as_slice() == [(65, 1), (66, 2), (98, 2)].as_slice());
    Ok(())
}

#[test]
fn a_made_notdef_has_no_code(rt: HostRuntime) -> Result<(), Fail> {
    let tree = read(
        rt.alloc(),
        b"{glyphs=({glyphname=B;unicode=128512;},{glyphname=A;unicode=97;},{glyphname=C;});}",
    )?;
    let index = glyph_index(rt.alloc(), &tree)?;
    let order = order_of(&rt, rt.alloc(), None, 1, 0)?;
    let codes = codes_in(rt.alloc(), &index, &order)?;
    assert!(rt; codes.as_slice() == [(97, 1), (128512, 2)].as_slice());
    Ok(())
}
