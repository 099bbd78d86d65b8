use crate::fonts::{FORMS, TRIANGLE, VARYING};
use fixed_math::F2Dot14;
use font_reader::{FaultKind, FontFault, FontView, Metric};
use std::test::Fail;

/// The fault of a file.
fn fault_of(bytes: &[u8]) -> Option<FontFault> {
    FontView::of(bytes).err()
}

/// A fault of this kind at this place.
fn fault(kind: FaultKind, place: u64) -> Option<FontFault> {
    Some(FontFault { place, kind })
}

/// Where the ten tables of the triangle end, in the order of their entries.
const ENDS: [usize; 10] = [268, 312, 340, 394, 432, 440, 452, 484, 686, 728];

/// The fault of the first bytes of the triangle's font: an entry that isn't whole, or else the
/// entry of the first table that isn't.
fn fault_of_front(count: usize) -> Option<FontFault> {
    if count < 12 {
        return fault(FaultKind::NotSfnt, 0);
    }
    let whole = (count - 12) / 16;
    if whole < 10 {
        return fault(FaultKind::OutOfTable, (12 + 16 * whole) as u64);
    }
    let cut = ENDS.iter().position(|end| *end > count)?;
    fault(FaultKind::OutOfTable, (12 + 16 * cut) as u64)
}

#[test]
fn a_font_that_is_cut_off_is_at_fault(rt: HostRuntime) -> Result<(), Fail> {
    let font = hex::decode(rt.alloc(), TRIANGLE)?;
    let bytes = font.as_slice();
    assert!(rt; fault_of(bytes) == None);
    for n in 0..bytes.len() {
        assert!(rt; fault_of(&bytes[..n]) == fault_of_front(n));
    }
    Ok(())
}

#[test]
fn codes_lead_to_glyphs(rt: HostRuntime) -> Result<(), Fail> {
    let bytes = hex::decode(rt.alloc(), TRIANGLE)?;
    if let Ok(font) = FontView::of(bytes.as_slice()) {
        assert!(rt; font.code_of(65) == Ok(1) && font.code_of(66) == Ok(0));
        assert!(rt; font.code_of(65535) == Ok(0) && font.code_of(65601) == Ok(0));
    } else {
        assert!(rt; false);
    }
    let bytes = hex::decode(rt.alloc(), FORMS)?;
    if let Ok(font) = FontView::of(bytes.as_slice()) {
        assert!(rt; font.code_of(65) == Ok(1) && font.code_of(66) == Ok(0));
        assert!(rt; font.code_of(0x1f601) == Ok(1) && font.code_of(0x1f602) == Ok(0));
    } else {
        assert!(rt; false);
    }
    Ok(())
}

#[test]
fn glyphs_have_names(rt: HostRuntime) -> Result<(), Fail> {
    let bytes = hex::decode(rt.alloc(), FORMS)?;
    if let Ok(font) = FontView::of(bytes.as_slice()) {
        assert!(rt; font.name_of(0) == Ok(b".notdef"));
        assert!(rt; font.name_of(1) == Ok(b"Aring"));
        assert!(rt; font.name_of(2).err() == fault(FaultKind::NoPoint, 2));
    } else {
        assert!(rt; false);
    }
    Ok(())
}

#[test]
fn advances_and_metrics_vary(rt: HostRuntime) -> Result<(), Fail> {
    let bytes = hex::decode(rt.alloc(), VARYING)?;
    if let Ok(font) = FontView::of(bytes.as_slice()) {
        assert!(rt; font.advance_at(1, &[F2Dot14(0)]) == Ok(32768000));
        assert!(rt; font.advance_at(1, &[F2Dot14(4096)]) == Ok(33095680));
        assert!(rt; font.advance_at(1, &[F2Dot14(16384)]) == Ok(34078720));
    } else {
        assert!(rt; false);
    }
    let bytes = hex::decode(rt.alloc(), FORMS)?;
    if let Ok(font) = FontView::of(bytes.as_slice()) {
        assert!(rt; font.advance_at(1, &[F2Dot14(16384)]) == Ok(38862848));
        assert!(rt; font.metric_at(Metric::XHeight, &[F2Dot14(16384)]) == Ok(33423360));
        assert!(rt; font.metric_at(Metric::Descender, &[F2Dot14(16384)]) == Ok(-13107200));
    } else {
        assert!(rt; false);
    }
    Ok(())
}
