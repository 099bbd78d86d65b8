use fixtures::{GLYPH_DATA, composite, glyph, one_contour, points_at_origin, triangle};
use glyf_writer::{composite_bytes, glyf_table, loca_table, simple_bytes};
use std::alloc::Global;
use std::sync::Arc;
use std::test::Fail;
use table_bytes::TableError;

#[test]
fn the_triangle_stands_behind_a_glyph_without_data(rt: HostRuntime) -> Result<(), Fail> {
    let drawn = glyph(rt.alloc(), triangle(rt.alloc())?)?;
    let data = simple_bytes(rt.alloc(), &drawn, 0, false)?;
    assert!(rt; data == hex::decode(rt.alloc(), GLYPH_DATA)?);
    let parts = vec![in rt.alloc();
        Arc::new(rt.alloc(), Vec::new(rt.alloc()))?,
        Arc::new(rt.alloc(), data)?,
    ]?;
    let glyf = glyf_table(rt.alloc(), parts.as_slice())?;
    assert!(rt; glyf == hex::decode(rt.alloc(), GLYPH_DATA)?);
    let loca = loca_table(rt.alloc(), parts.as_slice())?;
    assert!(rt; loca == hex::decode(rt.alloc(), "00000000000000000000001c")?);
    Ok(())
}

#[test]
fn components_stand_by_their_offsets(rt: HostRuntime) -> Result<(), Fail> {
    let drawn = composite(rt.alloc(), triangle(rt.alloc())?, (100, 0), (-3, 5))?;
    let data = composite_bytes(rt.alloc(), &drawn, 0, &[1, 2])?;
    // No number of contours, the bounds, and of each component flags, glyph and offset. Bit 5 of
    // the first flags says that another one follows.
    let expected = hex::decode(
        rt.alloc(),
        "ffff0000000001f402bc\
        0023000100640000\
        00030002fffd0005\
        0000",
    )?;
    assert!(rt; data == expected);
    Ok(())
}

#[test]
fn a_run_of_257_flags_is_a_repeat_and_one_more(rt: HostRuntime) -> Result<(), Fail> {
    let points = points_at_origin(rt.alloc(), 257)?;
    let drawn = glyph(rt.alloc(), one_contour(rt.alloc(), points)?)?;
    let data = simple_bytes(rt.alloc(), &drawn, 0, false)?;
    // One contour of 257 points without bounds or instructions, and then the flags: on the curve,
    // each coordinate as before.
    let expected = hex::decode(
        rt.alloc(),
        "0001000000000000000001000000\
        39ff31\
        000000",
    )?;
    assert!(rt; data == expected);
    Ok(())
}

/// The length that is told where so many times 16 MiB of data are too long.
fn too_large(alloc: Global, count: u32) -> Result<Option<u64>, Fail> {
    let part = Arc::new(alloc, vec![in alloc; 0u8; 16_777_216]?)?;
    let mut parts = Vec::new(alloc);
    for _ in 0..count {
        parts.push(part.clone()?)?;
    }
    match glyf_table(alloc, parts.as_slice()) {
        Err(TableError::TooLarge(length)) => Ok(Some(length)),
        _ => Ok(None),
    }
}

#[test]
fn a_table_of_four_gigabytes_is_refused(rt: HostRuntime) -> Result<(), Fail> {
    assert!(rt; too_large(rt.alloc(), 256)? == Some(4_294_967_296));
    Ok(())
}
