ghost use Rattle.std.specs.Prelude.{◌≤◌, ◌<◌, IfOk};
ghost use Rattle.cmap_writer.specs.Cmap.{AreCodes};

use cmap_writer::{CmapError, cmap};
use font_ir::GlyphOrder;
use std::alloc::{AllocError, Global};
use std::test::Fail;

/// At most so many codes, the first one and others at equal distances, with the glyph numbers from
/// 1 on.
fn codes(
    alloc: Global,
    first: u32,
    distance: u32,
    count: u16,
) -> Result<Vec<(u32, u16)>, AllocError>
    requires some { 0 < distance }
    requires small { distance ≤ 1114111 }
    requires few { count < 65535 }
    ensures { IfOk result (λ codes. AreCodes codes.items) }
{
    let mut codes = Vec::with_capacity(alloc, count as usize)?;
    let mut code = first;
    for glyph in 0..count {
        if code > 1_114_111 {
            return Ok(codes);
        }
        codes.push((code, glyph + 1))?;
        code += distance;
    }
    Ok(codes)
}

/// Whether the table of these codes is these bytes.
fn is_table(alloc: Global, codes: &[(u32, u16)], expected: &[u8]) -> bool
    requires { AreCodes codes.now }
{
    match cmap(alloc, &GlyphOrder::new(alloc), codes) {
        Ok(table) => table.as_slice() == expected,
        Err(_) => false,
    }
}

/// How many bytes the table of these codes has, or is refused for.
fn length_of(alloc: Global, codes: &[(u32, u16)]) -> Option<Result<usize, u64>>
    requires { AreCodes codes.now }
{
    match cmap(alloc, &GlyphOrder::new(alloc), codes) {
        Ok(table) => Some(Ok(table.len())),
        Err(CmapError::TooLarge(length)) => Some(Err(length)),
        Err(CmapError::NoMemory) => None,
    }
}

/// The table of the code 65 alone: one record, and a subtable of format 4 with the segment of the
/// code and the last one.
const ONE: &str =
    "00000001000300010000000c00040020000000040004000100000041ffff00000041ffffffc0000100000000";

/// The table of the codes 0x41 and 0x1F600: two records, a subtable of format 4, and one of format
/// 12.
const BOTH: &str = "0000000200030001000000140003000a00000034\
    00040020000000040004000100000041ffff00000041ffffffc0000100000000\
    000c0000000000280000000000000002\
    0000004100000041000000010001f6000001f60000000002";

#[test]
fn codes_above_65535_stand_in_format_12(rt: HostRuntime) -> Result<(), Fail> {
    let one = codes(rt.alloc(), 65, 1, 1)?;
    let expected = hex::decode(rt.alloc(), ONE)?;
    assert!(rt; is_table(rt.alloc(), one.as_slice(), expected.as_slice()));
    let two = codes(rt.alloc(), 0x41, 0x1F600 - 0x41, 2)?;
    let expected = hex::decode(rt.alloc(), BOTH)?;
    assert!(rt; is_table(rt.alloc(), two.as_slice(), expected.as_slice()));
    Ok(())
}

#[test]
fn segments_up_to_8189_fit_and_one_more_is_too_large(rt: HostRuntime) -> Result<(), Fail> {
    let most = codes(rt.alloc(), 0, 2, 8188)?;
    assert!(rt; length_of(rt.alloc(), most.as_slice()) == Some(Ok(12 + 65528)));
    let more = codes(rt.alloc(), 0, 2, 8189)?;
    assert!(rt; length_of(rt.alloc(), more.as_slice()) == Some(Err(65536)));
    Ok(())
}
