ghost use Rattle.std.specs.Prelude.{◌≡◌, ◌++◌, IfOk, OnOk};
ghost use Rattle.character_codes.specs.CharacterCodes as spec;

use font_ir::GlyphOrder;
use glyphs_source::GlyphIndex;
use refusal_codes::NoMemory;
use std::alloc::Global;

/// The character codes of the glyphs of an order, each with its glyph ID, in rising order: what the
/// table "cmap" (OpenType 1.9) is made of. The order has the numbers of its glyphs in the index.
///
/// A glyph without codes has no place in the list, nor has a `.notdef` that the compiler made. It
/// costs a sort of the codes, and is linear in the glyphs beside that.
///
/// # Errors
///
/// `NoMemory` where memory runs out.
#[tactic(auto, unfolding(crate::specs::CharacterCodes::codes_of))]
pub fn codes_in(
    alloc: Global,
    index: &GlyphIndex,
    order: &GlyphOrder,
) -> Result<Vec<(u32, u16)>, NoMemory>
    ensures { IfOk result (λ codes. codes.items ≡ spec.codes_of index.now order.now.numbers) }
{
    let mut codes = codes_by_glyph(alloc, index, order)?;
    codes.sort()?;
    Ok(codes)
}

/// The codes of the glyphs of an order, glyph by glyph.
fn codes_by_glyph(
    alloc: Global,
    index: &GlyphIndex,
    order: &GlyphOrder,
) -> Result<Vec<(u32, u16)>, NoMemory>
    ensures { IfOk result (λ codes. codes.items
        ≡ spec.codes_from index.now 0 order.now.numbers) }
{
    let numbers = order.numbers();
    let mut codes = Vec::with_capacity(alloc, order.len())?;
    for (gid, number) in numbers.iter().enumerate() {
        push_codes(&mut codes, codes_at(index, *number), gid as u16)?;
    }
    Ok(codes)
}

/// The codes of the glyph with a number in the source. A glyph that the compiler made has none.
fn codes_at(index: &GlyphIndex, number: Option<u32>) -> &[u32]
    ensures { result.now ≡ spec.codes_at index.now number }
{
    match number {
        Some(number) => match index.at(number) {
            Some((_, entry)) => entry.codes.as_slice(),
            None => &[],
        },
        None => &[],
    }
}

/// Appends the codes of a glyph.
fn push_codes(codes: &mut Vec<(u32, u16)>, more: &[u32], gid: u16) -> Result<(), NoMemory>
    ensures { OnOk result (codes.new.items ≡ codes.old.items ++ spec.with_gid gid more.now) }
{
    for code in more {
        codes.push((*code, gid))?;
    }
    Ok(())
}
