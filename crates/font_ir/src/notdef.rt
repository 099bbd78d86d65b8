ghost use Rattle.std.specs.Prelude.{◌≡◌, ℤ, List, [], IfOk, map};
ghost use Rattle.font_ir.specs.declared.header.Header.{Header};
ghost use Rattle.font_ir.specs.FlatGlyphs.{IsFlatGlyph};
ghost use Rattle.font_ir.specs.Headers.{IsHeader};
ghost use Rattle.font_ir.specs.Notdef.{made_notdef_of};

use crate::glyph::{Contour, FlatGlyph};
use crate::header::{Header, Master};
use crate::locations::locations_of;
use plain_lists::Sequence;
use refusal_codes::NoMemory;
use std::alloc::Global;

/// The `.notdef` of a font whose source has none: without contours, half an em wide (rounded down)
/// at every master.
///
/// Its number is 4294967295 and its place 0. It is a glyph that the writers take.
pub fn made_notdef(alloc: Global, header: &Header) -> Result<FlatGlyph, NoMemory>
    requires { IsHeader header.now }
    ensures glyph { IfOk result (λ glyph. glyph ≡ made_notdef_of header.now) }
    ensures flat { IfOk result IsFlatGlyph }
{
    let glyph = empty_box(alloc, header)?;
    Ok(glyph)
}

/// The glyph without contours.
fn empty_box(alloc: Global, header: &Header) -> Result<FlatGlyph, NoMemory>
    ensures { IfOk result (λ glyph. glyph ≡ made_notdef_of header.now) }
{
    let masters = header.masters.as_slice();
    let width = i32::from(header.upem / 2);
    Ok(FlatGlyph {
        number: u32::MAX,
        place: 0,
        places: locations_of(alloc, masters)?,
        widths: widths_of(alloc, masters, width)?,
        drawn: empty_outlines_of(alloc, masters)?,
        kept: Sequence::new(alloc),
        anchors: Sequence::new(alloc),
    })
}

/// The `.notdef` that is made for a header is a flat glyph. A law: the function does nothing.
pub fn made_notdef_is_flat()
    ensures { (header : Header) → IsHeader header → IsFlatGlyph (made_notdef_of header) }
{}

/// The width, once for each master.
fn widths_of(alloc: Global, masters: &[Master], width: i32) -> Result<Sequence<i32>, NoMemory>
    ensures { IfOk result (λ widths. widths ≡ map (λ master. width) masters.now) }
{
    let mut widths = Vec::with_capacity(alloc, masters.len())?;
    for _master in masters {
        widths.push(width)?;
    }
    Ok(Sequence::from_vec(widths))
}

/// No contours, once for each master.
fn empty_outlines_of(
    alloc: Global,
    masters: &[Master],
) -> Result<Sequence<Sequence<Contour>>, NoMemory>
    ensures { IfOk result (λ drawn. drawn ≡ map (λ master. []) masters.now) }
{
    let mut drawn = Vec::with_capacity(alloc, masters.len())?;
    for _master in masters {
        drawn.push(Sequence::new(alloc))?;
    }
    Ok(Sequence::from_vec(drawn))
}
