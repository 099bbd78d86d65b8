//! The order of the font's glyphs.

ghost use Rattle.std.specs.Prelude.{◌≡◌, ◌<◌, ◌≤◌, ◌^◌, ◌+◌, ◌++◌, ◌∷◌, [], length, map, IfOk};
ghost use Rattle.std.specs.Prelude.{OnOk, IfSome, Some, is_some, slice_get, false, codes, nat_eq};
ghost use Rattle.std.specs.List.{IsDistinct};
ghost use Rattle.std.specs.Option.{option_map};
ghost use Rattle.std.specs.Cmp.Lexicographic.{pointwise};
ghost use Rattle.refusal_codes.specs.declared.limits.TheConstants.{GLYPHS, NAME_BYTES};
ghost use Rattle.font_ir.specs.Glyphs.{gid_of};
ghost use Rattle.glyphs_source.specs.IndexReading.{AreNamed};
ghost use Rattle.character_codes.specs.CharacterCodes.{Entry};
ghost use Rattle.font_plan.specs.Order.{is_other, others_from, notdef_from, order_in, numbers_in};

use font_ir::{GlyphOrder, Name};
use glyphs_source::{GlyphIndex, IndexEntry};
use refusal_codes::NoMemory;
use std::alloc::Global;

/// The name of the glyph that stands for a character that the font hasn't.
const NOTDEF: &[u8] = b".notdef";

/// The order of the font's glyphs: `.notdef`, and then the others that are exported, in the order
/// of the file.
pub fn order_in(alloc: Global, index: &GlyphIndex) -> Result<GlyphOrder, NoMemory>
    requires few { length index.now < 2 ^ 32 }
    requires glyphs { length (order_in index.now).names ≤ GLYPHS }
    requires named { AreNamed index.now }
    ensures { IfOk result (λ order. order ≡ order_in index.now) }
{
    let _count = index.len();
    let mut order = GlyphOrder::new(alloc);
    push_glyph(alloc, notdef_number(index), NOTDEF, &mut order)?;
    push_others(alloc, index, &mut order)?;
    Ok(order)
}

/// The numbers of the exported glyphs, in the order of the font.
pub fn numbers_in(alloc: Global, index: &GlyphIndex) -> Result<Vec<u32>, NoMemory>
    requires { length index.now < 2 ^ 32 }
    ensures { IfOk result (λ numbers. numbers.items ≡ numbers_in index.now) }
{
    let mut numbers = Vec::new(alloc);
    if let Some(number) = notdef_number(index) {
        numbers.push(number)?;
    }
    push_numbers(index, &mut numbers)?;
    Ok(numbers)
}

/// Adds the numbers of the exported glyphs other than `.notdef`.
fn push_numbers(index: &GlyphIndex, numbers: &mut Vec<u32>) -> Result<(), NoMemory>
    requires { length index.now < 2 ^ 32 }
    ensures { OnOk result (numbers.new.items
        ≡ numbers.old.items ++ map (λ glyph. glyph.0) (others_from 0 index.now)) }
{
    for number in 0..index.len() as u32 {
        let (name, entry) = entry_at(index, number);
        if is_other(name, entry) {
            numbers.push(number)?;
        }
    }
    Ok(())
}

/// How many glyphs the font has: those that are exported, and `.notdef` where the source has none.
pub fn glyph_count(index: &GlyphIndex, numbers: &[u32]) -> u64
    requires few { length index.now < 2 ^ 32 }
    requires numbers { numbers.now ≡ numbers_in index.now }
    ensures { result ≡ length (order_in index.now).names }
{
    let count = numbers.len() as u64;
    match notdef_number(index) {
        Some(_) => count,
        None => count + 1,
    }
}

/// The number of the first `.notdef`, where the source has one.
pub fn notdef_number(index: &GlyphIndex) -> Option<u32>
    requires { length index.now < 2 ^ 32 }
    ensures number { result ≡ option_map (λ glyph. glyph.0) (notdef_from 0 index.now) }
    ensures entry { IfSome result (λ number. (entry : Entry)
        × (slice_get index.now number ≡ Some entry)
        × (notdef_from 0 index.now ≡ Some (number, entry))) }
{
    for number in 0..index.len() as u32 {
        let (name, _) = entry_at(index, number);
        if is_notdef(name) {
            return Some(number);
        }
    }
    None
}

/// Adds the exported glyphs other than `.notdef`.
fn push_others(alloc: Global, index: &GlyphIndex, order: &mut GlyphOrder) -> Result<(), NoMemory>
    requires few { length index.now < 2 ^ 32 }
    requires glyphs { length order.old.names + length (others_from 0 index.now) ≤ GLYPHS }
    requires different { IsDistinct (pointwise nat_eq)
        (order.old.names ++ map (λ glyph. glyph.1.0) (others_from 0 index.now)) }
    requires named { AreNamed index.now }
    ensures numbers { OnOk result (order.new.numbers
        ≡ order.old.numbers ++ map (λ glyph. Some glyph.0) (others_from 0 index.now)) }
    ensures names { OnOk result (order.new.names
        ≡ order.old.names ++ map (λ glyph. glyph.1.0) (others_from 0 index.now)) }
{
    for number in 0..index.len() as u32 {
        let (name, entry) = entry_at(index, number);
        if is_other(name, entry) {
            push_glyph(alloc, Some(number), name.as_bytes(), order)?;
        }
    }
    Ok(())
}

/// Adds a glyph whose name isn't there and has at most 255 bytes.
fn push_glyph(
    alloc: Global,
    number: Option<u32>,
    name: &[u8],
    order: &mut GlyphOrder,
) -> Result<(), NoMemory>
    requires room { length order.old.names < GLYPHS }
    requires short { length name.now ≤ NAME_BYTES }
    requires new { is_some (gid_of order.old.names name.now) ≡ false }
    ensures numbers { OnOk result (order.new.numbers ≡ order.old.numbers ++ number ∷ []) }
    ensures names { OnOk result (order.new.names ≡ order.old.names ++ name.now ∷ []) }
{
    order.push(alloc, number, name)?;
    Ok(())
}

/// The name and the entry of the glyph with this number.
pub fn entry_at(index: &GlyphIndex, number: u32) -> (&Name, &IndexEntry)
    requires { number < length index.now }
    ensures { slice_get index.now number ≡ Some (result.0.now, result.1.now) }
{
    index.at(number).unwrap()
}

/// Whether this is the name of `.notdef`.
pub fn is_notdef(name: &Name) -> bool
    ensures { result ≡ pointwise nat_eq name.now (codes ".notdef") }
{
    name.as_bytes() == NOTDEF
}

/// Whether a glyph is exported and not `.notdef`.
pub fn is_other(name: &Name, entry: &IndexEntry) -> bool
    ensures { result ≡ is_other (name.now, entry.now) }
{
    entry.exported && !is_notdef(name)
}
