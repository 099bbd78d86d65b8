ghost use Rattle.std.specs.Prelude.{◌≡◌, map, IfOk};
ghost use Rattle.source_values.specs.Values.{text_under, decimal_under, is_zero};
ghost use Rattle.glyphs_source.specs.IndexReading.{code_at, codes_at, glyph_codes, glyph_name};
ghost use Rattle.glyphs_source.specs.IndexReading.{is_exported, entry_of};

use font_ir::Name;
use plain_lists::Sequence;
use plist_reader::Tree;
use source_values::{Range, copied, decimal_at, decimal_under, items_at, text_under};
use std::alloc::{AllocError, Global};

/// What a source's list of glyphs says of one of them.
#[derive(Debug, PartialEq, Eq, Drop)]
pub struct IndexEntry {
    /// Its place in the list, counted from 0.
    pub number: u32,
    /// The number of its dictionary in the property list.
    pub node: u32,
    /// Whether it goes into the font.
    pub exported: bool,
    /// The codes of the characters that it draws.
    pub codes: Sequence<u32>,
    /// Its kerning group as the second glyph of a pair.
    pub left: Option<Name>,
    /// Its kerning group as the first glyph of a pair.
    pub right: Option<Name>,
}

/// The name of a glyph, empty where it has none.
#[tactic(auto, unfolding(crate::specs::IndexReading::glyph_name))]
pub fn read_name(alloc: Global, tree: &Tree, glyph: u32) -> Result<Name, AllocError>
    ensures { IfOk result (λ name. name ≡ glyph_name tree.now glyph) }
{
    copied(alloc, text_under(tree, glyph, b"glyphname"))
}

/// The entry of a glyph, with its place in the list of glyphs.
#[tactic(auto, unfolding(crate::specs::IndexReading::entry_of))]
pub fn read_entry(
    alloc: Global,
    tree: &Tree,
    number: u32,
    glyph: u32,
    name: &Name,
) -> Result<IndexEntry, AllocError>
    requires { name.now ≡ glyph_name tree.now glyph }
    ensures { IfOk result (λ entry. entry ≡ entry_of tree.now number glyph) }
{
    let codes = read_codes(alloc, tree, glyph)?;
    let left = read_text(alloc, tree, glyph, b"kernLeft")?;
    let right = read_text(alloc, tree, glyph, b"kernRight")?;
    Ok(IndexEntry {
        number,
        node: glyph,
        exported: is_exported(tree, glyph, name),
        codes,
        left,
        right,
    })
}

#[tactic(auto, unfolding(crate::specs::IndexReading::is_exported))]
fn is_exported(tree: &Tree, glyph: u32, name: &Name) -> bool
    requires { name.now ≡ glyph_name tree.now glyph }
    ensures { result ≡ is_exported tree.now glyph }
{
    name.as_bytes() == b".notdef".as_slice() || !is_zero_under(tree, glyph, b"export")
}

/// Whether the number under a key is 0.
fn is_zero_under(tree: &Tree, pairs: u32, key: &[u8]) -> bool
    ensures { result ≡ is_zero (decimal_under tree.now pairs key.now) }
{
    match decimal_under(tree, pairs, key) {
        Some(decimal) => decimal.billionths == 0 && decimal.whole == 0,
        None => false,
    }
}

fn read_text(alloc: Global, tree: &Tree, glyph: u32, key: &[u8]) -> Result<Option<Name>, AllocError>
    ensures { IfOk result (λ text. text ≡ text_under tree.now glyph key.now) }
{
    match text_under(tree, glyph, key) {
        Some(text) => Ok(Some(copied(alloc, Some(text))?)),
        None => Ok(None),
    }
}

#[tactic(auto, unfolding(crate::specs::IndexReading::glyph_codes))]
fn read_codes(alloc: Global, tree: &Tree, glyph: u32) -> Result<Sequence<u32>, AllocError>
    ensures { IfOk result (λ list. list ≡ glyph_codes tree.now glyph) }
{
    match tree.find(glyph, b"unicode") {
        Some(number) => Ok(Sequence::from_vec(codes_at(alloc, tree, number)?)),
        None => Ok(Sequence::new(alloc)),
    }
}

#[tactic(auto, unfolding(crate::specs::IndexReading::codes_at))]
fn codes_at(alloc: Global, tree: &Tree, number: u32) -> Result<Vec<u32>, AllocError>
    ensures { IfOk result (λ list. list.items ≡ codes_at tree.now number) }
{
    match items_at(tree, number) {
        Some(items) => each_code(alloc, tree, items),
        None => {
            let mut list = Vec::with_capacity(alloc, 1)?;
            list.push(code_at(tree, number))?;
            Ok(list)
        }
    }
}

fn each_code(alloc: Global, tree: &Tree, items: &[u32]) -> Result<Vec<u32>, AllocError>
    ensures { IfOk result (λ list. list.items ≡ map (code_at tree.now) items.now) }
{
    let mut list = Vec::with_capacity(alloc, items.len())?;
    for item in items {
        list.push(code_at(tree, *item))?;
    }
    Ok(list)
}

#[tactic(auto, unfolding(crate::specs::IndexReading::code_at))]
fn code_at(tree: &Tree, number: u32) -> u32
    ensures { result ≡ code_at tree.now number }
{
    match decimal_at(tree, number) {
        Some(decimal) => {
            if decimal.billionths == 0 && Range::Code.holds(&decimal) {
                decimal.whole
            } else {
                0
            }
        }
        None => 0,
    }
}
