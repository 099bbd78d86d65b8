ghost use Rattle.std.specs.Prelude.{◌≡◌, ◌<◌, ◌^◌, ◌++◌, [], length, map, option_copied};
ghost use Rattle.std.specs.Prelude.{option_map, slice_get, nat_eq, IfOk, IfErr, None, false, ◌==◌};
ghost use Rattle.std.specs.Prelude.{◌∷◌};
ghost use Rattle.std.specs.Cmp.Lexicographic.{pointwise};
ghost use Rattle.std.specs.Cmp.{partial_equiv_from_equiv};
ghost use Rattle.plist_reader.specs.Tree.{IsTree};
ghost use Rattle.plist_reader.specs.Keys.{is_among};
ghost use Rattle.std.specs.Map.{keys_of};
ghost use Rattle.indexmap.specs.IndexMap.{values};
ghost use Rattle.refusal_codes.specs.First.{foremost, judged, refusal_of};
ghost use Rattle.refusal_codes.specs.declared.job.TheConstants.{INDEX};
ghost use Rattle.refusal_codes.specs.Gives.{Gives};
ghost use Rattle.glyphs_source.specs.Repeats.{IsWithoutRepeats, TellsRepeatOf};
ghost use Rattle.glyphs_source.specs.Same.{same_index, same_index_equiv};
ghost use Rattle.glyphs_source.specs.IndexReading.{entries_from, glyph_numbers, glyph_name};
ghost use Rattle.glyphs_source.specs.IndexReading.{entry_of, repeated_names, repeats, counting};
ghost use Rattle.glyphs_source.specs.IndexReading.{repeated_codes, index_of, AreNamed};

use crate::entries::{IndexEntry, read_entry, read_name};
use crate::index_rules::note_index;
use font_ir::Name;
use indexmap::{IndexMap, IndexSet};
use plain_lists::Text;
use plist_reader::Tree;
use refusal_codes::{Failure, FirstFailure, ReadError, Rule, job};
use source_values::{items_under, place_at};
use std::alloc::{AllocError, Global};
use std::marker::Model;

/// The glyphs that a source names, in the order of the file. A contract sees them as the list of
/// their names and entries.
#[derive(Debug, Drop)]
pub struct GlyphIndex {
    entries: IndexMap<Name, IndexEntry>,
}

impl Model for GlyphIndex {
    ghost use Rattle.std.specs.Prelude.{List, ℕ};
    ghost use Rattle.glyphs_source.specs.declared.entries.IndexEntry.{IndexEntry};

    ghost Value = { List (List ℕ × IndexEntry) };

    ghost view = { λ index. index.entries.entries };
}

impl GlyphIndex {
    ghost use Rattle.std.specs.Map.{lookup};
    ghost use Rattle.std.specs.List.{IsDistinct};

    /// How many glyphs there are. No two have the same name.
    pub fn len(&self) -> usize
        ensures len { result ≡ length self.now }
        ensures different { IsDistinct (pointwise nat_eq) (keys_of self.now) }
    {
        self.entries.len()
    }

    /// Whether there is no glyph.
    pub fn is_empty(&self) -> bool
        ensures { result ≡ (length self.now == 0) }
    {
        self.entries.is_empty()
    }

    /// The entry of the glyph with this name.
    pub fn get(&self, name: &Name) -> Option<&IndexEntry>
        ensures { option_copied result ≡ lookup (pointwise nat_eq name.now) self.now }
    {
        self.entries.get(name)
    }

    /// The name and the entry of the glyph with this place in the source's list of glyphs.
    pub fn at(&self, number: u32) -> Option<(&Name, &IndexEntry)>
        ensures { option_map (λ entry. (entry.0.now, entry.1.now)) result
            ≡ slice_get self.now number }
    {
        self.entries.get_index(number as usize)
    }
}

/// Two indexes are equal where they have the same glyphs in the same order, with equal entries.
impl PartialEq for GlyphIndex {
    ghost eq = { same_index };

    ghost laws = { partial_equiv_from_equiv same_index_equiv };

    fn eq(&self, other: &Self) -> bool {
        self.entries.as_slice() == other.entries.as_slice()
    }
}

impl Eq for GlyphIndex {
    ghost laws = { same_index_equiv };
}

/// The glyphs that a source names, in the order of the file. Each name has 1 to 255 bytes.
///
/// The error is the least failure by place, then by rule, of the rules of single values; where none
/// of them fails, it is the first glyph whose name an earlier one has, or else the first in which a
/// code stands again among those exported. Where memory runs out, the error is that.
pub fn glyph_index(alloc: Global, tree: &Tree) -> Result<GlyphIndex, ReadError>
    requires { IsTree tree.now }
    ensures entries { Gives (λ index. index) result (index_of tree.now) }
    ensures few { IfOk result (λ index. length index < 2 ^ 32) }
    ensures distinct { IfOk result IsWithoutRepeats }
    ensures named { IfOk result AreNamed }
    ensures repeat { IfErr result (TellsRepeatOf tree.now) }
{
    read_index(alloc, tree)
}

/// What `glyph_index` answers.
#[tactic(auto, using(crate::proofs::IndexLaws::entries_from_length), unfolding(crate::specs::IndexReading::index_of))]
fn read_index(alloc: Global, tree: &Tree) -> Result<GlyphIndex, ReadError>
    requires { IsTree tree.now }
    ensures entries { Gives (λ index. index) result (index_of tree.now) }
    ensures few { IfOk result (λ index. length index < 2 ^ 32) }
{
    let mut first = FirstFailure::new();
    note_index(tree, &mut first);
    if let Some(failure) = first.get() {
        return Err(failure.refused(job::INDEX, Text::new(alloc)));
    }
    let entries = collect(alloc, tree, glyph_numbers(tree))?;
    if let Some(failure) = repeated_code(alloc, tree, &entries)? {
        return Err(failure.refused(job::INDEX, Text::new(alloc)));
    }
    Ok(GlyphIndex { entries })
}

/// The values of the list of glyphs.
#[tactic(auto, unfolding(crate::specs::IndexReading::glyph_numbers))]
fn glyph_numbers(tree: &Tree) -> &[u32]
    requires { IsTree tree.now }
    ensures value { result.now ≡ glyph_numbers tree.now }
    ensures few { length result.now < 2 ^ 32 }
{
    items_under(tree, tree.top, b"glyphs")
}

/// The entries of the glyphs by their names, or the error that a name stands twice.
fn collect(
    alloc: Global,
    tree: &Tree,
    glyphs: &[u32],
) -> Result<IndexMap<Name, IndexEntry>, ReadError>
    requires { length glyphs.now < 2 ^ 32 }
    ensures { Gives (λ map. map.entries) result
        (judged (refusal_of INDEX []) None (foremost (repeated_names tree.now [] glyphs.now))
        (entries_from tree.now 0 glyphs.now)) }
{
    let mut entries = IndexMap::with_capacity(alloc, glyphs.len())?;
    for (number, glyph) in glyphs.iter().enumerate() {
        if add_glyph(alloc, tree, number as u32, *glyph, &mut entries)? {
            let failure = Failure {
                rule: Rule::DuplicateGlyph,
                place: place_at(tree, *glyph),
            };
            return Err(failure.refused(job::INDEX, Text::new(alloc)));
        }
    }
    Ok(entries)
}

/// Adds a glyph under its name, and says whether the name stands there already.
fn add_glyph(
    alloc: Global,
    tree: &Tree,
    number: u32,
    glyph: u32,
    entries: &mut IndexMap<Name, IndexEntry>,
) -> Result<bool, AllocError>
    ensures again { IfOk result (λ again. again
        ≡ is_among (glyph_name tree.now glyph) (keys_of entries.old.entries)) }
    ensures added { IfOk result (λ again. again ≡ false →
        entries.new.entries ≡ entries.old.entries
        ++ (glyph_name tree.now glyph, entry_of tree.now number glyph) ∷ []) }
{
    let name = read_name(alloc, tree, glyph)?;
    let entry = read_entry(alloc, tree, number, glyph, &name)?;
    let earlier = entries.insert(name, entry)?;
    Ok(earlier.is_some())
}

/// The first glyph in which a code stands again among those exported.
fn repeated_code(
    alloc: Global,
    tree: &Tree,
    entries: &IndexMap<Name, IndexEntry>,
) -> Result<Option<Failure>, AllocError>
    ensures { IfOk result (λ failure. failure
        ≡ foremost (repeated_codes tree.now [] (values entries.now))) }
{
    let mut seen = IndexSet::new(alloc);
    first_repeat(tree, entries, &mut seen)
}

/// The first glyph in which a code stands again, also one of those seen before.
fn first_repeat(
    tree: &Tree,
    entries: &IndexMap<Name, IndexEntry>,
    seen: &mut IndexSet<u32>,
) -> Result<Option<Failure>, AllocError>
    ensures { IfOk result (λ failure. failure
        ≡ foremost (repeated_codes tree.now seen.old.keys (values entries.now))) }
{
    for entry in entries.values() {
        if add_entry(seen, entry)? {
            return Ok(Some(Failure {
                rule: Rule::DuplicateUnicode,
                place: place_at(tree, entry.node),
            }));
        }
    }
    Ok(None)
}

/// Adds the codes of an exported glyph to those seen, and says whether one of them stands there
/// already.
fn add_entry(seen: &mut IndexSet<u32>, entry: &IndexEntry) -> Result<bool, AllocError>
    ensures again { IfOk result (λ again. again ≡ repeats seen.old.keys (counting entry.now)) }
    ensures added { IfOk result (λ again. again ≡ false
        → seen.new.keys ≡ seen.old.keys ++ counting entry.now) }
{
    if entry.exported {
        add_codes(seen, entry.codes.as_slice())
    } else {
        Ok(false)
    }
}

/// Adds codes to those seen, up to one that stands there already, and says whether there is one.
fn add_codes(seen: &mut IndexSet<u32>, codes: &[u32]) -> Result<bool, AllocError>
    ensures again { IfOk result (λ again. again ≡ repeats seen.old.keys codes.now) }
    ensures added { IfOk result (λ again. again ≡ false
        → seen.new.keys ≡ seen.old.keys ++ codes.now) }
{
    for code in codes {
        if !seen.insert(*code)? {
            return Ok(true);
        }
    }
    Ok(false)
}
