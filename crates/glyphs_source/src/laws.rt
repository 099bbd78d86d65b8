//! What the definitions of the header and of the index say of each source. Each function is a law:
//! it does nothing.

ghost use Rattle.std.specs.Prelude.{◌≡◌, List, ℕ, nat_eq, Ok};
ghost use Rattle.std.specs.List.{IsDistinct};
ghost use Rattle.std.specs.Map.{keys_of};
ghost use Rattle.std.specs.Cmp.Lexicographic.{pointwise};
ghost use Rattle.plist_reader.specs.declared.tree.Tree.{Tree};
ghost use Rattle.font_ir.specs.declared.header.Header.{Header};
ghost use Rattle.font_ir.specs.Headers.{IsHeader};
ghost use Rattle.glyphs_source.specs.declared.entries.IndexEntry.{IndexEntry};
ghost use Rattle.glyphs_source.specs.HeaderReading.{header_of};
ghost use Rattle.glyphs_source.specs.IndexReading.{index_of, AreNamed, AreCoded};
ghost use Rattle.glyphs_source.specs.IndexReading.{AreNumbered, IsNotdefExported};

use axis_space::{first_repeat_is_the_first, first_unmapped_is_the_first};
use source_axes::{sound_axes_are_read, sound_instances_are_read};
use source_masters::sound_masters_are_read;

/// What `header` reads of a tree fulfils all conditions on a header: those of every call that takes
/// one.
pub fn read_headers_are_whole()
    ensures { (tree : Tree) (header : Header) → header_of tree ≡ Ok header → IsHeader header }
{
    sound_axes_are_read();
    sound_instances_are_read();
    sound_masters_are_read();
    first_repeat_is_the_first();
    first_unmapped_is_the_first();
}

/// What `glyph_index` reads of a tree has names of 1 to 255 bytes.
pub fn glyph_names_are_short()
    ensures { (tree : Tree) (index : List (List ℕ × IndexEntry)) → index_of tree ≡ Ok index
        → AreNamed index }
{}

/// What `glyph_index` reads of a tree has no code twice among its exported glyphs, and each of its
/// codes is that of a character that a font may have.
pub fn exported_codes_are_distinct()
    ensures { (tree : Tree) (index : List (List ℕ × IndexEntry)) → index_of tree ≡ Ok index
        → AreCoded index }
{}

/// What `glyph_index` reads of a tree has `.notdef` among its exported glyphs, where it has a glyph
/// of that name.
pub fn notdef_is_exported()
    ensures { (tree : Tree) (index : List (List ℕ × IndexEntry)) → index_of tree ≡ Ok index
        → IsNotdefExported index }
{}

/// Each entry of what `glyph_index` reads of a tree has its place in the list of glyphs as its
/// number, and no two glyphs have the same name.
pub fn entries_are_numbered()
    ensures numbered { (tree : Tree) (index : List (List ℕ × IndexEntry)) → index_of tree ≡ Ok index
        → AreNumbered index }
    ensures named { (tree : Tree) (index : List (List ℕ × IndexEntry)) → index_of tree ≡ Ok index
        → IsDistinct (pointwise nat_eq) (keys_of index) }
{}
