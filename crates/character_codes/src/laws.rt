//! What the definition of a font's codes says. Each function is a law: it does nothing.

ghost use Rattle.std.specs.Prelude.{List, Option, ℕ, length};
ghost use Rattle.glyphs_source.specs.IndexReading.{AreCoded};
ghost use Rattle.character_codes.specs.CharacterCodes.{Entry, codes_of};
ghost use Rattle.character_codes.specs.Laws.{IsOrderOver, AreCodes, AreExactly};

/// The codes rise, each is one of Unicode, and their glyph IDs are those of the order: what the
/// table "cmap" asks of them. The order is over the index, whose exported glyphs have no code
/// twice.
pub fn codes_rise()
    ensures { (index : List Entry) (numbers : List (Option ℕ)) → AreCoded index
        → IsOrderOver index numbers → AreCodes (length numbers) (codes_of index numbers) }
{}

/// A code stands in the list with a glyph ID exactly where the glyph with this ID has it in the
/// index.
pub fn codes_are_those_of_the_glyphs()
    ensures { (index : List Entry) (numbers : List (Option ℕ))
        → AreExactly index numbers (codes_of index numbers) }
{}
