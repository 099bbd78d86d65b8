ghost use Rattle.std.specs.Prelude.{◌≡◌};
ghost use Rattle.refusal_codes.specs.First.{noted};
ghost use Rattle.glyphs_source.specs.IndexReading.{codes_failures, glyph_parts_failures};
ghost use Rattle.glyphs_source.specs.IndexReading.{glyph_list_failures, index_failures};

use plist_reader::Tree;
use refusal_codes::FirstFailure;
use source_values::{
    Asked, Dictionary, Each, NameText, PlainText, Range, Whole, is_list, optional, required,
};

/// Notes the local rules that the index fails.
pub fn note_index(tree: &Tree, first: &mut FirstFailure)
    ensures { first.new ≡ noted first.old (index_failures tree.now) }
{
    Dictionary(GlyphList).note(tree, tree.top, first);
}

/// What the top dictionary says of glyphs.
#[derive(Clone, Copy)]
struct GlyphList;

impl Asked for GlyphList {
    ghost failures = { λ asked. glyph_list_failures };

    #[tactic(auto, unfolding(crate::specs::IndexReading::glyph_list_failures))]
    fn note(&self, tree: &Tree, top: u32, first: &mut FirstFailure) {
        optional(tree, top, b"glyphs", &Each(Dictionary(GlyphParts)), first);
    }
}

/// What the dictionary of a glyph holds, beside its layers.
#[derive(Clone, Copy)]
struct GlyphParts;

impl Asked for GlyphParts {
    ghost failures = { λ asked. glyph_parts_failures };

    #[tactic(auto, using(refusal_codes::specs::FirstLaws::noting), unfolding(crate::specs::IndexReading::glyph_parts_failures))]
    fn note(&self, tree: &Tree, glyph: u32, first: &mut FirstFailure) {
        required(tree, glyph, b"glyphname", &NameText, first);
        optional(tree, glyph, b"unicode", &Codes, first);
        optional(tree, glyph, b"export", &Whole(Range::Any), first);
        optional(tree, glyph, b"kernLeft", &PlainText, first);
        optional(tree, glyph, b"kernRight", &PlainText, first);
    }
}

/// The codes of a glyph: a code, or a list of them.
#[derive(Clone, Copy)]
struct Codes;

impl Asked for Codes {
    ghost failures = { λ asked. codes_failures };

    #[tactic(auto, unfolding(crate::specs::IndexReading::codes_failures))]
    fn note(&self, tree: &Tree, number: u32, first: &mut FirstFailure) {
        let code = Whole(Range::Code);
        if is_list(tree, number) {
            Each(code).note(tree, number, first);
        } else {
            code.note(tree, number, first);
        }
    }
}
