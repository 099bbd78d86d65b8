//! What holds of the tables of any font.

ghost use Rattle.std.specs.Prelude.{◌≡◌, ℕ, List, [], length, true, is_some, Ok};
ghost use Rattle.std.specs.List.{list_all};
ghost use Rattle.font_ir.specs.declared.header.Header.{Header};
ghost use Rattle.font_ir.specs.declared.glyph.FlatGlyph.{FlatGlyph};
ghost use Rattle.font_ir.specs.FlatGlyphs.{IsFlatGlyph};
ghost use Rattle.font_ir.specs.Headers.{IsHeader};
ghost use Rattle.font_ir.specs.Notdef.{made_notdef_of};
ghost use Rattle.font_ir.specs.Places.{axis_count};
ghost use Rattle.font_tables.specs.Ordered.{tags_rise};
ghost use Rattle.font_tables.specs.Tags.{group_of};
ghost use Rattle.font_tables.specs.Variations.{variations_of};
ghost use Rattle.font_tables.specs.declared.tags.TheConstants.{TABLE_TAGS};

use font_ir::made_notdef_is_flat;

/// The tags of tables rise, and each table is made of something. A law: the function does nothing.
pub fn table_tags_rise()
    ensures rise { tags_rise TABLE_TAGS ≡ true }
    ensures groups { list_all (λ tag. is_some (group_of tag)) TABLE_TAGS ≡ true }
{}

/// The `.notdef` that is made for a header is the same at every place: it has no variation data. A
/// law: the function does nothing.
pub fn made_notdef_does_not_vary()
    ensures { (header : Header) (name : List ℕ) → IsHeader header
        → variations_of header name (made_notdef_of header) ≡ Ok [] }
{
    made_notdef_is_flat();
}

/// In a font without axes no glyph has variation data. A law: the function does nothing.
pub fn fonts_without_axes_do_not_vary()
    ensures { (header : Header) (name : List ℕ) (glyph : FlatGlyph) → header.axes ≡ []
        → IsFlatGlyph glyph → axis_count glyph.places ≡ length header.axes
        → variations_of header name glyph ≡ Ok [] }
{}
