//! What a glyph that is drawn fulfils. Each function is a law: it does nothing.

ghost use Rattle.std.specs.Prelude.{◌≡◌, ℕ, List, Ok};
ghost use Rattle.std.specs.List.{All};
ghost use Rattle.font_ir.specs.declared.glyph.GlyphIr.{GlyphIr};
ghost use Rattle.font_ir.specs.declared.glyph.FlatGlyph.{FlatGlyph};
ghost use Rattle.font_ir.specs.FlatGlyphs.{IsFlatGlyph};
ghost use Rattle.font_ir.specs.ReadGlyphs.{IsReadGlyph};
ghost use Rattle.glyphs_source.specs.declared.entries.IndexEntry.{IndexEntry};
ghost use Rattle.component_flatten.specs.Flattening.{flat_of, IsBase};
ghost use Rattle.component_flatten.specs.SourceDrawing.{DepthsDrawAlike};
ghost use Rattle.component_flatten.specs.SourceDrawing.{FlatGlyphsDrawAsTheirSource};

/// What `flatten` draws of a glyph that was read, with bases that are flat glyphs, is a flat glyph.
pub fn drawn_glyphs_are_flat()
    ensures { (index : List (List ℕ × IndexEntry)) (name : List ℕ) (glyph : GlyphIr)
        (bases : List FlatGlyph) (flat : FlatGlyph) → IsReadGlyph glyph
        → All (IsBase glyph.places) bases → flat_of index name glyph bases ≡ Ok flat
        → IsFlatGlyph flat }
{}

/// What a glyph draws in its source doesn't depend on how far its components are followed, where
/// that is far enough.
pub fn depths_draw_alike()
    ensures { DepthsDrawAlike }
{}

/// What `flatten` draws of a glyph is what the glyph draws in its source, by recursion on the
/// components of the source's glyphs, where this holds of its bases.
pub fn flat_glyphs_draw_as_their_source()
    ensures { FlatGlyphsDrawAsTheirSource }
{}
