ghost use Rattle.std.specs.Prelude.{◌≡◌, ℕ, List, Ok};
ghost use Rattle.std.specs.List.{All};
ghost use Rattle.font_ir.specs.FlatGlyphs.{IsFlatGlyph};
ghost use Rattle.font_ir.specs.Headers.{IsHeader};
ghost use Rattle.font_ir.specs.declared.header.Header.{Header};
ghost use Rattle.font_ir.specs.declared.glyph.FlatGlyph.{FlatGlyph};
ghost use Rattle.metrics_tables.specs.Changes.{BeginsWithMasters};
ghost use Rattle.metrics_tables.specs.Hvar.{AreMeasuresFor};
ghost use Rattle.metrics_tables.specs.Measuring.{measured_of};
ghost use Rattle.metrics_tables.specs.declared.measures.Measures.{Measures};

/// What is measured of glyphs whose places begin with the masters' is for their header: a row for
/// each glyph, with a change for each region, and not too many regions, each with a side on each of
/// the header's axes. A law: the function does nothing.
pub fn measures_are_for_their_header()
    ensures { (header : Header) (names : List (List ℕ)) (glyphs : List FlatGlyph)
        (measures : Measures) → IsHeader header → All IsFlatGlyph glyphs
        → All (BeginsWithMasters header) glyphs
        → measured_of header names glyphs ≡ Ok measures → AreMeasuresFor header measures }
{}
