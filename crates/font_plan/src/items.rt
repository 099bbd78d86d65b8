//! What the jobs of a source make.

use crate::known::Known;
use font_ir::{FlatGlyph, GlyphIr, GlyphOrder, Header};
use glyphs_source::GlyphIndex;
use metrics_tables::Measures;
use plist_reader::Tree;
use shared_values::{Shared, SharedBytes};

/// A glyph with its contours drawn, which many jobs read.
pub type DrawnGlyph = Known<Shared<FlatGlyph>>;

/// What a job makes, a variant for each kind of job. A table may be absent.
pub type Item = font_graph::Item<
    Known<Tree>,
    Known<Header>,
    Known<GlyphIndex>,
    Known<GlyphIr>,
    DrawnGlyph,
    SharedBytes,
    GlyphOrder,
    Known<Measures>,
    Option<SharedBytes>,
    SharedBytes,
>;
