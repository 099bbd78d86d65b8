//! Reads the header and the glyph index of a Glyphs source from its property list.
#![tactic(auto)]

mod entries;
mod font_header;
mod header_places;
mod header_rules;
mod index;
mod index_rules;
mod laws;
mod rule_laws;

pub use entries::IndexEntry;
pub use font_header::header;
pub use index::{GlyphIndex, glyph_index};
pub use laws::{
    entries_are_numbered, exported_codes_are_distinct, glyph_names_are_short, notdef_is_exported,
    read_headers_are_whole,
};
pub use rule_laws::{
    fractions_of_the_header_are_refused, fractions_of_the_index_are_refused,
    glyphs_without_a_name_are_refused, header_rules_are_tabled, index_rules_are_tabled,
    missing_keys_of_the_header_are_refused, ranges_of_the_header_are_kept,
    ranges_of_the_index_are_kept, shapes_of_the_header_are_asked, shapes_of_the_index_are_asked,
    wrong_versions_are_refused,
};
