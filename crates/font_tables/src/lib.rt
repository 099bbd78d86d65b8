//! The tables of a font, each by its tag from what it is made of, and the variation data of its
//! glyphs (OpenType 1.9).
#![tactic(auto)]

mod characters;
mod errors;
mod glyph_data;
mod laws;
mod metrics;
mod outlines;
mod plain;
mod style;
mod tags;

pub use characters::{code_table, os2_table};
pub use glyph_data::{masters_model, variations, variations_over};
pub use laws::{fonts_without_axes_do_not_vary, made_notdef_does_not_vary, table_tags_rise};
pub use metrics::metrics_table;
pub use outlines::{outline_table, variations_table};
pub use plain::plain_table;
pub use style::style_table;
pub use tags::{TABLE_TAGS, TableGroup, group_of};
