//! Reads the layers of a glyph of a Glyphs source: those of the masters, and the intermediate ones.
#![tactic(auto)]

mod bases;
mod forms;
mod glyph_layers;
mod layers;
mod places;
mod rule_laws;

pub use glyph_layers::raw_glyph;
pub use rule_laws::{
    forms_are_compared, glyph_rules_are_tabled, other_forms_are_refused, read_glyphs_are_whole,
};
