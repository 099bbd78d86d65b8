//! The character codes of a font's glyphs, in rising order, each with its glyph ID.
#![tactic(auto)]

mod codes;
mod laws;

pub use codes::codes_in;
pub use laws::{codes_are_those_of_the_glyphs, codes_rise};
