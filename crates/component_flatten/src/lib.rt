//! Draws the contours of a glyph.
#![tactic(auto)]

mod anchors;
mod between;
mod betweens;
mod composites;
mod counting;
mod drawing;
mod flat;
mod laws;
mod limits;
mod transform;

pub use composites::component_count;
pub use flat::flatten;
pub use laws::{depths_draw_alike, drawn_glyphs_are_flat, flat_glyphs_draw_as_their_source};
