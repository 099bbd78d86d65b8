//! The table "cmap" (OpenType 1.9): from character codes to glyph numbers, in the formats 4 and 12.
#![tactic(auto)]

mod errors;
mod groups;
mod laws;
mod runs;
mod segments;
mod table;

pub use errors::CmapError;
pub use laws::{codes_lead_to_their_glyphs, runs_are_the_longest};
pub use runs::Run;
pub use table::cmap;
