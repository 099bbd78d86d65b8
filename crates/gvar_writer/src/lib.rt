//! The table "gvar" (OpenType 1.9): how far the points of each glyph move from one master of a
//! font to another.
#![tactic(auto)]

mod glyph;
mod headers;
mod laws;
mod named;
mod packed;
mod padded;
mod positions;
mod rows;
mod table;
mod tuples;

pub use glyph::glyph_variations;
pub use laws::{packed_deltas_read_back, packed_points_read_back, runs_are_the_longest};
pub use positions::{Coordinate, Position};
pub use table::gvar_table;
