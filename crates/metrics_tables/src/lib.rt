//! What a font's tables of metrics are made of, and the tables `head`, `hhea`, `maxp`, `hmtx`,
//! `OS/2`, `post` and `HVAR` (OpenType 1.9).
#![tactic(auto)]

mod advance_variations;
mod bounds;
mod changes;
mod fields;
mod glyph_names;
mod laws;
mod measures;
mod measuring;
mod nesting;
mod outline;
mod region_index;
mod style_metrics;
mod tables;

pub use advance_variations::hvar;
pub use glyph_names::post;
pub use laws::measures_are_for_their_header;
pub use measures::{Maxima, MeasureError, Measures};
pub use measuring::measure;
pub use style_metrics::os2;
pub use tables::{head, hhea, hmtx, maxp};
