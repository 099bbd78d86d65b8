//! Fonts that are read back from their bytes, whatever the bytes are: the tables and the forms that
//! this compiler writes, and of a simple glyph's points and of the deltas behind long offsets all
//! forms of OpenType 1.9.
//!
//! Each call answers a value or the first fault on the way to it, by its kind and its place. Only
//! `Room::new` takes memory.
#![tactic(auto)]

mod advances;
mod cmap;
mod directory;
mod faults;
mod fields;
mod inferred;
mod laws;
mod metrics;
mod names;
mod outlines;
mod packed;
mod points;
mod room;
mod shapes;
mod stores;
mod tuples;
mod versions;

pub use directory::FontView;
pub use faults::{FaultKind, FontFault};
pub use laws::{peaks_are_whole, points_stay_without_tuples, tables_are_found};
pub use metrics::Metric;
pub use points::Point;
pub use room::Room;
