//! Plain values between the parts of the compiler: what a source says and what is drawn, in which
//! order the glyphs stand, an outline as a font stores it with its bounds.
#![tactic(auto)]

mod glyph;
mod header;
mod locations;
mod notdef;
mod order;
mod outline;
mod tag;
mod variation;

pub use glyph::{Anchor, Contour, DrawnPoint, FlatGlyph, GlyphIr, Kept, LayerIr, Shape};
pub use header::{Axis, CoordinateScale, Header, Instance, KernEntry, Master};
pub use locations::{copied_locations, locations_of};
pub use notdef::{made_notdef, made_notdef_is_flat};
pub use order::GlyphOrder;
pub use outline::{StoredPoint, bounds_of, stored_point};
pub use plain_lists::Text as Name;
pub use tag::Tag;
pub use variation::{LayoutTable, Location, Region};
