//! The axes of a design space: normalised coordinates, where masters and layers lie, the pairs of
//! the table avar, and user coordinates (OpenType 1.9, "Coordinate scales and normalization" and
//! "avar").
#![tactic(auto)]

mod coordinates;
mod errors;
mod laws;
mod normal;
mod pairs;
mod placing;
mod points;
mod repeats;
mod unmapped;

pub use coordinates::{Scale, scale_of};
pub use errors::MapError;
pub use laws::{
    first_repeat_is_the_first, first_unmapped_is_the_first, placed_masters_fulfil_a_header,
    repeats_come_after_places_that_differ,
};
pub use normal::normalise;
pub use pairs::avar_map;
pub use placing::{place_masters, place_of};
pub use points::user_of;
pub use repeats::repeated_place;
pub use unmapped::unmapped_axis;
