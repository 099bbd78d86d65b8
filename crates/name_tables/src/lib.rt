//! The tables of a font's design space and of its names: `fvar`, `avar` and `name` (OpenType 1.9).
#![tactic(auto)]

mod axes;
mod axis_maps;
mod fields;
mod instances;
mod names;
mod scales;
mod store;
mod texts;
mod utf16;

pub use axes::{FIRST_AXIS_NAME, fvar};
pub use axis_maps::avar;
pub use fields::push_fixed;
pub use names::name;
pub use scales::default_user;
