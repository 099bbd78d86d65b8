//! The fields of which a font's tables are made, and why a table can't be built.
#![tactic(auto)]

mod errors;
mod fields;

pub use errors::TableError;
pub use fields::{padding, push_int16, push_uint16, push_uint32, push_zeros};
