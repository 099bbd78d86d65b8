//! The tables "glyf" and "loca" (OpenType 1.9): the outlines of a font's glyphs, and where each
//! one's data stand.
#![tactic(auto)]

mod bytes;
mod composite;
mod flags;
mod outline;
mod simple;
mod tables;

pub use composite::composite_bytes;
pub use simple::simple_bytes;
pub use tables::{glyf_table, loca_table};
