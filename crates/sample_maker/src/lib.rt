//! Makes sources of any size, of which tests and measurements can be repeated anywhere.
#![tactic(auto)]

mod draws;
mod glyphs;
mod text;

pub use text::sample;
