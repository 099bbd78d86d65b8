//! Lists and texts that contracts see as plain lists: of their items, and of their bytes.
//!
//! A `Vec` also knows its capacity and where it lies, so two vectors with the same items are two
//! values to a contract. These types forget that. They are made from a `Vec` or a `String`, and
//! give it back, without taking memory.
#![tactic(auto)]

mod sequence;
mod text;

pub use sequence::Sequence;
pub use text::Text;
