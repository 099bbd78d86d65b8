//! Which points of a moving outline need no delta of their own, since a font's reader infers it
//! from those of their neighbours (OpenType 1.9, "gvar", "Inferred deltas for un-referenced point
//! numbers").
#![tactic(auto)]

mod inferred;
mod left_out;
mod moved;

pub use left_out::omit;
