//! Tests of the turnstile, over a counted list of numbers.
#![tactic(auto)]

mod numbers;

pub use numbers::{Numbers, TITLE, all_take_turns, close_list, take_turns, written_by};

#[cfg(test)]
mod tests;
