//! Tests of the reader of feature code, over its public calls.
#![tactic(auto)]

#[cfg(test)]
mod tokens;
