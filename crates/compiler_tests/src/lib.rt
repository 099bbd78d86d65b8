//! Tests of the whole compiler, in one call and behind its commands.
#![tactic(auto)]

#[cfg(test)]
mod board;
#[cfg(test)]
mod commands;
mod font;
#[cfg(test)]
mod plan;
