//! What a job of a growing graph reads, and what came of it.
#![tactic(auto)]

mod access;
mod reads;
mod settled;

pub use access::{Access, Spec};
pub use reads::Reads;
pub use settled::{Outcome, Settled};
