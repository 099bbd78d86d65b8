//! A turnstile: one value, and passes that take turns with it, in the order of the tickets that
//! they draw.
//!
//! The value stands for a list of entries, each with the number of the worker that made it. Every
//! pass knows how much of the one list it has seen and which entries are its own, and no turn can
//! take an entry back.
#![tactic(auto)]

mod counted;
mod knowledge;
mod pass;
mod plays;
mod rule;
mod seats;
mod steps;
mod turn;
mod turnstile;

pub use counted::Counted;
pub use pass::Pass;
pub use turn::Turn;
pub use turnstile::Turnstile;
