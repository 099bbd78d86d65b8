//! What a command is: the words that spell it, and what they say.
#![tactic(auto)]

mod command;
mod given;
mod grammar;
mod matched;
mod numbers;

pub use command::{BuildCommand, Command, InspectCommand, SampleCommand};
pub use given::read_command;
pub use numbers::place;
