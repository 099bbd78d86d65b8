//! The commands of fontc: what each reads and writes, and what it prints.
#![tactic(auto)]

mod inspect;
mod lines;
mod runs;
mod sample;
mod status;
mod writing;

pub use runs::{run, run_alone, run_program};
pub use status::{Report, Status};
