//! What fontc reads and writes: files, the console, and the gate that workers pass before each job.
//!
//! Each is a trait with meanings (ghost members): what paths hold, what the console took, and how
//! often calls failed. A call fails only where its count rose, so code above can tell no failure
//! that the outside didn't show. No call of a trait takes memory.
#![tactic(auto)]

mod console;
mod files;
mod gate;
mod mem_console;
mod mem_files;
mod real;
mod sure;

pub use console::Console;
pub use files::{Failed, Files};
pub use gate::{Gate, OpenGate};
pub use mem_console::MemConsole;
pub use mem_files::MemFiles;
pub use real::{RealConsole, RealFiles};
pub use sure::{SureConsole, SureFiles};
