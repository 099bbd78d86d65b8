//! Tables that lead to parts of themselves by offsets: trees of nodes, and the bytes of a tree.
#![tactic(auto)]

mod cells;
mod equal;
mod errors;
mod layouts;
mod near;
mod node;
mod spelling;

pub use errors::LayoutError;
pub use layouts::{layout, length};
pub use node::{Field, Node};
