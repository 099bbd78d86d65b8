//! The variation model: from the places of a family's masters, which regions its fonts have, which
//! deltas stand for a value that is known at each master, and what the deltas give at any place
//! (OpenType 1.9, "Font variations common table formats").
#![tactic(auto)]

mod errors;
mod model;
mod order;
mod scalars;
mod supports;

pub use errors::DeltaError;
pub use font_ir::Region;
pub use model::Model;
pub use scalars::{scalar, scalar_with_axis};
