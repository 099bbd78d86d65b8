//! The store of a font's variations: rows of deltas over regions of its design space (OpenType 1.9,
//! "Font variations common table formats", "Item variation stores").
#![tactic(auto)]

mod builder;
mod errors;
mod stores;

pub use builder::StoreBuilder;
pub use errors::StoreError;
pub use font_ir::Region;
pub use stores::{plain_store, store_bytes};
