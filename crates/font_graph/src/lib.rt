//! The graph of a source's jobs: which jobs there are, what each reads, and which it adds.
//!
//! What the jobs make is left open here: the graph is defined over any parts (a reader of trees, a
//! writer of tables, ..), and for any parts its plan is solved, so that it is lawful and its limit
//! is known.
#![tactic(auto)]

mod ids;
mod items;

pub use ids::JobId;
pub use items::Item;
