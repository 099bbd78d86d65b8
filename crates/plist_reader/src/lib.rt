//! Property lists: the text form in which Glyphs saves its sources.
#![tactic(auto)]

mod characters;
mod escape;
mod keys;
mod nodes;
mod pools;
mod reader;
mod source;
mod stack;
mod tree;

pub use nodes::Nodes;
pub use source::{
    keys_lead_to_their_values, one_front_is_the_longest, read, sources_have_one_answer,
    trees_are_unique, trees_stand_in_their_sources,
};
pub use tree::{NodeRef, Tree, TreeNode, TreeValue, ValueRef};
