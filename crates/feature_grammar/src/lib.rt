//! What a feature file says, and the grammar: which words spell which file.
#![tactic(auto)]

mod file;

pub use file::{
    ClassDefinition, Context, Definition, Feature, FeatureFile, FeatureItem, Flag, FlagWord, Flags,
    GlyphSet, Inherits, Item, Lookup, Marked, Member, Name, Numbers, Rule, Statement, Value,
};
