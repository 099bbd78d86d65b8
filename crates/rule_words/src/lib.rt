//! The words of a statement of feature code so far, and what each word of a rule makes of them.
#![tactic(auto)]

mod line;
mod rules;

pub use line::{Entry, Inner, Items, Level, Line, Open, Replaced, Stop, TagWord, Verb};
pub use rules::{
    by_glyphs, by_set, by_word, call, called, ended_items, follows_pos, fresh, from_word,
    is_one_glyph, is_one_set, marked, next_context, ready, rule_entry, takes_item, takes_value,
    valued, with_item,
};
