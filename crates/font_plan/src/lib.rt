//! Which sources are accepted, and the font of each: the jobs of a source.
#![tactic(auto)]

mod alone;
mod bases;
mod compile;
mod font_jobs;
mod font_reads;
mod glyph_jobs;
mod items;
mod known;
mod laws;
mod order;
mod outcomes;
mod plan;
mod reads;
mod source_jobs;
mod specs_of;
mod telling;

pub use compile::{Built, compile_one};
pub use items::{DrawnGlyph, Item};
pub use known::{Fact, Known};
pub use laws::{
    a_refused_text_refuses_its_source, a_source_is_accepted_where_nothing_fails,
    a_source_is_accepted_with_its_parts, a_source_is_refused_by_its_least_failure,
    failures_are_those_of_the_parts, glyphs_draw_as_their_source, jobs_make_the_direct_font,
};
pub use plan::FontPlan;
pub use source_jobs::source_too_large;
pub use telling::verdict;
