//! What a Glyphs source says of its masters, of its metrics, and of the parameters of both.
#![tactic(auto)]

mod laws;
mod metrics;
mod parameters;
mod records;
mod rules;
mod whole_rules;

pub use laws::{
    font_parameter_rules_are_tabled, fractions_of_masters_are_refused, master_rules_are_tabled,
    metric_rules_are_tabled, missing_ids_are_refused, ranges_of_masters_are_kept,
    sound_masters_are_read,
};
pub use metrics::{Heights, Metrics};
pub use parameters::FontParameters;
pub use records::{masters, masters_place};
pub use rules::{Masters, note_masters};
pub use whole_rules::{
    duplicate_master, no_master, note_axis_counts, origin, too_many_masters, unknown_origin,
};
