//! The tables of a family's styles: `STAT`, what the places on its axes are called, and `MVAR`, how
//! the metrics of the whole font vary (OpenType 1.9).
#![tactic(auto)]

mod axis_values;
mod metrics;
mod metrics_variations;
mod style_attributes;

pub use metrics_variations::mvar;
pub use style_attributes::stat;
