//! Tests of the tables of what changes in the whole font, over the public calls of their writers.
#![tactic(auto)]

#[cfg(test)]
mod advances_that_change;
#[cfg(test)]
mod metrics_that_change;
