//! Tests of the base crates, over their public calls.
#![tactic(auto)]

#[cfg(test)]
mod fields;
#[cfg(test)]
mod fixed;
#[cfg(test)]
mod lists;
#[cfg(test)]
mod outside;
#[cfg(test)]
mod plain_values;
#[cfg(test)]
mod refusals;
#[cfg(test)]
mod samples;
#[cfg(test)]
mod whole;
