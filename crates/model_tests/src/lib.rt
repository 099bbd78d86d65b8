//! Tests of the axes' coordinates and of the variation model, over their public calls.
#![tactic(auto)]

#[cfg(test)]
mod axes;
#[cfg(test)]
mod places;
#[cfg(test)]
mod variations;
