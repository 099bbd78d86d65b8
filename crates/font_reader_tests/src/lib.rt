//! Tests of fonts that are read back, over public calls.
#![tactic(auto)]

#[cfg(test)]
mod calls;
#[cfg(test)]
mod faults;
#[cfg(test)]
mod fonts;
#[cfg(test)]
mod large;
#[cfg(test)]
mod outlines;
