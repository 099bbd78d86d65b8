//! Tests of the readers of glyphs, over public calls.
#![tactic(auto)]

#[cfg(test)]
mod codes;
#[cfg(test)]
mod flattening;
#[cfg(test)]
mod glyphs;
#[cfg(test)]
mod intermediate_layers;
#[cfg(test)]
mod layers;
