//! Tests of the readers of whole sources, up to their headers and indexes, over public calls.
#![tactic(auto)]

#[cfg(test)]
mod axes;
#[cfg(test)]
mod headers;
#[cfg(test)]
mod limits;
#[cfg(test)]
mod masters;
#[cfg(test)]
mod property_lists;
#[cfg(test)]
mod rules;
#[cfg(test)]
mod source;
