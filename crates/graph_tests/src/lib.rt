//! Tests of the graph of jobs, and of what a job reads, over their public calls.
#![tactic(auto)]

#[cfg(test)]
mod boards;
#[cfg(test)]
mod chain;
#[cfg(test)]
mod contexts;
#[cfg(test)]
mod hands;
#[cfg(test)]
mod scanned;
#[cfg(test)]
mod table;
