//! Tests of the table "gvar", over the public calls of its writer.
#![tactic(auto)]

#[cfg(test)]
mod gvar;
