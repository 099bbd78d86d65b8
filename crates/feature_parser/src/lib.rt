//! Feature code read word by word: what each word makes of those before it, which stands in
//! `specs` alone, without code.
#![tactic(auto)]
