//! A font file from its tables (OpenType 1.9, "Organization of an OpenType Font").
#![tactic(auto)]

mod checksums;
mod file;
mod laws;

pub use file::assemble;
pub use laws::directory_leads_to_tables;
