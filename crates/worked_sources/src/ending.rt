use crate::source::bytes_of_hex;
use anyhow::{Context, Result};
use std::alloc::{AllocError, Global};
use std::fs;

/// What the output holds before each run.
pub const BEFORE: &[u8] = b"what stood there before, and is longer than nothing";

/// What the output must hold after a run.
#[derive(Clone, Copy, Debug, Drop)]
pub enum Left<'a> {
    /// What it held before.
    AsBefore,
    /// The bytes of a file of hex digits.
    Font(&'a str),
    /// The first bytes of such a file.
    First(usize, &'a str),
    /// So many bytes, which aren't named.
    Count(usize),
}

impl Left<'_> {
    /// Whether these bytes are so.
    pub fn is(&self, rt: &HostRuntime, bytes: &[u8]) -> Result<bool> {
        match *self {
            Left::AsBefore => Ok(bytes == BEFORE),
            Left::Font(name) => Ok(bytes == font(rt, name)?.as_slice()),
            Left::First(count, name) => Ok(
                bytes.len() == count && font(rt, name)?.starts_with(bytes),
            ),
            Left::Count(count) => Ok(bytes.len() == count),
        }
    }
}

/// The bytes of a font, from a file of hex digits.
fn font(rt: &HostRuntime, name: &str) -> Result<Vec<u8>> {
    let digits = fs::read_to_string(rt, name).context(format_args!("reading {name}"))?;
    bytes_of_hex(rt.alloc(), digits.as_str())
}

/// How a run ended.
#[derive(Debug, Drop)]
pub struct Ended {
    /// The exit status.
    pub status: u8,
    /// What the output holds.
    pub output: Vec<u8>,
    /// Whether the source's path holds what it must: the source, or what was written over it.
    pub source_kept: bool,
    /// What the console took.
    pub printed: String,
}

impl Ended {
    /// How it ended, in a few words: the exit status, and the console's first line.
    pub fn summary(&self, alloc: Global) -> Result<String, AllocError> {
        let status = self.status;
        match self.printed.lines().next() {
            None => format!(in alloc; "status {status}, nothing printed"),
            Some(line) => format!(in alloc; "status {status}, {line}"),
        }
    }
}
