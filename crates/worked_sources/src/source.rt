use anyhow::{Context, Result, ensure};
use std::alloc::Global;
use std::{fs, str};

/// The bytes of a source, made piece by piece.
#[derive(Debug, Drop)]
pub struct Source {
    bytes: Vec<u8>,
}

impl Source {
    /// A source without bytes.
    pub fn new(alloc: Global) -> Source {
        Source {
            bytes: Vec::new(alloc),
        }
    }

    /// A source of these bytes.
    pub fn of(bytes: Vec<u8>) -> Source {
        Source { bytes }
    }

    pub fn as_slice(&self) -> &[u8] {
        self.bytes.as_slice()
    }

    /// Adds the bytes of a file.
    pub fn push_file(&mut self, rt: &HostRuntime, name: &str) -> Result<()> {
        let bytes = fs::read(rt, name).context(format_args!("reading {name}"))?;
        self.bytes.extend_from_slice(bytes.as_slice())?;
        Ok(())
    }

    /// Adds a text.
    pub fn push_text(&mut self, text: &str) -> Result<()> {
        self.bytes.extend_from_slice(text.as_bytes())?;
        Ok(())
    }

    /// Adds the bytes that hex digits write, with white space anywhere.
    pub fn push_hex(&mut self, alloc: Global, digits: &str) -> Result<()> {
        let bytes = bytes_of_hex(alloc, digits)?;
        self.bytes.extend_from_slice(bytes.as_slice())?;
        Ok(())
    }

    /// Adds the bytes that the hex digits of a file write.
    pub fn push_hex_file(&mut self, rt: &HostRuntime, name: &str) -> Result<()> {
        let digits = fs::read_to_string(rt, name).context(format_args!("reading {name}"))?;
        self.push_hex(rt.alloc(), digits.as_str())
    }

    /// Adds so many spaces.
    pub fn push_spaces(&mut self, alloc: Global, count: usize) -> Result<()> {
        let spaces = vec![in alloc; b' '; count]?;
        self.bytes.extend_from_slice(spaces.as_slice())?;
        Ok(())
    }

    /// Adds a text so many times. Each `#` in it stands for the number of the time, counted from 1.
    pub fn push_times(&mut self, alloc: Global, count: u64, text: &str) -> Result<()> {
        for before in 0..count {
            let number = before.saturating_add(1).to_string(alloc)?;
            self.push_numbered(text, number.as_str())?;
        }
        Ok(())
    }

    /// Adds a text with a number in place of each `#`.
    fn push_numbered(&mut self, text: &str, number: &str) -> Result<()> {
        let mut pieces = text.split('#');
        if let Some(first) = pieces.next() {
            self.push_text(first)?;
        }
        for piece in pieces {
            self.push_text(number)?;
            self.push_text(piece)?;
        }
        Ok(())
    }

    /// Puts a text in place of another one, which stands once.
    pub fn replace(&mut self, alloc: Global, old: &str, new: &str) -> Result<()> {
        let mut changed = Vec::new(alloc);
        let text = str::from_utf8(self.bytes.as_slice()).context("only text can be changed")?;
        let (before, behind) = text.split_once(old).context("the old text isn't there")?;
        ensure!(!behind.contains(old), "the old text stands twice");
        for piece in [before, new, behind] {
            changed.extend_from_slice(piece.as_bytes())?;
        }
        self.bytes = changed;
        Ok(())
    }

    /// Puts the bytes that hex digits write in place of those from a place on.
    pub fn put_hex(&mut self, alloc: Global, place: usize, digits: &str) -> Result<()> {
        let bytes = bytes_of_hex(alloc, digits)?;
        let end = place.saturating_add(bytes.len());
        let old = self.bytes.as_slice();
        ensure!(end <= old.len(), "the source has fewer bytes");
        let mut changed = Vec::new(alloc);
        for piece in [&old[..place], bytes.as_slice(), &old[end..]] {
            changed.extend_from_slice(piece)?;
        }
        self.bytes = changed;
        Ok(())
    }

    /// Keeps the first bytes alone.
    pub fn cut(&mut self, count: usize) {
        self.bytes.truncate(count);
    }
}

/// The bytes that hex digits write, with white space anywhere.
pub fn bytes_of_hex(alloc: Global, digits: &str) -> Result<Vec<u8>> {
    let mut joined = String::new(alloc);
    for word in digits.split_whitespace() {
        joined.push_str(word)?;
    }
    Ok(hex::decode(alloc, joined.as_str())?)
}
