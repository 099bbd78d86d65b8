ghost use Rattle.std.specs.Prelude.{◌≡◌, ◌+◌, ◌-◌, ◌<◌, min, true, false, List, ◌++◌, length, take};
ghost use Rattle.std.specs.Prelude.{drop, None, IsOk, IfOk};
ghost use Rattle.outside_io.specs.Sure.{sure_holding, added};

use crate::console::Console;
use crate::files::{Failed, Files};
use crate::mem_files::copy_from;
use std::marker::Model;

/// Files that never fail: every path has the bytes of one slice, and what is appended is counted
/// and not kept.
#[derive(Drop)]
pub struct SureFiles<'a> {
    source: &'a [u8],
    is_written: bool,
    appended: u64,
}

impl<'a> Model for SureFiles<'a> {
    ghost use Rattle.outside_io.specs.Sure.{Sure};

    ghost Value = { Sure };

    ghost view = { λ s. record {
      source = s.source.now;
      is_written = s.is_written;
      appended
          = s.appended;
    } };
}

impl<'a> SureFiles<'a> {
    ghost use Rattle.outside_io.specs.Sure.{Sure};

    /// Files over a slice.
    pub fn over(source: &'a [u8]) -> SureFiles<'a>
        ensures { result ≡ record { source = source.now; is_written = false; appended = 0 } }
    {
        SureFiles {
            source,
            is_written: false,
            appended: 0,
        }
    }

    /// How many bytes were appended, to all paths, up to `u64::MAX`.
    pub fn appended(&self) -> u64
        ensures { result ≡ self.now.appended }
    {
        self.appended
    }
}

impl<'a> Files for SureFiles<'a> {
    ghost holds = { λ files _. sure_holding files };

    ghost failed_reads = { λ _ _. 0 };

    ghost failed_writes = { λ _ _. 0 };

    fn read_some(&mut self, _path: &str, place: u64, into: &mut [u8]) -> Result<usize, Failed>
        ensures count { result ≡ Ok (min (length into.old) (length self.old.source - place)) }
        ensures into { IfOk result (λ n. into.new
            ≡ take n (drop place self.old.source) ++ drop n into.old) }
        ensures after { self.new ≡ self.old }
    {
        Ok(copy_from(self.source, place, usize::MAX, into))
    }

    fn begin(&mut self, _path: &str) -> Result<(), Failed>
        ensures ok { IsOk result }
        ensures after { self.new ≡ record self.old { is_written = true } }
    {
        self.is_written = true;
        Ok(())
    }

    fn append(&mut self, _path: &str, bytes: &[u8]) -> Result<usize, Failed>
        requires { 0 < length bytes.now }
        ensures count { result ≡ Ok (length bytes.now) }
        ensures after { self.new ≡ record self.old {
          is_written = true;
          appended = added self.old.appended (length bytes.now);
        } }
    {
        self.is_written = true;
        self.appended = self.appended.saturating_add(bytes.len() as u64);
        Ok(bytes.len())
    }
}

/// A console that never fails: it counts bytes and keeps none. A contract sees it as that count.
#[derive(Drop)]
pub struct SureConsole {
    taken: u64,
}

impl Model for SureConsole {
    ghost use Rattle.std.specs.Prelude.{ℕ};

    ghost Value = { ℕ };

    ghost view = { λ c. c.taken };
}

impl SureConsole {
    /// A console that took nothing.
    pub fn new() -> SureConsole
        ensures { result ≡ 0 }
    {
        SureConsole { taken: 0 }
    }

    /// How many bytes it took, up to `u64::MAX`.
    pub fn taken(&self) -> u64
        ensures { result ≡ self.now }
    {
        self.taken
    }
}

impl Console for SureConsole {
    ghost took = { λ _. None };

    ghost failed_writes = { λ _. 0 };

    fn write(&mut self, bytes: &[u8]) -> Result<usize, Failed>
        requires { 0 < length bytes.now }
        ensures count { result ≡ Ok (length bytes.now) }
        ensures after { self.new ≡ added self.old (length bytes.now) }
    {
        self.taken = self.taken.saturating_add(bytes.len() as u64);
        Ok(bytes.len())
    }
}
