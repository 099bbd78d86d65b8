ghost use Rattle.std.specs.Prelude.{◌≡◌, ◌<◌, ◌≤◌, length, is_ok, IfOk, OnErr, None};
ghost use Rattle.outside_io.specs.Counts.{HasRisen};
ghost use Rattle.outside_io.specs.Files.{Untold};
ghost use Rattle.outside_io.specs.Real.{after_call};

use crate::console::Console;
use crate::files::{Failed, Files};
use refusal_codes::NoMemory;
use std::alloc::Global;
use std::fs::{File, OpenOptions};
use std::io::{Read, Seek, SeekFrom, Write};
use std::marker::Model;
use std::{io, rt};

/// The longest name of a path whose file is kept open, in bytes.
const LONGEST_KEPT: usize = 4096;

/// The file that was last opened, with its path, what it was opened for, and where it stands.
#[derive(Drop)]
struct LastFile<F> {
    file: Option<F>,
    path: Vec<u8>,
    is_reading: bool,
    place: u64,
}

impl<F: Read + Write + Seek + Drop> LastFile<F> {
    /// No file, with memory for a path.
    fn none(alloc: Global) -> Result<LastFile<F>, NoMemory> {
        Ok(LastFile {
            file: None,
            path: Vec::with_capacity(alloc, LONGEST_KEPT)?,
            is_reading: false,
            place: 0,
        })
    }

    /// Whether it is the file of this path, opened for this.
    fn is(&self, path: &str, is_reading: bool) -> bool {
        self.file.is_some()
            && self.is_reading == is_reading
            && self.path.as_slice() == path.as_bytes()
    }

    /// Keeps a file that was just opened. A path that is too long is kept as none, so that its file
    /// is opened again.
    fn keep(&mut self, file: F, path: &str, is_reading: bool) {
        self.path.clear();
        if path.len() <= self.path.capacity() {
            let _ = self.path.extend_from_slice(path.as_bytes());
        }
        self.file = Some(file);
        self.is_reading = is_reading;
        self.place = 0;
    }

    /// Lets the file go.
    fn close(&mut self) {
        self.file = None;
    }

    /// Reads from a place on, going there only where it stands elsewhere.
    fn read_at(&mut self, place: u64, into: &mut [u8]) -> io::Result<usize>
        ensures fits { IfOk result (λ n. n ≤ length into.old) }
    {
        let Some(file) = &mut self.file else {
            return Err(io::Error::from(io::ErrorKind::NotFound));
        };
        if self.place != place {
            file.seek(SeekFrom::Start(place))?;
        }
        let count = file.read(into)?;
        self.place = place.saturating_add(count as u64);
        Ok(count)
    }

    /// Writes at the end.
    fn write_on(&mut self, bytes: &[u8]) -> io::Result<usize>
        ensures fits { IfOk result (λ n. n ≤ length bytes.now) }
    {
        let Some(file) = &mut self.file else {
            return Err(io::Error::from(io::ErrorKind::NotFound));
        };
        file.write(bytes)
    }
}

/// The files of the system. They tell no content. One count serves all failed reads, and another
/// all failed calls of `begin` and `append`; each stops at `u64::MAX`.
///
/// The file last opened is kept, so that reading or appending on opens nothing again.
#[derive(Drop)]
pub struct RealFiles<'a, R: rt::Files> {
    rt: &'a R,
    last: LastFile<R::File>,
    failed_reads: u64,
    failed_writes: u64,
}

impl<'a, R: rt::Files> Model for RealFiles<'a, R> {
    ghost use Rattle.outside_io.specs.Real.{Real};

    ghost Value = { Real };

    ghost view = { λ f. record { failed_reads = f.failed_reads; failed_writes = f.failed_writes } };
}

impl<'a, R: rt::Files> RealFiles<'a, R> {
    ghost use Rattle.outside_io.specs.Real.{Real};

    /// The files that this runtime reaches. No call has failed yet.
    pub fn new(rt: &'a R, alloc: Global) -> Result<RealFiles<'a, R>, NoMemory>
        ensures { IfOk result (λ files. files ≡ record { failed_reads = 0; failed_writes = 0 }) }
    {
        Ok(RealFiles {
            rt,
            last: LastFile::none(alloc)?,
            failed_reads: 0,
            failed_writes: 0,
        })
    }

    /// Reads, opening the file where it isn't the one that is kept.
    fn try_read(&mut self, path: &str, place: u64, into: &mut [u8]) -> io::Result<usize>
        ensures fits { IfOk result (λ n. n ≤ length into.old) }
        ensures after { self.new ≡ self.old }
    {
        if !self.last.is(path, true) {
            self.last.keep(File::open(self.rt, path)?, path, true);
        }
        self.last.read_at(place, into)
    }

    /// Makes an empty file, and keeps it to write on.
    fn try_begin(&mut self, path: &str) -> io::Result<()>
        ensures after { self.new ≡ self.old }
    {
        self.last.keep(File::create(self.rt, path)?, path, false);
        Ok(())
    }

    /// Writes on, opening the file where it isn't the one that is kept.
    fn try_append(&mut self, path: &str, bytes: &[u8]) -> io::Result<usize>
        ensures fits { IfOk result (λ n. n ≤ length bytes.now) }
        ensures after { self.new ≡ self.old }
    {
        if !self.last.is(path, false) {
            let file = OpenOptions::new().append(true).open(self.rt, path)?;
            self.last.keep(file, path, false);
        }
        self.last.write_on(bytes)
    }
}

impl<'a, R: rt::Files> Files for RealFiles<'a, R> {
    ghost holds = { λ _ _. Untold };

    ghost failed_reads = { λ files _. files.failed_reads };

    ghost failed_writes = { λ files _. files.failed_writes };

    fn read_some(&mut self, path: &str, place: u64, into: &mut [u8]) -> Result<usize, Failed>
        ensures fits { IfOk result (λ n. n ≤ length into.old) }
        ensures cause { OnErr result (HasRisen self.old.failed_reads self.new.failed_reads) }
        ensures after { self.new ≡ record self.old {
          failed_reads = after_call (is_ok result) self.old.failed_reads;
        } }
    {
        match self.try_read(path, place, into) {
            Ok(count) => Ok(count),
            Err(_) => {
                self.last.close();
                self.failed_reads = self.failed_reads.saturating_add(1);
                Err(Failed)
            }
        }
    }

    fn begin(&mut self, path: &str) -> Result<(), Failed>
        ensures cause { OnErr result (HasRisen self.old.failed_writes self.new.failed_writes) }
        ensures after { self.new ≡ record self.old {
          failed_writes = after_call (is_ok result) self.old.failed_writes;
        } }
    {
        if self.try_begin(path).is_ok() {
            return Ok(());
        }
        self.last.close();
        self.failed_writes = self.failed_writes.saturating_add(1);
        Err(Failed)
    }

    fn append(&mut self, path: &str, bytes: &[u8]) -> Result<usize, Failed>
        requires { 0 < length bytes.now }
        ensures some { IfOk result (λ n. (0 < n) × (n ≤ length bytes.now)) }
        ensures cause { OnErr result (HasRisen self.old.failed_writes self.new.failed_writes) }
        ensures after { self.new ≡ record self.old {
          failed_writes = after_call (is_ok result) self.old.failed_writes;
        } }
    {
        if let Ok(count) = self.try_append(path, bytes)
            && count > 0
        {
            return Ok(count);
        }
        self.last.close();
        self.failed_writes = self.failed_writes.saturating_add(1);
        Err(Failed)
    }
}

/// Standard output. It tells nothing of what it took. Its count of failed writes stops at
/// `u64::MAX`; a contract sees it as that count.
#[derive(Drop)]
pub struct RealConsole<'a, R: Print> {
    rt: &'a R,
    failed_writes: u64,
}

impl<'a, R: Print> Model for RealConsole<'a, R> {
    ghost use Rattle.std.specs.Prelude.{ℕ};

    ghost Value = { ℕ };

    ghost view = { λ c. c.failed_writes };
}

impl<'a, R: Print> RealConsole<'a, R> {
    /// The standard output of this runtime. No write has failed yet.
    pub fn new(rt: &'a R) -> RealConsole<'a, R>
        ensures { result ≡ 0 }
    {
        RealConsole {
            rt,
            failed_writes: 0,
        }
    }
}

impl<'a, R: Print> Console for RealConsole<'a, R> {
    ghost took = { λ _. None };

    ghost failed_writes = { λ count. count };

    fn write(&mut self, bytes: &[u8]) -> Result<usize, Failed>
        requires { 0 < length bytes.now }
        ensures some { IfOk result (λ n. (0 < n) × (n ≤ length bytes.now)) }
        ensures cause { OnErr result (HasRisen self.old self.new) }
        ensures after { self.new ≡ after_call (is_ok result) self.old }
    {
        if let Ok(count) = io::writer(self.rt).write(bytes)
            && count > 0
        {
            return Ok(count);
        }
        self.failed_writes = self.failed_writes.saturating_add(1);
        Err(Failed)
    }
}
