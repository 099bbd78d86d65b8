ghost use Rattle.std.specs.Prelude.{◌≡◌, ◌<◌, ◌≤◌, List, [], ◌∷◌, ◌++◌, length, take, Some, IfOk};
ghost use Rattle.std.specs.Prelude.{OnOk, OnErr};
ghost use Rattle.std.specs.Result.{result_ok};
ghost use Rattle.outside_io.specs.Counts.{last_count};
ghost use Rattle.outside_io.specs.Console.{empty_console, write_count, written, write_failed};

use crate::console::Console;
use crate::files::Failed;
use refusal_codes::NoMemory;
use std::alloc::Global;
use std::marker::Model;

/// A console in memory, whose writes fail where a test wants them to.
///
/// All memory is taken when it is made and in `fail`, so that `write` takes none.
#[derive(Drop)]
pub struct MemConsole {
    taken: Vec<u8>,
    room: usize,
    listed: Vec<u64>,
    calls: u64,
    failed_writes: u64,
}

impl Model for MemConsole {
    ghost use Rattle.std.specs.Prelude.{◌≤◌, ◌+◌, vec_len, vec_capacity};
    ghost use Rattle.outside_io.specs.Console.{ConsoleMemory};

    ghost Value = { ConsoleMemory };

    ghost view = { λ c. record {
      taken = c.taken.items;
      room = c.room;
      listed = c.listed.items;
      calls = c.calls;
      failed_writes = c.failed_writes;
    } };

    ghost invariant = { λ c. vec_len c.taken + c.room ≤ vec_capacity c.taken };
}

impl MemConsole {
    ghost use Rattle.outside_io.specs.Console.{ConsoleMemory};

    /// A console that may take this many bytes in all. No write is listed to fail.
    pub fn with_room(alloc: Global, room: usize) -> Result<MemConsole, NoMemory>
        ensures { IfOk result (λ console. console ≡ empty_console room) }
    {
        Ok(MemConsole {
            taken: Vec::with_capacity(alloc, room)?,
            room,
            listed: Vec::new(alloc),
            calls: 0,
            failed_writes: 0,
        })
    }

    /// Lists a write that is to fail. Writes are numbered from 1.
    pub fn fail(&mut self, _alloc: Global, call: u64) -> Result<(), NoMemory>
        ensures ok { OnOk result (self.new ≡ record self.old
            { listed = self.old.listed ++ call ∷ [] }) }
        ensures err { OnErr result (self.new ≡ self.old) }
    {
        self.listed.push(call)?;
        Ok(())
    }

    /// All bytes that it took.
    pub fn held(&self) -> &[u8]
        ensures { result.now ≡ self.now.taken }
    {
        self.taken.as_slice()
    }
}

impl Console for MemConsole {
    ghost took = { λ console. Some console.taken };

    ghost failed_writes = { λ console. console.failed_writes };

    /// Fails exactly where the write is listed or no room is left.
    fn write(&mut self, bytes: &[u8]) -> Result<usize, Failed>
        requires { 0 < length bytes.now }
        ensures sound { self.old.failed_writes ≤ last_count }
        ensures count { result_ok result ≡ write_count self.old (length bytes.now) }
        ensures ok { IfOk result (λ n. self.new ≡ written self.old (take n bytes.now)) }
        ensures err { OnErr result (self.new ≡ write_failed self.old) }
    {
        self.calls = self.calls.saturating_add(1);
        if self.listed.contains(&self.calls) || self.room == 0 {
            self.failed_writes = self.failed_writes.saturating_add(1);
            return Err(Failed);
        }
        let count = bytes.len().min(self.room);
        self.taken.extend_from_slice(&bytes[..count]).unwrap();
        self.room -= count;
        Ok(count)
    }
}
