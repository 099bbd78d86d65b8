ghost use Rattle.std.specs.Prelude.{◌≡◌, ◌⊎◌, ℕ, ◌+◌, ◌-◌, ◌<◌, ◌≤◌, min, List, [], ◌∷◌, ◌++◌};
ghost use Rattle.std.specs.Prelude.{length, take, drop, Some, unwrap_or, is_some, IfSome, IfOk};
ghost use Rattle.std.specs.Prelude.{OnOk, OnErr, IsTrue, is_ok, nat_lt, if◌then◌else◌, vec_len};
ghost use Rattle.std.specs.Prelude.{vec_capacity};
ghost use Rattle.std.specs.Result.{result_ok};
ghost use Rattle.std.specs.Option.{option_copied};
ghost use Rattle.std.specs.List.{position_from};
ghost use Rattle.std.specs.Str.{bytes_eq};
ghost use Rattle.outside_io.specs.Slots.{HasRoom};
ghost use Rattle.outside_io.specs.Memory.{IsSound, number_of, bytes_at, with_bytes, holding_of};
ghost use Rattle.outside_io.specs.Memory.{empty_memory, has_place, is_listed, read_count, begins};
ghost use Rattle.outside_io.specs.Memory.{append_count, counted, read_failed, write_failed, begun};
ghost use Rattle.outside_io.specs.Memory.{appended};

use crate::files::{Failed, Files};
use refusal_codes::NoMemory;
use std::alloc::Global;
use std::marker::Model;

/// The longest name of a path, in bytes.
const LONGEST_NAME: usize = 255;

/// A place for a path and its bytes.
#[derive(Drop)]
struct Slot {
    name: Vec<u8>,
    bytes: Vec<u8>,
}

/// Files in memory, whose calls fail where a test wants them to.
///
/// All memory is taken when they are made and in `put` and `fail`, so that no call of `Files` takes
/// any.
#[derive(Drop)]
pub struct MemFiles {
    slots: Vec<Slot>,
    used: usize,
    room: usize,
    step: usize,
    listed: Vec<u64>,
    calls: u64,
    failed_reads: u64,
    failed_writes: u64,
}

impl Model for MemFiles {
    ghost use Rattle.std.specs.Prelude.{◌≤◌, take, map, vec_len};
    ghost use Rattle.outside_io.specs.Memory.{Memory};

    ghost Value = { Memory };

    ghost use Rattle.outside_io.specs.Slots.{shown, AllHaveRoom};

    ghost view = { λ f. record {
      paths = map shown (take f.used f.slots.items);
      most_paths = vec_len f.slots;
      room = f.room;
      step = f.step;
      listed = f.listed.items;
      calls = f.calls;
      failed_reads = f.failed_reads;
      failed_writes = f.failed_writes;
    } };

    ghost invariant = { λ f. (f.used ≤ vec_len f.slots) × AllHaveRoom f.room f.slots.items
        × (1 ≤ f.step) };
}

/// The place in which a path is.
fn place_among(slots: &[Slot], path: &str) -> Option<usize>
    ensures { result ≡ position_from (λ slot. bytes_eq slot.name.items path.now) 0 slots.now }
{
    slots
        .iter()
        .position(|slot| slot.name.as_slice() == path.as_bytes())
}

/// Copies at most this many bytes from a place on to the front of a buffer, and answers how many
/// they were.
pub(crate) fn copy_from(bytes: &[u8], place: u64, most: usize, into: &mut [u8]) -> usize
    ensures count { result ≡ min (min (length into.old) most) (length bytes.now - place) }
    ensures copied { into.new ≡ take result (drop place bytes.now) ++ drop result into.old }
{
    let start = bytes.len().min(place as usize);
    let rest = &bytes[start..];
    let count = into.len().min(most).min(rest.len());
    into[..count].copy_from_slice(&rest[..count]);
    count
}

/// A place with memory for a name and for this many bytes.
fn empty_slot(alloc: Global, room: usize) -> Result<Slot, NoMemory>
    ensures room { IfOk result (HasRoom room) }
{
    Ok(Slot {
        name: Vec::with_capacity(alloc, LONGEST_NAME)?,
        bytes: Vec::with_capacity(alloc, room)?,
    })
}

/// Gives a place to a path without bytes.
fn name_slot(slot: &mut Slot, path: &str)
    requires long_enough { 255 ≤ vec_capacity slot.old.name }
    requires short_name { length path.now ≤ 255 }
    ensures name { slot.new.name.items ≡ path.now }
    ensures bytes { slot.new.bytes.items ≡ [] }
    ensures name_room { vec_capacity slot.old.name ≤ vec_capacity slot.new.name }
    ensures bytes_room { vec_capacity slot.new.bytes ≡ vec_capacity slot.old.bytes }
{
    slot.bytes.clear();
    slot.name.clear();
    slot.name.extend_from_slice(path.as_bytes()).unwrap();
}

/// These bytes, with memory for so many more.
fn with_spare(alloc: Global, bytes: &[u8], room: usize) -> Result<Vec<u8>, NoMemory>
    ensures items { IfOk result (λ held. held.items ≡ bytes.now) }
    ensures room { IfOk result (λ held. vec_len held + room ≤ vec_capacity held) }
{
    let capacity = bytes.len().checked_add(room).ok_or(NoMemory)?;
    let mut held = Vec::with_capacity(alloc, capacity)?;
    held.extend_from_slice(bytes)?;
    Ok(held)
}

impl MemFiles {
    ghost use Rattle.outside_io.specs.Memory.{Memory};

    /// Files without a path: at most `paths` may come, and appends may add `room` bytes in all. All
    /// reads and appends handle as many bytes as they can, and no call is listed to fail.
    pub fn with_room(alloc: Global, paths: u32, room: usize) -> Result<MemFiles, NoMemory>
        ensures { IfOk result (λ files. files ≡ empty_memory paths room) }
    {
        let mut slots = Vec::with_capacity(alloc, paths as usize)?;
        for _ in 0..paths {
            slots.push(empty_slot(alloc, room)?)?;
        }
        Ok(MemFiles {
            slots,
            used: 0,
            room,
            step: usize::MAX,
            listed: Vec::new(alloc),
            calls: 0,
            failed_reads: 0,
            failed_writes: 0,
        })
    }

    /// Makes a path hold these bytes. It is no call of `Files` and uses up no room of appends.
    pub fn put(&mut self, alloc: Global, path: &str, bytes: &[u8]) -> Result<(), NoMemory>
        requires { IsTrue (has_place self.old path.now) }
        ensures ok { OnOk result (self.new ≡ record self.old
            { paths = with_bytes self.old.paths path.now bytes.now }) }
        ensures err { OnErr result (self.new ≡ self.old) }
    {
        let held = with_spare(alloc, bytes, self.room)?;
        let place = self.open(path);
        self.slots[place].bytes = held;
        Ok(())
    }

    /// Lists a call of `Files` that is to fail. Calls are numbered from 1.
    pub fn fail(&mut self, _alloc: Global, call: u64) -> Result<(), NoMemory>
        ensures ok { OnOk result (self.new ≡ record self.old
            { listed = self.old.listed ++ call ∷ [] }) }
        ensures err { OnErr result (self.new ≡ self.old) }
    {
        self.listed.push(call)?;
        Ok(())
    }

    /// Lets each read and append handle at most `n` bytes.
    pub fn step(&mut self, n: usize)
        requires { 1 ≤ n }
        ensures { self.new ≡ record self.old { step = n } }
    {
        self.step = n;
    }

    /// The bytes of a path that is there.
    pub fn held(&self, path: &str) -> Option<&[u8]>
        ensures { option_copied result ≡ bytes_at self.now.paths path.now }
    {
        let place = self.find(path)?;
        Some(self.slots[place].bytes.as_slice())
    }

    /// The number of a path that is there.
    fn find(&self, path: &str) -> Option<usize>
        ensures number { result ≡ number_of self.now.paths path.now }
        ensures there { is_some result ≡ is_some (bytes_at self.now.paths path.now) }
        ensures within { IfSome result (λ number. number < length self.now.paths) }
    {
        place_among(&self.slots[..self.used], path)
    }

    /// Whether a path may be put or begun.
    fn has_place(&self, path: &str) -> bool
        ensures { result ≡ has_place self.now path.now }
    {
        self.find(path).is_some() || self.has_spare() && path.len() <= LONGEST_NAME
    }

    /// Whether one more path is allowed.
    fn has_spare(&self) -> bool
        ensures { result ≡ nat_lt (length self.now.paths) self.now.most_paths }
    {
        self.used < self.slots.len()
    }

    /// Makes a path hold no bytes, and answers its number.
    fn open(&mut self, path: &str) -> usize
        requires { IsTrue (has_place self.old path.now) }
        ensures after { self.new ≡ record self.old
            { paths = with_bytes self.old.paths path.now [] } }
        ensures number { number_of self.new.paths path.now ≡ Some result }
    {
        if let Some(place) = self.find(path) {
            self.slots[place].bytes.clear();
            return place;
        }
        let place = self.used;
        name_slot(&mut self.slots[place], path);
        self.used += 1;
        place
    }

    /// Counts a call, and answers whether it is to fail.
    fn is_next_listed(&mut self) -> bool
        ensures sound { IsSound self.old }
        ensures answer { result ≡ is_listed self.old }
        ensures after { self.new ≡ counted self.old }
    {
        self.calls = self.calls.saturating_add(1);
        self.listed.contains(&self.calls)
    }
}

impl Files for MemFiles {
    ghost holds = { λ files path. holding_of (bytes_at files.paths path) };

    ghost failed_reads = { λ files _. files.failed_reads };

    ghost failed_writes = { λ files _. files.failed_writes };

    /// Fails exactly where the call is listed or the path isn't there.
    fn read_some(&mut self, path: &str, place: u64, into: &mut [u8]) -> Result<usize, Failed>
        ensures sound { IsSound self.old }
        ensures count { result_ok result ≡ read_count self.old path.now place (length into.old) }
        ensures into_ok { IfOk result (λ n. into.new ≡
            take n (drop place (unwrap_or (bytes_at self.old.paths path.now) []))
            ++ drop n into.old) }
        ensures into_err { OnErr result (into.new ≡ into.old) }
        ensures after { self.new ≡ (if is_ok result then counted self.old else read_failed
            self.old) }
    {
        let is_listed = self.is_next_listed();
        if let Some(bytes) = self.held(path)
            && !is_listed
        {
            return Ok(copy_from(bytes, place, self.step, into));
        }
        self.failed_reads = self.failed_reads.saturating_add(1);
        Err(Failed)
    }

    /// Fails exactly where the call is listed, or the path isn't there and either no more path is
    /// allowed or its name is longer than 255 bytes. The path is then as before.
    fn begin(&mut self, path: &str) -> Result<(), Failed>
        ensures sound { IsSound self.old }
        ensures answer { is_ok result ≡ begins self.old path.now }
        ensures after { self.new ≡ (if is_ok result then begun self.old path.now else write_failed
            self.old) }
    {
        let is_listed = self.is_next_listed();
        if is_listed || !self.has_place(path) {
            self.failed_writes = self.failed_writes.saturating_add(1);
            return Err(Failed);
        }
        self.open(path);
        Ok(())
    }

    /// Fails exactly where the call is listed, the path isn't there or no room is left.
    fn append(&mut self, path: &str, bytes: &[u8]) -> Result<usize, Failed>
        requires { 0 < length bytes.now }
        ensures sound { IsSound self.old }
        ensures count { result_ok result ≡ append_count self.old path.now (length bytes.now) }
        ensures ok { IfOk result (λ n. self.new ≡ appended self.old path.now (take n bytes.now)) }
        ensures err { OnErr result (self.new ≡ write_failed self.old) }
    {
        let is_listed = self.is_next_listed();
        if let Some(number) = self.find(path)
            && !is_listed
            && self.room > 0
        {
            let count = bytes.len().min(self.step).min(self.room);
            let slot = &mut self.slots[number];
            slot.bytes.extend_from_slice(&bytes[..count]).unwrap();
            self.room -= count;
            return Ok(count);
        }
        self.failed_writes = self.failed_writes.saturating_add(1);
        Err(Failed)
    }
}
