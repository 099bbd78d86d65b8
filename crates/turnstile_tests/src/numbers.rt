ghost use Rattle.std.specs.Prelude.{◌≡◌, ℕ, ◌+◌, ◌^◌, ◌<◌, ◌≤◌, ◌⊎◌, false, [], ◌∷◌, ◌++◌, All};
ghost use Rattle.std.specs.Prelude.{length, IfOk};
ghost use Rattle.turnstile.specs.Entries.{AddsAtMostOne, entries_of};
ghost use Rattle.turnstile.specs.Passes.{IsHistoryOf};
ghost use Rattle.turnstile_tests.specs.Turns.{numbers_of, IsInOrder, IsFresh, IsDone, SameWorkers};

use refusal_codes::NoMemory;
use std::alloc::{AllocError, Global};
use std::sync::Wait;
use std::thread;
use std::thread::Threads;
use turnstile::{Counted, Pass, Turnstile};

/// The title of the list.
pub const TITLE: u64 = 7;

/// Numbers, each with the worker that wrote it down, under a title that stays.
#[derive(Drop)]
pub struct Numbers {
    pub title: u64,
    pub entries: Vec<(u32, u64)>,
}

impl Counted for Numbers {
    type Entry = u64;

    type Root = u64;

    ghost entries = { λ n. n.entries.items };

    ghost root = { λ n. n.title };

    fn count(&self) -> u64 {
        self.entries.len() as u64
    }
}

impl Numbers {
    /// No numbers yet, with room for some.
    pub fn with_room(alloc: Global, title: u64, room: usize) -> Result<Numbers, AllocError>
        ensures { IfOk result (λ n. (n.entries.items ≡ []) × (n.title ≡ title)) }
    {
        Ok(Numbers {
            title,
            entries: Vec::with_capacity(alloc, room)?,
        })
    }

    /// Writes a worker's next number down, and gives the one after it, or the same again where
    /// there is no memory.
    pub fn write(&mut self, worker: u32, number: u64) -> u64
        requires { number + 1 < 2 ^ 64 }
        ensures list { AddsAtMostOne worker self.old.entries.items self.new.entries.items }
        ensures written { ((result ≡ number + 1)
            × (self.new.entries.items ≡ self.old.entries.items ++ (worker, number) ∷ []))
            ⊎ ((result ≡ number) × (self.new.entries.items ≡ self.old.entries.items)) }
        ensures next { result ≤ number + 1 }
        ensures title { self.new.title ≡ self.old.title }
    {
        if self.entries.reserve(1).is_err() {
            return number;
        }
        self.entries.push_reserved((worker, number));
        number + 1
    }
}

/// One turn of a worker: it writes its next number down. Gives the one after it.
fn take_turn<R: Wait>(
    rt: &R,
    turnstile: &Turnstile<Numbers>,
    pass: &mut Pass<Numbers>,
    number: u64,
) -> u64
    requires table { pass.old.table ≡ turnstile.now.table }
    requires free { pass.old.is_out ≡ false }
    requires so_far { pass.old.mine ≡ numbers_of pass.old.worker number }
    requires few { number + 1 < 2 ^ 64 }
    ensures table { pass.new.table ≡ pass.old.table }
    ensures free { pass.new.is_out ≡ false }
    ensures worker { pass.new.worker ≡ pass.old.worker }
    ensures so_far { pass.new.mine ≡ numbers_of pass.new.worker result }
    ensures next { result ≤ number + 1 }
{
    let mut lent = turnstile.enter(rt, pass);
    let next = lent.value.write(pass.worker(), number);
    turnstile.leave(pass, lent);
    next
}

/// A worker's turns: in each it writes its next number down.
pub fn take_turns<R: Wait>(
    rt: &R,
    turnstile: &Turnstile<Numbers>,
    pass: &mut Pass<Numbers>,
    turns: u64,
)
    requires { IsFresh turnstile.now pass.old }
    ensures done { IsDone turnstile.now pass.new }
    ensures worker { pass.new.worker ≡ pass.old.worker }
{
    let mut number = 0;
    for _turn in 0..turns {
        number = take_turn(rt, turnstile, pass, number);
    }
}

/// Each pass takes its turns, in a thread of its own where one can be made.
pub fn all_take_turns<R: Threads + Wait + Sync>(
    rt: &R,
    turnstile: &Turnstile<Numbers>,
    passes: &mut [Pass<Numbers>],
    turns: u64,
)
    requires some { 0 < length passes.old }
    requires fresh { All (IsFresh turnstile.now) passes.old }
    ensures done { All (IsDone turnstile.now) passes.new }
    ensures workers { SameWorkers passes.old passes.new }
{
    let threads = passes.len();
    thread::for_each_mut(
        rt,
        passes,
        threads,
        &|_, pass: &mut Pass<Numbers>|
            requires { IsFresh turnstile.now pass.old }
            ensures { IsDone turnstile.entry.now pass.new × (pass.new.worker ≡ pass.old.worker) }
        { take_turns(rt, turnstile, pass, turns) },
    );
}

/// What a number of workers write down, each in so many turns: of each worker its numbers, in
/// order.
pub fn written_by<R: Threads + Wait + Sync>(
    rt: &R,
    alloc: Global,
    workers: u32,
    turns: u64,
) -> Result<Numbers, NoMemory>
    requires { 0 < workers }
    ensures { IfOk result (λ n. (k : ℕ) → IsInOrder k (entries_of k n.entries.items)) }
{
    let numbers = Numbers::with_room(alloc, TITLE, 0)?;
    let (turnstile, mut passes) = Turnstile::new(alloc, numbers, workers)?;
    all_take_turns(rt, &turnstile, passes.as_mut_slice(), turns);
    let list = close_list(alloc, turnstile, passes)?;
    Ok(list)
}

/// Ends a turnstile whose workers are done: the list begins with what each pass saw, and has of its
/// number just what it wrote down.
pub fn close_list(
    alloc: Global,
    turnstile: Turnstile<Numbers>,
    passes: Vec<Pass<Numbers>>,
) -> Result<Numbers, NoMemory>
    requires done { All (IsDone turnstile) passes.items }
    requires all { length passes.items ≡ turnstile.passes }
    ensures history { IfOk result (λ n. All (IsHistoryOf n.entries.items n.title) passes.items) }
    ensures nobody_else { IfOk result (λ n. (k : ℕ) → turnstile.passes ≤ k
        → entries_of k n.entries.items ≡ []) }
{
    match turnstile.close(alloc, passes) {
        Ok(closed) => Ok(closed),
        Err(_) => Err(NoMemory),
    }
}
