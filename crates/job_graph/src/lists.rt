// The lists of a board.
ghost use Rattle.std.specs.Prelude.{◌≡◌, ◌+◌, ◌<◌, ◌≤◌, ◌^◌, ◌∷◌, [], ◌++◌, length, count_by, not};
ghost use Rattle.std.specs.Prelude.{vec_len, vec_capacity, replicate, None, IfOk, true, false};
ghost use Rattle.std.specs.Prelude.{if◌then◌else◌, slice_range};

use refusal_codes::NoMemory;
use std::alloc::Global;

/// A list of nothing, so often.
pub fn none_out<Id: Copy>(alloc: Global, count: usize) -> Result<Vec<Option<Id>>, NoMemory>
    ensures { IfOk result (λ outs. outs.items ≡ replicate count None) }
{
    let mut outs = Vec::with_capacity(alloc, count)?;
    for _i in 0..count {
        outs.push(None)?;
    }
    Ok(outs)
}

/// A list of flags that are not set.
pub fn none_halted(alloc: Global, count: usize) -> Result<Vec<bool>, NoMemory>
    ensures { IfOk result (λ halted. halted.items ≡ replicate count false) }
{
    let mut halted = Vec::with_capacity(alloc, count)?;
    for _i in 0..count {
        halted.push(false)?;
    }
    Ok(halted)
}

/// How many flags are not set.
pub fn halts_left(halted: &[bool]) -> usize
    ensures { result ≡ count_by not halted.now }
{
    halted.iter().filter(|flag| !**flag).count()
}

/// Makes room for one more event beside a halt of each worker that may still halt.
fn make_event_room<T: Drop>(events: &mut Vec<T>, halted: &[bool]) -> bool
    requires { vec_len events.old + count_by not halted.now ≤ vec_capacity events.old }
    ensures items { events.new.items ≡ events.old.items }
    ensures len { vec_len events.new ≡ vec_len events.old }
    ensures event_room { result ≡ true → vec_len events.new
        + count_by not halted.now < vec_capacity events.new }
    ensures room { vec_len events.new + count_by not halted.now ≤ vec_capacity events.new }
{
    let left = halts_left(halted);
    events.reserve(left + 1).is_ok()
}

/// Adds an event, where there is memory for it and for a halt of each worker that may still halt.
pub fn note<T: Drop>(events: &mut Vec<T>, halted: &[bool], event: T) -> bool
    requires { vec_len events.old + count_by not halted.now ≤ vec_capacity events.old }
    ensures items { events.new.items ≡ (if result then events.old.items ++ event
        ∷ [] else events.old.items) }
    ensures room { vec_len events.new + count_by not halted.now ≤ vec_capacity events.new }
{
    if !make_event_room(events, halted) {
        return false;
    }
    events.push_reserved(event);
    true
}

/// Makes room for one more range, for more jobs and for an event.
pub fn make_room<R: Drop, J: Drop, E: Drop>(
    ranges: &mut Vec<R>,
    jobs: &mut Vec<J>,
    more: usize,
    events: &mut Vec<E>,
    halted: &[bool],
) -> bool
    requires { vec_len events.old + count_by not halted.now ≤ vec_capacity events.old }
    ensures ranges { ranges.new.items ≡ ranges.old.items }
    ensures jobs { jobs.new.items ≡ jobs.old.items }
    ensures events { events.new.items ≡ events.old.items }
    ensures range_room { result ≡ true → vec_len ranges.new < vec_capacity ranges.new }
    ensures job_room { result ≡ true → vec_len jobs.new + more ≤ vec_capacity jobs.new }
    ensures event_room { result ≡ true → vec_len events.new
        + count_by not halted.now < vec_capacity events.new }
    ensures room { vec_len events.new + count_by not halted.now ≤ vec_capacity events.new }
{
    if ranges.reserve(1).is_err() {
        return false;
    }
    if jobs.reserve(more).is_err() {
        return false;
    }
    make_event_room(events, halted)
}

/// Moves all items to the end of a list that has room for them.
pub fn add_all<T: Drop>(items: &mut Vec<T>, mut added: Vec<T>)
    requires { vec_len items.old + vec_len added ≤ vec_capacity items.old }
    ensures { items.new.items ≡ items.old.items ++ added.items }
{
    match items.append(&mut added) {
        Ok(()) => {}
        Err(_) => unreachable!(),
    }
}

/// The items from one place up to another.
pub fn part<T>(items: &[T], from: usize, to: usize) -> &[T]
    requires order { from ≤ to }
    requires within { to ≤ length items.now }
    ensures { result.now ≡ slice_range items.now from to }
{
    &items[from..to]
}
