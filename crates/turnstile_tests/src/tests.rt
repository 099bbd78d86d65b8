ghost use Rattle.std.specs.Prelude.{◌<◌};

use crate::numbers::{Numbers, TITLE, written_by};
use std::alloc::Global;
use std::process::Abort;
use std::sync::Wait;
use std::test::Fail;
use std::thread::Threads;
use turnstile::Turnstile;

const TURNS: u64 = 10_000;

// What comes back has each worker's numbers in the order of its turns, and nothing else.
fn check<R: Threads + Wait + Abort + Sync>(rt: &R, alloc: Global, workers: u32) -> Result<(), Fail>
    requires { 0 < workers }
{
    let numbers = written_by(rt, alloc, workers, TURNS)?;
    assert_eq!(rt; numbers.title, TITLE);
    assert_eq!(rt; numbers.entries.len() as u64, workers as u64 * TURNS);
    for worker in 0..workers {
        let mut turn = 0;
        for entry in &numbers.entries {
            if entry.0 == worker {
                assert_eq!(rt; entry.1, turn);
                turn = turn.wrapping_add(1);
            }
        }
        assert_eq!(rt; turn, TURNS);
    }
    Ok(())
}

#[test]
fn two_workers_take_turns(rt: HostRuntime) -> Result<(), Fail> {
    check(&rt, rt.alloc(), 2)
}

#[test]
fn four_workers_take_turns(rt: HostRuntime) -> Result<(), Fail> {
    check(&rt, rt.alloc(), 4)
}

#[test]
fn eight_workers_take_turns(rt: HostRuntime) -> Result<(), Fail> {
    check(&rt, rt.alloc(), 8)
}

#[test]
fn passes_are_numbered_from_zero(rt: HostRuntime) -> Result<(), Fail> {
    let numbers = Numbers::with_room(rt.alloc(), TITLE, 0)?;
    let (_turnstile, passes) = Turnstile::new(rt.alloc(), numbers, 3)?;
    assert_eq!(rt; passes.len(), 3);
    for (place, pass) in passes.iter().enumerate() {
        assert_eq!(rt; pass.worker() as usize, place);
    }
    Ok(())
}

#[test]
fn one_worker_writes_its_numbers_down(rt: HostRuntime) -> Result<(), Fail> {
    let numbers = written_by(&rt, rt.alloc(), 1, 3)?;
    assert!(rt; numbers.entries.as_slice() == [(0, 0), (0, 1), (0, 2)].as_slice());
    Ok(())
}
