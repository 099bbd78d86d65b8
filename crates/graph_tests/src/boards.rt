ghost use Rattle.std.specs.Prelude.{◌≡◌, ◌<◌, Some, None};
ghost use Rattle.job_graph.specs.Histories.{out_at};

use crate::chain::Chain;
use crate::hands::{Act, Step, begun, come, played};
use crate::scanned::is_as_scanned;
use crate::table::{Listed, Table};
use access_context::Settled;
use job_graph::{Board, Claim, End, Event, Plan, run_claimed};
use refusal_codes::{NoMemory, Rule};
use std::alloc::Global;
use std::test::Fail;

/// Whether jobs have these values, or none where none is told.
fn has_values(board: &Board<Table>, wanted: &[(u32, Option<u32>)]) -> bool {
    for (id, wanted) in wanted {
        let value = match board.get(id) {
            Some(Settled::Done(value)) => Some(**value),
            _ => None,
        };
        if value != *wanted {
            return false;
        }
    }
    true
}

/// Whether of the jobs with an id below a number these are stuck, and no other one.
fn are_stuck(board: &Board<Table>, count: u32, wanted: Option<u32>) -> bool {
    for id in 0..count {
        if board.is_stuck(&id) != (wanted == Some(id)) {
            return false;
        }
    }
    true
}

/// Whether a board has come to this, and whether this happened.
fn happened(board: &Board<Table>, end: End, history: &[Event<u32>]) -> bool {
    board.result() == end && board.events() == history
}

/// Whether a board has ended after so many events.
fn ended_after(board: &Board<Table>, count: usize) -> bool {
    board.result() == End::Ended && board.events().len() == count
}

/// Job 0 adds 1 and 2. Job 1 adds 4, which awaits stratum 0 and reads 1. Job 2 reads 1 and 3, which
/// nobody adds.
fn growing(alloc: Global) -> Result<Option<Table>, NoMemory> {
    let rows: [Listed; 5] = [
        (0, &[], None, &[1, 2], false),
        (0, &[], None, &[4], false),
        (1, &[1, 3], None, &[], false),
        (1, &[], None, &[], false),
        (2, &[1], Some(0), &[], false),
    ];
    Table::listed(alloc, &[0], rows.as_slice())
}

/// Job 1 reads 0, and 2 reads 1.
fn chain(alloc: Global) -> Result<Option<Table>, NoMemory> {
    let rows: [Listed; 3] = [
        (0, &[], None, &[], false),
        (0, &[0], None, &[], false),
        (0, &[1], None, &[], false),
    ];
    Table::listed(alloc, &[0, 1, 2], rows.as_slice())
}

/// Jobs 1 and 2 read 0, and 3 reads both.
fn diamond(alloc: Global) -> Result<Option<Table>, NoMemory> {
    let rows: [Listed; 4] = [
        (0, &[], None, &[], false),
        (0, &[0], None, &[], false),
        (0, &[0], None, &[], false),
        (0, &[1, 2], None, &[], false),
    ];
    Table::listed(alloc, &[3, 2, 1, 0], rows.as_slice())
}

/// Job 0 is refused, and would add 3. Job 1 reads 0 and would add 2.
fn refusing(alloc: Global) -> Result<Option<Table>, NoMemory> {
    let rows: [Listed; 4] = [
        (0, &[], None, &[3], true),
        (0, &[0], None, &[2], false),
        (0, &[], None, &[], false),
        (0, &[], None, &[], false),
    ];
    Table::listed(alloc, &[0, 1], rows.as_slice())
}

/// Job 0 adds a thousand jobs, each of which reads it.
fn thousand(alloc: Global) -> Result<Option<Table>, NoMemory> {
    let mut ids = Vec::new(alloc);
    for id in 1..1001u32 {
        ids.push(id)?;
    }
    thousand_of(alloc, ids.as_slice())
}

fn thousand_of(alloc: Global, ids: &[u32]) -> Result<Option<Table>, NoMemory> {
    let mut rows = Vec::<Listed>::new(alloc);
    rows.push((0, &[], None, ids, false))?;
    for _id in ids {
        rows.push((1, &[0], None, &[], false))?;
    }
    Table::listed(alloc, &[0], rows.as_slice())
}

/// The board of a plan after these acts of its workers.
fn after(
    alloc: Global,
    plan: Option<Table>,
    workers: u32,
    acts: &[(u32, Act)],
) -> Result<Board<Table>, Fail> {
    let (mut board, mut hands) = begun(alloc, plan.ok_or("unsound")?, workers)?;
    if !come(alloc, &mut board, &mut hands, acts)? {
        return Err("an act came to something else".into());
    }
    Ok(board)
}

/// Whether the growing plan comes to its end where the first eight calls have this order.
fn ends_so(alloc: Global, workers: u32, order: u32) -> Result<bool, Fail>
    requires { 0 < workers }
{
    let plan = growing(alloc)?.ok_or("unsound")?;
    let board = played(alloc, plan, workers, order, 6)?;
    let values = [
        (0, Some(0)),
        (1, Some(1)),
        (2, None),
        (3, None),
        (4, Some(5)),
    ];
    Ok(
        ended_after(&board, 6)
            && has_values(&board, values.as_slice())
            && are_stuck(&board, 5, Some(2))
            && is_as_scanned(alloc, &board)?,
    )
}

#[test]
fn every_order_of_calls_comes_to_the_same_end(rt: HostRuntime) -> Result<(), Fail> {
    for (workers, orders) in [(1, 1), (2, 256), (3, 6561)] {
        for order in 0..orders {
            assert!(rt;
                ends_so(rt.alloc(), workers, order)?,
                "{workers} workers in order {order}"
            );
        }
    }
    Ok(())
}

#[test]
fn a_worker_is_idle_while_the_one_ready_job_runs(rt: HostRuntime) -> Result<(), Fail> {
    let acts = [
        (0, Act::Call(Step::Took)),
        (1, Act::Call(Step::Idle(1))),
        (0, Act::Call(Step::Finished)),
        (1, Act::Call(Step::Took)),
        (0, Act::Call(Step::Idle(1))),
        (1, Act::Call(Step::Finished)),
        (1, Act::Call(Step::Took)),
        (1, Act::Call(Step::Finished)),
        (0, Act::Call(Step::Ended)),
    ];
    let history = [
        Event::Claim(0, 0),
        Event::Finish(0, 0),
        Event::Claim(1, 1),
        Event::Finish(1, 1),
        Event::Claim(1, 2),
        Event::Finish(1, 2),
    ];
    let values = [(0, Some(0)), (1, Some(1)), (2, Some(3))];
    let board = after(rt.alloc(), chain(rt.alloc())?, 2, acts.as_slice())?;
    assert!(rt;
        happened(&board, End::Ended, history.as_slice())
            && board.plan().stratum(&2) == 0
            && has_values(&board, values.as_slice())
            && is_as_scanned(rt.alloc(), &board)?
    );
    Ok(())
}

/// Whether a job was added with these reads.
fn was_added_with(board: &Board<Table>, id: u32, reads: &[u32]) -> bool {
    match board.access_of(&id) {
        Some(access) => access.reads.as_slice() == reads,
        None => false,
    }
}

#[test]
fn a_job_waits_for_all_that_it_reads(rt: HostRuntime) -> Result<(), Fail> {
    let acts = [
        (2, Act::Call(Step::Took)),
        (0, Act::Call(Step::Idle(1))),
        (2, Act::Call(Step::Finished)),
        (0, Act::Call(Step::Took)),
        (1, Act::Call(Step::Took)),
        (2, Act::Call(Step::Idle(2))),
        (0, Act::Call(Step::Finished)),
        (0, Act::Call(Step::Idle(1))),
        (1, Act::Call(Step::Finished)),
        (0, Act::Call(Step::Took)),
        (1, Act::Call(Step::Idle(1))),
        (0, Act::Call(Step::Finished)),
        (0, Act::Call(Step::Ended)),
    ];
    let values = [(0, Some(0)), (1, Some(1)), (2, Some(2)), (3, Some(6))];
    let board = after(rt.alloc(), diamond(rt.alloc())?, 3, acts.as_slice())?;
    assert!(rt;
        ended_after(&board, 8)
            && was_added_with(&board, 3, &[1, 2])
            && board.access_of(&4).is_none()
            && has_values(&board, values.as_slice())
            && are_stuck(&board, 4, None)
            && is_as_scanned(rt.alloc(), &board)?
    );
    Ok(())
}

/// Whether job 0 was refused, as the table says.
fn is_refused(board: &Board<Table>) -> bool {
    match board.get(&0) {
        Some(Settled::Refused(refusal)) => {
            refusal.stratum == 0
                && refusal.kind == 0
                && refusal.name.is_empty()
                && refusal.rule == Rule::OpenContour
                && refusal.place == 0
        }
        _ => false,
    }
}

/// Whether a job was blocked.
fn is_blocked(board: &Board<Table>, id: u32) -> bool {
    match board.get(&id) {
        Some(Settled::Blocked) => true,
        _ => false,
    }
}

#[test]
fn a_job_that_reads_a_refused_one_is_blocked_and_adds_nothing(rt: HostRuntime) -> Result<(), Fail> {
    let acts = [
        (0, Act::Call(Step::Took)),
        (1, Act::Call(Step::Idle(1))),
        (0, Act::Call(Step::Finished)),
        (1, Act::Call(Step::Took)),
        (0, Act::Call(Step::Idle(1))),
        (1, Act::Call(Step::Finished)),
        (0, Act::Call(Step::Ended)),
        (1, Act::Call(Step::Ended)),
    ];
    let board = after(rt.alloc(), refusing(rt.alloc())?, 2, acts.as_slice())?;
    assert!(rt;
        is_refused(&board)
            && is_blocked(&board, 1)
            && board.get(&2).is_none()
            && board.get(&3).is_none()
            && are_stuck(&board, 4, None)
            && ended_after(&board, 4)
            && is_as_scanned(rt.alloc(), &board)?
    );
    Ok(())
}

#[test]
fn after_a_halt_every_claim_is_halted(rt: HostRuntime) -> Result<(), Fail> {
    let acts = [
        (1, Act::Call(Step::Took)),
        (0, Act::Halt),
        (0, Act::Call(Step::Halted)),
        (2, Act::Call(Step::Halted)),
        (1, Act::Call(Step::Finished)),
        (1, Act::Call(Step::Halted)),
        (2, Act::Call(Step::Halted)),
        (0, Act::Halt),
    ];
    let history = [Event::Claim(1, 0), Event::Halt(0), Event::Finish(1, 0)];
    let board = after(rt.alloc(), growing(rt.alloc())?, 3, acts.as_slice())?;
    assert!(rt;
        happened(&board, End::Halted, history.as_slice()) && is_as_scanned(rt.alloc(), &board)?
    );
    Ok(())
}

#[test]
fn a_board_runs_while_a_job_is_out(rt: HostRuntime) -> Result<(), Fail> {
    let acts = [(1, Act::Call(Step::Took))];
    let board = after(rt.alloc(), growing(rt.alloc())?, 3, acts.as_slice())?;
    assert!(rt; happened(&board, End::Running, &[Event::Claim(1, 0)]));
    Ok(())
}

#[test]
fn a_worker_that_halts_gives_up_its_job(rt: HostRuntime) -> Result<(), Fail> {
    let acts = [
        (1, Act::Call(Step::Took)),
        (0, Act::Call(Step::Idle(1))),
        (1, Act::Halt),
        (0, Act::Call(Step::Halted)),
        (1, Act::Call(Step::Halted)),
        (2, Act::Call(Step::Halted)),
    ];
    let history = [Event::Claim(1, 0), Event::Halt(1)];
    let board = after(rt.alloc(), growing(rt.alloc())?, 3, acts.as_slice())?;
    assert!(rt;
        happened(&board, End::Halted, history.as_slice())
            && board.get(&0).is_none()
            && board.is_stuck(&0)
            && is_as_scanned(rt.alloc(), &board)?
    );
    Ok(())
}

/// Whether each of the first jobs has its id as its value.
fn have_own_ids(board: &Board<Table>, count: u32) -> bool {
    for id in 0..count {
        if !has_values(board, &[(id, Some(id))]) {
            return false;
        }
    }
    true
}

#[test]
fn a_plan_may_add_a_thousand_jobs(rt: HostRuntime) -> Result<(), Fail> {
    let plan = thousand(rt.alloc())?.ok_or("unsound")?;
    let board = played(rt.alloc(), plan, 3, 0, 700)?;
    assert!(rt;
        ended_after(&board, 2002)
            && have_own_ids(&board, 1001)
            && has_values(&board, &[(1001, None)])
            && is_as_scanned(rt.alloc(), &board)?
    );
    Ok(())
}

/// Whether the first job of the growing plan is handed out, read, run and finished.
fn is_run(alloc: Global, board: &mut Board<Table>) -> Result<bool, NoMemory>
    requires known { 0 < board.old.workers }
    requires free { out_at board.old.workers board.old.events 0 ≡ Some None }
{
    let Claim::Run(ticket, reads) = board.claim(alloc, 0) else {
        return Ok(false);
    };
    let is_first = *ticket.id() == 0 && reads.all_done() && board.added_by(&0).is_none();
    let outcome = run_claimed(alloc, board.plan(), &ticket, &reads)?;
    let added = outcome.added.len();
    Ok(board.finish(alloc, 0, ticket, outcome).is_ok() && is_first && added == 2)
}

/// Whether a settled job added so many.
fn has_added(board: &Board<Table>, id: u32, count: usize) -> bool {
    match board.added_by(&id) {
        Some(added) => added.len() == count,
        None => false,
    }
}

#[test]
fn a_claimed_job_is_run_and_finished(rt: HostRuntime) -> Result<(), Fail> {
    let plan = growing(rt.alloc())?.ok_or("unsound")?;
    let mut board = Board::new(rt.alloc(), plan, 1)?;
    assert!(rt;
        board.workers() == 1
            && is_run(rt.alloc(), &mut board)?
            && has_values(&board, &[(0, Some(0))])
            && has_added(&board, 0, 2)
    );
    Ok(())
}

/// Whether each job of a chain has its number as its value, and no other job has one.
fn is_chain_done(board: &Board<Chain>, count: u32) -> bool {
    for id in 0..count {
        match board.get(&id) {
            Some(Settled::Done(value)) if **value == id => {}
            _ => return false,
        }
    }
    board.get(&count).is_none()
}

#[test]
fn a_chain_of_jobs_is_run_to_its_end(rt: HostRuntime) -> Result<(), Fail> {
    let board = played(rt.alloc(), Chain { length: 40 }, 2, 0, 80)?;
    assert!(rt;
        board.result() == End::Ended
            && board.events().len() == 80
            && is_chain_done(&board, 40)
            && is_as_scanned(rt.alloc(), &board)?
    );
    Ok(())
}
