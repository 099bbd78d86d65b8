// Workers at a board: at each of its calls a worker finishes the job that it has, or else claims
// one.
ghost use Rattle.std.specs.Prelude.{◌≡◌, ◌<◌, [], ◌∷◌, ◌++◌, OnOk, IfOk, Some, None, slice_get};
ghost use Rattle.std.specs.Prelude.{replicate};
ghost use Rattle.job_graph.specs.Rounds.{IsDue};
ghost use Rattle.job_graph.specs.Histories.{out_of};
ghost use Rattle.graph_tests.specs.Held.{IsHeld};
ghost use Rattle.job_graph.specs.declared.event.Event.TheVariants as event;

use access_context::Reads;
use job_graph::{Board, Claim, Plan, Ticket, run_claimed};
use refusal_codes::NoMemory;
use std::alloc::Global;

/// What a worker has: a job and what it reads, or nothing.
pub type Hand<Id, V> = Option<(Ticket<Id>, Reads<Id, V>)>;

/// What came of a worker's call.
#[derive(Clone, Copy, PartialEq, Eq)]
pub enum Step {
    /// It took a job.
    Took,
    /// It finished the one that it had.
    Finished,
    /// So many jobs are running, and none is left to take.
    Idle(u32),
    Ended,
    Halted,
}

/// What a worker does.
#[derive(Clone, Copy)]
pub enum Act {
    /// A call, which must come to this.
    Call(Step),
    /// It halts.
    Halt,
}

/// Workers that have nothing.
fn no_hands<Id: Copy + Ord, V: Drop>(
    alloc: Global,
    workers: u32,
) -> Result<Vec<Hand<Id, V>>, NoMemory>
    ensures { IfOk result (λ hands. hands.items ≡ replicate workers None) }
{
    let mut hands = Vec::new(alloc);
    for _i in 0..workers {
        hands.push(None)?;
    }
    Ok(hands)
}

/// The call of a worker that has nothing.
fn claim_job<P: Plan>(
    alloc: Global,
    board: &mut Board<P>,
    hands: &mut Vec<Hand<P::Id, P::Value>>,
    worker: u32,
) -> Result<Step, NoMemory>
    requires known { worker < board.old.workers }
    requires free { slice_get hands.old.items worker ≡ Some None }
    requires held { IsHeld P.Id.eq (P.meaning board.old.plan) board.old.workers board.old.events
        hands.old.items }
    ensures workers { OnOk result (board.new.workers ≡ board.old.workers) }
    ensures held { OnOk result (IsHeld P.Id.eq (P.meaning board.new.plan) board.new.workers
        board.new.events hands.new.items) }
{
    match board.claim(alloc, worker) {
        Claim::Run(ticket, reads) => {
            hands[worker as usize] = Some((ticket, reads));
            Ok(Step::Took)
        }
        Claim::Idle(count) => Ok(Step::Idle(count)),
        Claim::Ended => Ok(Step::Ended),
        Claim::Halted => Ok(Step::Halted),
        Claim::NoMemory => Err(NoMemory),
    }
}

/// Runs the job that a worker has, and finishes it.
fn finish_job<P: Plan>(
    alloc: Global,
    board: &mut Board<P>,
    worker: u32,
    ticket: Ticket<P::Id>,
    reads: &Reads<P::Id, P::Value>,
) -> Result<(), NoMemory>
    requires out { slice_get (out_of board.old.workers board.old.events) worker
        ≡ Some (Some ticket) }
    requires due { IsDue P.Id.eq (P.meaning board.old.plan) ticket reads.now }
    ensures workers { board.new.workers ≡ board.old.workers }
    ensures finished { OnOk result (board.new
        ≡ record board.old { events = board.old.events ++ event.Finish worker ticket ∷ [] }) }
{
    let outcome = run_claimed(alloc, board.plan(), &ticket, reads)?;
    match board.finish(alloc, worker, ticket, outcome) {
        Ok(()) => Ok(()),
        Err(_) => Err(NoMemory),
    }
}

/// A worker's call.
fn call<P: Plan>(
    alloc: Global,
    board: &mut Board<P>,
    hands: &mut Vec<Hand<P::Id, P::Value>>,
    worker: u32,
) -> Result<Step, NoMemory>
    requires known { worker < board.old.workers }
    requires held { IsHeld P.Id.eq (P.meaning board.old.plan) board.old.workers board.old.events
        hands.old.items }
    ensures workers { OnOk result (board.new.workers ≡ board.old.workers) }
    ensures held { OnOk result (IsHeld P.Id.eq (P.meaning board.new.plan) board.new.workers
        board.new.events hands.new.items) }
{
    match hands[worker as usize].take() {
        None => claim_job(alloc, board, hands, worker),
        Some((ticket, reads)) => {
            finish_job(alloc, board, worker, ticket, &reads)?;
            Ok(Step::Finished)
        }
    }
}

/// One call of each worker.
fn round<P: Plan>(
    alloc: Global,
    board: &mut Board<P>,
    hands: &mut Vec<Hand<P::Id, P::Value>>,
) -> Result<(), NoMemory>
    requires held { IsHeld P.Id.eq (P.meaning board.old.plan) board.old.workers board.old.events
        hands.old.items }
    ensures workers { OnOk result (board.new.workers ≡ board.old.workers) }
    ensures held { OnOk result (IsHeld P.Id.eq (P.meaning board.new.plan) board.new.workers
        board.new.events hands.new.items) }
{
    for worker in 0..board.workers() {
        call(alloc, board, hands, worker)?;
    }
    Ok(())
}

/// Calls of the workers that the digits of an order name, the last digit first.
fn in_order<P: Plan>(
    alloc: Global,
    board: &mut Board<P>,
    hands: &mut Vec<Hand<P::Id, P::Value>>,
    order: u32,
    calls: u32,
) -> Result<(), NoMemory>
    requires some { 0 < board.old.workers }
    requires held { IsHeld P.Id.eq (P.meaning board.old.plan) board.old.workers board.old.events
        hands.old.items }
    ensures workers { OnOk result (board.new.workers ≡ board.old.workers) }
    ensures held { OnOk result (IsHeld P.Id.eq (P.meaning board.new.plan) board.new.workers
        board.new.events hands.new.items) }
{
    let workers = board.workers();
    let mut rest = order;
    for _i in 0..calls {
        call(alloc, board, hands, rest % workers)?;
        rest /= workers;
    }
    Ok(())
}

/// A board and workers that have nothing.
pub fn begun<P: Plan>(
    alloc: Global,
    plan: P,
    workers: u32,
) -> Result<(Board<P>, Vec<Hand<P::Id, P::Value>>), NoMemory>
    ensures workers { IfOk result (λ begun. begun.0.workers ≡ workers) }
    ensures held { IfOk result (λ begun. IsHeld P.Id.eq (P.meaning begun.0.plan) begun.0.workers
        begun.0.events begun.1.items) }
{
    let board = Board::new(alloc, plan, workers)?;
    let hands = no_hands(alloc, workers)?;
    Ok((board, hands))
}

/// The board after eight calls in this order, and then so many rounds of calls.
pub fn played<P: Plan>(
    alloc: Global,
    plan: P,
    workers: u32,
    order: u32,
    rounds: u32,
) -> Result<Board<P>, NoMemory>
    requires { 0 < workers }
{
    let (mut board, mut hands) = begun(alloc, plan, workers)?;
    in_order(alloc, &mut board, &mut hands, order, 8)?;
    for _i in 0..rounds {
        round(alloc, &mut board, &mut hands)?;
    }
    Ok(board)
}

/// Whether an act of a worker comes to what it must.
fn comes<P: Plan>(
    alloc: Global,
    board: &mut Board<P>,
    hands: &mut Vec<Hand<P::Id, P::Value>>,
    worker: u32,
    act: Act,
) -> Result<bool, NoMemory>
    requires known { worker < board.old.workers }
    requires held { IsHeld P.Id.eq (P.meaning board.old.plan) board.old.workers board.old.events
        hands.old.items }
    ensures workers { OnOk result (board.new.workers ≡ board.old.workers) }
    ensures held { OnOk result (IsHeld P.Id.eq (P.meaning board.new.plan) board.new.workers
        board.new.events hands.new.items) }
{
    match act {
        Act::Call(step) => Ok(call(alloc, board, hands, worker)? == step),
        Act::Halt => {
            halt(board, hands, worker);
            Ok(true)
        }
    }
}

/// Whether acts of these workers come, one after the other, to what they must.
pub fn come<P: Plan>(
    alloc: Global,
    board: &mut Board<P>,
    hands: &mut Vec<Hand<P::Id, P::Value>>,
    acts: &[(u32, Act)],
) -> Result<bool, NoMemory>
    requires held { IsHeld P.Id.eq (P.meaning board.old.plan) board.old.workers board.old.events
        hands.old.items }
{
    for (worker, act) in acts {
        if *worker >= board.workers() || !comes(alloc, board, hands, *worker, *act)? {
            return Ok(false);
        }
    }
    Ok(true)
}

/// A worker's halt. The job that it has is given up.
fn halt<P: Plan>(board: &mut Board<P>, hands: &mut Vec<Hand<P::Id, P::Value>>, worker: u32)
    requires known { worker < board.old.workers }
    requires held { IsHeld P.Id.eq (P.meaning board.old.plan) board.old.workers board.old.events
        hands.old.items }
    ensures workers { board.new.workers ≡ board.old.workers }
    ensures held { IsHeld P.Id.eq (P.meaning board.new.plan) board.new.workers board.new.events
        hands.new.items }
{
    let before = board.events().len();
    board.halt(worker);
    if before < board.events().len() {
        hands[worker as usize] = None;
    }
}
