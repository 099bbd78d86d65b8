// One worker at a board.
ghost use Rattle.std.specs.Prelude.{◌≡◌, ◌<◌, OnOk, Some, None};
ghost use Rattle.job_graph.specs.Rounds.{IsDue};
ghost use Rattle.job_graph.specs.Histories.{out_at};

use access_context::Reads;
use job_graph::{Board, Claim, End, Plan, Ticket, run_claimed};
use refusal_codes::NoMemory;
use std::alloc::Global;

/// How much was done.
#[derive(Drop)]
pub struct Tally {
    /// How many jobs were run.
    pub jobs: u64,
    /// How many items they read.
    pub reads: u64,
    /// How many events the board has.
    pub events: usize,
    /// Where the board stands.
    pub end: End,
}

/// Runs a job that the worker took, and finishes it.
fn finish_job<P: Plan>(
    alloc: Global,
    board: &mut Board<P>,
    ticket: Ticket<P::Id>,
    reads: &Reads<P::Id, P::Value>,
) -> Result<(), NoMemory>
    requires workers { board.old.workers ≡ 1 }
    requires out { out_at board.old.workers board.old.events 0 ≡ Some (Some ticket) }
    requires due { IsDue P.Id.eq (P.meaning board.old.plan) ticket reads.now }
    ensures workers { board.new.workers ≡ 1 }
    ensures free { OnOk result (out_at board.new.workers board.new.events 0 ≡ Some None) }
{
    let outcome = run_claimed(alloc, board.plan(), &ticket, reads)?;
    match board.finish(alloc, 0, ticket, outcome) {
        Ok(()) => Ok(()),
        Err(_) => Err(NoMemory),
    }
}

/// Runs the jobs of a plan till no more are handed out.
pub fn run_plan<P: Plan>(alloc: Global, plan: P) -> Result<Tally, NoMemory> {
    let mut board = Board::new(alloc, plan, 1)?;
    let mut jobs = 0u64;
    let mut reads = 0u64;
    for _call in 0..u64::MAX {
        match board.claim(alloc, 0) {
            Claim::Run(ticket, read) => {
                finish_job(alloc, &mut board, ticket, &read)?;
                jobs = jobs.saturating_add(1);
                reads = reads.saturating_add(read.items().len() as u64);
            }
            Claim::NoMemory => return Err(NoMemory),
            Claim::Idle(_) | Claim::Ended | Claim::Halted => break,
        }
    }
    Ok(Tally {
        jobs,
        reads,
        events: board.events().len(),
        end: board.result(),
    })
}
