//! One worker that runs all jobs of a board.

ghost use Rattle.std.specs.Prelude.{◌≡◌, ◌≤◌, ◌+◌, ◌++◌, ◌∷◌, [], Ok, Some, true, false, length};
ghost use Rattle.std.specs.Prelude.{OnOk};
ghost use Rattle.job_graph.specs.Histories.{out_at};
ghost use Rattle.job_graph.specs.Rounds.{IsDue};
ghost use Rattle.job_graph.specs.declared.event.Event.TheVariants as event;
ghost use Rattle.font_graph.specs.Graph.{plan};
ghost use Rattle.font_graph.specs.Same.{same_id};
ghost use Rattle.font_plan.specs.Alone.{IsAlone, HasEnded, most_events};
ghost use Rattle.font_plan.specs.Jobs.{parts};
ghost use Rattle.font_plan.specs.declared.alone.TheConstants.{WORKER};

use crate::plan::FontPlan;
use crate::reads::PlanReads;
use font_graph::JobId;
use job_graph::{Board, Claim, Ticket, run_claimed};
use refusal_codes::NoMemory;
use std::alloc::Global;

/// The number of the only worker.
const WORKER: u32 = 0;

/// Runs a board's jobs, one after another, until none is left.
pub fn run_to_end(alloc: Global, board: &mut Board<FontPlan>) -> Result<(), NoMemory>
    requires { IsAlone board.old }
    ensures plan { OnOk result (board.new.plan ≡ board.old.plan) }
    ensures workers { OnOk result (board.new.workers ≡ 1) }
    ensures ended { OnOk result (HasEnded board.new) }
{
    while run_next(alloc, board)? {}
    Ok(())
}

/// Runs the next job. The answer is false where none is left.
fn run_next(alloc: Global, board: &mut Board<FontPlan>) -> Result<bool, NoMemory>
    requires { IsAlone board.old }
    ensures alone { OnOk result (IsAlone board.new) }
    ensures plan { OnOk result (board.new.plan ≡ board.old.plan) }
    ensures longer { result ≡ Ok true → length board.old.events + 2 ≤ most_events board.old.plan }
    ensures events { result ≡ Ok true → length board.new.events ≡ length board.old.events + 2 }
    ensures ended { result ≡ Ok false → HasEnded board.new }
{
    match board.claim(alloc, WORKER) {
        Claim::Run(ticket, reads) => {
            finish(alloc, board, ticket, &reads)?;
            Ok(true)
        }
        Claim::Ended => Ok(false),
        Claim::NoMemory => Err(NoMemory),
        // The only worker has no job out, and nobody halts.
        Claim::Idle(_) | Claim::Halted => unreachable!(),
    }
}

/// Runs a claimed job, and finishes it.
fn finish(
    alloc: Global,
    board: &mut Board<FontPlan>,
    ticket: Ticket<JobId>,
    reads: &PlanReads,
) -> Result<(), NoMemory>
    requires out { out_at board.old.workers board.old.events WORKER ≡ Some (Some ticket) }
    requires due { IsDue same_id (plan (parts board.old.plan) same_id) ticket reads.now }
    ensures finished { OnOk result (board.new
        ≡ record board.old { events = board.old.events ++ event.Finish WORKER ticket ∷ [] }) }
    ensures short { OnOk result (board.old.workers ≡ 1
        → length board.new.events ≤ most_events board.old.plan) }
{
    let outcome = run_claimed(alloc, board.plan(), &ticket, reads)?;
    match board.finish(alloc, WORKER, ticket, outcome) {
        Ok(()) => Ok(()),
        Err(_) => Err(NoMemory),
    }
}
