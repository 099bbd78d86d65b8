ghost use Rattle.std.specs.Prelude.{◌≡◌, IfOk};
ghost use Rattle.access_context.specs.Plain.{plain_outcome};
ghost use Rattle.job_graph.specs.Rounds.{outcome_of, IsDue, IsOutcomeOf};

use crate::plan::Plan;
use access_context::{Outcome, Reads, Settled};
use plain_lists::Sequence;
use refusal_codes::NoMemory;
use std::alloc::Global;
use std::marker::Model;

/// The right to finish a job, as `Board::claim` gives it. A contract sees a ticket as the id of its
/// job.
#[derive(Debug, Drop)]
pub struct Ticket<Id> {
    id: Id,
}

impl<Id> Model for Ticket<Id> {
    ghost Value = { Id };

    ghost view = { λ t. t.id };
}

impl<Id: Copy> Ticket<Id> {
    /// The ticket of a job.
    pub(crate) fn of(id: Id) -> Self
        ensures { result ≡ id }
    {
        Ticket { id }
    }

    /// The job. It takes no memory.
    pub fn id(&self) -> &Id
        ensures { result.now ≡ self.now }
    {
        &self.id
    }
}

/// What a board answers to a worker that asks for a job.
#[derive(Drop)]
pub enum Claim<P: Plan> {
    /// A job to run, with what it reads.
    Run(Ticket<P::Id>, Reads<P::Id, P::Value>),
    /// Every ready job is out. So many are running.
    Idle(u32),
    /// No job is ready and none is running.
    Ended,
    /// A worker halted.
    Halted,
    /// Memory ran out.
    NoMemory,
}

/// What was to be finished while memory ran out. The board is as before.
#[derive(Drop)]
pub struct Unfinished<P: Plan> {
    /// The right to finish the job.
    pub ticket: Ticket<P::Id>,
    /// What came of it.
    pub outcome: Outcome<P::Value, P::Id>,
}

/// Runs a claimed job: where an item that it reads has no value it is blocked, and adds nothing.
#[tactic(auto, using(crate::proofs::Due::outcome_blocked))]
pub fn run_claimed<P: Plan>(
    alloc: Global,
    plan: &P,
    ticket: &Ticket<P::Id>,
    reads: &Reads<P::Id, P::Value>,
) -> Result<Outcome<P::Value, P::Id>, NoMemory>
    requires { IsDue P.Id.eq (P.meaning plan.now) ticket.now reads.now }
    ensures outcome { IfOk result (λ o. plain_outcome o
        ≡ outcome_of P.Id.eq (P.meaning plan.now) ticket.now reads.now) }
    ensures in_limit { IfOk result (λ o. IsOutcomeOf P.Id.eq (P.meaning plan.now) ticket.now
        (plain_outcome o)) }
{
    if !reads.all_done() {
        return Ok(Outcome {
            value: Settled::Blocked,
            added: Sequence::new(alloc),
        });
    }
    plan.run(alloc, ticket.id(), reads)
}
