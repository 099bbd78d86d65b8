// Which job is next.
ghost use Rattle.std.specs.Prelude.{◌≡◌, IfOk, length, true, false};
ghost use Rattle.access_context.specs.declared.access.Spec.{Spec};
ghost use Rattle.job_graph.specs.Rounds.{state_from, is_ready};
ghost use Rattle.job_graph.specs.Histories.{some_ready};
ghost use Rattle.job_graph.specs.Members.{In};
ghost use Rattle.job_graph.specs.Agenda.{IsAgenda, ArePassed, IsTurn, IsNextRun, IsNoneLeft};
ghost use Rattle.job_graph.specs.Agenda.{is_taken};

use crate::agenda::Agenda;
use crate::plan::Plan;
use crate::queues::Turn;
use crate::values::Values;
use crate::{scan, strata};
use access_context::{Reads, Spec};
use refusal_codes::NoMemory;
use std::alloc::Global;

/// The job that is next, once the agenda was told of all jobs and values.
fn next_turn<P: Plan>(
    agenda: &mut Agenda<P::Id>,
    passed: &mut Vec<usize>,
    alloc: Global,
    plan: &P,
    jobs: &[Spec<P::Id>],
    values: &Values<P::Id, P::Value>,
    outs: &[Option<P::Id>],
) -> Result<Option<Turn<P::Id>>, NoMemory>
    requires agenda { IsAgenda P.Id.eq P.Id.cmp (state_from jobs.now values.now) outs.now
        agenda.old }
    requires passed { ArePassed P.Id.eq (P.meaning plan.now) (state_from jobs.now values.now)
        passed.old.items }
    requires count { length passed.old.items ≡ 257 }
    ensures agenda { IsAgenda P.Id.eq P.Id.cmp (state_from jobs.now values.now) outs.now
        agenda.new }
    ensures passed { ArePassed P.Id.eq (P.meaning plan.now) (state_from jobs.now values.now)
        passed.new.items }
    ensures count { length passed.new.items ≡ 257 }
    ensures turn { IfOk result (λ turn. IsTurn P.Id.eq P.Id.cmp (P.meaning plan.now)
        (state_from jobs.now values.now) outs.now agenda.new turn) }
{
    agenda.take_in(alloc, jobs, values, outs)?;
    strata::look(passed, &agenda.queues, plan, jobs, values);
    Ok(strata::first(passed.as_slice(), &agenda.queues, plan, jobs, values))
}

/// The job that is next, with what it reads.
pub fn next_run<P: Plan>(
    agenda: &mut Agenda<P::Id>,
    passed: &mut Vec<usize>,
    alloc: Global,
    plan: &P,
    jobs: &[Spec<P::Id>],
    values: &Values<P::Id, P::Value>,
    outs: &[Option<P::Id>],
) -> Result<Option<(Turn<P::Id>, Reads<P::Id, P::Value>)>, NoMemory>
    requires agenda { IsAgenda P.Id.eq P.Id.cmp (state_from jobs.now values.now) outs.now
        agenda.old }
    requires passed { ArePassed P.Id.eq (P.meaning plan.now) (state_from jobs.now values.now)
        passed.old.items }
    requires count { length passed.old.items ≡ 257 }
    ensures agenda { IsAgenda P.Id.eq P.Id.cmp (state_from jobs.now values.now) outs.now
        agenda.new }
    ensures passed { ArePassed P.Id.eq (P.meaning plan.now) (state_from jobs.now values.now)
        passed.new.items }
    ensures count { length passed.new.items ≡ 257 }
    ensures next { IfOk result (λ next. IsNextRun P.Id.eq P.Id.cmp (P.meaning plan.now)
        (state_from jobs.now values.now) outs.now agenda.new next) }
{
    match next_turn(agenda, passed, alloc, plan, jobs, values, outs)? {
        None => Ok(None),
        Some(turn) => {
            let job = &jobs[turn.number];
            let reads = scan::reads_of(alloc, values, job.access.reads.as_slice())?;
            Ok(Some((turn, Reads::indexed(alloc, reads)?)))
        }
    }
}

/// Whether a job is left that isn't settled or out and can be handed out. Where memory ran out
/// before the agenda was told of all, every job is looked at.
pub fn some_left<P: Plan>(
    agenda: &Agenda<P::Id>,
    passed: &[usize],
    plan: &P,
    jobs: &[Spec<P::Id>],
    values: &Values<P::Id, P::Value>,
    outs: &[Option<P::Id>],
) -> bool
    requires agenda { IsAgenda P.Id.eq P.Id.cmp (state_from jobs.now values.now) outs.now
        agenda.now }
    requires passed { ArePassed P.Id.eq (P.meaning plan.now) (state_from jobs.now values.now)
        passed.now }
    requires count { length passed.now ≡ 257 }
    ensures some { result ≡ true → some_ready P.Id.eq (P.meaning plan.now)
        (state_from jobs.now values.now) ≡ true }
    ensures none { result ≡ false → IsNoneLeft P.Id.eq (P.meaning plan.now)
        (state_from jobs.now values.now) outs.now }
{
    let _ = outs;
    if !agenda.is_current(jobs.len(), values.len()) {
        return scan::some_ready(plan, jobs, values);
    }
    match strata::first(passed, &agenda.queues, plan, jobs, values) {
        Some(_) => true,
        None => false,
    }
}
