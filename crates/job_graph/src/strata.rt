// How far a run has come: which jobs may still hold up those that await a stratum.
ghost use Rattle.std.specs.Prelude.{◌≡◌, ◌<◌, ◌≤◌, ℕ, suc, Some, IfOk, length, slice_get, false};
ghost use Rattle.std.specs.Prelude.{replicate};
ghost use Rattle.access_context.specs.declared.access.Spec.{Spec};
ghost use Rattle.job_graph.specs.Rounds.{state_from, awaits_nothing};
ghost use Rattle.job_graph.specs.Agenda.{awaited_by, lets_pass, IsPassed, ArePassed, IsBest};
ghost use Rattle.job_graph.specs.Agenda.{IsBestOf};

use crate::plan::Plan;
use crate::queues::{self, Queues, Turn};
use crate::scan;
use crate::values::Values;
use access_context::Spec;
use refusal_codes::NoMemory;
use std::alloc::Global;

/// For so many queues: no job is known not to hold them up.
pub fn none_passed(alloc: Global, count: usize) -> Result<Vec<usize>, NoMemory>
    ensures { IfOk result (λ passed. passed.items ≡ replicate count 0) }
{
    let mut passed = Vec::with_capacity(alloc, count)?;
    for _i in 0..count {
        passed.push(0)?;
    }
    Ok(passed)
}

/// How many of the first jobs don't hold up one that awaits a stratum, where it is known of some.
fn passed_from<P: Plan>(
    plan: &P,
    jobs: &[Spec<P::Id>],
    values: &Values<P::Id, P::Value>,
    stratum: usize,
    known: usize,
) -> usize
    requires { IsPassed P.Id.eq (P.meaning plan.now) (state_from jobs.now values.now)
        stratum known }
    ensures passed { IsPassed P.Id.eq (P.meaning plan.now) (state_from jobs.now values.now) stratum
        result }
    ensures stops { (job : Spec P.Id) → slice_get jobs.now result ≡ Some job
        → lets_pass P.Id.eq (P.meaning plan.now) (state_from jobs.now values.now) stratum job
        ≡ false }
{
    let mut passed = known;
    while passed < jobs.len() && scan::lets_pass(plan, values, &jobs[passed], stratum) {
        passed += 1;
    }
    passed
}

/// Whether nothing is unfinished that the jobs of a queue await.
fn is_open<P: Plan>(
    plan: &P,
    jobs: &[Spec<P::Id>],
    values: &Values<P::Id, P::Value>,
    queue: usize,
    known: usize,
) -> bool
    requires { (stratum : ℕ) → queue ≡ suc stratum → IsPassed P.Id.eq (P.meaning plan.now)
        (state_from jobs.now values.now) stratum known }
    ensures { result ≡ awaits_nothing P.Id.eq (P.meaning plan.now) (state_from jobs.now values.now)
        (awaited_by queue) }
{
    if queue == 0 {
        return true;
    }
    passed_from(plan, jobs, values, queue - 1, known) >= jobs.len()
}

/// Notes how many of the first jobs don't hold up each queue.
pub fn look<P: Plan>(
    passed: &mut Vec<usize>,
    queues: &Queues<P::Id>,
    plan: &P,
    jobs: &[Spec<P::Id>],
    values: &Values<P::Id, P::Value>,
)
    requires passed { ArePassed P.Id.eq (P.meaning plan.now) (state_from jobs.now values.now)
        passed.old.items }
    requires known { queues.now.used ≤ length passed.old.items }
    ensures passed { ArePassed P.Id.eq (P.meaning plan.now) (state_from jobs.now values.now)
        passed.new.items }
    ensures count { length passed.new.items ≡ length passed.old.items }
{
    for queue in 1..queues.used {
        passed[queue] = passed_from(plan, jobs, values, queue - 1, passed[queue]);
    }
}

/// The job with the least id in one queue, where the queue isn't held up.
fn first_of<P: Plan>(
    passed: &[usize],
    queues: &Queues<P::Id>,
    plan: &P,
    jobs: &[Spec<P::Id>],
    values: &Values<P::Id, P::Value>,
    queue: usize,
) -> Option<Turn<P::Id>>
    requires passed { ArePassed P.Id.eq (P.meaning plan.now) (state_from jobs.now values.now)
        passed.now }
    requires known { queue < length passed.now }
    requires within { queue < length queues.now.queues.items }
    ensures { IsBestOf P.Id.eq P.Id.cmp (P.meaning plan.now) (state_from jobs.now values.now)
        queues.now.queues.items queue result }
{
    let (id, number) = queues::head(&queues.queues[queue])?;
    if is_open(plan, jobs, values, queue, passed[queue]) {
        Some(Turn { queue, id, number })
    } else {
        None
    }
}

/// The job with the least id of those whose queues aren't held up.
pub fn first<P: Plan>(
    passed: &[usize],
    queues: &Queues<P::Id>,
    plan: &P,
    jobs: &[Spec<P::Id>],
    values: &Values<P::Id, P::Value>,
) -> Option<Turn<P::Id>>
    requires passed { ArePassed P.Id.eq (P.meaning plan.now) (state_from jobs.now values.now)
        passed.now }
    requires known { queues.now.used ≤ length passed.now }
    requires within { queues.now.used ≤ length queues.now.queues.items }
    ensures { IsBest P.Id.eq P.Id.cmp (P.meaning plan.now) (state_from jobs.now values.now)
        queues.now.queues.items queues.now.used result }
{
    let mut best = None;
    for queue in 0..queues.used {
        best = queues::lesser(best, first_of(passed, queues, plan, jobs, values, queue));
    }
    best
}
