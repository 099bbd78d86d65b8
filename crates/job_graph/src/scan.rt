// Readiness, found by scanning lists.
ghost use Rattle.std.specs.Prelude.{◌≡◌, ℕ, take, slice_get, option_map, map, is_some, not, ◌&&◌};
ghost use Rattle.std.specs.Prelude.{◌||◌, nat_le, length, count_by, IfOk, IsTrue, List, true, drop};
ghost use Rattle.std.specs.Prelude.{false, Some, ◌≤◌};
ghost use Rattle.std.specs.List.{list_all, list_any, find};
ghost use Rattle.access_context.specs.declared.access.Spec.{Spec};
ghost use Rattle.access_context.specs.Plain.{plain};
ghost use Rattle.access_context.specs.Read.{plain_item, read_of};
ghost use Rattle.job_graph.specs.Rounds.{state_from, is_settled, is_done_up_to, awaits_nothing};
ghost use Rattle.job_graph.specs.Rounds.{is_ready, item_of, has_id};
ghost use Rattle.job_graph.specs.Histories.{some_ready};
ghost use Rattle.job_graph.specs.Agenda.{is_out_of};

use crate::plan::Plan;
use crate::values::Values;
use access_context::{Settled, Spec};
use refusal_codes::NoMemory;
use std::alloc::Global;

/// Whether something came of the job with this id.
pub fn is_settled<Id: Copy + Ord, V: Drop>(values: &Values<Id, V>, id: &Id) -> bool
    ensures { result ≡ is_some (read_of Id.eq values.now id.now) }
{
    values.get(id).is_some()
}

/// Whether a worker has this job out.
fn has_out<Id: Copy + Ord>(out: &Option<Id>, id: &Id) -> bool
    ensures { result ≡ is_out_of Id.eq id.now out.now }
{
    match out {
        Some(job) => *job == *id,
        None => false,
    }
}

/// Whether some worker has this job out.
fn is_out<Id: Copy + Ord>(outs: &[Option<Id>], id: &Id) -> bool
    ensures { result ≡ list_any (is_out_of Id.eq id.now) outs.now }
{
    for out in outs {
        if has_out(out, id) {
            return true;
        }
    }
    false
}

/// Whether a job is settled or out.
pub fn is_taken<Id: Copy + Ord, V: Drop>(
    values: &Values<Id, V>,
    outs: &[Option<Id>],
    id: &Id,
) -> bool
    ensures { result ≡ (is_some (read_of Id.eq values.now id.now)
        || list_any (is_out_of Id.eq id.now) outs.now) }
{
    is_settled(values, id) || is_out(outs, id)
}

/// How many of the first reads are settled, where it is known of some.
pub fn first_unsettled<Id: Copy + Ord, V: Drop>(
    values: &Values<Id, V>,
    reads: &[Id],
    known: usize,
) -> usize
    requires { list_all (λ id. is_some (read_of Id.eq values.now id)) (take known reads.now)
        ≡ true }
    ensures settled { list_all (λ id. is_some (read_of Id.eq values.now id)) (take result reads.now)
        ≡ true }
    ensures stops { (id : Id) → slice_get reads.now result ≡ Some id
        → is_some (read_of Id.eq values.now id) ≡ false }
{
    let mut read = known;
    while read < reads.len() && is_settled(values, &reads[read]) {
        read += 1;
    }
    read
}

/// Whether each of these ids is settled.
pub fn all_settled<Id: Copy + Ord, V: Drop>(values: &Values<Id, V>, ids: &[Id]) -> bool
    ensures { result ≡ list_all (λ id. is_some (read_of Id.eq values.now id)) ids.now }
{
    for id in ids {
        if !is_settled(values, id) {
            return false;
        }
    }
    true
}

/// Whether a job is of a higher stratum, or is settled.
pub fn lets_pass<P: Plan>(
    plan: &P,
    values: &Values<P::Id, P::Value>,
    job: &Spec<P::Id>,
    stratum: usize,
) -> bool
    ensures { result ≡ (not (nat_le ((P.meaning plan.now).stratum job.now.id) stratum)
        || is_some (read_of P.Id.eq values.now job.now.id)) }
{
    usize::from(plan.stratum(&job.id)) > stratum || is_settled(values, &job.id)
}

/// Whether no job of this stratum or a lower one is unfinished.
pub fn is_done_up_to<P: Plan>(
    plan: &P,
    jobs: &[Spec<P::Id>],
    values: &Values<P::Id, P::Value>,
    stratum: u8,
) -> bool
    ensures { result ≡ is_done_up_to P.Id.eq (P.meaning plan.now) (state_from jobs.now values.now)
        stratum }
{
    for job in jobs {
        if !lets_pass(plan, values, job, usize::from(stratum)) {
            return false;
        }
    }
    true
}

/// Whether no job is unfinished that is awaited.
fn awaits_nothing<P: Plan>(
    plan: &P,
    jobs: &[Spec<P::Id>],
    values: &Values<P::Id, P::Value>,
    awaits: Option<u8>,
) -> bool
    ensures { result ≡ awaits_nothing P.Id.eq (P.meaning plan.now) (state_from jobs.now values.now)
        awaits }
{
    match awaits {
        None => true,
        Some(stratum) => is_done_up_to(plan, jobs, values, stratum),
    }
}

/// Whether a job is ready.
pub fn is_ready<P: Plan>(
    plan: &P,
    jobs: &[Spec<P::Id>],
    values: &Values<P::Id, P::Value>,
    job: &Spec<P::Id>,
) -> bool
    ensures { result ≡ is_ready P.Id.eq (P.meaning plan.now) (state_from jobs.now values.now)
        job.now }
{
    !is_settled(values, &job.id)
        && all_settled(values, job.access.reads.as_slice())
        && awaits_nothing(plan, jobs, values, job.access.awaits)
}

/// Whether a job is ready.
pub fn some_ready<P: Plan>(plan: &P, jobs: &[Spec<P::Id>], values: &Values<P::Id, P::Value>) -> bool
    ensures { result ≡ some_ready P.Id.eq (P.meaning plan.now) (state_from jobs.now values.now) }
{
    for job in jobs {
        if is_ready(plan, jobs, values, job) {
            return true;
        }
    }
    false
}

/// The first job with this id.
fn job_of<'a, Id: Copy + Ord>(jobs: &'a [Spec<Id>], id: &Id) -> Option<&'a Spec<Id>>
    ensures { option_map (λ job. job.now) result ≡ find (has_id Id.eq id.now) jobs.now }
{
    for job in jobs {
        if job.id == *id {
            return Some(job);
        }
    }
    None
}

/// The first job with this id of those from a place on.
pub fn job_from<'a, Id: Copy + Ord>(
    jobs: &'a [Spec<Id>],
    id: &Id,
    from: usize,
) -> Option<&'a Spec<Id>>
    requires { from ≤ length jobs.now }
    ensures { option_map (λ job. job.now) result
        ≡ find (has_id Id.eq id.now) (drop from jobs.now) }
{
    job_of(&jobs[from..], id)
}

/// How many workers have a job out.
pub fn running<Id: Copy>(outs: &[Option<Id>], workers: u32) -> u32
    requires { length outs.now ≡ workers }
    ensures { result ≡ count_by is_some outs.now }
{
    let mut count = 0u32;
    for out in outs {
        if out.is_some() {
            count += 1;
        }
    }
    count
}

/// What came of a job that is settled.
fn copy_of<Id: Copy + Ord, V: Drop>(
    alloc: Global,
    values: &Values<Id, V>,
    id: &Id,
) -> Result<Settled<V>, NoMemory>
    ensures { IfOk result (λ s. plain s ≡ (item_of Id.eq values.now id.now).1) }
{
    match values.get(id) {
        Some(settled) => settled.copy(alloc),
        None => Ok(Settled::Blocked),
    }
}

/// What a job reads; an item that isn't settled counts as blocked.
pub fn reads_of<Id: Copy + Ord, V: Drop>(
    alloc: Global,
    values: &Values<Id, V>,
    ids: &[Id],
) -> Result<Vec<(Id, Settled<V>)>, NoMemory>
    ensures { IfOk result (λ reads. map plain_item reads.items
        ≡ map (item_of Id.eq values.now) ids.now) }
{
    let mut reads = Vec::with_capacity(alloc, ids.len())?;
    for id in ids {
        reads.push((*id, copy_of(alloc, values, id)?))?;
    }
    Ok(reads)
}
