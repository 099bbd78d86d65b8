// The plain program of a board: which job comes next, found by scanning lists.
use access_context::Spec;
use job_graph::{Board, Event, Plan};
use refusal_codes::NoMemory;
use std::alloc::Global;

/// Whether this id is among those.
fn has<Id: Copy + Ord>(ids: &[Id], id: &Id) -> bool {
    for other in ids {
        if *other == *id {
            return true;
        }
    }
    false
}

/// Whether each of these ids is among those.
fn has_all<Id: Copy + Ord>(ids: &[Id], wanted: &[Id]) -> bool {
    for id in wanted {
        if !has(ids, id) {
            return false;
        }
    }
    true
}

/// Whether no job of this stratum or a lower one is unfinished.
fn is_done_up_to<P: Plan>(plan: &P, jobs: &[Spec<P::Id>], settled: &[P::Id], stratum: u8) -> bool {
    for job in jobs {
        if plan.stratum(&job.id) <= stratum && !has(settled, &job.id) {
            return false;
        }
    }
    true
}

/// Whether a job is ready.
fn is_ready<P: Plan>(plan: &P, jobs: &[Spec<P::Id>], settled: &[P::Id], job: &Spec<P::Id>) -> bool {
    if has(settled, &job.id) || !has_all(settled, job.access.reads.as_slice()) {
        return false;
    }
    match job.access.awaits {
        None => true,
        Some(stratum) => is_done_up_to(plan, jobs, settled, stratum),
    }
}

/// Whether an id comes before the least so far.
fn is_less<Id: Copy + Ord>(least: &Option<Id>, id: &Id) -> bool {
    match least {
        None => true,
        Some(other) => *id < *other,
    }
}

/// The least id of the jobs that are ready and weren't claimed.
fn next_of<P: Plan>(
    plan: &P,
    jobs: &[Spec<P::Id>],
    settled: &[P::Id],
    claimed: &[P::Id],
) -> Option<P::Id> {
    let mut least = None;
    for job in jobs {
        if !has(claimed, &job.id)
            && is_less(&least, &job.id)
            && is_ready(plan, jobs, settled, job)
        {
            least = Some(job.id);
        }
    }
    least
}

/// Whether each claim of a board was of the job that scanning finds, and whether the board tells of
/// each finished job what it added. Scanning finds the ready job with the least id.
pub fn is_as_scanned<P: Plan>(alloc: Global, board: &Board<P>) -> Result<bool, NoMemory> {
    let mut jobs = board.plan().opening(alloc)?;
    let mut settled = Vec::new(alloc);
    let mut claimed = Vec::new(alloc);
    for event in board.events() {
        match event {
            Event::Claim(_, id) => {
                let plan = board.plan();
                let next = next_of(
                    plan,
                    jobs.as_slice(),
                    settled.as_slice(),
                    claimed.as_slice(),
                );
                if next != Some(*id) {
                    return Ok(false);
                }
                claimed.push(*id)?;
            }
            Event::Finish(_, id) => {
                settled.push(*id)?;
                let Some(added) = board.added_by(id) else {
                    return Ok(false);
                };
                for job in added {
                    jobs.push(job.copy(alloc)?)?;
                }
            }
            Event::Halt(_) => {}
        }
    }
    Ok(true)
}
