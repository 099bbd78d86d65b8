// Plans that grow from one job, by arithmetic on the numbers of jobs.
ghost use Rattle.std.specs.Prelude.{◌≡◌, IfOk, map};
ghost use Rattle.std.specs.List.{range_with_len};
ghost use Rattle.board_bench.specs.Plans.{reads_of, adds_of, jobs_of, grown};
ghost use Rattle.board_bench.specs.Lawful.{grown_lawful};

use crate::job::Job;
use access_context::{Access, Outcome, Reads, Settled, Spec};
use job_graph::Plan;
use plain_lists::Sequence;
use refusal_codes::NoMemory;
use std::alloc::Global;
use std::sync::Arc;

/// So many leaves are read by a fan, where there are so many.
const WIDTH: u32 = 60_000;

/// The plan that begins with one job, and in which jobs have the numbers below a size.
#[derive(Drop)]
pub struct Grown {
    /// The job that is there from the start.
    pub first: Job,
    /// Above all numbers of jobs.
    pub size: u32,
}

/// The leaves with the numbers below this one.
#[tactic(auto, using(crate::proofs::Numbered::one_more))]
fn leaves(alloc: Global, count: u32) -> Result<Vec<Job>, NoMemory>
    ensures { IfOk result (λ ids. ids.items ≡ map Job.Leaf (range_with_len 0 count)) }
{
    let mut ids = Vec::with_capacity(alloc, count as usize)?;
    for number in 0..count {
        ids.push(Job::Leaf(number))?;
    }
    Ok(ids)
}

/// The first jobs of the glyphs with the numbers below this one.
#[tactic(auto, using(crate::proofs::Numbered::one_more))]
fn raw_glyphs(alloc: Global, count: u32) -> Result<Vec<Job>, NoMemory>
    ensures { IfOk result (λ ids. ids.items ≡ map Job.Raw (range_with_len 0 count)) }
{
    let mut ids = Vec::with_capacity(alloc, count as usize)?;
    for number in 0..count {
        ids.push(Job::Raw(number))?;
    }
    Ok(ids)
}

/// The jobs that a job reads.
fn reads_of(alloc: Global, size: u32, id: Job) -> Result<Vec<Job>, NoMemory>
    ensures { IfOk result (λ ids. ids.items ≡ reads_of size id) }
{
    match id {
        Job::Link(number) => {
            let mut ids = Vec::new(alloc);
            if number > 0 {
                ids.push(Job::Link(number - 1))?;
            }
            Ok(ids)
        }
        Job::Fan => leaves(alloc, size.min(WIDTH)),
        Job::Flat(glyph) | Job::Advance(glyph) => Ok(vec![in alloc; Job::Raw(glyph)]?),
        Job::Simple(glyph) | Job::Variations(glyph) => Ok(vec![in alloc; Job::Flat(glyph)]?),
        Job::Metrics(glyph) => {
            Ok(vec![in alloc; Job::Raw(glyph), Job::Simple(glyph), Job::Advance(glyph)]?)
        }
        Job::Spread | Job::Leaf(_) | Job::Index | Job::Raw(_) => Ok(Vec::new(alloc)),
    }
}

/// The jobs that a job adds, where they are in the plan.
fn adds_of(alloc: Global, size: u32, id: Job) -> Result<Vec<Job>, NoMemory>
    ensures { IfOk result (λ ids. ids.items ≡ adds_of size id) }
{
    match id {
        Job::Link(number) => {
            let mut ids = Vec::new(alloc);
            if number < size {
                ids.push(Job::Link(number + 1))?;
            }
            Ok(ids)
        }
        Job::Spread => {
            let mut ids = leaves(alloc, size)?;
            ids.push(Job::Fan)?;
            Ok(ids)
        }
        Job::Index => raw_glyphs(alloc, size),
        Job::Raw(glyph) => Ok(vec![in alloc;
            Job::Metrics(glyph),
            Job::Simple(glyph),
            Job::Variations(glyph),
            Job::Flat(glyph),
            Job::Advance(glyph),
        ]?),
        _ => Ok(Vec::new(alloc)),
    }
}

/// The jobs with these ids, of those whose numbers are below the size.
fn jobs_of(alloc: Global, size: u32, ids: &[Job]) -> Result<Vec<Spec<Job>>, NoMemory>
    ensures { IfOk result (λ jobs. jobs.items ≡ jobs_of size ids.now) }
{
    let mut jobs = Vec::with_capacity(alloc, ids.len())?;
    for id in ids {
        if id.number() < size {
            let reads = Sequence::from_vec(reads_of(alloc, size, *id)?);
            let access = Access {
                reads,
                awaits: None,
            };
            jobs.push(Spec { id: *id, access })?;
        }
    }
    Ok(jobs)
}

impl Plan for Grown {
    type Id = Job;

    type Value = usize;

    ghost meaning = { λ p. grown p.first p.size };

    fn opening(&self, alloc: Global) -> Result<Vec<Spec<Job>>, NoMemory> {
        jobs_of(alloc, self.size, [self.first].as_slice())
    }

    fn stratum(&self, _id: &Job) -> u8 {
        0
    }

    fn run(
        &self,
        alloc: Global,
        id: &Job,
        reads: &Reads<Job, usize>,
    ) -> Result<Outcome<usize, Job>, NoMemory> {
        let ids = adds_of(alloc, self.size, *id)?;
        let added = jobs_of(alloc, self.size, ids.as_slice())?;
        Ok(Outcome {
            value: Settled::Done(Arc::new(alloc, reads.items().len())?),
            added: Sequence::from_vec(added),
        })
    }

    ghost lawful = { λ p. grown_lawful p.first p.size };
}
