// Jobs found by their ids.
ghost use Rattle.std.specs.Prelude.{◌≡◌, List, option_map};
ghost use Rattle.std.specs.List.{list_any, find};
ghost use Rattle.access_context.specs.declared.access.Spec.{Spec};
ghost use Rattle.job_graph.specs.Rounds.{has_id};
ghost use Rattle.job_graph.specs.Numbered.{IsNumbered};

use crate::scan;
use crate::values::note_place;
use access_context::{Access, Spec};
use std::alloc::Global;
use std::collections::BTreeMap;

/// An index of the first jobs of a list: where the first job with an id stands. It takes in no more
/// jobs than a `u32` counts.
#[derive(Drop)]
pub struct Numbers<Id: Copy + Ord> {
    places: BTreeMap<Id, u32>,
    // Of how many jobs.
    count: usize,
}

impl<Id: Copy + Ord> Numbers<Id> {
    /// An index of the first jobs of a list, as long as memory and numbers last.
    pub fn of(alloc: Global, jobs: &[Spec<Id>]) -> Self
        ensures { IsNumbered Id.eq Id.cmp jobs.now result }
    {
        let mut numbers = Numbers {
            places: BTreeMap::new(alloc),
            count: 0,
        };
        numbers.note_all(jobs);
        numbers
    }

    /// Takes in the jobs that are left, as long as memory and numbers last.
    pub fn note_all(&mut self, jobs: &[Spec<Id>])
        requires { IsNumbered Id.eq Id.cmp jobs.now self.old }
        ensures { IsNumbered Id.eq Id.cmp jobs.now self.new }
    {
        'jobs: while self.count < jobs.len() {
            match u32::try_from(self.count) {
                Ok(number) => {
                    if !note_place(&mut self.places, jobs[self.count].id, number) {
                        return;
                    }
                    self.count += 1;
                }
                Err(_) => return,
            }
        }
    }

    /// The job with this id. Where memory ran out, the jobs are looked at that weren't taken in.
    fn job<'a>(&self, jobs: &'a [Spec<Id>], id: &Id) -> Option<&'a Spec<Id>>
        requires { IsNumbered Id.eq Id.cmp jobs.now self.now }
        ensures { option_map (λ job. job.now) result ≡ find (has_id Id.eq id.now) jobs.now }
    {
        match self.places.get(id) {
            Some(number) => Some(&jobs[*number as usize]),
            None => scan::job_from(jobs, id, self.count),
        }
    }

    /// Whether a job has this id.
    pub fn has_job(&self, jobs: &[Spec<Id>], id: &Id) -> bool
        requires { IsNumbered Id.eq Id.cmp jobs.now self.now }
        ensures { result ≡ list_any (has_id Id.eq id.now) jobs.now }
    {
        self.job(jobs, id).is_some()
    }

    /// With what the job with this id was added.
    pub fn access_of<'a>(&self, jobs: &'a [Spec<Id>], id: &Id) -> Option<&'a Access<Id>>
        requires { IsNumbered Id.eq Id.cmp jobs.now self.now }
        ensures { option_map (λ access. access.now) result
            ≡ option_map (λ (job : Spec Id). job.access) (find (has_id Id.eq id.now) jobs.now) }
    {
        match self.job(jobs, id) {
            Some(job) => Some(&job.access),
            None => None,
        }
    }
}
