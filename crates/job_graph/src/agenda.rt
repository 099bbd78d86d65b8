// What is to be done: which jobs can be handed out, and which wait for what.
ghost use Rattle.std.specs.Prelude.{◌≡◌, ◌+◌, ◌^◌, ◌<◌, [], Some, IfOk, OnOk, slice_get, length};
ghost use Rattle.std.specs.Prelude.{true};
ghost use Rattle.access_context.specs.declared.access.Spec.{Spec};
ghost use Rattle.job_graph.specs.Rounds.{state_from};
ghost use Rattle.job_graph.specs.Agenda.{IsAgenda, IsCurrent, IsPlaced, IsNewAgenda, SameCounts};
ghost use Rattle.job_graph.specs.Agenda.{LeftQueue};

use crate::lines::Lines;
use crate::queues::{Queues, Turn, queue_of};
use crate::scan;
use crate::values::Values;
use access_context::Spec;
use refusal_codes::NoMemory;
use std::alloc::Global;

/// What a board has to do, by the jobs and values that it was told of. A job that isn't settled or
/// out stands in a queue once all that it reads is settled. Till then it stands in the line of the
/// first item that it reads and that isn't.
#[derive(Drop)]
pub struct Agenda<Id: Copy + Ord> {
    lines: Lines<Id>,
    pub(crate) queues: Queues<Id>,
    // Jobs whose lines may be past.
    waking: Vec<usize>,
    // For each job that it was told of, how many of its first reads are known to be settled.
    cursors: Vec<usize>,
    // Of how many values it was told.
    told: usize,
}

impl<Id: Copy + Ord> Agenda<Id> {
    /// An agenda that was told of nothing.
    pub fn new(alloc: Global) -> Result<Self, NoMemory>
        ensures { IfOk result (λ a. IsNewAgenda Id.cmp a) }
    {
        Ok(Agenda {
            lines: Lines::new(alloc),
            queues: Queues::new(alloc)?,
            waking: Vec::new(alloc),
            cursors: Vec::new(alloc),
            told: 0,
        })
    }

    /// Whether it was told of so many jobs and values, and has nothing left to do for that.
    pub fn is_current(&self, jobs: usize, values: usize) -> bool
        ensures { result ≡ true → (length self.now.cursors.items ≡ jobs)
            × (self.now.told ≡ values) × (self.now.waking.items ≡ []) }
    {
        self.cursors.len() == jobs && self.told == values && self.waking.is_empty()
    }

    /// Puts a job into its place: in a queue where all that it reads is settled, and else in the
    /// line of the first item that isn't.
    fn place<V: Drop>(
        &mut self,
        alloc: Global,
        jobs: &[Spec<Id>],
        values: &Values<Id, V>,
        outs: &[Option<Id>],
        number: usize,
    ) -> Result<(), NoMemory>
        requires { IsAgenda Id.eq Id.cmp (state_from jobs.now values.now) outs.now self.old }
        ensures agenda { IsAgenda Id.eq Id.cmp (state_from jobs.now values.now) outs.now self.new }
        ensures waking { self.new.waking ≡ self.old.waking }
        ensures counts { SameCounts self.old self.new }
        ensures placed { OnOk result ((job : Spec Id) → number < length self.new.cursors.items
            → slice_get jobs.now number ≡ Some job → IsPlaced Id.eq Id.cmp
            (state_from jobs.now values.now) outs.now self.new.lines.places
            self.new.lines.lines.items self.new.queues.queues.items self.new.told number job) }
    {
        if number >= self.cursors.len() {
            return Ok(());
        }
        let job = &jobs[number];
        let reads = job.access.reads.as_slice();
        let read = scan::first_unsettled(values, reads, self.cursors[number]);
        if read >= reads.len() {
            if scan::is_taken(values, outs, &job.id) {
                return Ok(());
            }
            let queue = queue_of(job.access.awaits);
            return self.queues.join(queue, job.id, number);
        }
        self.lines.wait(alloc, reads[read], number)?;
        self.cursors[number] = read;
        Ok(())
    }

    /// Puts each job into its place whose line may be past.
    fn wake<V: Drop>(
        &mut self,
        alloc: Global,
        jobs: &[Spec<Id>],
        values: &Values<Id, V>,
        outs: &[Option<Id>],
    ) -> Result<(), NoMemory>
        requires { IsAgenda Id.eq Id.cmp (state_from jobs.now values.now) outs.now self.old }
        ensures agenda { IsAgenda Id.eq Id.cmp (state_from jobs.now values.now) outs.now self.new }
        ensures counts { SameCounts self.old self.new }
        ensures awake { OnOk result (self.new.waking.items ≡ []) }
    {
        'waking: while !self.waking.is_empty() {
            let number = self.waking[self.waking.len() - 1];
            self.place(alloc, jobs, values, outs, number)?;
            self.waking.pop();
        }
        Ok(())
    }

    /// Takes in one more job.
    fn admit<V: Drop>(
        &mut self,
        jobs: &[Spec<Id>],
        values: &Values<Id, V>,
        outs: &[Option<Id>],
    ) -> Result<(), NoMemory>
        requires agenda { IsAgenda Id.eq Id.cmp (state_from jobs.now values.now) outs.now self.old }
        requires more { length self.old.cursors.items < length jobs.now }
        ensures agenda { IsAgenda Id.eq Id.cmp (state_from jobs.now values.now) outs.now self.new }
        ensures told { self.new.told ≡ self.old.told }
        ensures more { OnOk result
            (length self.new.cursors.items ≡ length self.old.cursors.items + 1) }
    {
        let number = self.cursors.len();
        self.waking.reserve(1)?;
        self.cursors.push(0)?;
        self.waking.push_reserved(number);
        Ok(())
    }

    /// Takes in all jobs.
    fn admit_all<V: Drop>(
        &mut self,
        alloc: Global,
        jobs: &[Spec<Id>],
        values: &Values<Id, V>,
        outs: &[Option<Id>],
    ) -> Result<(), NoMemory>
        requires { IsAgenda Id.eq Id.cmp (state_from jobs.now values.now) outs.now self.old }
        ensures agenda { IsAgenda Id.eq Id.cmp (state_from jobs.now values.now) outs.now self.new }
        ensures jobs { OnOk result (length self.new.cursors.items ≡ length jobs.now) }
        ensures awake { OnOk result (self.new.waking.items ≡ []) }
    {
        self.wake(alloc, jobs, values, outs)?;
        'jobs: while self.cursors.len() < jobs.len() {
            self.admit(jobs, values, outs)?;
            self.wake(alloc, jobs, values, outs)?;
        }
        Ok(())
    }

    /// Takes in one more value: the jobs that wait for it wake.
    fn tell<V: Drop>(
        &mut self,
        alloc: Global,
        jobs: &[Spec<Id>],
        values: &Values<Id, V>,
        outs: &[Option<Id>],
    )
        requires agenda { IsAgenda Id.eq Id.cmp (state_from jobs.now values.now) outs.now self.old }
        requires awake { self.old.waking.items ≡ [] }
        requires more { self.old.told < length values.now }
        requires fits { self.old.told + 1 < 2 ^ 64 }
        ensures agenda { IsAgenda Id.eq Id.cmp (state_from jobs.now values.now) outs.now self.new }
        ensures jobs { length self.new.cursors.items ≡ length self.old.cursors.items }
        ensures told { self.new.told ≡ self.old.told + 1 }
    {
        let id = values.id_at(self.told);
        self.waking = self.lines.leave(alloc, &id);
        self.told += 1;
    }

    /// Takes in all jobs and values.
    pub fn take_in<V: Drop>(
        &mut self,
        alloc: Global,
        jobs: &[Spec<Id>],
        values: &Values<Id, V>,
        outs: &[Option<Id>],
    ) -> Result<(), NoMemory>
        requires { IsAgenda Id.eq Id.cmp (state_from jobs.now values.now) outs.now self.old }
        ensures agenda { IsAgenda Id.eq Id.cmp (state_from jobs.now values.now) outs.now self.new }
        ensures current { OnOk result (IsCurrent (state_from jobs.now values.now) self.new) }
    {
        self.admit_all(alloc, jobs, values, outs)?;
        'values: while self.told < values.len() {
            self.tell(alloc, jobs, values, outs);
            self.wake(alloc, jobs, values, outs)?;
        }
        Ok(())
    }

    /// A job that stands in a queue is handed out.
    pub fn hand_out(&mut self, turn: Turn<Id>)
        requires { turn.queue < length self.old.queues.queues.items }
        ensures lines { self.new.lines ≡ self.old.lines }
        ensures waking { self.new.waking ≡ self.old.waking }
        ensures cursors { self.new.cursors ≡ self.old.cursors }
        ensures told { self.new.told ≡ self.old.told }
        ensures queues { LeftQueue Id.eq Id.cmp self.old self.new turn }
    {
        self.queues.leave(turn.queue, &turn.id);
    }
}
