ghost use Rattle.std.specs.Prelude.{◌≡◌, ◌<◌, [], ◌∷◌, ◌++◌, option_map, IfSome, IfOk, OnOk, IfErr};
ghost use Rattle.std.specs.Prelude.{OnErr, Some, None, ℕ, is_some, if◌then◌else◌};
ghost use Rattle.std.specs.List.{list_any};
ghost use Rattle.access_context.specs.Plain.{plain, plain_outcome};
ghost use Rattle.job_graph.specs.Rounds.{value_in, is_settled, is_unsettled_job, access_in, limit};
ghost use Rattle.job_graph.specs.Rounds.{IsOutcomeOf, IsAddedOf};
ghost use Rattle.job_graph.specs.Histories.{is_halt_of, out_at, state_of, end_of};
ghost use Rattle.job_graph.specs.Promises.{IsHistory, IsComplete};

use crate::agenda::Agenda;
use crate::claim::{Claim, Ticket, Unfinished};
use crate::event::{End, Event};
use crate::numbers::Numbers;
use crate::plan::Plan;
use crate::queues::QUEUES;
use crate::values::Values;
use crate::{lists, scan, strata, turns};
use access_context::{Access, Outcome, Settled, Spec};
use refusal_codes::NoMemory;
use std::alloc::Global;
use std::marker::Model;

/// A board of jobs: what each worker did so far, and what came of it. A contract sees its plan, its
/// workers and its
/// events; all else follows from these.
///
/// This body keeps an agenda beside its lists: a job stands in a queue once all that it reads is
/// settled, and till then in the line of the first item that isn't. `finish` tells the agenda of
/// the jobs and values that are new. That takes the logarithm of the jobs for each of these and for
/// each job that they wake. A claim takes the logarithm for each item that the job reads which is
/// handed out. For each stratum that is awaited a whole run goes once through the jobs. `get`,
/// `added_by`, `is_stuck`, `access_of` and `result` take the logarithm. `result` takes one pass
/// before the first claim or where memory ran out since; `is_stuck` and `access_of` may take one
/// through the jobs that were added since memory ran out last.
///
/// No contract of a public call speaks of the agenda.
#[derive(Drop)]
pub struct Board<P: Plan> {
    plan: P,
    workers: u32,
    events: Vec<Event<P::Id>>,
    jobs: Vec<Spec<P::Id>>,
    values: Values<P::Id, P::Value>,
    // For each value the places of the jobs that it added: the first of them, and the next after
    // the last.
    ranges: Vec<(usize, usize)>,
    numbers: Numbers<P::Id>,
    outs: Vec<Option<P::Id>>,
    halted: Vec<bool>,
    any_halted: bool,
    agenda: Agenda<P::Id>,
    // For each queue of the agenda, how many of the first jobs are known not to hold it up.
    passed: Vec<usize>,
}

impl<P: Plan> Model for Board<P> {
    ghost use Rattle.std.specs.Prelude.{map};
    ghost use Rattle.job_graph.specs.BoardView.{BoardView};
    ghost use Rattle.job_graph.specs.BoardBody.{IsKept};
    ghost use Rattle.job_graph.specs.Rounds.{state_from};

    ghost Value = { BoardView P P.Id };

    ghost view = { λ b. record { plan = b.plan; workers = b.workers; events = b.events.items } };

    ghost invariant = { λ b. IsKept P.Id.eq P.Id.cmp (P.meaning b.plan) b.workers b.events
        (state_from b.jobs.items b.values) b.outs.items b.halted.items b.any_halted b.ranges.items
        b.numbers b.agenda b.passed.items };
}

impl<P: Plan> Board<P> {
    ghost use Rattle.job_graph.specs.BoardView.{BoardView, NowHas};
    ghost use Rattle.job_graph.specs.Answers.{IsAnswer, IsLeastRun};
    ghost use Rattle.job_graph.specs.declared.event.Event.TheVariants as event;

    /// A board on which nothing happened yet.
    pub fn new(alloc: Global, plan: P, workers: u32) -> Result<Board<P>, NoMemory>
        ensures made { IfOk result (λ b. b
            ≡ record { plan = plan; workers = workers; events = [] }) }
        ensures free { IfOk result (λ b. (w : ℕ) → w < b.workers
            → out_at b.workers b.events w ≡ Some None) }
        ensures history { IfOk result (λ b. IsHistory P.Id.eq (P.meaning b.plan) b.workers
            b.events) }
    {
        let jobs = plan.opening(alloc)?;
        let count = workers as usize;
        let events = Vec::with_capacity(alloc, count)?;
        let outs = lists::none_out(alloc, count)?;
        let halted = lists::none_halted(alloc, count)?;
        let agenda = Agenda::new(alloc)?;
        let passed = strata::none_passed(alloc, QUEUES)?;
        let numbers = Numbers::of(alloc, jobs.as_slice());
        Ok(Board {
            plan,
            workers,
            events,
            jobs,
            values: Values::new(alloc),
            ranges: Vec::new(alloc),
            numbers,
            outs,
            halted,
            any_halted: false,
            agenda,
            passed,
        })
    }

    /// Hands a worker the job with the least id of those that are ready and weren't handed out, or
    /// says why not.
    pub fn claim(&mut self, alloc: Global, worker: u32) -> Claim<P>
        requires known { worker < self.old.workers }
        requires free { out_at self.old.workers self.old.events worker ≡ Some None }
        ensures answer { IsAnswer P.Id.eq (P.meaning self.old.plan) self.old worker result
            self.new }
        ensures least { IsLeastRun P.Id.eq (P.meaning self.old.plan) P.Id.cmp self.old.events
            result }
        ensures history { IsHistory P.Id.eq (P.meaning self.new.plan) self.new.workers
            self.new.events }
    {
        if self.any_halted {
            return Claim::Halted;
        }
        let next = turns::next_run(
            &mut self.agenda,
            &mut self.passed,
            alloc,
            &self.plan,
            self.jobs.as_slice(),
            &self.values,
            self.outs.as_slice(),
        );
        match next {
            Err(_) => Claim::NoMemory,
            Ok(None) => {
                let count = scan::running(self.outs.as_slice(), self.workers);
                if count > 0 {
                    return Claim::Idle(count);
                }
                Claim::Ended
            }
            Ok(Some((turn, reads))) => {
                let id = turn.id;
                let event = Event::Claim(worker, id);
                if lists::note(&mut self.events, self.halted.as_slice(), event) {
                    self.agenda.hand_out(turn);
                    self.outs[worker as usize] = Some(id);
                    Claim::Run(Ticket::of(id), reads)
                } else {
                    Claim::NoMemory
                }
            }
        }
    }

    /// Gives a job what came of it. Where memory runs out, the board is as before and both parts
    /// come back.
    pub fn finish(
        &mut self,
        alloc: Global,
        worker: u32,
        ticket: Ticket<P::Id>,
        outcome: Outcome<P::Value, P::Id>,
    ) -> Result<(), Unfinished<P>>
        requires out { out_at self.old.workers self.old.events worker ≡ Some (Some ticket) }
        requires outcome { IsOutcomeOf P.Id.eq (P.meaning self.old.plan) ticket
            (plain_outcome outcome) }
        ensures ok { OnOk result (self.new ≡ record self.old
            { events = self.old.events ++ event.Finish worker ticket ∷ [] }) }
        ensures free { OnOk result (NowHas self.old self.new worker None) }
        ensures err { OnErr result (self.new ≡ self.old) }
        ensures back { IfErr result (λ u. (u.ticket ≡ ticket) × (u.outcome ≡ outcome)) }
        ensures history { IsHistory P.Id.eq (P.meaning self.new.plan) self.new.workers
            self.new.events }
    {
        match self.settle(worker, ticket, outcome) {
            Ok(()) => {
                self.note_jobs();
                self.catch_up(alloc);
                Ok(())
            }
            Err(unfinished) => Err(unfinished),
        }
    }

    /// Gives a job what came of it, of which the agenda isn't told yet.
    fn settle(
        &mut self,
        worker: u32,
        ticket: Ticket<P::Id>,
        outcome: Outcome<P::Value, P::Id>,
    ) -> Result<(), Unfinished<P>>
        requires out { out_at self.old.workers self.old.events worker ≡ Some (Some ticket) }
        requires outcome { IsOutcomeOf P.Id.eq (P.meaning self.old.plan) ticket
            (plain_outcome outcome) }
        ensures ok { OnOk result (self.new ≡ record self.old
            { events = self.old.events ++ event.Finish worker ticket ∷ [] }) }
        ensures free { OnOk result (NowHas self.old self.new worker None) }
        ensures err { OnErr result (self.new ≡ self.old) }
        ensures back { IfErr result (λ u. (u.ticket ≡ ticket) × (u.outcome ≡ outcome)) }
        ensures history { IsHistory P.Id.eq (P.meaning self.new.plan) self.new.workers
            self.new.events }
    {
        let id = *ticket.id();
        let count = outcome.added.len();
        let halted = self.halted.as_slice();
        if !lists::make_room(
            &mut self.ranges,
            &mut self.jobs,
            count,
            &mut self.events,
            halted,
        ) {
            return Err(Unfinished { ticket, outcome });
        }
        let Outcome { value, added } = outcome;
        match self.values.push(id, value) {
            Err(value) => {
                let outcome = Outcome { value, added };
                Err(Unfinished { ticket, outcome })
            }
            Ok(()) => {
                self.events.push_reserved(Event::Finish(worker, id));
                let from = self.jobs.len();
                lists::add_all(&mut self.jobs, added.into_vec());
                let to = self.jobs.len();
                self.ranges.push_reserved((from, to));
                self.outs[worker as usize] = None;
                Ok(())
            }
        }
    }

    /// Tells the index of all jobs. Where memory runs out, the next finish does that.
    fn note_jobs(&mut self)
        ensures { self.new ≡ self.old }
    {
        self.numbers.note_all(self.jobs.as_slice());
    }

    /// Tells the agenda of all jobs and values. Where memory runs out, the next claim does that.
    fn catch_up(&mut self, alloc: Global)
        ensures { self.new ≡ self.old }
    {
        if self.any_halted {
            return;
        }
        let jobs = self.jobs.as_slice();
        let outs = self.outs.as_slice();
        if self.agenda.take_in(alloc, jobs, &self.values, outs).is_ok() {
            let queues = &self.agenda.queues;
            strata::look(&mut self.passed, queues, &self.plan, jobs, &self.values);
        }
    }

    /// Stops the board for all. Only a worker's first halt counts. A job that it has out is given
    /// up. It takes no memory.
    pub fn halt(&mut self, worker: u32)
        requires { worker < self.old.workers }
        ensures halts { self.new ≡ (if list_any (is_halt_of worker) self.old.events then self.old
            else record self.old { events = self.old.events ++ event.Halt worker ∷ [] }) }
        ensures gives_up { NowHas self.old self.new worker None }
        ensures history { IsHistory P.Id.eq (P.meaning self.new.plan) self.new.workers
            self.new.events }
    {
        let place = worker as usize;
        if !self.halted[place] {
            self.halted[place] = true;
            self.events.push_reserved(Event::Halt(worker));
            self.outs[place] = None;
            self.any_halted = true;
        }
    }

    /// The plan. It takes no memory.
    pub fn plan(&self) -> &P
        ensures { result.now ≡ self.now.plan }
    {
        &self.plan
    }

    /// How many workers there are. It takes no memory.
    pub fn workers(&self) -> u32
        ensures { result ≡ self.now.workers }
    {
        self.workers
    }

    /// Where the board stands. It takes no memory.
    pub fn result(&self) -> End
        ensures end { result ≡ end_of P.Id.eq (P.meaning self.now.plan) self.now.workers
            self.now.events }
        ensures complete { result ≡ End.Ended
            → IsComplete P.Id.eq (P.meaning self.now.plan) self.now.events }
        ensures history { IsHistory P.Id.eq (P.meaning self.now.plan) self.now.workers
            self.now.events }
    {
        if self.any_halted {
            return End::Halted;
        }
        if scan::running(self.outs.as_slice(), self.workers) > 0 {
            return End::Running;
        }
        if turns::some_left(
            &self.agenda,
            self.passed.as_slice(),
            &self.plan,
            self.jobs.as_slice(),
            &self.values,
            self.outs.as_slice(),
        ) {
            End::Running
        } else {
            End::Ended
        }
    }

    /// What happened so far. It takes no memory.
    pub fn events(&self) -> &[Event<P::Id>]
        ensures events { result.now ≡ self.now.events }
        ensures history { IsHistory P.Id.eq (P.meaning self.now.plan) self.now.workers
            self.now.events }
    {
        self.events.as_slice()
    }

    /// What came of a job, where it is settled. It takes no memory.
    pub fn get(&self, id: &P::Id) -> Option<&Settled<P::Value>>
        ensures value { option_map (λ s. plain s.now) result
            ≡ value_in P.Id.eq (state_of P.Id.eq (P.meaning self.now.plan) self.now.events) id.now }
        ensures in_limit { IfSome result (λ s. value_in P.Id.eq
            (limit P.Id.eq (P.meaning self.now.plan)) id.now ≡ Some (plain s.now)) }
        ensures ended { end_of P.Id.eq (P.meaning self.now.plan) self.now.workers self.now.events
            ≡ End.Ended
            → option_map (λ s. plain s.now) result
            ≡ value_in P.Id.eq (limit P.Id.eq (P.meaning self.now.plan)) id.now }
    {
        self.values.get(id)
    }

    /// Whether this is a job that isn't settled; on a board that has ended it never will be. It
    /// takes no memory.
    pub fn is_stuck(&self, id: &P::Id) -> bool
        ensures unsettled { result ≡ is_unsettled_job P.Id.eq
            (state_of P.Id.eq (P.meaning self.now.plan) self.now.events) id.now }
        ensures ended { end_of P.Id.eq (P.meaning self.now.plan) self.now.workers self.now.events
            ≡ End.Ended
            → result ≡ is_unsettled_job P.Id.eq (limit P.Id.eq (P.meaning self.now.plan)) id.now }
    {
        self.numbers.has_job(self.jobs.as_slice(), id) && !scan::is_settled(&self.values, id)
    }

    /// The jobs that a settled job added, in their order: none where it isn't settled. It takes no
    /// memory.
    pub fn added_by(&self, id: &P::Id) -> Option<&[Spec<P::Id>]>
        ensures settled { is_some result ≡ is_settled P.Id.eq
            (state_of P.Id.eq (P.meaning self.now.plan) self.now.events) id.now }
        ensures added { IfSome result (λ jobs. IsAddedOf P.Id.eq (P.meaning self.now.plan) id.now
            jobs.now) }
    {
        match self.values.place(id) {
            None => None,
            Some(place) => {
                let (from, to) = self.ranges[place];
                Some(lists::part(self.jobs.as_slice(), from, to))
            }
        }
    }

    /// With what a job was added, where a job with this id was. It takes no memory.
    pub fn access_of(&self, id: &P::Id) -> Option<&Access<P::Id>>
        ensures { option_map (λ access. access.now) result
            ≡ access_in P.Id.eq (state_of P.Id.eq (P.meaning self.now.plan) self.now.events)
            id.now }
    {
        self.numbers.access_of(self.jobs.as_slice(), id)
    }
}
