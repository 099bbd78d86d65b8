// Queues of jobs that have all that they read, by what they await.
ghost use Rattle.std.specs.Prelude.{◌≡◌, ◌<◌, ◌≤◌, ℕ, ◌⊎◌, Some, None, IfOk, IfSome, IfNone, OnOk};
ghost use Rattle.std.specs.Prelude.{OnErr, length, true, false, if◌then◌else◌};
ghost use Rattle.std.specs.BTreeMap as tree;
ghost use Rattle.job_graph.specs.Agenda.{rank_of, IsQueued, HasJob, AreEmpty, IsEither, IsLesser};

use refusal_codes::NoMemory;
use std::alloc::Global;
use std::collections::BTreeMap;

/// One queue for the jobs that await nothing, and one for those that await each stratum.
pub const QUEUES: usize = 257;

/// Jobs in queues, each found by its id. The first queue has the jobs that await nothing, and each
/// later one those that await one stratum.
#[derive(Drop)]
pub struct Queues<Id: Copy + Ord> {
    pub(crate) queues: Vec<BTreeMap<Id, usize>>,
    // No job stands in this queue or a later one.
    pub(crate) used: usize,
}

/// A job in a queue.
#[derive(Clone, Copy)]
pub struct Turn<Id> {
    /// The queue.
    pub queue: usize,
    /// The job's id.
    pub id: Id,
    /// Where it stands among all jobs.
    pub number: usize,
}

/// The queue of a job by what it awaits.
pub fn queue_of(awaits: Option<u8>) -> usize
    ensures queue { result ≡ rank_of awaits }
    ensures within { result < 257 }
{
    match awaits {
        None => 0,
        Some(stratum) => usize::from(stratum) + 1,
    }
}

/// So many queues without jobs.
fn empty_queues<Id: Copy + Ord>(
    alloc: Global,
    count: usize,
) -> Result<Vec<BTreeMap<Id, usize>>, NoMemory>
    ensures empty { IfOk result (λ queues. AreEmpty Id.cmp queues.items) }
    ensures count { IfOk result (λ queues. length queues.items ≡ count) }
{
    let mut queues = Vec::with_capacity(alloc, count)?;
    for _i in 0..count {
        queues.push(BTreeMap::new(alloc))?;
    }
    Ok(queues)
}

impl<Id: Copy + Ord> Queues<Id> {
    /// Queues without jobs.
    pub fn new(alloc: Global) -> Result<Self, NoMemory>
        ensures empty { IfOk result (λ q. AreEmpty Id.cmp q.queues.items) }
        ensures count { IfOk result (λ q. length q.queues.items ≡ 257) }
        ensures used { IfOk result (λ q. q.used ≡ 0) }
    {
        Ok(Queues {
            queues: empty_queues(alloc, QUEUES)?,
            used: 0,
        })
    }

    /// A job joins a queue.
    pub fn join(&mut self, queue: usize, id: Id, number: usize) -> Result<(), NoMemory>
        requires { queue < length self.old.queues.items }
        ensures kept { (rank : ℕ) (q : Id) (n : ℕ) → IsQueued Id.cmp self.old.queues.items rank q n
            → HasJob Id.cmp self.new.queues.items rank q }
        ensures joined { OnOk result (HasJob Id.cmp self.new.queues.items queue id) }
        ensures others { (rank : ℕ) (q : Id) (n : ℕ)
            → IsQueued Id.cmp self.new.queues.items rank q n
            → IsQueued Id.cmp self.old.queues.items rank q n
            ⊎ ((rank ≡ queue) × (Id.eq id q ≡ true) × (n ≡ number)) }
        ensures used { (self.old.used ≤ self.new.used) × (queue < self.new.used)
            × (self.old.used ≤ length self.old.queues.items
            → self.new.used ≤ length self.old.queues.items) }
        ensures count { length self.new.queues.items ≡ length self.old.queues.items }
    {
        self.used = self.used.max(queue + 1);
        insert_job(&mut self.queues[queue], id, number)?;
        Ok(())
    }

    /// A job leaves a queue.
    pub fn leave(&mut self, queue: usize, id: &Id)
        requires { queue < length self.old.queues.items }
        ensures kept { (rank : ℕ) (q : Id) (n : ℕ) → IsQueued Id.cmp self.old.queues.items rank q n
            → HasJob Id.cmp self.new.queues.items rank q ⊎ (Id.eq id.now q ≡ true) }
        ensures others { (rank : ℕ) (q : Id) (n : ℕ)
            → IsQueued Id.cmp self.new.queues.items rank q n
            → IsQueued Id.cmp self.old.queues.items rank q n
            × (rank ≡ queue → Id.eq id.now q ≡ false) }
        ensures used { self.new.used ≡ self.old.used }
        ensures count { length self.new.queues.items ≡ length self.old.queues.items }
    {
        remove_job(&mut self.queues[queue], id);
    }
}

/// A number joins one queue, or another index, under an id.
pub fn insert_job<Id: Copy + Ord>(
    queue: &mut BTreeMap<Id, usize>,
    id: Id,
    number: usize,
) -> Result<(), NoMemory>
    ensures joined { OnOk result ((q : Id) → tree.get Id.cmp queue.new q
        ≡ (if Id.eq id q then Some number else tree.get Id.cmp queue.old q)) }
    ensures kept { OnErr result ((q : Id) → tree.get Id.cmp queue.new q
        ≡ tree.get Id.cmp queue.old q) }
{
    queue.insert(id, number)?;
    Ok(())
}

/// The job with this id leaves one queue.
fn remove_job<Id: Copy + Ord>(queue: &mut BTreeMap<Id, usize>, id: &Id)
    ensures { (q : Id) → tree.get Id.cmp queue.new q
        ≡ (if Id.eq id.now q then None else tree.get Id.cmp queue.old q) }
{
    queue.remove(id);
}

/// The job with the least id in one queue.
pub fn head<Id: Copy + Ord>(queue: &BTreeMap<Id, usize>) -> Option<(Id, usize)>
    ensures some { IfSome result (λ p. tree.get Id.cmp queue.now p.0 ≡ Some p.1) }
    ensures none { IfNone result ((id : Id) → tree.get Id.cmp queue.now id ≡ None) }
    ensures least { IfSome result (λ p. tree.IsLowerBound Id.cmp queue.now p.0) }
{
    match queue.first_key_value() {
        Some((id, number)) => Some((*id, *number)),
        None => None,
    }
}

/// Of two jobs the one with the lesser id.
pub fn lesser<Id: Copy + Ord>(one: Option<Turn<Id>>, other: Option<Turn<Id>>) -> Option<Turn<Id>>
    ensures either { IsEither one other result }
    ensures lesser { IsLesser Id.cmp one other result }
{
    match (one, other) {
        (Some(a), Some(b)) => { if b.id < a.id { Some(b) } else { Some(a) } }
        (Some(a), None) => Some(a),
        (None, b) => b,
    }
}
