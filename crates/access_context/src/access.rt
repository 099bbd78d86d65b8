ghost use Rattle.std.specs.Prelude.{◌≡◌, IfOk};

use plain_lists::Sequence;
use refusal_codes::NoMemory;
use std::alloc::Global;

/// What a job waits for.
#[derive(Debug, PartialEq, Eq, Drop)]
pub struct Access<Id> {
    /// The items that it reads, in the order in which it sees them.
    pub reads: Sequence<Id>,
    /// A stratum: the job starts only when no job of this stratum or a lower one is unfinished.
    pub awaits: Option<u8>,
}

impl<Id: Copy> Access<Id> {
    /// The same access.
    pub fn copy(&self, alloc: Global) -> Result<Access<Id>, NoMemory>
        ensures { IfOk result (λ a. a ≡ self.now) }
    {
        let reads = Vec::from_slice(alloc, self.reads.as_slice())?;
        Ok(Access {
            reads: Sequence::from_vec(reads),
            awaits: self.awaits,
        })
    }
}

/// A job: its id, which names its item too, and what it waits for.
#[derive(Debug, PartialEq, Eq, Drop)]
pub struct Spec<Id> {
    /// What names the job and its item.
    pub id: Id,
    /// What it waits for.
    pub access: Access<Id>,
}

impl<Id: Copy> Spec<Id> {
    /// The same job.
    pub fn copy(&self, alloc: Global) -> Result<Spec<Id>, NoMemory>
        ensures { IfOk result (λ s. s ≡ self.now) }
    {
        Ok(Spec {
            id: self.id,
            access: self.access.copy(alloc)?,
        })
    }
}
