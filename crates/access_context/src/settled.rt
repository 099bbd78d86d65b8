ghost use Rattle.std.specs.Prelude.{◌≡◌, IfOk};
ghost use Rattle.access_context.specs.Plain.{plain, is_done};

use crate::access::Spec;
use plain_lists::Sequence;
use refusal_codes::{NoMemory, Refusal};
use std::alloc::Global;
use std::sync::Arc;

/// What came of a job. Its value can be shared: clauses compare it by what the pointer leads to, as
/// `plain` says.
#[derive(Debug, PartialEq, Eq, Drop)]
pub enum Settled<V> {
    /// It made its value.
    Done(Arc<V>),
    /// It found that a rule fails.
    Refused(Refusal),
    /// An item that it reads is refused or blocked.
    Blocked,
}

impl<V> Settled<V> {
    /// Whether there is a value.
    pub fn is_done(&self) -> bool
        ensures { result ≡ is_done (plain self.now) }
    {
        match self {
            Settled::Done(_) => true,
            _ => false,
        }
    }

    /// The same, a value being shared with the copy.
    pub fn copy(&self, alloc: Global) -> Result<Settled<V>, NoMemory>
        ensures { IfOk result (λ s. plain s ≡ plain self.now) }
    {
        match self {
            Settled::Done(value) => Ok(Settled::Done(Arc::try_clone(value)?)),
            Settled::Refused(refusal) => Ok(Settled::Refused(refusal.copy(alloc)?)),
            Settled::Blocked => Ok(Settled::Blocked),
        }
    }
}

/// What came of a job, and the jobs that it adds.
#[derive(Debug, PartialEq, Eq, Drop)]
pub struct Outcome<V, Id> {
    /// What came of it.
    pub value: Settled<V>,
    /// The jobs that it adds.
    pub added: Sequence<Spec<Id>>,
}
