//! What comes of a job.

ghost use Rattle.std.specs.Prelude.{◌≡◌, []};
ghost use Rattle.access_context.specs.Plain.{plain_outcome, Done, Refused};
ghost use Rattle.job_graph.specs.Rounds.{blocked};
ghost use Rattle.font_plan.specs.Settling.{Comes};

use crate::items::Item;
use access_context::{Outcome, Settled, Spec};
use font_graph::JobId;
use plain_lists::Sequence;
use refusal_codes::{NoMemory, Refusal};
use std::alloc::Global;
use std::sync::Arc;

/// What comes of a job of a source.
pub type PlanOutcome = Outcome<Item, JobId>;

/// A job made this item, and adds these jobs.
pub fn made(alloc: Global, item: Item, added: Vec<Spec<JobId>>) -> Result<PlanOutcome, NoMemory>
    ensures { Comes result (record { value = Done item; added = added.items }) }
{
    Ok(Outcome {
        value: Settled::Done(Arc::new(alloc, item)?),
        added: Sequence::from_vec(added),
    })
}

/// A job made this item, and adds none.
pub fn made_last(alloc: Global, item: Item) -> Result<PlanOutcome, NoMemory>
    ensures { Comes result (record { value = Done item; added = [] }) }
{
    made(alloc, item, Vec::new(alloc))
}

/// A rule fails, and so no jobs are added.
pub fn refused(alloc: Global, refusal: Refusal) -> PlanOutcome
    ensures { plain_outcome result ≡ record { value = Refused refusal; added = [] } }
{
    Outcome {
        value: Settled::Refused(refusal),
        added: Sequence::new(alloc),
    }
}

/// Nothing comes of a job that no other adds.
pub fn blocked(alloc: Global) -> PlanOutcome
    ensures { plain_outcome result ≡ blocked }
{
    Outcome {
        value: Settled::Blocked,
        added: Sequence::new(alloc),
    }
}
