ghost use Rattle.std.specs.Prelude.{◌≡◌, IfOk, IsTrue};
ghost use Rattle.access_context.specs.Plain.{Plain, plain_outcome};
ghost use Rattle.access_context.specs.declared.access.Spec.{Spec};
ghost use Rattle.job_graph.specs.Meaning.{Meaning};
ghost use Rattle.access_context.specs.Read.{all_done};
ghost use Rattle.job_graph.specs.Rounds.{IsDue};
ghost use Rattle.job_graph.specs.Laws.{IsLawful};
ghost use Rattle.job_graph.specs.Solutions.{IsSolution};

use access_context::{Outcome, Reads, Spec};
use refusal_codes::NoMemory;
use std::alloc::Global;

/// What the jobs of a board are, and what comes of each.
pub trait Plan: Drop {
    /// What names a job and its item.
    type Id: Copy + Ord;

    /// What a job makes.
    type Value: Drop;

    /// The plan as functions of ids and of what is read.
    ghost meaning: { Self → Meaning Self.Id Self.Value };

    /// The jobs that are there from the start.
    fn opening(&self, alloc: Global) -> Result<Vec<Spec<Self::Id>>, NoMemory>
        ensures { IfOk result (λ jobs. jobs.items ≡ (meaning self.now).opening) };

    /// The stratum of a job.
    fn stratum(&self, id: &Self::Id) -> u8
        ensures { result ≡ (meaning self.now).stratum id.now };

    /// What comes of a job of the plan's limit, by what it reads there. It is asked only where all
    /// of that has a value.
    fn run(
        &self,
        alloc: Global,
        id: &Self::Id,
        reads: &Reads<Self::Id, Self::Value>,
    ) -> Result<Outcome<Self::Value, Self::Id>, NoMemory>
        requires due { IsDue Self.Id.eq (meaning self.now) id.now reads.now }
        requires done { IsTrue (all_done reads.now) }
        ensures { IfOk result (λ o. plain_outcome o
            ≡ (meaning self.now).outcome id.now reads.now) };

    /// What a plan keeps.
    ghost lawful: { (plan : Self) → IsLawful Self.Id.eq (meaning plan) };
}

/// A plan that tells of each id what its job is, whether that job is ever added, and what comes of
/// it.
pub trait Solved: Plan {
    /// The job of an id.
    ghost spec_of: { Self → Self.Id → Spec Self.Id };

    /// The job of this id is added at some time.
    ghost is_there: { Self → Self.Id → Type 0 };

    /// What comes of a job.
    ghost value_of: { Self → Self.Id → Plain Self.Value };

    /// This is right, by facts about ids alone.
    ghost solution: { (plan : Self) → IsSolution Self.Id.eq (Self.meaning plan) (spec_of plan)
        (is_there plan) (value_of plan) };
}
