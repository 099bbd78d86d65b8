// A plan of a chain of jobs, which its solution shows to be lawful.
ghost use Rattle.std.specs.Prelude.{◌≡◌, ◌+◌, ◌<◌, IfOk};
ghost use Rattle.access_context.specs.Plain.{Done};
ghost use Rattle.graph_tests.specs.Chains.{before, link, link_in, chain, chain_solution};
ghost use Rattle.graph_tests.specs.Chains.{chain_lawful};

use access_context::{Access, Outcome, Reads, Settled, Spec};
use job_graph::{Plan, Solved};
use plain_lists::Sequence;
use refusal_codes::NoMemory;
use std::alloc::Global;
use std::sync::Arc;

/// Jobs with the numbers below a number. Each reads the one before it and adds the one after it.
#[derive(Drop)]
pub struct Chain {
    /// How many jobs there are.
    pub length: u32,
}

/// The job before this one.
fn before(alloc: Global, id: u32) -> Result<Sequence<u32>, NoMemory>
    ensures { IfOk result (λ ids. ids ≡ before id) }
{
    let mut ids = Sequence::new(alloc);
    if id > 0 {
        ids.push(id - 1)?;
    }
    Ok(ids)
}

/// The job with this number, where the chain is so long.
fn link_in(alloc: Global, length: u32, id: u32) -> Result<Vec<Spec<u32>>, NoMemory>
    ensures { IfOk result (λ jobs. jobs.items ≡ link_in length id) }
{
    let mut jobs = Vec::new(alloc);
    if id < length {
        let access = Access {
            reads: before(alloc, id)?,
            awaits: None,
        };
        jobs.push(Spec { id, access })?;
    }
    Ok(jobs)
}

/// The job after this one, where the chain is so long.
#[tactic(auto, using(crate::proofs::ChainLinks::link_past))]
fn link_after(alloc: Global, length: u32, id: u32) -> Result<Vec<Spec<u32>>, NoMemory>
    ensures { IfOk result (λ jobs. jobs.items ≡ link_in length (id + 1)) }
{
    if id < length {
        link_in(alloc, length, id + 1)
    } else {
        Ok(Vec::new(alloc))
    }
}

impl Plan for Chain {
    type Id = u32;

    type Value = u32;

    ghost meaning = { λ c. chain c.length };

    fn opening(&self, alloc: Global) -> Result<Vec<Spec<u32>>, NoMemory> {
        link_in(alloc, self.length, 0)
    }

    fn stratum(&self, _id: &u32) -> u8 {
        0
    }

    fn run(
        &self,
        alloc: Global,
        id: &u32,
        _reads: &Reads<u32, u32>,
    ) -> Result<Outcome<u32, u32>, NoMemory> {
        let added = link_after(alloc, self.length, *id)?;
        Ok(Outcome {
            value: Settled::Done(Arc::new(alloc, *id)?),
            added: Sequence::from_vec(added),
        })
    }

    ghost lawful = { λ c. chain_lawful c.length };
}

impl Solved for Chain {
    ghost spec_of = { λ c. link };

    ghost is_there = { λ c id. id < c.length };

    ghost value_of = { λ c. Done };

    ghost solution = { λ c. chain_solution c.length };
}
