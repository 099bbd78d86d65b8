//! Why a table can't be written, as a refusal of its job.

ghost use Rattle.std.specs.Prelude.{ℕ, List, Option, Err};
ghost use Rattle.refusal_codes.specs.First.{refusal_of};
ghost use Rattle.refusal_codes.specs.Gives.{RefusesRead};
ghost use Rattle.refusal_codes.specs.declared.job.TheConstants.{TABLE};

use plain_lists::Text;
use refusal_codes::{Failure, ReadError, Rule, job};
use std::alloc::Global;

/// The error of the job of the table with this tag, which finds that a rule fails at a place. Its
/// name is the tag.
pub fn table_refused(alloc: Global, tag: &str, rule: Rule, place: u64) -> ReadError
    ensures { RefusesRead {Y = Option (List ℕ)} result
        (Err (refusal_of TABLE tag.now (record { rule = rule; place = place }))) }
{
    match String::from_str(alloc, tag) {
        Ok(name) => Failure { rule, place }.refused(job::TABLE, Text::from_string(name)),
        Err(_) => ReadError::NoMemory,
    }
}
