// Lines in which jobs wait for the items that they read.
ghost use Rattle.std.specs.Prelude.{◌≡◌, ◌<◌, ℕ, ◌⊎◌, Some, IfOk, OnOk, length};
ghost use Rattle.std.specs.BTreeMap as tree;
ghost use Rattle.job_graph.specs.Agenda.{Waits, AreWithin, StandsAt, Joins};
ghost use Rattle.job_graph.specs.Members.{In};

use crate::values::note_place;
use refusal_codes::NoMemory;
use std::alloc::Global;
use std::collections::BTreeMap;
use std::mem;

/// For each item that a job waits for, the numbers of the jobs that wait for it.
#[derive(Drop)]
pub struct Lines<Id: Copy + Ord> {
    pub(crate) places: BTreeMap<Id, usize>,
    pub(crate) lines: Vec<Vec<usize>>,
}

impl<Id: Copy + Ord> Lines<Id> {
    /// Nobody waits.
    pub fn new(alloc: Global) -> Self
        ensures { AreWithin Id.cmp result.places result.lines.items }
    {
        Lines {
            places: BTreeMap::new(alloc),
            lines: Vec::new(alloc),
        }
    }

    /// The line of an item, which is made where there is none.
    fn line_of(&mut self, alloc: Global, id: Id) -> Result<usize, NoMemory>
        requires { AreWithin Id.cmp self.old.places self.old.lines.items }
        ensures within { AreWithin Id.cmp self.new.places self.new.lines.items }
        ensures kept { (job : ℕ) (q : Id)
            → Waits Id.cmp self.old.places self.old.lines.items job q
            → Waits Id.cmp self.new.places self.new.lines.items job q }
        ensures line { IfOk result (λ line. tree.get Id.cmp self.new.places id ≡ Some line) }
    {
        if let Some(line) = self.places.get(&id) {
            return Ok(*line);
        }
        let line = self.lines.len();
        self.lines.push(Vec::new(alloc))?;
        if note_place(&mut self.places, id, line) {
            Ok(line)
        } else {
            Err(NoMemory)
        }
    }

    /// A job joins the line of an item.
    pub fn wait(&mut self, alloc: Global, id: Id, job: usize) -> Result<(), NoMemory>
        requires { AreWithin Id.cmp self.old.places self.old.lines.items }
        ensures within { AreWithin Id.cmp self.new.places self.new.lines.items }
        ensures kept { (other : ℕ) (q : Id)
            → Waits Id.cmp self.old.places self.old.lines.items other q
            → Waits Id.cmp self.new.places self.new.lines.items other q }
        ensures waits { OnOk result (Waits Id.cmp self.new.places self.new.lines.items job id) }
    {
        let line = self.line_of(alloc, id)?;
        join(&mut self.lines, line, job)
    }

    /// All jobs leave the line of an item, which is no more.
    pub fn leave(&mut self, alloc: Global, id: &Id) -> Vec<usize>
        requires { AreWithin Id.cmp self.old.places self.old.lines.items }
        ensures within { AreWithin Id.cmp self.new.places self.new.lines.items }
        ensures left { (job : ℕ) → Waits Id.cmp self.old.places self.old.lines.items job id.now
            → In job result.items }
        ensures kept { (job : ℕ) (q : Id)
            → Waits Id.cmp self.old.places self.old.lines.items job q
            → Waits Id.cmp self.new.places self.new.lines.items job q ⊎ In job result.items }
    {
        match self.places.remove(id) {
            Some(line) => mem::replace(&mut self.lines[line], Vec::new(alloc)),
            None => Vec::new(alloc),
        }
    }
}

/// Adds a job to the end of one of the lines.
fn join(lines: &mut Vec<Vec<usize>>, line: usize, job: usize) -> Result<(), NoMemory>
    requires { line < length lines.old.items }
    ensures lines { Joins lines.old.items lines.new.items }
    ensures joined { OnOk result (StandsAt lines.new.items line job) }
{
    lines[line].push(job)?;
    Ok(())
}
