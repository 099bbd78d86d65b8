// What came of jobs, found by their ids.
ghost use Rattle.std.specs.Prelude.{◌≡◌, ℕ, Option, option_map, map, Some, None, true, false, []};
ghost use Rattle.std.specs.Prelude.{◌∷◌, ◌++◌, OnOk, OnErr, IfErr, length, slice_get, ◌<◌};
ghost use Rattle.std.specs.Prelude.{if◌then◌else◌, is_some};
ghost use Rattle.std.specs.BTreeMap as tree;
ghost use Rattle.access_context.specs.Plain.{plain};
ghost use Rattle.access_context.specs.Read.{plain_item, read_of};
ghost use Rattle.access_context.specs.Places.{place_from};
ghost use Rattle.job_graph.specs.Places.{first_of};

use crate::queues::insert_job;
use access_context::Settled;
use std::alloc::Global;
use std::collections::BTreeMap;
use std::marker::Model;

/// What came of the jobs that are settled, in the order in which they were finished. A contract
/// sees the list of their ids with
/// what came of them.
#[derive(Drop)]
pub struct Values<Id: Copy + Ord, V> {
    items: Vec<(Id, Settled<V>)>,
    places: BTreeMap<Id, usize>,
}

impl<Id: Copy + Ord, V> Model for Values<Id, V> {
    ghost use Rattle.std.specs.Prelude.{List, map};
    ghost use Rattle.access_context.specs.Plain.{Plain};
    ghost use Rattle.access_context.specs.Read.{plain_item};
    ghost use Rattle.access_context.specs.Places.{IsIndex};

    ghost Value = { List (Id × Plain V) };

    ghost view = { λ v. map plain_item v.items.items };

    ghost invariant = { λ v. IsIndex Id.eq Id.cmp v.places v.items.items };
}

impl<Id: Copy + Ord, V: Drop> Values<Id, V> {
    /// Nothing is settled.
    pub fn new(alloc: Global) -> Self
        ensures { result ≡ [] }
    {
        Values {
            items: Vec::new(alloc),
            places: BTreeMap::new(alloc),
        }
    }

    /// What came of the job with this id.
    pub fn get(&self, id: &Id) -> Option<&Settled<V>>
        ensures { option_map (λ s. plain s.now) result ≡ read_of Id.eq self.now id.now }
    {
        match self.places.get(id) {
            Some(place) => Some(&self.items[*place].1),
            None => None,
        }
    }

    /// Where the value of the job with this id stands.
    pub fn place(&self, id: &Id) -> Option<usize>
        ensures { result ≡ place_from Id.eq 0 self.now id.now }
    {
        match self.places.get(id) {
            Some(place) => Some(*place),
            None => None,
        }
    }

    /// How many jobs are settled.
    pub fn len(&self) -> usize
        ensures { result ≡ length self.now }
    {
        self.items.len()
    }

    /// The job whose value stands at a place.
    pub fn id_at(&self, place: usize) -> Id
        requires { place < length self.now }
        ensures { option_map (λ item. item.0) (slice_get self.now place) ≡ Some result }
    {
        self.items[place].0
    }

    /// Adds what came of a job that isn't settled yet. Where memory runs out, nothing is added and
    /// it comes back.
    pub fn push(&mut self, id: Id, value: Settled<V>) -> Result<(), Settled<V>>
        requires { is_some (read_of Id.eq self.old id) ≡ false }
        ensures ok { OnOk result (self.new ≡ self.old ++ (id, plain value) ∷ []) }
        ensures err { OnErr result (self.new ≡ self.old) }
        ensures back { IfErr result (λ v. v ≡ value) }
    {
        if self.items.reserve(1).is_err() {
            return Err(value);
        }
        let place = self.items.len();
        match insert_job(&mut self.places, id, place) {
            Ok(()) => {
                self.items.push_reserved((id, value));
                Ok(())
            }
            Err(_) => Err(value),
        }
    }
}

/// Tells an index of one more item, unless an item with its id stands before it.
pub fn note_place<Id: Copy + Ord, X: Drop>(places: &mut BTreeMap<Id, X>, id: Id, place: X) -> bool
    ensures noted { result ≡ true → (q : Id)
        → tree.get Id.cmp places.new q ≡ first_of (tree.get Id.cmp places.old q)
        (if Id.eq id q then Some place else None) }
    ensures kept { result ≡ false → (q : Id)
        → tree.get Id.cmp places.new q ≡ tree.get Id.cmp places.old q }
{
    if places.contains_key(&id) {
        return true;
    }
    places.insert(id, place).is_ok()
}
