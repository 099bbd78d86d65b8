ghost use Rattle.std.specs.Prelude.{◌≡◌, ◌<◌, ℕ, Option, None, option_map, map, slice_get, IsSome};
ghost use Rattle.std.specs.Prelude.{Some, IfOk, OnOk, length};
ghost use Rattle.std.specs.BTreeMap as tree;
ghost use Rattle.access_context.specs.Plain.{plain};
ghost use Rattle.access_context.specs.Read.{plain_item, read_of, value_read, all_done};
ghost use Rattle.access_context.specs.Places.{place_from};

use crate::settled::Settled;
use refusal_codes::NoMemory;
use std::alloc::Global;
use std::collections::BTreeMap;
use std::marker::Model;

/// Up to so many items are looked through one by one; more are found by an index.
const FEW: usize = 8;

/// The items that a job reads, each settled. A contract sees them as the list of the ids with what
/// came of them.
#[derive(Debug, Drop)]
pub struct Reads<Id: Copy + Ord, V> {
    items: Vec<(Id, Settled<V>)>,
    // Where the first item with an id stands, once they are indexed.
    places: BTreeMap<Id, usize>,
    is_indexed: bool,
}

impl<Id: Copy + Ord, V> Model for Reads<Id, V> {
    ghost use Rattle.std.specs.Prelude.{◌≡◌, List, map, true};
    ghost use Rattle.access_context.specs.Plain.{Plain};
    ghost use Rattle.access_context.specs.Read.{plain_item};
    ghost use Rattle.access_context.specs.Places.{IsIndex};

    ghost Value = { List (Id × Plain V) };

    ghost view = { λ r. map plain_item r.items.items };

    ghost invariant = { λ r. r.is_indexed ≡ true → IsIndex Id.eq Id.cmp r.places r.items.items };
}

impl<Id: Copy + Ord, V> Reads<Id, V> {
    /// These items and no others. An id is meant to stand once; where it stands again, its first
    /// item counts. It takes
    /// no memory, and so it makes no index: `indexed` serves where there are many.
    pub fn of(items: Vec<(Id, Settled<V>)>) -> Self
        ensures { result ≡ map plain_item items.items }
    {
        let places = BTreeMap::new(*items.allocator());
        Reads {
            items,
            places,
            is_indexed: false,
        }
    }

    /// These items and no others, as `of` has them, with an index by which `get` and `done` find an
    /// item among many.
    pub fn indexed(alloc: Global, items: Vec<(Id, Settled<V>)>) -> Result<Self, NoMemory>
    where
        V: Drop,
        ensures { IfOk result (λ reads. reads ≡ map plain_item items.items) }
    {
        if items.len() <= FEW {
            return Ok(Reads::of(items));
        }
        let places = places_of(alloc, items.as_slice())?;
        Ok(Reads {
            items,
            places,
            is_indexed: true,
        })
    }

    /// The items, in the order in which the job declares them. It takes no memory.
    pub fn items(&self) -> &[(Id, Settled<V>)]
        ensures { map plain_item result.now ≡ self.now }
    {
        self.items.as_slice()
    }

    /// What came of an item that the job reads. It takes no memory.
    pub fn get(&self, id: &Id) -> &Settled<V>
        requires { IsSome (read_of Id.eq self.now id.now) }
        ensures { read_of Id.eq self.now id.now ≡ Some (plain result.now) }
    {
        match self.found(id) {
            Some(settled) => settled,
            None => unreachable!(),
        }
    }

    /// The value of an item that the job reads and that has one. It takes no memory.
    pub fn done(&self, id: &Id) -> &V
        requires { IsSome (value_read Id.eq self.now id.now) }
        ensures { value_read Id.eq self.now id.now ≡ Some result.now }
    {
        match self.found(id) {
            Some(Settled::Done(value)) => value,
            _ => unreachable!(),
        }
    }

    /// Whether every item has a value. It takes no memory.
    pub fn all_done(&self) -> bool
        ensures { result ≡ all_done self.now }
    {
        each_done(self.items.as_slice())
    }

    /// What came of the item with this id, where there is one.
    fn found(&self, id: &Id) -> Option<&Settled<V>>
        ensures { option_map (λ s. plain s.now) result ≡ read_of Id.eq self.now id.now }
    {
        if self.is_indexed {
            match self.places.get(id) {
                Some(place) => Some(&self.items[*place].1),
                None => None,
            }
        } else {
            first_found(self.items.as_slice(), id)
        }
    }
}

/// Where the first item with each id stands.
fn places_of<Id: Copy + Ord, V>(
    alloc: Global,
    items: &[(Id, Settled<V>)],
) -> Result<BTreeMap<Id, usize>, NoMemory>
    ensures { IfOk result (λ places. (id : Id)
        → tree.get Id.cmp places id ≡ place_from Id.eq 0 items.now id) }
{
    let mut places = BTreeMap::new(alloc);
    for place in (0..items.len()).rev() {
        places.insert(items[place].0, place)?;
    }
    Ok(places)
}

/// Whether every item has a value.
fn each_done<Id, V>(items: &[(Id, Settled<V>)]) -> bool
    ensures { result ≡ all_done (map plain_item items.now) }
{
    for item in items {
        if !item.1.is_done() {
            return false;
        }
    }
    true
}

/// What the first item with this id is.
fn first_found<'a, Id: Copy + Ord, V>(
    items: &'a [(Id, Settled<V>)],
    id: &Id,
) -> Option<&'a Settled<V>>
    ensures { option_map (λ s. plain s.now) result
        ≡ read_of Id.eq (map plain_item items.now) id.now }
{
    for item in items {
        if item.0 == *id {
            return Some(&item.1);
        }
    }
    None
}
