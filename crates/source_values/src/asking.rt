ghost use Rattle.std.specs.Prelude.{◌≡◌, List, ℕ, flat_map};
ghost use Rattle.plist_reader.specs.declared.tree.Tree.{Tree as SeenTree};
ghost use Rattle.refusal_codes.specs.declared.first.Failure.{Failure};
ghost use Rattle.refusal_codes.specs.First.{noted};
ghost use Rattle.source_values.specs.Asking.{required, optional, each, dictionary};

use crate::values::{is_dictionary, items_at, note_at};
use plist_reader::Tree;
use refusal_codes::{FirstFailure, Rule};

/// What a value of a source is asked to be, and what it fails where it isn't.
pub trait Asked {
    ghost failures: { Self → SeenTree → ℕ → List Failure };

    /// Notes what fails of a value.
    fn note(&self, tree: &Tree, number: u32, first: &mut FirstFailure)
        ensures { first.new ≡ noted first.old (failures self.now tree.now number) };
}

/// A list, each value of which is asked to be this.
#[derive(Clone, Copy)]
pub struct Each<A>(pub A);

impl<A: Asked> Asked for Each<A> {
    ghost failures = { λ asked. each (A.failures asked.0) };

    fn note(&self, tree: &Tree, number: u32, first: &mut FirstFailure) {
        match items_at(tree, number) {
            None => note_at(tree, number, Rule::WrongShape, first),
            Some(items) => note_items(tree, items, &self.0, first),
        }
    }
}

/// Notes what fails of each of these values.
fn note_items<A: Asked>(tree: &Tree, items: &[u32], asked: &A, first: &mut FirstFailure)
    ensures { first.new ≡ noted first.old (flat_map (A.failures asked.now tree.now) items.now) }
{
    for item in items {
        asked.note(tree, *item, first);
    }
}

/// A dictionary, whose parts are asked to be this.
#[derive(Clone, Copy)]
pub struct Dictionary<A>(pub A);

impl<A: Asked> Asked for Dictionary<A> {
    ghost failures = { λ asked. dictionary (A.failures asked.0) };

    fn note(&self, tree: &Tree, number: u32, first: &mut FirstFailure) {
        if is_dictionary(tree, number) {
            self.0.note(tree, number, first);
        } else {
            note_at(tree, number, Rule::WrongShape, first);
        }
    }
}

/// Notes what fails of the value that a dictionary must have under a key.
pub fn required<A: Asked>(tree: &Tree, pairs: u32, key: &[u8], asked: &A, first: &mut FirstFailure)
    ensures { first.new ≡ noted first.old (required key.now (A.failures asked.now) tree.now pairs) }
{
    match tree.find(pairs, key) {
        Some(number) => asked.note(tree, number, first),
        None => note_at(tree, pairs, Rule::MissingKey, first),
    }
}

/// Notes what fails of the value that a dictionary may have under a key.
pub fn optional<A: Asked>(tree: &Tree, pairs: u32, key: &[u8], asked: &A, first: &mut FirstFailure)
    ensures { first.new ≡ noted first.old (optional key.now (A.failures asked.now) tree.now pairs) }
{
    if let Some(number) = tree.find(pairs, key) {
        asked.note(tree, number, first);
    }
}
