ghost use Rattle.std.specs.Prelude.{◌≡◌, codes};
ghost use Rattle.std.specs.List.{find};
ghost use Rattle.plist_reader.specs.Tree.{spells};
ghost use Rattle.refusal_codes.specs.First.{noted};
ghost use Rattle.source_values.specs.Values.{text_under, decimal_under};
ghost use Rattle.source_masters.specs.Parameters.{is_one, sets, parameter_in, parameter_at};
ghost use Rattle.source_masters.specs.Parameters.{parameter_under, entry_failures};
ghost use Rattle.source_masters.specs.Parameters.{parameters_failures, font_parameters_failures};

use plist_reader::Tree;
use refusal_codes::FirstFailure;
use source_values::{
    Asked, Dictionary, Each, PlainText, Range, Whole, decimal_under, items_at, items_under,
    optional, text_under,
};

/// Whether a dictionary has this text under a key.
pub fn has_text(tree: &Tree, pairs: u32, key: &[u8], text: &[u8]) -> bool
    ensures { result ≡ spells text.now (text_under tree.now pairs key.now) }
{
    match text_under(tree, pairs, key) {
        Some(there) => there.as_bytes() == text,
        None => false,
    }
}

/// The value that the parameter of this name has in a dictionary, where one is set.
pub fn parameter_under(tree: &Tree, pairs: u32, name: &[u8]) -> Option<u32>
    ensures { result ≡ parameter_under name.now tree.now pairs }
{
    parameter_in(tree, items_under(tree, pairs, b"customParameters"), name)
}

/// The same in a list of parameters.
fn parameter_at(tree: &Tree, number: u32, name: &[u8]) -> Option<u32>
    ensures { result ≡ parameter_at name.now tree.now number }
{
    parameter_in(tree, items_at(tree, number).unwrap_or(&[]), name)
}

#[tactic(auto, unfolding(crate::specs::Parameters::parameter_in))]
fn parameter_in(tree: &Tree, entries: &[u32], name: &[u8]) -> Option<u32>
    ensures { result ≡ parameter_in name.now tree.now entries.now }
{
    tree.find(setting(tree, entries, name)?, b"value")
}

/// The first entry that sets the parameter of this name.
fn setting(tree: &Tree, entries: &[u32], name: &[u8]) -> Option<u32>
    ensures { result ≡ find (sets name.now tree.now) entries.now }
{
    for entry in entries {
        if sets(tree, *entry, name) {
            return Some(*entry);
        }
    }
    None
}

/// Whether an entry has this name and a value, and isn't disabled.
fn sets(tree: &Tree, entry: u32, name: &[u8]) -> bool
    ensures { result ≡ sets name.now tree.now entry }
{
    has_text(tree, entry, b"name", name)
        && tree.find(entry, b"value").is_some()
        && !is_one_under(tree, entry, b"disabled")
}

/// Whether the number under a key is 1.
fn is_one_under(tree: &Tree, pairs: u32, key: &[u8]) -> bool
    ensures { result ≡ is_one (decimal_under tree.now pairs key.now) }
{
    match decimal_under(tree, pairs, key) {
        Some(decimal) => !decimal.negative && decimal.whole == 1 && decimal.billionths == 0,
        None => false,
    }
}

/// What each entry of a list of parameters is asked, whether it counts or not.
#[derive(Clone, Copy)]
struct Entry;

impl Asked for Entry {
    ghost failures = { λ asked. entry_failures };

    #[tactic(auto, using(refusal_codes::specs::FirstLaws::noting), unfolding(crate::specs::Parameters::entry_failures))]
    fn note(&self, tree: &Tree, entry: u32, first: &mut FirstFailure) {
        optional(tree, entry, b"name", &PlainText, first);
        optional(tree, entry, b"disabled", &Whole(Range::Any), first);
    }
}

/// Notes what fails of a list of parameters, of which the one with this name is asked to be this.
#[tactic(auto, using(refusal_codes::specs::FirstLaws::noting), unfolding(crate::specs::Parameters::parameters_failures))]
pub fn note_parameters<A: Asked>(
    tree: &Tree,
    number: u32,
    name: &[u8],
    asked: &A,
    first: &mut FirstFailure,
)
    ensures { first.new ≡ noted first.old
        (parameters_failures name.now (A.failures asked.now) tree.now number) }
{
    Each(Dictionary(Entry)).note(tree, number, first);
    if let Some(value) = parameter_at(tree, number, name) {
        asked.note(tree, value, first);
    }
}

/// The list of the font's parameters (Glyphs file format, version 3, `customParameters`).
///
/// Each is a dictionary whose `name` is a text and whose `disabled` is a whole number. The first
/// with the name `Variable Font Origin` that has a value and isn't disabled has a text; no other
/// value is looked at.
#[derive(Clone, Copy)]
pub struct FontParameters;

impl Asked for FontParameters {
    ghost failures = { λ asked. font_parameters_failures };

    fn note(&self, tree: &Tree, number: u32, first: &mut FirstFailure) {
        note_parameters(tree, number, b"Variable Font Origin", &PlainText, first);
    }
}
