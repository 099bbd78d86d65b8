ghost use Rattle.std.specs.Prelude.{◌≡◌, option_copied, option_map, unwrap_or, IfOk, []};
ghost use Rattle.plist_reader.specs.Tree.{text_at, is_key};
ghost use Rattle.refusal_codes.specs.First.{noted};
ghost use Rattle.source_values.specs.Decimals.{cut};
ghost use Rattle.source_values.specs.Values.{place_at, items_at, is_list, is_dictionary};
ghost use Rattle.source_values.specs.Values.{decimal_at, items_under, text_under, decimal_under};
ghost use Rattle.source_values.specs.Asking.{fails};

use crate::decimals::{Decimal, read_decimal};
use plain_lists::Text;
use plist_reader::{Tree, ValueRef};
use refusal_codes::{FirstFailure, Rule};
use std::alloc::{AllocError, Global};

/// The place of a value in the source, in bytes from 0; 0 for a number that no value has.
pub fn place_at(tree: &Tree, number: u32) -> u64
    ensures { result ≡ place_at tree.now number }
{
    match tree.nodes.get(number) {
        Some(node) => node.place,
        None => 0,
    }
}

/// The text that a value is, where it is one.
pub fn text_at(tree: &Tree, number: u32) -> Option<&str>
    ensures { option_copied result ≡ text_at tree.now.nodes number }
{
    match tree.nodes.get(number)?.value {
        ValueRef::Text(text) => Some(text),
        _ => None,
    }
}

/// Whether a value is this text.
pub fn is_word(tree: &Tree, word: &[u8], number: u32) -> bool
    ensures { result ≡ is_key tree.now word.now number }
{
    tree.nodes.is_text(number, word)
}

/// The values of the list that a value is, where it is one.
pub fn items_at(tree: &Tree, number: u32) -> Option<&[u32]>
    ensures { option_map (λ items. items.now) result ≡ items_at tree.now number }
{
    match tree.nodes.get(number)?.value {
        ValueRef::Items(items) => Some(items),
        _ => None,
    }
}

/// Whether a value is a list.
pub fn is_list(tree: &Tree, number: u32) -> bool
    ensures { result ≡ is_list tree.now number }
{
    items_at(tree, number).is_some()
}

/// Whether a value is a dictionary.
pub fn is_dictionary(tree: &Tree, number: u32) -> bool
    ensures { result ≡ is_dictionary tree.now number }
{
    match tree.nodes.get(number) {
        Some(node) => matches!(node.value, ValueRef::Pairs(_)),
        None => false,
    }
}

/// The decimal that a value spells, where it is such a text.
#[tactic(auto, unfolding(crate::specs::Values::decimal_at))]
pub fn decimal_at(tree: &Tree, number: u32) -> Option<Decimal>
    ensures { result ≡ option_map cut (decimal_at tree.now number) }
{
    read_decimal(text_at(tree, number)?.as_bytes())
}

/// Notes that a rule fails at a value.
pub fn note_at(tree: &Tree, number: u32, rule: Rule, first: &mut FirstFailure)
    ensures { first.new ≡ noted first.old (fails rule tree.now number) }
{
    first.note(rule, place_at(tree, number));
}

/// The text that a dictionary has under a key.
pub fn text_under<'t>(tree: &'t Tree, pairs: u32, key: &[u8]) -> Option<&'t str>
    ensures { option_copied result ≡ text_under tree.now pairs key.now }
{
    text_at(tree, tree.find(pairs, key)?)
}

/// The decimal that a dictionary has under a key.
pub fn decimal_under(tree: &Tree, pairs: u32, key: &[u8]) -> Option<Decimal>
    ensures { result ≡ option_map cut (decimal_under tree.now pairs key.now) }
{
    decimal_at(tree, tree.find(pairs, key)?)
}

/// The values of the list that a dictionary has under a key, none where there is no such list.
pub fn items_under<'t>(tree: &'t Tree, pairs: u32, key: &[u8]) -> &'t [u32]
    ensures { result.now ≡ items_under tree.now pairs key.now }
{
    match tree.find(pairs, key) {
        Some(number) => items_at(tree, number).unwrap_or(&[]),
        None => &[],
    }
}

/// A text of its own, empty where there is none.
pub fn copied(alloc: Global, text: Option<&str>) -> Result<Text, AllocError>
    ensures { IfOk result (λ copy. copy ≡ unwrap_or (option_copied text.entry) []) }
{
    match text {
        Some(text) => Ok(Text::from_string(String::from_str(alloc, text)?)),
        None => Ok(Text::from_string(String::new(alloc))),
    }
}
