ghost use Rattle.std.specs.Prelude.{◌≡◌, ◌≤◌, option_copied, option_map};
ghost use Rattle.refusal_codes.specs.First.{noted};
ghost use Rattle.source_values.specs.Decimals.{is_natural_in};
ghost use Rattle.source_values.specs.Values.{items_at, pairs_at, is_code, in_range};
ghost use Rattle.source_values.specs.Asking.{range_rule, is_empty_list, is_empty_dictionary};
ghost use Rattle.source_values.specs.Asking.{whole_failures, text_failures, name_failures};
ghost use Rattle.source_values.specs.Asking.{dictionary_failures, empty_list_failures};
ghost use Rattle.source_values.specs.Asking.{empty_dictionary_failures};

use crate::asking::Asked;
use crate::decimals::Decimal;
use crate::values::{decimal_at, is_dictionary, items_at, note_at, text_at};
use plist_reader::{Tree, ValueRef};
use refusal_codes::{FirstFailure, Rule, limits};

/// A range of whole numbers.
#[derive(Clone, Copy, Debug, PartialEq, Eq)]
pub enum Range {
    /// Any whole number.
    Any,
    /// From the first number to the second.
    Natural(u16, u16),
    /// The codes of characters: 0 to 1114111, but no surrogate and not 65535.
    Code,
    /// The coordinates of points: -16383 to 16383.
    Coordinate,
}

impl Range {
    /// Whether the whole part of this decimal is in the range.
    pub fn holds(self, decimal: &Decimal) -> bool
        ensures { result ≡ in_range self decimal.now }
    {
        match self {
            Range::Any => true,
            Range::Natural(low, high) => is_natural_in(decimal, u32::from(low), u32::from(high)),
            Range::Code => is_natural_in(decimal, 0, 0x10_FFFF) && is_code(decimal.whole),
            Range::Coordinate => decimal.whole <= limits::COORDINATE,
        }
    }

    /// The rule that a number outside the range fails.
    pub fn rule(self) -> Rule
        ensures { result ≡ range_rule self }
    {
        match self {
            Range::Any | Range::Natural(_, _) | Range::Code => Rule::OutOfRange,
            Range::Coordinate => Rule::CoordinateTooLarge,
        }
    }
}

/// Whether a decimal's whole part is from `low` to `high`, with its sign.
fn is_natural_in(decimal: &Decimal, low: u32, high: u32) -> bool
    ensures { result ≡ is_natural_in low high decimal.now }
{
    (!decimal.negative || decimal.whole == 0) && (low <= decimal.whole && decimal.whole <= high)
}

/// Whether a number up to 1114111 is a character that a font may have.
fn is_code(number: u32) -> bool
    ensures { result ≡ is_code number }
{
    !(0xD800 <= number && number <= 0xDFFF) && number != 0xFFFF
}

/// A whole number in a range.
#[derive(Clone, Copy)]
pub struct Whole(pub Range);

impl Asked for Whole {
    ghost failures = { λ asked. whole_failures asked.0 };

    fn note(&self, tree: &Tree, number: u32, first: &mut FirstFailure) {
        note_whole(tree, number, self.0, first);
    }
}

#[tactic(auto, unfolding(crate::specs::Asking::whole_failures))]
fn note_whole(tree: &Tree, number: u32, range: Range, first: &mut FirstFailure)
    ensures { first.new ≡ noted first.old (whole_failures range tree.now number) }
{
    match decimal_at(tree, number) {
        None => note_at(tree, number, Rule::WrongShape, first),
        Some(decimal) => {
            if decimal.billionths != 0 {
                note_at(tree, number, Rule::NotWhole, first);
            } else if !range.holds(&decimal) {
                note_at(tree, number, range.rule(), first);
            }
        }
    }
}

/// A text.
#[derive(Clone, Copy)]
pub struct PlainText;

impl Asked for PlainText {
    ghost failures = { λ asked. text_failures };

    #[tactic(auto, unfolding(crate::specs::Asking::text_failures))]
    fn note(&self, tree: &Tree, number: u32, first: &mut FirstFailure) {
        if text_at(tree, number).is_none() {
            note_at(tree, number, Rule::WrongShape, first);
        }
    }
}

/// A name: a text of 1 to 255 bytes.
#[derive(Clone, Copy)]
pub struct NameText;

impl Asked for NameText {
    ghost failures = { λ asked. name_failures };

    #[tactic(auto, unfolding(crate::specs::Asking::name_failures))]
    fn note(&self, tree: &Tree, number: u32, first: &mut FirstFailure) {
        match text_at(tree, number) {
            None => note_at(tree, number, Rule::WrongShape, first),
            Some(text) => {
                if text.is_empty() || text.len() > limits::NAME_BYTES {
                    note_at(tree, number, Rule::OutOfRange, first);
                }
            }
        }
    }
}

/// A dictionary, whatever it holds.
#[derive(Clone, Copy)]
pub struct AnyDictionary;

impl Asked for AnyDictionary {
    ghost failures = { λ asked. dictionary_failures };

    #[tactic(auto, unfolding(crate::specs::Asking::dictionary_failures))]
    fn note(&self, tree: &Tree, number: u32, first: &mut FirstFailure) {
        if !is_dictionary(tree, number) {
            note_at(tree, number, Rule::WrongShape, first);
        }
    }
}

/// An empty list, since the form that a longer one holds isn't built.
#[derive(Clone, Copy)]
pub struct EmptyList;

impl Asked for EmptyList {
    ghost failures = { λ asked. empty_list_failures };

    #[tactic(auto, unfolding(crate::specs::Asking::empty_list_failures))]
    fn note(&self, tree: &Tree, number: u32, first: &mut FirstFailure) {
        if !is_empty_list(tree, number) {
            note_at(tree, number, Rule::WrongShape, first);
        }
    }
}

fn is_empty_list(tree: &Tree, number: u32) -> bool
    ensures { result ≡ is_empty_list (items_at tree.now number) }
{
    match items_at(tree, number) {
        Some(items) => items.is_empty(),
        None => false,
    }
}

/// An empty dictionary, since the form that a longer one holds isn't built.
#[derive(Clone, Copy)]
pub struct EmptyDictionary;

impl Asked for EmptyDictionary {
    ghost failures = { λ asked. empty_dictionary_failures };

    #[tactic(auto, unfolding(crate::specs::Asking::empty_dictionary_failures))]
    fn note(&self, tree: &Tree, number: u32, first: &mut FirstFailure) {
        if !is_empty_dictionary(tree, number) {
            note_at(tree, number, Rule::WrongShape, first);
        }
    }
}

fn is_empty_dictionary(tree: &Tree, number: u32) -> bool
    ensures { result ≡ is_empty_dictionary (pairs_at tree.now number) }
{
    match tree.nodes.get(number) {
        Some(node) => match node.value {
            ValueRef::Pairs(pairs) => pairs.is_empty(),
            _ => false,
        },
        None => false,
    }
}
