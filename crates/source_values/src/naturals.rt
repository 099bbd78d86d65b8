ghost use Rattle.std.specs.Prelude.{◌≡◌, ◌≤◌};
ghost use Rattle.refusal_codes.specs.First.{noted};
ghost use Rattle.source_values.specs.Values.{natural_in, natural_or};
ghost use Rattle.source_values.specs.Asking.{whole_failures, required, optional};

use crate::kinds::Range;
use crate::values::{decimal_at, note_at};
use plist_reader::Tree;
use refusal_codes::{FirstFailure, Rule};

/// What is asked of a whole number under a key: its range, and what stands for it where it is
/// missing.
#[derive(Clone, Copy, Debug)]
pub struct NaturalOr {
    /// The least that it may be, which also stands for a value that is no such number.
    pub low: u16,
    /// The greatest that it may be.
    pub high: u16,
    /// What stands for it where its dictionary lacks the key.
    pub missing: u16,
}

/// The whole number that a dictionary must have under a key. What fails of it is noted.
pub fn required_natural(
    tree: &Tree,
    pairs: u32,
    key: &[u8],
    asked: NaturalOr,
    first: &mut FirstFailure,
) -> u16
    requires { asked.low ≤ asked.high }
    ensures value { result ≡ natural_or asked.low asked.high asked.missing tree.now pairs key.now }
    ensures failures { first.new ≡ noted first.old
        (required key.now (whole_failures (Range.Natural asked.low asked.high)) tree.now pairs) }
    ensures to { asked.missing ≤ asked.high → result ≤ asked.high }
{
    match tree.find(pairs, key) {
        Some(number) => read_natural(tree, number, asked, first),
        None => {
            note_at(tree, pairs, Rule::MissingKey, first);
            asked.missing
        }
    }
}

/// The whole number that a dictionary may have under a key. What fails of it is noted.
pub fn optional_natural(
    tree: &Tree,
    pairs: u32,
    key: &[u8],
    asked: NaturalOr,
    first: &mut FirstFailure,
) -> u16
    requires { asked.low ≤ asked.high }
    ensures value { result ≡ natural_or asked.low asked.high asked.missing tree.now pairs key.now }
    ensures failures { first.new ≡ noted first.old
        (optional key.now (whole_failures (Range.Natural asked.low asked.high)) tree.now pairs) }
    ensures to { asked.missing ≤ asked.high → result ≤ asked.high }
{
    match tree.find(pairs, key) {
        Some(number) => read_natural(tree, number, asked, first),
        None => asked.missing,
    }
}

/// The whole number that a value is. What fails of it is noted.
#[tactic(auto, unfolding(crate::specs::Asking::whole_failures, crate::specs::Values::natural_in))]
fn read_natural(tree: &Tree, number: u32, asked: NaturalOr, first: &mut FirstFailure) -> u16
    requires { asked.low ≤ asked.high }
    ensures value { result ≡ natural_in asked.low asked.high tree.now number }
    ensures failures { first.new ≡ noted first.old
        (whole_failures (Range.Natural asked.low asked.high) tree.now number) }
    ensures to { result ≤ asked.high }
{
    match decimal_at(tree, number) {
        None => note_at(tree, number, Rule::WrongShape, first),
        Some(decimal) => {
            if decimal.billionths != 0 {
                note_at(tree, number, Rule::NotWhole, first);
            } else if !Range::Natural(asked.low, asked.high).holds(&decimal) {
                note_at(tree, number, Rule::OutOfRange, first);
            } else {
                return decimal.whole as u16;
            }
        }
    }
    asked.low
}
