ghost use Rattle.std.specs.Prelude.{◌≡◌, [], None, map, flat_map, position};
ghost use Rattle.plist_reader.specs.Keys.{is_among};
ghost use Rattle.refusal_codes.specs.First.{foremost, noted};
ghost use Rattle.source_values.specs.Values.{place_at};
ghost use Rattle.source_masters.specs.WholeRules.{master_numbers, too_many_masters, no_master};
ghost use Rattle.source_masters.specs.WholeRules.{master_id, repeated_ids, duplicate_masters};
ghost use Rattle.source_masters.specs.WholeRules.{axis_count, axis_counts, has_id, master_named};
ghost use Rattle.source_masters.specs.WholeRules.{origin_value, origin_of, unknown_origin};

use crate::parameters::{has_text, parameter_under};
use plist_reader::Tree;
use refusal_codes::{Failure, FirstFailure, Rule, limits};
use source_values::{items_at, items_under, note_at, place_at, text_at, text_under};

/// The masters.
#[tactic(auto, unfolding(crate::specs::WholeRules::master_numbers))]
pub fn master_numbers(tree: &Tree) -> &[u32]
    ensures { result.now ≡ master_numbers tree.now }
{
    items_under(tree, tree.top, b"fontMaster")
}

/// The failure of a rule at a value.
fn failure_at(tree: &Tree, number: u32, rule: Rule) -> Failure
    ensures { result ≡ record { rule = rule; place = place_at tree.now number } }
{
    Failure {
        rule,
        place: place_at(tree, number),
    }
}

/// That there are more than 32 masters, at their list.
#[tactic(auto, unfolding(crate::specs::WholeRules::too_many_masters))]
pub fn too_many_masters(tree: &Tree) -> Option<Failure>
    ensures { result ≡ foremost (too_many_masters tree.now) }
{
    let number = tree.find(tree.top, b"fontMaster")?;
    if master_numbers(tree).len() > limits::MASTERS {
        Some(failure_at(tree, number, Rule::TooManyMasters))
    } else {
        None
    }
}

/// That the list of masters is empty, at the list.
#[tactic(auto, unfolding(crate::specs::WholeRules::no_master))]
pub fn no_master(tree: &Tree) -> Option<Failure>
    ensures { result ≡ foremost (no_master tree.now) }
{
    let number = tree.find(tree.top, b"fontMaster")?;
    if items_at(tree, number)?.is_empty() {
        Some(failure_at(tree, number, Rule::NoMaster))
    } else {
        None
    }
}

/// The id of a master, empty where it has none.
#[tactic(auto, unfolding(crate::specs::WholeRules::master_id))]
fn master_id(tree: &Tree, master: u32) -> &str
    ensures { result.now ≡ master_id tree.now master }
{
    text_under(tree, master, b"id").unwrap_or("")
}

/// The first master whose id an earlier one has.
///
/// Each is compared with all before it: test first that there aren't too many.
#[tactic(auto, unfolding(crate::specs::WholeRules::duplicate_masters))]
pub fn duplicate_master(tree: &Tree) -> Option<Failure>
    ensures { result ≡ foremost (duplicate_masters tree.now) }
{
    first_duplicate(tree, master_numbers(tree))
}

fn first_duplicate(tree: &Tree, masters: &[u32]) -> Option<Failure>
    ensures { result ≡ foremost (repeated_ids tree.now [] masters.now) }
{
    for (index, master) in masters.iter().enumerate() {
        if is_id_among(tree, master_id(tree, *master), &masters[..index]) {
            return Some(failure_at(tree, *master, Rule::DuplicateMaster));
        }
    }
    None
}

/// Whether one of these masters has this id.
fn is_id_among(tree: &Tree, id: &str, masters: &[u32]) -> bool
    ensures { result ≡ is_among id.now (map (master_id tree.now) masters.now) }
{
    for master in masters {
        if id.as_bytes() == master_id(tree, *master).as_bytes() {
            return true;
        }
    }
    false
}

/// Notes each master that hasn't one coordinate per axis, at the master, in a font with so many
/// axes.
#[tactic(auto, unfolding(crate::specs::WholeRules::axis_counts))]
pub fn note_axis_counts(tree: &Tree, axes: usize, first: &mut FirstFailure)
    ensures { first.new ≡ noted first.old (axis_counts axes tree.now) }
{
    note_counts(tree, axes, master_numbers(tree), first);
}

fn note_counts(tree: &Tree, axes: usize, masters: &[u32], first: &mut FirstFailure)
    ensures { first.new ≡ noted first.old (flat_map (axis_count axes tree.now) masters.now) }
{
    for master in masters {
        note_count(tree, axes, *master, first);
    }
}

#[tactic(auto, unfolding(crate::specs::WholeRules::axis_count))]
fn note_count(tree: &Tree, axes: usize, master: u32, first: &mut FirstFailure)
    ensures { first.new ≡ noted first.old (axis_count axes tree.now master) }
{
    if items_under(tree, master, b"axesValues").len() != axes {
        note_at(tree, master, Rule::AxisCount, first);
    }
}

/// The value of the font's origin, where it has one.
#[tactic(auto, unfolding(crate::specs::WholeRules::origin_value))]
fn origin_value(tree: &Tree) -> Option<u32>
    ensures { result ≡ origin_value tree.now }
{
    parameter_under(tree, tree.top, b"Variable Font Origin")
}

/// The position of the master with the id that this value is.
#[tactic(auto, unfolding(crate::specs::WholeRules::master_named))]
fn master_named(tree: &Tree, number: u32) -> Option<usize>
    ensures { result ≡ master_named tree.now number }
{
    master_with_id(
        tree,
        text_at(tree, number)?.as_bytes(),
        master_numbers(tree),
    )
}

fn master_with_id(tree: &Tree, id: &[u8], masters: &[u32]) -> Option<usize>
    ensures { result ≡ position (has_id id.now tree.now) masters.now }
{
    masters
        .iter()
        .position(|master| has_text(tree, *master, b"id", id))
}

/// The position of the default master: the first one, or the one with the id that is the font's
/// parameter `Variable Font Origin`; `None` where no master has it.
#[tactic(auto, using(crate::proofs::SoundMasters::origin_small))]
pub fn origin(tree: &Tree) -> Option<u32>
    requires { foremost (too_many_masters tree.now) ≡ None }
    ensures { result ≡ origin_of tree.now }
{
    match default_position(tree) {
        Some(position) => Some(position as u32),
        None => None,
    }
}

/// The same, of any number of masters.
#[tactic(auto, unfolding(crate::specs::WholeRules::origin_of))]
pub fn default_position(tree: &Tree) -> Option<usize>
    ensures { result ≡ origin_of tree.now }
{
    match origin_value(tree) {
        Some(number) => master_named(tree, number),
        None => Some(0),
    }
}

/// That no master has the id that is the font's origin, at its value.
#[tactic(auto, unfolding(crate::specs::WholeRules::unknown_origin))]
pub fn unknown_origin(tree: &Tree) -> Option<Failure>
    ensures { result ≡ foremost (unknown_origin tree.now) }
{
    let number = origin_value(tree)?;
    match master_named(tree, number) {
        Some(_) => None,
        None => Some(failure_at(tree, number, Rule::OriginUnknown)),
    }
}
