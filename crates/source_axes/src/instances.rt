ghost use Rattle.std.specs.Prelude.{◌≡◌, map, length, flat_map, IfOk, true, codes};
ghost use Rattle.source_values.specs.Values.{decimal_under, is_zero};
ghost use Rattle.std.specs.List.{filter, count_by};
ghost use Rattle.std.specs.Option.{option_map_or};
ghost use Rattle.refusal_codes.specs.First.{noted};
ghost use Rattle.plist_reader.specs.Tree.{find_in, is_key};
ghost use Rattle.source_axes.specs.AxisReading.{axis_numbers};
ghost use Rattle.source_axes.specs.InstanceReading.{instance_parts_failures, is_kept, kept_among};
ghost use Rattle.source_axes.specs.InstanceReading.{kept_limit_failures, instances_failures};
ghost use Rattle.source_axes.specs.InstanceReading.{instance_of, kept_instances, instances_of};
ghost use Rattle.source_axes.specs.InstanceReading.{count_failures, instance_count_failures};

use crate::axes::{axis_numbers, items_or_none};
use crate::coordinates::{AxisCoordinate, read_coordinates};
use font_ir::Instance;
use plain_lists::Sequence;
use plist_reader::Tree;
use refusal_codes::{FirstFailure, Rule, limits};
use source_values::{
    Asked, Dictionary, Each, NameText, PlainText, Range, Whole, copied, decimal_under, is_word,
    items_under, note_at, optional, required, text_under,
};
use std::alloc::{AllocError, Global};

/// The list of named instances: a list of dictionaries, each of which has a name of 1 to 255 bytes
/// and may have coordinates, a whole number `exports` and a text `type`. At most 64 may be kept;
/// those that aren't are looked at all the same.
#[derive(Clone, Copy)]
pub struct Instances;

impl Asked for Instances {
    ghost failures = { λ asked. instances_failures };

    #[tactic(auto, using(refusal_codes::specs::FirstLaws::noting), unfolding(crate::specs::InstanceReading::instances_failures))]
    fn note(&self, tree: &Tree, number: u32, first: &mut FirstFailure) {
        Each(Dictionary(InstanceParts)).note(tree, number, first);
        note_kept_limit(tree, number, first);
    }
}

/// What the dictionary of an instance holds.
#[derive(Clone, Copy)]
struct InstanceParts;

impl Asked for InstanceParts {
    ghost failures = { λ asked. instance_parts_failures };

    #[tactic(auto, using(refusal_codes::specs::FirstLaws::noting), unfolding(crate::specs::InstanceReading::instance_parts_failures))]
    fn note(&self, tree: &Tree, instance: u32, first: &mut FirstFailure) {
        required(tree, instance, b"name", &NameText, first);
        optional(tree, instance, b"axesValues", &Each(AxisCoordinate), first);
        optional(tree, instance, b"exports", &Whole(Range::Any), first);
        optional(tree, instance, b"type", &PlainText, first);
    }
}

/// More than 64 kept instances fail at their list.
#[tactic(auto, unfolding(crate::specs::InstanceReading::kept_limit_failures))]
fn note_kept_limit(tree: &Tree, number: u32, first: &mut FirstFailure)
    ensures { first.new ≡ noted first.old (kept_limit_failures tree.now number) }
{
    if kept_count(tree, items_or_none(tree, number)) > limits::INSTANCES {
        note_at(tree, number, Rule::OutOfRange, first);
    }
}

/// How many of these instances are kept.
fn kept_count(tree: &Tree, items: &[u32]) -> usize
    ensures { result ≡ length (kept_among tree.now items.now) }
{
    if axis_numbers(tree).is_empty() {
        0
    } else {
        count_kept(tree, items)
    }
}

fn count_kept(tree: &Tree, items: &[u32]) -> usize
    ensures { result ≡ length (filter (is_kept tree.now) items.now) }
{
    let mut count = 0;
    for item in items {
        if is_kept(tree, *item) {
            count += 1;
        }
    }
    count
}

/// Whether an instance is kept in a font with axes: its `exports` isn't 0, and its `type`, if it
/// has one, is `single`.
#[tactic(auto, unfolding(crate::specs::InstanceReading::is_kept))]
fn is_kept(tree: &Tree, instance: u32) -> bool
    ensures { result ≡ is_kept tree.now instance }
{
    !is_zero_under(tree, instance, b"exports") && is_single(tree, instance)
}

/// Whether the number under a key is 0.
fn is_zero_under(tree: &Tree, pairs: u32, key: &[u8]) -> bool
    ensures { result ≡ is_zero (decimal_under tree.now pairs key.now) }
{
    match decimal_under(tree, pairs, key) {
        Some(decimal) => decimal.billionths == 0 && decimal.whole == 0,
        None => false,
    }
}

fn is_single(tree: &Tree, instance: u32) -> bool
    ensures { result ≡ option_map_or (is_key tree.now (codes "single"))
        (find_in tree.now instance (codes "type")) true }
{
    match tree.find(instance, b"type") {
        Some(number) => is_word(tree, b"single", number),
        None => true,
    }
}

/// The named instances that a source keeps, in their order: those whose `exports` isn't 0 and whose
/// `type`, if they have one, is `single`; none in a font without axes. Their coordinates are in
/// 16.16.
#[tactic(auto, unfolding(crate::specs::InstanceReading::instances_of, crate::specs::InstanceReading::kept_instances))]
pub fn read_instances(alloc: Global, tree: &Tree) -> Result<Sequence<Instance>, AllocError>
    ensures { IfOk result (λ instances. instances ≡ instances_of tree.now) }
{
    if axis_numbers(tree).is_empty() {
        Ok(Sequence::new(alloc))
    } else {
        read_kept(alloc, tree, items_under(tree, tree.top, b"instances"))
    }
}

fn read_kept(alloc: Global, tree: &Tree, items: &[u32]) -> Result<Sequence<Instance>, AllocError>
    ensures { IfOk result (λ instances. instances
        ≡ map (instance_of tree.now) (filter (is_kept tree.now) items.now)) }
{
    let mut instances = Vec::new(alloc);
    for item in items {
        if is_kept(tree, *item) {
            instances.push(read_instance(alloc, tree, *item)?)?;
        }
    }
    Ok(Sequence::from_vec(instances))
}

#[tactic(auto, unfolding(crate::specs::InstanceReading::instance_of))]
fn read_instance(alloc: Global, tree: &Tree, instance: u32) -> Result<Instance, AllocError>
    ensures { IfOk result (λ value. value ≡ instance_of tree.now instance) }
{
    let name = copied(alloc, text_under(tree, instance, b"name"))?;
    let design = read_coordinates(alloc, tree, instance, b"axesValues")?;
    Ok(Instance { name, design })
}

/// Notes each kept instance that hasn't one coordinate per axis, at its dictionary. A whole rule.
#[tactic(auto, unfolding(crate::specs::InstanceReading::instance_count_failures, crate::specs::InstanceReading::kept_instances))]
pub fn note_instance_counts(tree: &Tree, axes: usize, first: &mut FirstFailure)
    ensures { first.new ≡ noted first.old (instance_count_failures tree.now axes) }
{
    if !axis_numbers(tree).is_empty() {
        note_counts(tree, axes, items_under(tree, tree.top, b"instances"), first);
    }
}

fn note_counts(tree: &Tree, axes: usize, items: &[u32], first: &mut FirstFailure)
    ensures { first.new ≡ noted first.old
        (flat_map (count_failures tree.now axes) (filter (is_kept tree.now) items.now)) }
{
    for item in items {
        if is_kept(tree, *item) {
            note_count(tree, axes, *item, first);
        }
    }
}

fn note_count(tree: &Tree, axes: usize, instance: u32, first: &mut FirstFailure)
    ensures { first.new ≡ noted first.old (count_failures tree.now axes instance) }
{
    if items_under(tree, instance, b"axesValues").len() != axes {
        note_at(tree, instance, Rule::AxisCount, first);
    }
}
