ghost use Rattle.std.specs.Prelude.{◌≡◌, map, IfOk};
ghost use Rattle.refusal_codes.specs.First.{noted, foremost};
ghost use Rattle.source_axes.specs.AxisReading.{axis_parts_failures, axes_failures, axis_of};
ghost use Rattle.source_axes.specs.AxisReading.{items_or_none, axis_numbers, axes_of};
ghost use Rattle.source_axes.specs.AxisReading.{axis_limit_by, too_many_axes};
ghost use Rattle.source_values.specs.Values.{items_at};

use crate::tags::{TagText, note_repeated_tags, padded};
use font_ir::Axis;
use plain_lists::Sequence;
use plist_reader::Tree;
use refusal_codes::{Failure, FirstFailure, Rule, limits};
use source_values::{
    Asked, Dictionary, Each, NameText, copied, items_at, items_under, place_at, required,
    text_under,
};
use std::alloc::{AllocError, Global};

/// Notes what fails of a list of axes: a list of dictionaries, each of which has a name of 1 to 255
/// bytes and a tag of 1 to 4 bytes from 0x21 to 0x7E, no two the same tag.
///
/// The error is want of memory, after which nothing is known of what is noted.
#[tactic(auto, using(refusal_codes::specs::FirstLaws::noting), unfolding(crate::specs::AxisReading::axes_failures))]
pub fn note_axes(
    alloc: Global,
    tree: &Tree,
    number: u32,
    first: &mut FirstFailure,
) -> Result<(), AllocError>
    ensures { IfOk result (λ _. first.new ≡ noted first.old (axes_failures tree.now number)) }
{
    Each(Dictionary(AxisParts)).note(tree, number, first);
    note_repeated_tags(alloc, tree, items_or_none(tree, number), first)
}

/// The values of a list, none where the value is no list.
pub(crate) fn items_or_none(tree: &Tree, number: u32) -> &[u32]
    ensures { result.now ≡ items_or_none tree.now number }
{
    items_at(tree, number).unwrap_or(&[])
}

/// What the dictionary of an axis holds.
#[derive(Clone, Copy)]
struct AxisParts;

impl Asked for AxisParts {
    ghost failures = { λ asked. axis_parts_failures };

    #[tactic(auto, using(refusal_codes::specs::FirstLaws::noting), unfolding(crate::specs::AxisReading::axis_parts_failures))]
    fn note(&self, tree: &Tree, axis: u32, first: &mut FirstFailure) {
        required(tree, axis, b"name", &NameText, first);
        required(tree, axis, b"tag", &TagText, first);
    }
}

/// The axes that a source names, in their order, their tags padded with spaces to four bytes.
#[tactic(auto, unfolding(crate::specs::AxisReading::axes_of))]
pub fn read_axes(alloc: Global, tree: &Tree) -> Result<Sequence<Axis>, AllocError>
    ensures { IfOk result (λ axes. axes ≡ axes_of tree.now) }
{
    read_each_axis(alloc, tree, axis_numbers(tree))
}

fn read_each_axis(alloc: Global, tree: &Tree, numbers: &[u32]) -> Result<Sequence<Axis>, AllocError>
    ensures { IfOk result (λ axes. axes ≡ map (axis_of tree.now) numbers.now) }
{
    let mut axes = Vec::with_capacity(alloc, numbers.len())?;
    for number in numbers {
        axes.push(read_axis(alloc, tree, *number)?)?;
    }
    Ok(Sequence::from_vec(axes))
}

#[tactic(auto, unfolding(crate::specs::AxisReading::axis_of))]
fn read_axis(alloc: Global, tree: &Tree, axis: u32) -> Result<Axis, AllocError>
    ensures { IfOk result (λ value. value ≡ axis_of tree.now axis) }
{
    let name = copied(alloc, text_under(tree, axis, b"name"))?;
    let tag = match text_under(tree, axis, b"tag") {
        Some(text) => padded(text.as_bytes()),
        None => padded(b""),
    };
    Ok(Axis { name, tag })
}

/// The values of the list of axes.
#[tactic(auto, unfolding(crate::specs::AxisReading::axis_numbers))]
pub fn axis_numbers(tree: &Tree) -> &[u32]
    ensures { result.now ≡ axis_numbers tree.now }
{
    items_under(tree, tree.top, b"axes")
}

/// That a source has more than 8 axes, at their list. A whole rule.
#[tactic(auto, unfolding(crate::specs::AxisReading::too_many_axes))]
pub fn too_many_axes(tree: &Tree) -> Option<Failure>
    ensures { result ≡ foremost (too_many_axes tree.now) }
{
    let number = tree.find(tree.top, b"axes")?;
    let axes = items_at(tree, number)?;
    if axes.len() <= limits::AXES {
        None
    } else {
        Some(Failure {
            rule: Rule::TooManyAxes,
            place: place_at(tree, number),
        })
    }
}
