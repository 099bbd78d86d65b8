ghost use Rattle.std.specs.Prelude.{◌≡◌, ◌++◌, [], ◌∷◌, true, cond, map, flat_map, nat_eq};
ghost use Rattle.std.specs.Prelude.{IfOk, OnOk};
ghost use Rattle.std.specs.HashSet.{contains, Updates};
ghost use Rattle.std.specs.Cmp.Lexicographic.{pointwise};
ghost use Rattle.refusal_codes.specs.First.{noted};
ghost use Rattle.source_values.specs.declared.kinds.Range.TheVariants as range;
ghost use Rattle.source_values.specs.Asking.{whole_failures};
ghost use Rattle.layer_shapes.specs.LayerRules.{pair, anchor_failures, anchors_failures};
ghost use Rattle.layer_shapes.specs.LayerReading.{position_at, position_of, anchor_of};
ghost use Rattle.layer_shapes.specs.LayerReading.{first_of_each_name, anchors_of};

use crate::kind::LayerKind;
use crate::units::read_units;
use font_ir::{Anchor, Name};
use plain_lists::Sequence;
use plist_reader::Tree;
use refusal_codes::{FirstFailure, Rule};
use source_values::{PlainText, copied, is_dictionary, items_at, note_at, required, text_under};
use std::alloc::{AllocError, Global};
use std::collections::HashSet;

/// The anchors of a layer, and what fails of them: none of an intermediate layer, whose anchors
/// aren't read.
#[tactic(auto, unfolding(crate::specs::LayerRules::anchors_failures, crate::specs::LayerReading::anchors_of))]
pub fn read_anchors_of(
    alloc: Global,
    tree: &Tree,
    layer: u32,
    kind: LayerKind,
    first: &mut FirstFailure,
) -> Result<Sequence<Anchor>, AllocError>
    ensures anchors { IfOk result (λ anchors. anchors ≡ anchors_of kind tree.now layer) }
    ensures failures { OnOk result (first.new
        ≡ noted first.old (anchors_failures kind tree.now layer)) }
{
    match kind {
        LayerKind::Intermediate => Ok(Sequence::new(alloc)),
        LayerKind::Master => read_anchors_under(alloc, tree, layer, first),
    }
}

/// The anchors of a master's layer, none where it has no such list.
#[tactic(auto, unfolding(crate::specs::LayerRules::anchors_failures, crate::specs::LayerReading::anchors_of))]
fn read_anchors_under(
    alloc: Global,
    tree: &Tree,
    layer: u32,
    first: &mut FirstFailure,
) -> Result<Sequence<Anchor>, AllocError>
    ensures anchors { IfOk result (λ anchors. anchors ≡ anchors_of LayerKind.Master tree.now layer) }
    ensures failures { OnOk result (first.new
        ≡ noted first.old (anchors_failures LayerKind.Master tree.now layer)) }
{
    let Some(number) = tree.find(layer, b"anchors") else {
        return Ok(Sequence::new(alloc));
    };
    match items_at(tree, number) {
        Some(numbers) => read_anchors(alloc, tree, numbers, first),
        None => {
            note_at(tree, number, Rule::WrongShape, first);
            Ok(Sequence::new(alloc))
        }
    }
}

/// These anchors, but of each name only the first one.
fn read_anchors(
    alloc: Global,
    tree: &Tree,
    numbers: &[u32],
    first: &mut FirstFailure,
) -> Result<Sequence<Anchor>, AllocError>
    ensures anchors { IfOk result (λ anchors. anchors
        ≡ first_of_each_name (map (anchor_of tree.now) numbers.now)) }
    ensures failures { OnOk result (first.new
        ≡ noted first.old (flat_map (anchor_failures tree.now) numbers.now)) }
{
    let mut anchors = Vec::new(alloc);
    let mut seen = HashSet::new(alloc);
    for number in numbers {
        read_next(alloc, tree, *number, &mut seen, &mut anchors, first)?;
    }
    Ok(Sequence::from_vec(anchors))
}

/// Adds an anchor, unless its name is among those seen before, and adds its name to these.
fn read_next(
    alloc: Global,
    tree: &Tree,
    number: u32,
    seen: &mut HashSet<Name>,
    anchors: &mut Vec<Anchor>,
    first: &mut FirstFailure,
) -> Result<(), AllocError>
    ensures anchors { OnOk result (anchors.new.items ≡ anchors.old.items
        ++ cond (contains (pointwise nat_eq) seen.old (anchor_of tree.now number).name) []
        (anchor_of tree.now number ∷ [])) }
    ensures seen { OnOk result
        (Updates (pointwise nat_eq) seen.old seen.new (anchor_of tree.now number).name true) }
    ensures failures { OnOk result (first.new
        ≡ noted first.old (anchor_failures tree.now number)) }
{
    let anchor = read_anchor(alloc, tree, number, first)?;
    if seen.insert(anchor.name.copy(alloc)?)? {
        anchors.push(anchor)?;
    }
    Ok(())
}

/// An anchor, and what fails of it.
#[tactic(auto, unfolding(crate::specs::LayerReading::anchor_of))]
fn read_anchor(
    alloc: Global,
    tree: &Tree,
    number: u32,
    first: &mut FirstFailure,
) -> Result<Anchor, AllocError>
    ensures anchor { IfOk result (λ anchor. anchor ≡ anchor_of tree.now number) }
    ensures failures { OnOk result (first.new ≡ noted first.old (anchor_failures tree.now number)) }
{
    let (x, y) = read_position(tree, number, first);
    Ok(Anchor {
        name: copied(alloc, text_under(tree, number, b"name"))?,
        x,
        y,
    })
}

/// The position of an anchor, and what fails of the anchor.
#[tactic(auto, using(refusal_codes::specs::FirstLaws::noting), unfolding(crate::specs::LayerRules::anchor_failures, crate::specs::LayerRules::anchor_parts_failures))]
fn read_position(tree: &Tree, number: u32, first: &mut FirstFailure) -> (i16, i16)
    ensures position { result ≡ position_of tree.now number }
    ensures failures { first.new ≡ noted first.old (anchor_failures tree.now number) }
{
    if !is_dictionary(tree, number) {
        note_at(tree, number, Rule::WrongShape, first);
        return (0, 0);
    }
    required(tree, number, b"name", &PlainText, first);
    match tree.find(number, b"pos") {
        Some(list) => read_pair(tree, list, first),
        None => (0, 0),
    }
}

/// A list of two coordinates in font units, zeros where the value is none.
#[tactic(auto, using(refusal_codes::specs::FirstLaws::noting), unfolding(crate::specs::LayerReading::position_at))]
fn read_pair(tree: &Tree, number: u32, first: &mut FirstFailure) -> (i16, i16)
    ensures units { result ≡ position_at tree.now number }
    ensures failures { first.new ≡ noted first.old
        (pair (whole_failures range.Coordinate) tree.now number) }
{
    match items_at(tree, number) {
        Some([x, y]) => {
            let x = read_units(tree, *x, first);
            let y = read_units(tree, *y, first);
            (x, y)
        }
        _ => {
            note_at(tree, number, Rule::WrongShape, first);
            (0, 0)
        }
    }
}
