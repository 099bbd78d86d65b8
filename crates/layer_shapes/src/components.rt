ghost use Rattle.std.specs.Prelude.{◌≡◌, ◌≤◌, false, not, codes, IfOk, OnOk};
ghost use Rattle.std.specs.Option.{option_map_or};
ghost use Rattle.std.specs.List.{list_any};
ghost use Rattle.refusal_codes.specs.First.{noted};
ghost use Rattle.source_values.specs.Values.{decimal_at};
ghost use Rattle.source_values.specs.Asking.{optional};
ghost use Rattle.layer_shapes.specs.Placing.{is_quarter_turn, quarters_in};
ghost use Rattle.layer_shapes.specs.LayerRules.{pair, decimal_failures, bounded_failures};
ghost use Rattle.layer_shapes.specs.LayerRules.{offset_failures, scale_failures, slant_failures};
ghost use Rattle.layer_shapes.specs.LayerRules.{is_not_zero, is_slanted, has_slant, has_odd_angle};
ghost use Rattle.layer_shapes.specs.LayerRules.{is_unsupported, transform_failures};
ghost use Rattle.layer_shapes.specs.LayerRules.{component_failures};
ghost use Rattle.layer_shapes.specs.LayerReading.{bounded_of, bounded_pair, offset_of, scale_of};
ghost use Rattle.layer_shapes.specs.LayerReading.{quarters_of, component_of};

use crate::placing::{
    GREATEST_SCALE, angle_at, is_at_most, is_quarter_turn, is_zero, nearest, quarters_in,
};
use fixed_math::Fixed;
use font_ir::Shape;
use plist_reader::Tree;
use refusal_codes::{FirstFailure, Rule, limits};
use source_values::{
    Asked, Each, PlainText, copied, decimal_at, is_list, items_at, note_at, optional, text_under,
};
use std::alloc::{AllocError, Global};

/// A component, and what fails of it.
#[tactic(auto, using(refusal_codes::specs::FirstLaws::noting), unfolding(crate::specs::LayerRules::component_failures, crate::specs::LayerReading::component_of))]
pub fn read_component(
    alloc: Global,
    tree: &Tree,
    component: u32,
    first: &mut FirstFailure,
) -> Result<Shape, AllocError>
    ensures shape { IfOk result (λ shape. shape ≡ component_of tree.now component) }
    ensures failures { OnOk result (first.new
        ≡ noted first.old (component_failures tree.now component)) }
{
    optional(tree, component, b"ref", &PlainText, first);
    let at = read_offset(tree, component, first);
    let scale = read_scale(tree, component, first);
    optional(tree, component, b"angle", &AnyDecimal, first);
    optional(tree, component, b"slant", &Slant, first);
    note_transform(tree, component, first);
    Ok(Shape::Component {
        base: copied(alloc, text_under(tree, component, b"ref"))?,
        at,
        scale,
        quarters: quarters_of(tree, component),
    })
}

/// Where a component is moved to.
#[tactic(auto, unfolding(crate::specs::LayerRules::offset_failures))]
fn read_offset(tree: &Tree, component: u32, first: &mut FirstFailure) -> (Fixed, Fixed)
    ensures offset { result ≡ offset_of tree.now component }
    ensures failures { first.new
        ≡ noted first.old (optional (codes "pos") offset_failures tree.now component) }
{
    let bound = Bound {
        size: limits::COORDINATE,
        rule: Rule::CoordinateTooLarge,
    };
    match tree.find(component, b"pos") {
        Some(number) => read_pair(tree, number, bound, first),
        None => (Fixed(0), Fixed(0)),
    }
}

/// By how much a component is scaled.
#[tactic(auto, unfolding(crate::specs::LayerRules::scale_failures))]
fn read_scale(tree: &Tree, component: u32, first: &mut FirstFailure) -> (Fixed, Fixed)
    ensures scale { result ≡ scale_of tree.now component }
    ensures failures { first.new
        ≡ noted first.old (optional (codes "scale") scale_failures tree.now component) }
{
    let bound = Bound {
        size: GREATEST_SCALE,
        rule: Rule::OutOfRange,
    };
    match tree.find(component, b"scale") {
        Some(number) => read_pair(tree, number, bound, first),
        None => (Fixed(65536), Fixed(65536)),
    }
}

/// How great a decimal may be in size, and the rule that a greater one fails.
#[derive(Clone, Copy)]
struct Bound {
    size: u32,
    rule: Rule,
}

/// A list of two decimals in 16.16, zeros where the value is none.
#[tactic(auto, using(refusal_codes::specs::FirstLaws::noting), unfolding(crate::specs::LayerReading::bounded_pair))]
fn read_pair(tree: &Tree, number: u32, bound: Bound, first: &mut FirstFailure) -> (Fixed, Fixed)
    requires { bound.size ≤ 16383 }
    ensures numbers { result ≡ bounded_pair bound.size tree.now number }
    ensures failures { first.new ≡ noted first.old
        (pair (bounded_failures bound.size bound.rule) tree.now number) }
{
    match items_at(tree, number) {
        Some([x, y]) => {
            let x = read_bounded(tree, *x, bound, first);
            let y = read_bounded(tree, *y, bound, first);
            (x, y)
        }
        _ => {
            note_at(tree, number, Rule::WrongShape, first);
            (Fixed(0), Fixed(0))
        }
    }
}

/// A decimal in 16.16, 0 where the value is none or too great in size.
#[tactic(auto, unfolding(crate::specs::LayerRules::bounded_failures, crate::specs::LayerReading::bounded_of))]
fn read_bounded(tree: &Tree, number: u32, bound: Bound, first: &mut FirstFailure) -> Fixed
    requires { bound.size ≤ 16383 }
    ensures number { result ≡ bounded_of bound.size tree.now number }
    ensures failures { first.new ≡ noted first.old
        (bounded_failures bound.size bound.rule tree.now number) }
{
    match decimal_at(tree, number) {
        None => note_at(tree, number, Rule::WrongShape, first),
        Some(decimal) => {
            if is_at_most(&decimal, bound.size) {
                return nearest(&decimal);
            }
            note_at(tree, number, bound.rule, first);
        }
    }
    Fixed(0)
}

/// A decimal.
#[derive(Clone, Copy)]
struct AnyDecimal;

impl Asked for AnyDecimal {
    ghost failures = { λ asked. decimal_failures };

    #[tactic(auto, unfolding(crate::specs::LayerRules::decimal_failures))]
    fn note(&self, tree: &Tree, number: u32, first: &mut FirstFailure) {
        if decimal_at(tree, number).is_none() {
            note_at(tree, number, Rule::WrongShape, first);
        }
    }
}

/// A slant: a decimal, or a list of decimals.
#[derive(Clone, Copy)]
struct Slant;

impl Asked for Slant {
    ghost failures = { λ asked. slant_failures };

    #[tactic(auto, unfolding(crate::specs::LayerRules::slant_failures))]
    fn note(&self, tree: &Tree, number: u32, first: &mut FirstFailure) {
        if is_list(tree, number) {
            Each(AnyDecimal).note(tree, number, first);
        } else {
            AnyDecimal.note(tree, number, first);
        }
    }
}

/// Notes whether a component is transformed in a way that isn't drawn.
#[tactic(auto, unfolding(crate::specs::LayerRules::transform_failures))]
fn note_transform(tree: &Tree, component: u32, first: &mut FirstFailure)
    ensures { first.new ≡ noted first.old (transform_failures tree.now component) }
{
    if is_unsupported(tree, component) {
        note_at(tree, component, Rule::UnsupportedTransform, first);
    }
}

fn is_unsupported(tree: &Tree, component: u32) -> bool
    ensures { result ≡ is_unsupported tree.now component }
{
    has_slant(tree, component)
        || has_odd_angle(tree, component)
        || tree.find(component, b"piece").is_some()
}

fn has_slant(tree: &Tree, component: u32) -> bool
    ensures { result ≡ has_slant tree.now component }
{
    match tree.find(component, b"slant") {
        Some(slant) => is_slanted(tree, slant),
        None => false,
    }
}

fn is_slanted(tree: &Tree, slant: u32) -> bool
    ensures { result ≡ is_slanted tree.now slant }
{
    match items_at(tree, slant) {
        Some(items) => is_any_not_zero(tree, items),
        None => is_not_zero(tree, slant),
    }
}

fn is_any_not_zero(tree: &Tree, numbers: &[u32]) -> bool
    ensures { result ≡ list_any (is_not_zero tree.now) numbers.now }
{
    numbers.iter().any(|number| is_not_zero(tree, *number))
}

fn is_not_zero(tree: &Tree, number: u32) -> bool
    ensures { result ≡ is_not_zero tree.now number }
{
    match decimal_at(tree, number) {
        Some(decimal) => !is_zero(&decimal),
        None => false,
    }
}

fn has_odd_angle(tree: &Tree, component: u32) -> bool
    ensures { result ≡ has_odd_angle tree.now component }
{
    match tree.find(component, b"angle") {
        Some(number) => is_odd_angle(tree, number),
        None => false,
    }
}

fn is_odd_angle(tree: &Tree, number: u32) -> bool
    ensures { result ≡ option_map_or (λ angle. not (is_quarter_turn angle))
        (decimal_at tree.now number) false }
{
    match angle_at(tree, number) {
        Some(angle) => !is_quarter_turn(&angle),
        None => false,
    }
}

/// How a component is turned, in quarter turns counterclockwise, 0 to 3.
fn quarters_of(tree: &Tree, component: u32) -> u8
    ensures { result ≡ quarters_of tree.now component }
{
    match tree.find(component, b"angle") {
        Some(number) => quarters_at(tree, number),
        None => 0,
    }
}

fn quarters_at(tree: &Tree, number: u32) -> u8
    ensures { result ≡ option_map_or quarters_in (decimal_at tree.now number) 0 }
{
    match angle_at(tree, number) {
        Some(angle) => quarters_in(&angle),
        None => 0,
    }
}
