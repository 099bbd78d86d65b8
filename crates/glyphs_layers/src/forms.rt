ghost use Rattle.std.specs.Prelude.{◌≡◌, map, flat_map};
ghost use Rattle.std.specs.Cmp.Lexicographic.{pointwise};
ghost use Rattle.refusal_codes.specs.First.{foremost};
ghost use Rattle.glyphs_layers.specs.Forms.{same_flag, same_side, same_shape, same_form, record_of};
ghost use Rattle.glyphs_layers.specs.Forms.{unlike_first, incompatible};

use crate::layers::SourceLayer;
use font_ir::{Contour, DrawnPoint, LayerIr, Shape};
use plist_reader::Tree;
use refusal_codes::{Failure, Rule};
use source_values::place_at;

/// The first layer of another form than the first one.
pub fn incompatible(tree: &Tree, layers: &[SourceLayer], records: &[LayerIr]) -> Option<Failure>
    requires { records.now ≡ map (record_of tree.now) layers.now }
    ensures { result ≡ foremost (incompatible tree.now layers.now) }
{
    match layers {
        [] => None,
        [_, others @ ..] => first_unlike(tree, &records[0], others, &records[1..]),
    }
}

/// The first of these layers that has another form.
fn first_unlike(
    tree: &Tree,
    first: &LayerIr,
    layers: &[SourceLayer],
    records: &[LayerIr],
) -> Option<Failure>
    requires { records.now ≡ map (record_of tree.now) layers.now }
    ensures { result ≡ foremost (flat_map (unlike_first tree.now first.now) layers.now) }
{
    for (i, layer) in layers.iter().enumerate() {
        if !is_same_form(first, &records[i]) {
            return Some(Failure {
                rule: Rule::Incompatible,
                place: place_at(tree, layer.number),
            });
        }
    }
    None
}

/// Whether two layers have the same form.
fn is_same_form(a: &LayerIr, b: &LayerIr) -> bool
    ensures { result ≡ same_form a.now b.now }
{
    are_same_shapes(a.shapes.as_slice(), b.shapes.as_slice())
}

fn are_same_shapes(a: &[Shape], b: &[Shape]) -> bool
    ensures { result ≡ pointwise same_shape a.now b.now }
{
    if a.len() != b.len() {
        return false;
    }
    for (i, shape) in a.iter().enumerate() {
        if !is_same_shape(shape, &b[i]) {
            return false;
        }
    }
    true
}

fn is_same_shape(a: &Shape, b: &Shape) -> bool
    ensures { result ≡ same_shape a.now b.now }
{
    match (a, b) {
        (Shape::Path(a), Shape::Path(b)) => are_same_sides(a, b),
        (Shape::Component { base, .. }, Shape::Component { base: other, .. }) => base == other,
        _ => false,
    }
}

/// Whether two contours have as many points, the same of them on the curve.
fn are_same_sides(a: &Contour, b: &Contour) -> bool
    ensures { result ≡ pointwise same_side a.now.points b.now.points }
{
    let (a, b) = (a.points.as_slice(), b.points.as_slice());
    if a.len() != b.len() {
        return false;
    }
    for (i, point) in a.iter().enumerate() {
        if point.on != b[i].on {
            return false;
        }
    }
    true
}
