ghost use Rattle.std.specs.Prelude.{◌≡◌, ◌++◌, List, [], ◌∷◌, map, flat_map, IfOk, OnOk};
ghost use Rattle.font_ir.specs.declared.glyph.DrawnPoint.{DrawnPoint as SeenPoint};
ghost use Rattle.refusal_codes.specs.First.{noted};
ghost use Rattle.layer_shapes.specs.LayerRules.{is_on_curve, is_off_curve, is_cubic};
ghost use Rattle.layer_shapes.specs.LayerRules.{type_failures, node_parts_failures, node_failures};
ghost use Rattle.layer_shapes.specs.LayerRules.{nodes_failures, closed_failures, path_failures};
ghost use Rattle.layer_shapes.specs.LayerReading.{point_by, point_of, last_first, contour_of};
ghost use Rattle.layer_shapes.specs.LayerReading.{paths_of};

use crate::units::read_coordinate;
use fixed_math::Fixed;
use font_ir::{Contour, DrawnPoint, Shape};
use plain_lists::Sequence;
use plist_reader::Tree;
use refusal_codes::{FirstFailure, Rule};
use source_values::{Asked, decimal_at, is_word, items_at, note_at, optional};
use std::alloc::{AllocError, Global};

/// Adds a path with this list of nodes, unless it is empty, and notes what fails of the path.
#[tactic(auto, using(refusal_codes::specs::FirstLaws::noting))]
pub fn read_path(
    alloc: Global,
    tree: &Tree,
    path: u32,
    nodes: u32,
    shapes: &mut Vec<Shape>,
    first: &mut FirstFailure,
) -> Result<(), AllocError>
    ensures shapes { OnOk result (shapes.new.items ≡ shapes.old.items ++ paths_of tree.now nodes) }
    ensures failures { OnOk result (first.new
        ≡ noted first.old (path_failures tree.now path nodes)) }
{
    optional(tree, path, b"closed", &Closed { path }, first);
    read_nodes_of(alloc, tree, nodes, shapes, first)
}

/// Whether a path is closed: a whole number, and not 0, since an open path isn't drawn.
#[derive(Clone, Copy)]
struct Closed {
    path: u32,
}

impl Asked for Closed {
    ghost failures = { λ asked. closed_failures asked.path };

    #[tactic(auto, unfolding(crate::specs::LayerRules::closed_failures))]
    fn note(&self, tree: &Tree, number: u32, first: &mut FirstFailure) {
        match decimal_at(tree, number) {
            None => note_at(tree, number, Rule::WrongShape, first),
            Some(closed) => {
                if closed.billionths != 0 {
                    note_at(tree, number, Rule::NotWhole, first);
                } else if closed.whole == 0 {
                    note_at(tree, self.path, Rule::OpenContour, first);
                }
            }
        }
    }
}

/// Adds the path of a list of nodes, unless it is empty.
#[tactic(auto, unfolding(crate::specs::LayerRules::nodes_failures))]
fn read_nodes_of(
    alloc: Global,
    tree: &Tree,
    number: u32,
    shapes: &mut Vec<Shape>,
    first: &mut FirstFailure,
) -> Result<(), AllocError>
    ensures shapes { OnOk result (shapes.new.items ≡ shapes.old.items ++ paths_of tree.now number) }
    ensures failures { OnOk result (first.new ≡ noted first.old (nodes_failures tree.now number)) }
{
    match items_at(tree, number) {
        None => note_at(tree, number, Rule::WrongShape, first),
        Some([]) => {}
        Some(nodes) => shapes.push(Shape::Path(read_contour(alloc, tree, nodes, first)?))?,
    }
    Ok(())
}

/// The contour of a path's nodes. The last one is the start.
#[tactic(auto, unfolding(crate::specs::LayerReading::contour_of))]
fn read_contour(
    alloc: Global,
    tree: &Tree,
    nodes: &[u32],
    first: &mut FirstFailure,
) -> Result<Contour, AllocError>
    ensures contour { IfOk result (λ contour. contour ≡ contour_of tree.now nodes.now) }
    ensures failures { OnOk result (first.new
        ≡ noted first.old (flat_map (node_failures tree.now) nodes.now)) }
{
    let mut points = read_nodes(alloc, tree, nodes, first)?;
    put_last_first(&mut points);
    Ok(Contour {
        points: Sequence::from_vec(points),
    })
}

/// Moves the last point to the front.
#[tactic(auto, using(crate::proofs::LastFirst::rotated, crate::proofs::LastFirst::kept_empty))]
fn put_last_first(points: &mut Vec<DrawnPoint>)
    ensures { points.new.items ≡ last_first points.old.items }
{
    if !points.is_empty() {
        points.as_mut_slice().rotate_right(1);
    }
}

/// Of a list with a last item, that goes first, and then come the others in their order. A law: the
/// function does nothing.
pub fn last_items_go_first()
    ensures { (front : List SeenPoint) (last : SeenPoint)
        → last_first (front ++ last ∷ []) ≡ last ∷ front }
{}

/// The points of these nodes, in their order.
fn read_nodes(
    alloc: Global,
    tree: &Tree,
    nodes: &[u32],
    first: &mut FirstFailure,
) -> Result<Vec<DrawnPoint>, AllocError>
    ensures points { IfOk result (λ points. points.items ≡ map (point_of tree.now) nodes.now) }
    ensures failures { OnOk result (first.new
        ≡ noted first.old (flat_map (node_failures tree.now) nodes.now)) }
{
    let mut points = Vec::with_capacity(alloc, nodes.len())?;
    for node in nodes {
        points.push(read_node(tree, *node, first))?;
    }
    Ok(points)
}

/// The point of a node.
#[tactic(auto, unfolding(crate::specs::LayerRules::node_failures, crate::specs::LayerReading::point_of))]
fn read_node(tree: &Tree, node: u32, first: &mut FirstFailure) -> DrawnPoint
    ensures point { result ≡ point_of tree.now node }
    ensures failures { first.new ≡ noted first.old (node_failures tree.now node) }
{
    match items_at(tree, node) {
        Some(parts) => {
            if parts.len() == 3 || parts.len() == 4 {
                return read_node_parts(tree, node, parts[0], parts[1], parts[2], first);
            }
        }
        None => {}
    }
    note_at(tree, node, Rule::WrongShape, first);
    DrawnPoint {
        x: Fixed(0),
        y: Fixed(0),
        on: true,
    }
}

#[tactic(auto, using(refusal_codes::specs::FirstLaws::noting), unfolding(crate::specs::LayerRules::node_parts_failures))]
fn read_node_parts(
    tree: &Tree,
    node: u32,
    x: u32,
    y: u32,
    kind: u32,
    first: &mut FirstFailure,
) -> DrawnPoint
    ensures point { result ≡ point_by tree.now x y kind }
    ensures failures { first.new ≡ noted first.old (node_parts_failures tree.now node x y kind) }
{
    let x = read_coordinate(tree, x, first);
    let y = read_coordinate(tree, y, first);
    note_type(tree, node, kind, first);
    DrawnPoint {
        x,
        y,
        on: !is_off_curve(tree, kind),
    }
}

#[tactic(auto, unfolding(crate::specs::LayerRules::type_failures))]
fn note_type(tree: &Tree, node: u32, kind: u32, first: &mut FirstFailure)
    ensures { first.new ≡ noted first.old (type_failures tree.now node kind) }
{
    if is_on_curve(tree, kind) || is_off_curve(tree, kind) {} else if is_cubic(tree, kind) {
        note_at(tree, node, Rule::CubicNode, first);
    } else {
        note_at(tree, kind, Rule::WrongShape, first);
    }
}

fn is_on_curve(tree: &Tree, kind: u32) -> bool
    ensures { result ≡ is_on_curve tree.now kind }
{
    is_word(tree, b"l", kind)
        || is_word(tree, b"ls", kind)
        || is_word(tree, b"q", kind)
        || is_word(tree, b"qs", kind)
}

fn is_off_curve(tree: &Tree, kind: u32) -> bool
    ensures { result ≡ is_off_curve tree.now kind }
{
    is_word(tree, b"o", kind) || is_word(tree, b"os", kind)
}

fn is_cubic(tree: &Tree, kind: u32) -> bool
    ensures { result ≡ is_cubic tree.now kind }
{
    is_word(tree, b"c", kind) || is_word(tree, b"cs", kind)
}
