use fixed_math::Fixed;
use font_ir::{Anchor, DrawnPoint, LayerIr, Shape};
use layer_shapes::{LayerKind, base_of, is_component, read_layer};
use plist_reader::{Tree, read};
use refusal_codes::{FirstFailure, Rule};
use source_values::items_under;
use std::alloc::Global;
use std::test::Fail;

/// A layer with two paths, of which one has no nodes, a component, and two anchors of one name.
const RICH_LAYER: &[u8] = b"{
width = 500;
shapes = (
{
closed = 1;
nodes = ((0,0,l),(10,20,o),(30,-40,qs,x));
},
{
nodes = ();
},
{
ref = B;
pos = (10.25,-3);
scale = (0.5,-2);
angle = -450;
}
);
anchors = (
{
name = top;
pos = (1,700);
},
{
name = top;
pos = (2,2);
},
{
name = base;
}
);
}
";

/// What the whole value of a source holds as a layer, and the least rule that it fails.
fn layer_of(
    alloc: Global,
    source: &[u8],
    kind: LayerKind,
) -> Result<(LayerIr, Option<(Rule, u64)>), Fail> {
    if source.len() > 67_108_864 {
        return Err("a source that is too long".into());
    }
    let tree = read(alloc, source)?;
    let mut first = FirstFailure::new();
    let layer = read_layer(alloc, &tree, tree.top, kind, &mut first)?;
    let failure = match first.get() {
        Some(failure) => Some((failure.rule, failure.place)),
        None => None,
    };
    Ok((layer, failure))
}

/// Whether points are these, in 16.16.
pub fn are_points(points: &[DrawnPoint], wanted: &[(i32, i32, bool)]) -> bool {
    if points.len() != wanted.len() {
        return false;
    }
    for (i, point) in points.iter().enumerate() {
        let (x, y, on) = wanted[i];
        if (point.x, point.y, point.on) != (Fixed(x), Fixed(y), on) {
            return false;
        }
    }
    true
}

/// Whether the shapes are those of the rich layer: its path, the last node first, and its
/// component, moved by (10.25,-3), scaled by (0.5,-2) and turned by three quarters.
fn are_rich_shapes(shapes: &[Shape]) -> bool {
    let points = [
        (1966080, -2621440, true),
        (0, 0, true),
        (655360, 1310720, false),
    ];
    match shapes {
        [
            Shape::Path(contour),
            Shape::Component {
                base,
                at,
                scale,
                quarters,
            },
        ] => {
            are_points(contour.points.as_slice(), points.as_slice())
                && base.as_str() == "B"
                && *at == (Fixed(671744), Fixed(-196608))
                && *scale == (Fixed(32768), Fixed(-131072))
                && *quarters == 3
        }
        _ => false,
    }
}

/// Whether an anchor has this name and this position.
fn is_anchor(anchor: &Anchor, name: &str, position: (i16, i16)) -> bool {
    anchor.name.as_str() == name && (anchor.x, anchor.y) == position
}

#[test]
fn a_layer_holds_its_paths_components_and_anchors(rt: HostRuntime) -> Result<(), Fail> {
    let (layer, failure) = layer_of(rt.alloc(), RICH_LAYER, LayerKind::Master)?;
    assert!(rt; failure.is_none() && layer.width == 500);
    assert!(rt; are_rich_shapes(layer.shapes.as_slice()));
    match layer.anchors.as_slice() {
        [top, base] => {
            assert!(rt; is_anchor(top, "top", (1, 700)) && is_anchor(base, "base", (0, 0)));
        }
        _ => return Err("other anchors".into()),
    }
    let (layer, failure) = layer_of(rt.alloc(), RICH_LAYER, LayerKind::Intermediate)?;
    assert!(rt; failure.is_none() && layer.anchors.is_empty());
    assert!(rt; are_rich_shapes(layer.shapes.as_slice()));
    Ok(())
}

/// How many components of the glyph of this name a layer has.
fn count_of(tree: &Tree, name: &str) -> usize {
    items_under(tree, tree.top, b"shapes")
        .iter()
        .filter(|shape| is_component(tree, **shape) && base_of(tree, **shape) == name)
        .count()
}

#[test]
fn components_are_the_shapes_without_nodes(rt: HostRuntime) -> Result<(), Fail> {
    let tree = read(rt.alloc(), RICH_LAYER)?;
    assert!(rt; count_of(&tree, "B") == 1 && count_of(&tree, "A") == 0);
    let tree = read(
        rt.alloc(),
        b"{shapes=({ref=B;},{nodes=();ref=B;},{ref=();});}",
    )?;
    assert!(rt; count_of(&tree, "B") == 1 && count_of(&tree, "") == 1);
    Ok(())
}

#[test]
fn each_rule_of_a_layer_refuses_at_its_place(rt: HostRuntime) -> Result<(), Fail> {
    let cases = [
        (b"{}".as_slice(), Some((Rule::MissingKey, 0))),
        (b"{width=0;}".as_slice(), None),
        (b"{width=1.5;}".as_slice(), Some((Rule::NotWhole, 7))),
        (b"{width=32768;}".as_slice(), Some((Rule::OutOfRange, 7))),
        (
            b"{width=0;shapes=x;}".as_slice(),
            Some((Rule::WrongShape, 16)),
        ),
        (
            b"{width=0;shapes=({});}".as_slice(),
            Some((Rule::MissingKey, 17)),
        ),
        (
            b"{width=0;shapes=({nodes=((0,0,c));});}".as_slice(),
            Some((Rule::CubicNode, 25)),
        ),
        (
            b"{width=0;shapes=({nodes=((0,0,k));});}".as_slice(),
            Some((Rule::WrongShape, 30)),
        ),
        (
            b"{width=0;shapes=({nodes=((0,0));});}".as_slice(),
            Some((Rule::WrongShape, 25)),
        ),
        (
            b"{width=0;shapes=({closed=0;nodes=();});}".as_slice(),
            Some((Rule::OpenContour, 17)),
        ),
        (
            b"{width=0;shapes=({nodes=((0,16384,l));});}".as_slice(),
            Some((Rule::CoordinateTooLarge, 28)),
        ),
        (
            b"{width=0;shapes=({ref=();});}".as_slice(),
            Some((Rule::WrongShape, 22)),
        ),
        (
            b"{width=0;shapes=({ref=A;pos=(1);});}".as_slice(),
            Some((Rule::WrongShape, 28)),
        ),
        (
            b"{width=0;shapes=({ref=A;pos=(0,16383.5);});}".as_slice(),
            Some((Rule::CoordinateTooLarge, 31)),
        ),
        (
            b"{width=0;shapes=({ref=A;scale=(1,17);});}".as_slice(),
            Some((Rule::OutOfRange, 33)),
        ),
        (
            b"{width=0;shapes=({ref=A;angle=45;});}".as_slice(),
            Some((Rule::UnsupportedTransform, 17)),
        ),
        (
            b"{width=0;shapes=({ref=A;slant=(0,5);});}".as_slice(),
            Some((Rule::UnsupportedTransform, 17)),
        ),
        (b"{width=0;shapes=({ref=A;slant=(0,0);});}".as_slice(), None),
        (
            b"{width=0;shapes=({ref=A;piece={};});}".as_slice(),
            Some((Rule::UnsupportedTransform, 17)),
        ),
        (
            b"{width=0;shapes=({ref=A;angle=x;});}".as_slice(),
            Some((Rule::WrongShape, 30)),
        ),
        (
            b"{width=0;anchors=({pos=(0,0);});}".as_slice(),
            Some((Rule::MissingKey, 18)),
        ),
        (
            b"{width=0;anchors=({name=a;pos=(0,0.5);});}".as_slice(),
            Some((Rule::NotWhole, 33)),
        ),
    ];
    for (source, wanted) in cases {
        let (_, failure) = layer_of(rt.alloc(), source, LayerKind::Master)?;
        assert!(rt; failure == wanted);
    }
    let unnamed = b"{width=0;anchors=({pos=(0,0);});}";
    let (_, failure) = layer_of(rt.alloc(), unnamed, LayerKind::Intermediate)?;
    assert!(rt; failure.is_none());
    Ok(())
}
