//! Glyphs with components, drawn from whole sources.

ghost use Rattle.std.specs.Prelude.{◌≡◌, ◌<◌, ◌≤ℤ◌, pos, length, Ok, IfOk, IsTrue, ◌==◌};
ghost use Rattle.std.specs.List.{All, list_all};
ghost use Rattle.std.specs.Arc.{arc_value};
ghost use Rattle.font_ir.specs.declared.glyph.FlatGlyph.{FlatGlyph as AGlyph};
ghost use Rattle.font_ir.specs.FlatGlyphs.{IsFlatGlyph, glyphs_of};
ghost use Rattle.font_ir.specs.Places.{axis_count};
ghost use Rattle.component_flatten.specs.Flattening.{IsBase};
ghost use Rattle.glyphs_source.specs.IndexReading.{index_of};
ghost use Rattle.plist_reader.specs.Tree.{IsTree};

use crate::layers::are_points;
use component_flatten::{component_count, flatten};
use font_ir::{Contour, FlatGlyph, Location};
use glyphs_layers::raw_glyph;
use glyphs_source::{GlyphIndex, glyph_index, header};
use plist_reader::{Tree, read};
use refusal_codes::ReadError;
use std::alloc::Global;
use std::sync::Arc;
use std::test::Fail;

/// A base that is turned by 90, -450 and 720 degrees, each time scaled and moved as well.
const TURNED: &str = "{.formatVersion = 3;familyName = Tri;fontMaster = ({id = m1;});glyphs = (\
    {glyphname = A;layers = ({layerId = m1;shapes = (\
    {angle = 90;pos = (10.25,-3);ref = B;scale = (0.5,-2);},\
    {angle = -450;pos = (10.25,-3);ref = B;scale = (0.5,-2);},\
    {angle = 720;pos = (10.25,-3);ref = B;scale = (0.5,-2);});width = 500;});},\
    {glyphname = B;layers = ({layerId = m1;shapes = (\
    {nodes = ((0,0,l),(100,200,o),(3,-7,l));});width = 500;});});unitsPerEm = 1000;}";

/// A component of a glyph that is moved by one 65536th of a unit.
const ROUNDED: &str = "{.formatVersion = 3;familyName = Tri;fontMaster = ({id = m1;});glyphs = (\
    {glyphname = A;layers = ({layerId = m1;shapes = ({ref = B;scale = (0.5,-0.5);});\
    width = 500;});},\
    {glyphname = B;layers = ({layerId = m1;shapes = ({pos = (0.00001,0.00001);ref = C;});\
    width = 500;});},\
    {glyphname = C;layers = ({layerId = m1;shapes = (\
    {nodes = ((0,0,l),(100,200,o),(3,-7,l));});width = 500;});});unitsPerEm = 1000;}";

/// Masters at 400 and 700. A has a layer at 550, which its bases B and C lack. D has one there,
/// which E lacks; F has one at 475.
const FAMILY: &str = "{.formatVersion = 3;axes = ({name = Weight;tag = wght;});familyName = Tri;\
    fontMaster = ({axesValues = (400);id = m1;},{axesValues = (700);id = m2;});glyphs = (\
    {glyphname = A;layers = (\
    {layerId = m1;shapes = ({pos = (100,0);ref = B;},{ref = C;},{ref = B;scale = (-1,1);});\
    width = 500;},\
    {layerId = m2;shapes = ({pos = (100,0);ref = B;},{ref = C;},{ref = B;scale = (-1,1);});\
    width = 500;},\
    {attr = {coordinates = (550);};layerId = x;shapes = ({pos = (100.5,0);ref = B;},{ref = C;},\
    {ref = B;scale = (-1,1);});width = 500;});},\
    {glyphname = B;layers = (\
    {layerId = m1;shapes = ({nodes = ((0,0,l),(500,0,l),(250,700,l));});width = 500;},\
    {layerId = m2;shapes = ({nodes = ((0,0,l),(500,0,l),(261,700,l));});width = 500;});},\
    {glyphname = C;layers = (\
    {layerId = m1;shapes = ({nodes = ((0,0,l),(300,0,l),(100,500,l));});width = 500;},\
    {layerId = m2;shapes = ({nodes = ((0,0,l),(300,0,l),(100,600,l));});width = 500;});},\
    {glyphname = D;layers = (\
    {layerId = m1;shapes = ({nodes = ((0,0,l),(500,0,l),(250,700,l));});width = 500;},\
    {layerId = m2;shapes = ({nodes = ((0,0,l),(500,0,l),(260,700,l));});width = 500;},\
    {attr = {coordinates = (550);};layerId = x;\
    shapes = ({nodes = ((0,0,l),(500,0,l),(258,700,l));});width = 500;});},\
    {glyphname = E;layers = ({layerId = m1;shapes = ({ref = D;});width = 500;},\
    {layerId = m2;shapes = ({ref = D;});width = 500;});},\
    {glyphname = F;layers = ({layerId = m1;shapes = ({ref = D;});width = 500;},\
    {layerId = m2;shapes = ({ref = D;});width = 500;},\
    {attr = {coordinates = (475);};layerId = x;shapes = ({ref = D;});width = 500;});});\
    unitsPerEm = 1000;}";

/// Components of a glyph without shapes, of one that isn't exported and of one that is, and two of
/// one base beside a path.
const KEPT: &str = "{.formatVersion = 3;familyName = Tri;fontMaster = ({id = m1;});glyphs = (\
    {glyphname = A;layers = ({layerId = m1;shapes = ({pos = (100,-5);ref = B;});width = 500;});},\
    {glyphname = B;layers = ({layerId = m1;shapes = ();width = 500;});},\
    {glyphname = C;layers = ({layerId = m1;shapes = ({pos = (100,0);ref = D;});width = 500;});},\
    {export = 0;glyphname = D;layers = ({layerId = m1;shapes = (\
    {nodes = ((0,0,l),(500,0,l),(250,700,l));});width = 500;});},\
    {glyphname = E;layers = ({layerId = m1;shapes = ({pos = (100,0);ref = F;});width = 500;});},\
    {glyphname = F;layers = ({layerId = m1;shapes = (\
    {nodes = ((0,0,l),(500,0,l),(250,700,l));});width = 500;});},\
    {glyphname = G;layers = ({layerId = m1;shapes = ({ref = F;},\
    {nodes = ((1,0,l),(2,0,l),(3,4,l));},{pos = (0,10);ref = F;});width = 500;});});\
    unitsPerEm = 1000;}";

/// Masters at 400 and 700, which share the anchor `top` alone.
const ANCHORS: &str = "{.formatVersion = 3;axes = ({name = Weight;tag = wght;});familyName = Tri;\
    fontMaster = ({axesValues = (400);id = m1;},{axesValues = (700);id = m2;});glyphs = (\
    {glyphname = A;layers = ({anchors = ({name = bottom;pos = (2,-3);},\
    {name = top;pos = (1,700);},{name = top;pos = (9,9);});layerId = m1;\
    shapes = ({ref = B;});width = 500;},\
    {anchors = ({name = top;pos = (5,710);},{name = ogonek;pos = (4,4);});layerId = m2;\
    shapes = ({ref = B;});width = 500;});},\
    {glyphname = B;layers = ({anchors = ({name = bottom;});layerId = m1;width = 500;},\
    {anchors = ({name = bottom;});layerId = m2;width = 500;});});unitsPerEm = 1000;}";

/// B and C have a coordinate of 16383 and one of 16383 and a 65536th. A scales by 2.
const FAR: &str = "{.formatVersion = 3;familyName = Tri;fontMaster = ({id = m1;});glyphs = (\
    {glyphname = A;layers = ({layerId = m1;shapes = ({ref = D;scale = (2,1);});width = 500;});},\
    {glyphname = B;layers = ({layerId = m1;shapes = ({pos = (1,0);ref = D;});width = 500;});},\
    {glyphname = C;layers = ({layerId = m1;shapes = ({pos = (1.00002,0);ref = D;});\
    width = 500;});},\
    {glyphname = D;layers = ({layerId = m1;shapes = ({nodes = ((16382,0,l));});width = 500;});});\
    unitsPerEm = 1000;}";

/// Four masters on two axes. The last delta of B is 4 times 16383. A has a layer that B lacks, and
/// scales by 2 in another; C has no such layer.
const LARGE: &str = "{.formatVersion = 3;\
    axes = ({name = Weight;tag = wght;},{name = Width;tag = wdth;});familyName = Tri;\
    fontMaster = ({axesValues = (400,400);id = m1;},{axesValues = (700,400);id = m2;},\
    {axesValues = (400,700);id = m3;},{axesValues = (700,700);id = m4;});glyphs = (\
    {glyphname = A;layers = ({layerId = m1;shapes = ({ref = B;scale = (2,1);});width = 500;},\
    {layerId = m2;shapes = ({ref = B;});width = 500;},\
    {layerId = m3;shapes = ({ref = B;});width = 500;},\
    {layerId = m4;shapes = ({ref = B;});width = 500;},\
    {attr = {coordinates = (550,400);};layerId = x;shapes = ({ref = B;});width = 500;});},\
    {glyphname = B;layers = ({layerId = m1;shapes = ({nodes = ((16383,0,l));});width = 500;},\
    {layerId = m2;shapes = ({nodes = ((-16383,0,l));});width = 500;},\
    {layerId = m3;shapes = ({nodes = ((-16383,0,l));});width = 500;},\
    {layerId = m4;shapes = ({nodes = ((16383,0,l));});width = 500;});},\
    {glyphname = C;layers = ({layerId = m1;shapes = ({ref = B;});width = 500;},\
    {layerId = m2;shapes = ({ref = B;});width = 500;},\
    {layerId = m3;shapes = ({ref = B;});width = 500;},\
    {layerId = m4;shapes = ({ref = B;});width = 500;});});unitsPerEm = 1000;}";

/// E has 8 points, D 80, C 800 and B 8000. A has one more, and scales by 2.
const MANY: &str = "{.formatVersion = 3;familyName = Tri;fontMaster = ({id = m1;});glyphs = (\
    {glyphname = A;layers = ({layerId = m1;shapes = ({ref = B;scale = (2,1);},\
    {nodes = ((0,0,l));});width = 500;});},\
    {glyphname = B;layers = ({layerId = m1;shapes = ({ref = C;},{ref = C;},{ref = C;},\
    {ref = C;},{ref = C;},{ref = C;},{ref = C;},{ref = C;},{ref = C;},{ref = C;});\
    width = 500;});},\
    {glyphname = C;layers = ({layerId = m1;shapes = ({ref = D;},{ref = D;},{ref = D;},\
    {ref = D;},{ref = D;},{ref = D;},{ref = D;},{ref = D;},{ref = D;},{ref = D;});\
    width = 500;});},\
    {glyphname = D;layers = ({layerId = m1;shapes = ({ref = E;},{ref = E;},{ref = E;},\
    {ref = E;},{ref = E;},{ref = E;},{ref = E;},{ref = E;},{ref = E;},{ref = E;});\
    width = 500;});},\
    {glyphname = E;layers = ({layerId = m1;shapes = ({nodes = ((0,0,l),(1,0,l),(2,0,l),(3,0,l),\
    (4,0,l),(5,0,l),(16383,0,l),(0,1,l));});width = 500;});});unitsPerEm = 1000;}";

/// How many axes there are.
fn axis_count(places: &[Location]) -> usize
    ensures { result ≡ axis_count places.now }
{
    match places {
        [first, ..] => first.len(),
        [] => 0,
    }
}

/// Whether glyphs have so many axes.
fn have_axes(glyphs: &[Arc<FlatGlyph>], count: usize) -> bool
    ensures { result ≡ list_all (λ glyph. axis_count (arc_value {X = AGlyph} glyph).places == count)
        glyphs.now }
{
    glyphs
        .iter()
        .all(|glyph| axis_count(glyph.places.as_slice()) == count)
}

/// Whether glyphs are of as many axes as these places.
fn are_bases(places: &[Location], glyphs: &[Arc<FlatGlyph>]) -> bool
    requires { All (λ glyph. IsFlatGlyph (arc_value glyph)) glyphs.now }
    ensures { IsTrue result → All (IsBase places.now) (glyphs_of glyphs.now) }
{
    have_axes(glyphs, axis_count(places))
}

/// The glyph of a source with this number, drawn with these bases. Other bases than it needs are
/// told as want of memory.
fn drawn(
    alloc: Global,
    tree: &Tree,
    index: &GlyphIndex,
    number: u32,
    bases: &[Arc<FlatGlyph>],
) -> Result<FlatGlyph, ReadError>
    requires tree { IsTree tree.now }
    requires index { index_of tree.now ≡ Ok index.now }
    requires number { number < length index.now }
    requires bases { All (λ base. IsFlatGlyph (arc_value base)) bases.now }
    ensures { IfOk result IsFlatGlyph }
{
    let header = header(alloc, tree)?;
    let glyph = raw_glyph(alloc, tree, &header, index, number)?;
    if component_count(&glyph) != bases.len() || !are_bases(glyph.places.as_slice(), bases) {
        return Err(ReadError::NoMemory);
    }
    flatten(alloc, &glyph, index, bases)
}

/// The glyph with this place in a list.
fn chosen_at(glyphs: &[Arc<FlatGlyph>], place: usize) -> Result<Arc<FlatGlyph>, ReadError>
    requires { All (λ glyph. IsFlatGlyph (arc_value glyph)) glyphs.now }
    ensures { IfOk result (λ glyph. IsFlatGlyph (arc_value glyph)) }
{
    match glyphs.get(place) {
        Some(glyph) => Ok(Arc::try_clone(glyph)?),
        None => Err(ReadError::NoMemory),
    }
}

/// The glyphs with these places in a list.
fn chosen(
    alloc: Global,
    glyphs: &[Arc<FlatGlyph>],
    places: &[usize],
) -> Result<Vec<Arc<FlatGlyph>>, ReadError>
    requires { All (λ glyph. IsFlatGlyph (arc_value glyph)) glyphs.now }
    ensures { IfOk result (λ chosen. All (λ glyph. IsFlatGlyph (arc_value glyph)) chosen.items) }
{
    let mut chosen = Vec::with_capacity(alloc, places.len())?;
    for place in places {
        let glyph = chosen_at(glyphs, *place)?;
        chosen.push(glyph)?;
    }
    Ok(chosen)
}

/// The glyph of a source with this number, drawn with the bases that have these places among those
/// drawn before it.
fn drawn_behind(
    alloc: Global,
    tree: &Tree,
    index: &GlyphIndex,
    glyph: (u32, &[usize]),
    before: &[Arc<FlatGlyph>],
) -> Result<Arc<FlatGlyph>, ReadError>
    requires tree { IsTree tree.now }
    requires index { index_of tree.now ≡ Ok index.now }
    requires before { All (λ glyph. IsFlatGlyph (arc_value glyph)) before.now }
    ensures { IfOk result (λ glyph. IsFlatGlyph (arc_value glyph)) }
{
    let (number, places) = glyph;
    if number as usize >= index.len() {
        return Err(ReadError::NoMemory);
    }
    let bases = chosen(alloc, before, places)?;
    let flat = drawn(alloc, tree, index, number, bases.as_slice())?;
    Ok(Arc::new(alloc, flat)?)
}

/// Glyphs of a source, drawn one after the other: each is told by its number, with the places of its
/// bases among those drawn before it.
fn drawn_in_order(
    alloc: Global,
    source: &str,
    glyphs: &[(u32, &[usize])],
) -> Result<Vec<Arc<FlatGlyph>>, ReadError> {
    if source.len() > 67_108_864 {
        return Err(ReadError::NoMemory);
    }
    let tree = read(alloc, source.as_bytes())?;
    let index = glyph_index(alloc, &tree)?;
    drawn_each(alloc, &tree, &index, glyphs)
}

fn drawn_each(
    alloc: Global,
    tree: &Tree,
    index: &GlyphIndex,
    glyphs: &[(u32, &[usize])],
) -> Result<Vec<Arc<FlatGlyph>>, ReadError>
    requires tree { IsTree tree.now }
    requires index { index_of tree.now ≡ Ok index.now }
{
    let mut drawn = Vec::with_capacity(alloc, glyphs.len())?;
    for glyph in glyphs {
        let flat = drawn_behind(alloc, tree, index, *glyph, drawn.as_slice())?;
        drawn.push(flat)?;
    }
    Ok(drawn)
}

/// Whether a glyph has these contours of three points at its place with this number.
fn draws(glyph: &FlatGlyph, place: usize, wanted: &[[(i32, i32, bool); 3]]) -> bool {
    match glyph.drawn.as_slice().get(place) {
        Some(contours) => are_contours(contours.as_slice(), wanted),
        None => false,
    }
}

fn are_contours(contours: &[Contour], wanted: &[[(i32, i32, bool); 3]]) -> bool {
    if contours.len() != wanted.len() {
        return false;
    }
    for (i, contour) in contours.iter().enumerate() {
        if !are_points(contour.points.as_slice(), wanted[i].as_slice()) {
            return false;
        }
    }
    true
}

/// Whether a glyph at one place keeps one component, of this base, moved by this offset.
fn keeps(glyph: &FlatGlyph, base: &str, offset: (i16, i16)) -> bool {
    match glyph.kept.as_slice() {
        [kept] => kept.base.as_str() == base && kept.at.as_slice() == [offset].as_slice(),
        _ => false,
    }
}

#[test]
fn a_component_is_scaled_then_turned_then_moved(rt: HostRuntime) -> Result<(), Fail> {
    let order = [(1, [].as_slice()), (0, [0, 0, 0].as_slice())];
    let glyphs = drawn_in_order(rt.alloc(), TURNED, order.as_slice())?;
    let turned = [
        [
            (-245760, -98304, true),
            (671744, -196608, true),
            (26886144, 3080192, false),
        ],
        [
            (1589248, -294912, true),
            (671744, -196608, true),
            (-25542656, -3473408, false),
        ],
        [
            (770048, 720896, true),
            (671744, -196608, true),
            (3948544, -26411008, false),
        ],
    ];
    assert!(rt; glyphs.len() == 2 && draws(&glyphs[1], 0, turned.as_slice()));
    Ok(())
}

#[test]
fn each_product_is_rounded_half_up(rt: HostRuntime) -> Result<(), Fail> {
    let order = [(2, [].as_slice()), (1, [0].as_slice()), (0, [1].as_slice())];
    let glyphs = drawn_in_order(rt.alloc(), ROUNDED, order.as_slice())?;
    let rounded = [[
        (98305, 229376, true),
        (1, 0, true),
        (3276801, -6553600, false),
    ]];
    assert!(rt; glyphs.len() == 3 && draws(&glyphs[2], 0, rounded.as_slice()));
    Ok(())
}

/// Whether a glyph draws B, C and B turned over, where these are the tops of the first, of the
/// second and of the third, with the first moved by so much.
fn draws_three(glyph: &FlatGlyph, place: usize, moved: i32, tops: (i32, i32, i32)) -> bool
    requires low { pos 0 ≤ℤ moved }
    requires high { moved ≤ℤ pos 65536000 }
{
    let contours = [
        [
            (tops.0, 45875200, true),
            (moved, 0, true),
            (moved + 32768000, 0, true),
        ],
        [(6553600, tops.1, true), (0, 0, true), (19660800, 0, true)],
        [(tops.2, 45875200, true), (0, 0, true), (-32768000, 0, true)],
    ];
    draws(glyph, place, contours.as_slice())
}

#[test]
fn bases_that_lack_a_location_are_interpolated(rt: HostRuntime) -> Result<(), Fail> {
    let order = [
        (1, [].as_slice()),
        (2, [].as_slice()),
        (0, [0, 1, 0].as_slice()),
    ];
    let glyphs = drawn_in_order(rt.alloc(), FAMILY, order.as_slice())?;
    assert!(rt;
        glyphs.len() == 3
            && draws_three(&glyphs[2], 0, 6553600, (22937600, 32768000, -16384000))
            && draws_three(&glyphs[2], 1, 6553600, (23658496, 39321600, -17104896))
            && draws_three(&glyphs[2], 2, 6586368, (23330816, 36044800, -16744448))
    );
    Ok(())
}

/// Whether a glyph draws the triangle with this top at a place.
fn draws_triangle(glyph: &FlatGlyph, place: usize, top: i32) -> bool {
    let contours = [[(top, 45875200, true), (0, 0, true), (32768000, 0, true)]];
    draws(glyph, place, contours.as_slice())
}

#[test]
fn a_base_is_interpolated_by_all_its_own_layers(rt: HostRuntime) -> Result<(), Fail> {
    let order = [(3, [].as_slice()), (4, [0].as_slice()), (5, [0].as_slice())];
    let glyphs = drawn_in_order(rt.alloc(), FAMILY, order.as_slice())?;
    assert!(rt;
        glyphs.len() == 3
            && glyphs[1].drawn.len() == 2
            && draws_triangle(&glyphs[1], 0, 16384000)
            && draws_triangle(&glyphs[1], 1, 17039360)
            && draws_triangle(&glyphs[2], 2, 16646144)
    );
    Ok(())
}

#[test]
fn only_components_of_exported_bases_are_kept(rt: HostRuntime) -> Result<(), Fail> {
    let order = [
        (1, [].as_slice()),
        (0, [0].as_slice()),
        (3, [].as_slice()),
        (2, [2].as_slice()),
        (5, [].as_slice()),
        (4, [4].as_slice()),
        (6, [4, 4].as_slice()),
    ];
    let glyphs = drawn_in_order(rt.alloc(), KEPT, order.as_slice())?;
    let moved = [[
        (22937600, 45875200, true),
        (6553600, 0, true),
        (39321600, 0, true),
    ]];
    let beside = [
        [
            (16384000, 45875200, true),
            (0, 0, true),
            (32768000, 0, true),
        ],
        [(196608, 262144, true), (65536, 0, true), (131072, 0, true)],
        [
            (16384000, 46530560, true),
            (0, 655360, true),
            (32768000, 655360, true),
        ],
    ];
    assert!(rt;
        glyphs.len() == 7
            && keeps(&glyphs[1], "B", (100, -5))
            && draws(&glyphs[1], 0, [].as_slice())
            && glyphs[3].kept.is_empty()
            && draws(&glyphs[3], 0, moved.as_slice())
            && keeps(&glyphs[5], "F", (100, 0))
            && draws(&glyphs[5], 0, moved.as_slice())
            && glyphs[6].kept.is_empty()
            && draws(&glyphs[6], 0, beside.as_slice())
    );
    Ok(())
}

/// Whether a glyph has one anchor, `top`, at these positions.
fn has_top(glyph: &FlatGlyph, positions: &[(i16, i16)]) -> bool {
    match glyph.anchors.as_slice() {
        [(name, at)] => name.as_str() == "top" && at.as_slice() == positions,
        _ => false,
    }
}

#[test]
fn an_anchor_is_one_that_every_master_has(rt: HostRuntime) -> Result<(), Fail> {
    let order = [(1, [].as_slice()), (0, [0].as_slice())];
    let glyphs = drawn_in_order(rt.alloc(), ANCHORS, order.as_slice())?;
    let positions = [(1, 700), (5, 710)];
    assert!(rt; glyphs.len() == 2 && has_top(&glyphs[1], positions.as_slice()));
    Ok(())
}

/// What the console shows of the first refusal of glyphs that are drawn in this order, nothing
/// where all are drawn.
fn told(alloc: Global, source: &str, order: &[(u32, &[usize])]) -> Result<String, Fail> {
    match drawn_in_order(alloc, source, order) {
        Ok(_) => Ok(String::new(alloc)),
        Err(ReadError::Refused(refusal)) => Ok(refusal.text(alloc)?),
        Err(ReadError::NoMemory) => Err("no memory".into()),
    }
}

#[test]
fn coordinates_beyond_16383_are_refused(rt: HostRuntime) -> Result<(), Fail> {
    for (number, expected) in [
        (0, "G8 CoordinateTooLarge Flat A at 73"),
        (1, ""),
        (2, "G8 CoordinateTooLarge Flat C at 255"),
    ] {
        let order = [(3, [].as_slice()), (number, [0].as_slice())];
        assert!(rt; told(rt.alloc(), FAR, order.as_slice())?.as_str() == expected);
    }
    Ok(())
}

#[test]
fn the_rules_of_what_is_drawn_are_told_in_order(rt: HostRuntime) -> Result<(), Fail> {
    let large = [(1, [].as_slice()), (2, [0].as_slice()), (0, [0].as_slice())];
    let delta = told(rt.alloc(), LARGE, large.as_slice())?;
    assert!(rt; delta.as_str() == "G9 DeltaTooLarge Flat A at 262");
    let many = [
        (4, [].as_slice()),
        (3, [0; 10].as_slice()),
        (2, [1; 10].as_slice()),
        (1, [2; 10].as_slice()),
        (0, [3].as_slice()),
    ];
    let points = told(rt.alloc(), MANY, many.as_slice())?;
    assert!(rt; points.as_str() == "G10 TooManyPoints Flat A at 73");
    Ok(())
}
