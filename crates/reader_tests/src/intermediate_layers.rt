use font_ir::GlyphIr;
use glyphs_layers::raw_glyph;
use glyphs_source::{glyph_index, header};
use plist_reader::read;
use refusal_codes::ReadError;
use std::alloc::{AllocError, Global};
use std::test::Fail;

/// A font of one axis with masters at 400 and 700, up to the layers of its one glyph, and the rest.
const HEAD: &str = "{.formatVersion = 3;axes = ({name = Weight;tag = wght;});familyName = Tri;\
    fontMaster = ({axesValues = (400);id = m1;},{axesValues = (700);id = m2;});\
    glyphs = ({glyphname = A;layers = (";

const TAIL: &str = ");unicode = 65;});unitsPerEm = 1000;}";

/// A triangle at each master.
const FIRST: &str =
    "{layerId = m1;shapes = ({closed = 1;nodes = ((0,0,l),(500,0,l),(250,700,l));});\
    width = 500;}";

const SECOND: &str =
    "{layerId = m2;shapes = ({closed = 1;nodes = ((0,0,l),(500,0,l),(260,700,l));});\
    width = 520;}";

/// An intermediate layer of the triangle at these coordinates.
fn between(alloc: Global, coordinates: &str) -> Result<String, AllocError> {
    format!(in alloc;
        "{{attr = {{coordinates = {coordinates};}};layerId = x;\
        shapes = ({{closed = 1;nodes = ((0,0,l),(500,0,l),(258,700,l));}});width = 512;}}"
    )
}

/// The glyph of a source with these layers.
fn glyph_of(alloc: Global, layers: &str) -> Result<GlyphIr, ReadError> {
    let source = format!(in alloc; "{HEAD}{layers}{TAIL}")?;
    if source.len() > 67_108_864 {
        return Err(ReadError::NoMemory);
    }
    let tree = read(alloc, source.as_bytes())?;
    let header = header(alloc, &tree)?;
    let index = glyph_index(alloc, &tree)?;
    if index.is_empty() {
        return Err(ReadError::NoMemory);
    }
    raw_glyph(alloc, &tree, &header, &index, 0)
}

/// What the console shows of the refusal of a glyph with these layers, nothing where it is read.
fn told(alloc: Global, layers: &str) -> Result<String, Fail> {
    match glyph_of(alloc, layers) {
        Ok(_) => Ok(String::new(alloc)),
        Err(ReadError::Refused(refusal)) => Ok(refusal.text(alloc)?),
        Err(ReadError::NoMemory) => Err("no memory".into()),
    }
}

/// Whether a glyph has these widths at its places, on an axis these numbers in 2.14.
fn has_places(glyph: &GlyphIr, expected: &[(i16, i32)]) -> bool {
    let (places, layers) = (glyph.places.as_slice(), glyph.layers.as_slice());
    if places.len() != expected.len() || layers.len() != expected.len() {
        return false;
    }
    for (i, (number, width)) in expected.iter().enumerate() {
        let place = places[i].as_slice();
        if place.len() != 1 || place[0].0 != *number || layers[i].width != *width {
            return false;
        }
    }
    true
}

#[test]
fn layers_lie_at_the_masters_and_between_them(rt: HostRuntime) -> Result<(), Fail> {
    let alloc = rt.alloc();
    let glyph = glyph_of(alloc, format!(in alloc; "{FIRST},{SECOND}")?.as_str())?;
    assert!(rt; glyph.masters == 2 && has_places(&glyph, [(0, 500), (16384, 520)].as_slice()));
    let between = between(alloc, "(550)")?;
    let layers = format!(in alloc; "{between},{SECOND},{FIRST}")?;
    let glyph = glyph_of(alloc, layers.as_str())?;
    let expected = [(0, 500), (16384, 520), (8192, 512)];
    assert!(rt; glyph.masters == 2 && has_places(&glyph, expected.as_slice()));
    Ok(())
}

#[test]
fn places_between_masters_are_refused_at_their_layers(rt: HostRuntime) -> Result<(), Fail> {
    let alloc = rt.alloc();
    let rows = [
        ("(550)", ""),
        ("(400)", "G14 SameLayerPlace Raw A at 370"),
        ("(800)", "G13 LayerPlace Raw A at 393"),
        ("(550,1)", "G13 LayerPlace Raw A at 393"),
        ("()", "G13 LayerPlace Raw A at 393"),
        ("5", "S1 WrongShape Raw A at 393"),
        ("(x)", "S1 WrongShape Raw A at 394"),
        ("(32768)", "S5 OutOfRange Raw A at 394"),
    ];
    for (coordinates, expected) in rows {
        let between = between(alloc, coordinates)?;
        let layers = format!(in alloc; "{FIRST},{SECOND},{between}")?;
        assert!(rt; told(alloc, layers.as_str())?.as_str() == expected);
    }
    Ok(())
}

/// A layer of a master with these shapes.
fn masters_layer(alloc: Global, id: &str, shapes: &str) -> Result<String, AllocError> {
    format!(in alloc; "{{layerId = {id};shapes = ({shapes});width = 500;}}")
}

#[test]
fn each_rule_on_layers_is_told_at_its_place(rt: HostRuntime) -> Result<(), Fail> {
    let alloc = rt.alloc();
    let off = "{layerId = m2;shapes = ({closed = 1;nodes = ((0,0,l),(500,0,o),(260,700,l));});\
        width = 520;}";
    let unknown = masters_layer(alloc, "m1", "{ref = B;}")?;
    let component = masters_layer(alloc, "m2", "{ref = B;}")?;
    let known = masters_layer(alloc, "m1", "{ref = A;}")?;
    let other = masters_layer(alloc, "m2", "{ref = A;pos = (10.5,0);}")?;
    let short = "{attr = {coordinates = (550);};layerId = x;\
        shapes = ({closed = 1;nodes = ((0,0,l),(258,700,l));});width = 512;}";
    let free = "{anchors = 5;attr = {coordinates = (550);};shapes = ({nodes = ((0,0,l),(500,0,l),\
        (250,700,l));});width = 512;}";
    let ruled = "{attr = {axisRules = ();coordinates = 5;};layerId = y;}";
    let again = "{attr = {coordinates = 5;};layerId = m1;}";
    let rows = [
        (SECOND, off, "G1 MissingLayer Raw A at 159"),
        (FIRST, off, "G4 Incompatible Raw A at 277"),
        (
            unknown.as_str(),
            component.as_str(),
            "G5 UnknownComponent Raw A at 208",
        ),
        (known.as_str(), other.as_str(), ""),
        (FIRST, component.as_str(), "G4 Incompatible Raw A at 277"),
    ];
    for (first, second, expected) in rows {
        let layers = format!(in alloc; "{first},{second}")?;
        assert!(rt; told(alloc, layers.as_str())?.as_str() == expected);
    }
    for (third, expected) in [
        (short, "G4 Incompatible Raw A at 370"),
        (free, ""),
        (ruled, ""),
        (again, "S2 MissingKey Raw A at 370"),
    ] {
        let layers = format!(in alloc; "{FIRST},{SECOND},{third}")?;
        assert!(rt; told(alloc, layers.as_str())?.as_str() == expected);
    }
    Ok(())
}

/// The shapes of a first layer, each of which fails a local rule.
#[test]
fn each_local_rule_of_a_glyph_is_told_at_its_place(rt: HostRuntime) -> Result<(), Fail> {
    let alloc = rt.alloc();
    for (shapes, expected) in [
        ("A", "S1 WrongShape Raw A at 208"),
        ("{nodes = ((0,0));}", "S1 WrongShape Raw A at 218"),
        ("{closed = 1;}", "S2 MissingKey Raw A at 208"),
        ("{nodes = ((0,0.5,l));}", "S4 NotWhole Raw A at 221"),
        ("{ref = A;scale = (16.5,1);}", "S5 OutOfRange Raw A at 226"),
        ("{nodes = ((0,0,c));}", "G2 CubicNode Raw A at 218"),
        ("{nodes = ((0,0,cs));}", "G2 CubicNode Raw A at 218"),
        (
            "{closed = 0;nodes = ((0,0,l));}",
            "G3 OpenContour Raw A at 208",
        ),
        (
            "{angle = 45;ref = A;}",
            "G7 UnsupportedTransform Raw A at 208",
        ),
        (
            "{ref = A;slant = (0,0.5);}",
            "G7 UnsupportedTransform Raw A at 208",
        ),
        (
            "{piece = {};ref = A;}",
            "G7 UnsupportedTransform Raw A at 208",
        ),
        (
            "{nodes = ((16384,0,l));}",
            "G8 CoordinateTooLarge Raw A at 219",
        ),
        (
            "{pos = (0,-16383.5);ref = A;}",
            "G8 CoordinateTooLarge Raw A at 218",
        ),
    ] {
        let layer = masters_layer(alloc, "m1", shapes)?;
        assert!(rt; told(alloc, layer.as_str())?.as_str() == expected);
    }
    Ok(())
}

/// Layers, and behind them so many intermediate ones, at 401 and on.
fn many_layers(alloc: Global, before: &str, count: u32) -> Result<String, AllocError> {
    let mut layers = String::from_str(alloc, before)?;
    for i in 0..count {
        let between = between(alloc, format!(in alloc; "({})", 401 + i % 200)?.as_str())?;
        write!(&mut layers, ",{between}")?;
    }
    Ok(layers)
}

/// A layer of a master with so many components of this glyph.
fn many_components(alloc: Global, id: &str, base: &str, count: u32) -> Result<String, AllocError> {
    let mut shapes = String::new(alloc);
    for _ in 0..count {
        write!(&mut shapes, "{{ref = {base};}},")?;
    }
    masters_layer(alloc, id, shapes.as_str())
}

#[test]
fn a_glyph_has_at_most_64_layers_and_a_layer_256_components(rt: HostRuntime) -> Result<(), Fail> {
    let alloc = rt.alloc();
    let masters = format!(in alloc; "{FIRST},{SECOND}")?;
    for (count, expected) in [(62, ""), (63, "G15 TooManyLayers Raw A at 159")] {
        let layers = many_layers(alloc, masters.as_str(), count)?;
        assert!(rt; told(alloc, layers.as_str())?.as_str() == expected);
    }
    for (base, count, expected) in [
        ("A", 256, ""),
        ("A", 257, "G11 TooManyComponents Raw A at 184"),
        ("B", 257, "G5 UnknownComponent Raw A at 208"),
    ] {
        let first = many_components(alloc, "m1", base, count)?;
        let second = many_components(alloc, "m2", base, count)?;
        let layers = format!(in alloc; "{first},{second}")?;
        assert!(rt; told(alloc, layers.as_str())?.as_str() == expected);
    }
    Ok(())
}

#[test]
fn of_two_whole_rules_of_a_glyph_the_first_is_told(rt: HostRuntime) -> Result<(), Fail> {
    let alloc = rt.alloc();
    let beyond = between(alloc, "(800)")?;
    let again = between(alloc, "(400)")?;
    let short = "{attr = {coordinates = (550);};layerId = x;\
        shapes = ({closed = 1;nodes = ((0,0,l),(258,700,l));});width = 512;}";
    let unknown = masters_layer(alloc, "m1", "{ref = B;}")?;
    for (layers, expected) in [
        (
            format!(in alloc; "{FIRST},{beyond}")?,
            "G1 MissingLayer Raw A at 159",
        ),
        (
            format!(in alloc; "{FIRST},{SECOND},{again},{beyond}")?,
            "G13 LayerPlace Raw A at 515",
        ),
        (
            many_layers(
                alloc,
                format!(in alloc; "{FIRST},{SECOND},{again}")?.as_str(),
                62,
            )?,
            "G14 SameLayerPlace Raw A at 370",
        ),
        (
            many_layers(
                alloc,
                format!(in alloc; "{FIRST},{SECOND},{short}")?.as_str(),
                62,
            )?,
            "G15 TooManyLayers Raw A at 159",
        ),
        (
            format!(in alloc; "{unknown},{SECOND}")?,
            "G4 Incompatible Raw A at 234",
        ),
    ] {
        assert!(rt; told(alloc, layers.as_str())?.as_str() == expected);
    }
    Ok(())
}
