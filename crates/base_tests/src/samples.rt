use sample_maker::sample;
use std::test::Fail;

/// The sample of one glyph with the seed 7.
const ONE_GLYPH: &str =
    "{\n.formatVersion = 3;\naxes = ({name = Weight;tag = wght;});\nfamilyName = Sample;\nfontMaster = ({axesValues = (400);id = m1;},{axesValues = (700);id = m2;});\nglyphs = (\n{glyphname = g00000;layers = ({layerId = m1;shapes = ({nodes = ((266,140,l),(666,140,l),(666,223,l),(266,223,l));});width = 680;},{layerId = m2;shapes = ({nodes = ((266,140,l),(670,140,l),(670,240,l),(266,240,l));});width = 687;});unicode = 57344;}\n);\nunitsPerEm = 1000;\n}\n";

/// A component, a glyph that isn't exported, and the last line of the sample of forty glyphs.
const COMPONENT: &str =
    "\n{glyphname = g00003;layers = ({layerId = m1;shapes = ({pos = (199,4);ref = g00002;});width = 672;},{layerId = m2;shapes = ({pos = (105,78);ref = g00002;});width = 708;});unicode = 57347;},\n";

const KEPT_BACK: &str =
    "\n{glyphname = g00015;export = 0;layers = ({layerId = m1;shapes = ({pos = (63,189);ref = g00014;});width = 657;},{layerId = m2;shapes = ({pos = (181,62);ref = g00014;});width = 660;});},\n";

const LAST: &str =
    "\n{glyphname = g00039;export = 0;layers = ({layerId = m1;shapes = ({nodes = ((381,344,l),(667,344,l),(667,402,l),(381,402,l));});width = 674;},{layerId = m2;shapes = ({nodes = ((381,344,l),(673,344,l),(673,434,l),(381,434,l));});width = 687;});}\n);\nunitsPerEm = 1000;\n}\n";

/// Whether a text holds another.
fn has(text: &[u8], part: &[u8]) -> bool {
    text.windows(part.len().max(1)).any(|window| window == part)
}

#[test]
fn samples_are_written_as_they_are_drawn(rt: HostRuntime) -> Result<(), Fail> {
    let one = sample(rt.alloc(), 7, 1)?;
    assert!(rt; one.as_slice() == ONE_GLYPH.as_bytes());
    let forty = sample(rt.alloc(), 7, 40)?;
    let text = forty.as_slice();
    assert!(rt; text.len() == 9459);
    assert!(rt; has(text, COMPONENT.as_bytes()) && has(text, KEPT_BACK.as_bytes()));
    assert!(rt; text.ends_with(LAST.as_bytes()));
    Ok(())
}
