use fixtures::cubic_source;
use font_plan::{compile_one, source_too_large};
use refusal_codes::{CompileError, Refusal, Rule};
use std::alloc::Global;
use std::test::Fail;

/// The triangle with a glyph that isn't exported and a `.notdef` of 600 units behind it.
const THREE_GLYPHS: &[u8] = b"{
.formatVersion = 3;
familyName = Tri;
fontMaster = (
{
id = m1;
}
);
glyphs = (
{
glyphname = A;
layers = (
{
layerId = m1;
shapes = (
{
closed = 1;
nodes = (
(0,0,l),
(500,0,l),
(250,700,l)
);
}
);
width = 500;
}
);
unicode = 65;
},
{
export = 0;
glyphname = B;
layers = (
{
layerId = m1;
width = 900;
}
);
},
{
glyphname = .notdef;
layers = (
{
layerId = m1;
width = 600;
}
);
}
);
unitsPerEm = 1000;
}
";

#[test]
fn notdef_is_the_first_glyph_and_hidden_ones_are_none(rt: HostRuntime) -> Result<(), Fail> {
    let built = compile_one(rt.alloc(), THREE_GLYPHS)?;
    let font = built.font.as_slice();
    assert!(rt; font.len() == 728);
    // The table "hmtx" has two glyphs, of 600 and of 500 units; then come "loca", and "maxp", which
    // counts two.
    let expected = hex::decode(
        rt.alloc(),
        "0258000001f40000\
        00000000000000000000001c\
        000100000002",
    )?;
    assert!(rt; &font[432..458] == expected.as_slice());
    Ok(())
}

/// The refusal of a source, where it has one and isn't too long.
fn refusal_of(alloc: Global, source: &[u8]) -> Option<Refusal> {
    if source.len() > 67_108_864 {
        return None;
    }
    match compile_one(alloc, source) {
        Err(CompileError::Refused(refusal)) => Some(refusal),
        _ => None,
    }
}

/// Whether a refusal is of this stratum, kind and name, and of this rule at this place.
pub fn is_told(refusal: &Refusal, job: (u8, u8, &str), rule: Rule, place: u64) -> bool {
    (refusal.stratum, refusal.kind, refusal.name.as_str()) == job
        && refusal.rule == rule
        && refusal.place == place
}

#[test]
fn a_refusal_tells_its_job_its_rule_and_its_place(rt: HostRuntime) -> Result<(), Fail> {
    let cubic = cubic_source(rt.alloc())?;
    let refusal = refusal_of(rt.alloc(), cubic.as_slice()).ok_or("no refusal")?;
    assert!(rt; is_told(&refusal, (1, 3, "A"), Rule::CubicNode, 181));
    let refusal = source_too_large(rt.alloc());
    assert!(rt; is_told(&refusal, (0, 0, ""), Rule::TooLarge, 67_108_864));
    Ok(())
}
