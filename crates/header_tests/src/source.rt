ghost use Rattle.std.specs.Prelude.{IfOk};
ghost use Rattle.plist_reader.specs.Tree.{IsTree};

use font_ir::Header;
use glyphs_source::{glyph_index, header};
use plist_reader::{Tree, read};
use refusal_codes::ReadError;
use std::alloc::Global;
use std::test::Fail;

/// A source of two glyphs without layers.
const TWO_GLYPHS: &[u8] = b"{
.formatVersion = 3;
familyName = Tri;
fontMaster = (
{
id = m1;
}
);
glyphs = (
{
glyphname = A;
unicode = (65,97);
},
{
glyphname = B;
export = 0;
kernLeft = A;
}
);
unitsPerEm = 1000;
}
";

fn two_glyphs(rt: &HostRuntime) -> Result<Tree, ReadError>
    ensures { IfOk result IsTree }
{
    read(rt.alloc(), TWO_GLYPHS)
}

/// Whether a header has what the format gives a source that says nothing of it.
fn has_defaults(header: &Header) -> bool {
    match header.masters.as_slice() {
        [master] => {
            (header.major, header.minor) == (1, 0)
                && master.id.as_str() == "m1"
                && (master.ascender, master.descender) == (800, -200)
        }
        _ => false,
    }
}

#[test]
fn a_header_has_the_defaults_of_the_format(rt: HostRuntime) -> Result<(), Fail> {
    let tree = two_glyphs(&rt)?;
    let header = header(rt.alloc(), &tree)?;
    assert!(rt; header.upem == 1000 && header.family.as_str() == "Tri" && has_defaults(&header));
    Ok(())
}

#[test]
fn an_index_finds_glyphs_by_name_and_by_number(rt: HostRuntime) -> Result<(), Fail> {
    let tree = two_glyphs(&rt)?;
    let index = glyph_index(rt.alloc(), &tree)?;
    assert!(rt; index.len() == 2 && !index.is_empty());
    let (name, entry) = index.at(1).ok_or("no second glyph")?;
    assert!(rt; name.as_str() == "B" && !entry.exported);
    let (name, _) = index.at(0).ok_or("no first glyph")?;
    let entry = index.get(name).ok_or("A is missing")?;
    assert!(rt; entry.exported && entry.codes.as_slice() == [65, 97].as_slice());
    Ok(())
}

#[test]
fn indexes_are_equal_where_their_glyphs_and_their_order_are(rt: HostRuntime) -> Result<(), Fail> {
    let tree = read(
        rt.alloc(),
        b"{glyphs=({glyphname=A;unicode=65;},{glyphname=B;});}",
    )?;
    let index = glyph_index(rt.alloc(), &tree)?;
    let again = read(
        rt.alloc(),
        b"{ glyphs = ({glyphname=\"A\";unicode=065;}, {glyphname=B;}); }",
    )?;
    assert!(rt; index == glyph_index(rt.alloc(), &again)?);
    for other in [
        b"{glyphs=({glyphname=B;},{glyphname=A;unicode=65;});}".as_slice(),
        b"{glyphs=({glyphname=A;unicode=66;},{glyphname=B;});}".as_slice(),
        b"{glyphs=({glyphname=A;unicode=65;},{glyphname=C;});}".as_slice(),
        b"{glyphs=({glyphname=A;unicode=65;});}".as_slice(),
    ] {
        assert!(rt; other.len() < 100);
        let other = read(rt.alloc(), other)?;
        assert!(rt; index != glyph_index(rt.alloc(), &other)?);
    }
    Ok(())
}

/// What the console shows of the refusal of a source's header; nothing where it is read.
pub fn told(alloc: Global, source: &str) -> Result<String, Fail> {
    if source.len() > 67_108_864 {
        return Err("a source that is too long".into());
    }
    let tree = read(alloc, source.as_bytes())?;
    match header(alloc, &tree) {
        Ok(_) => Ok(String::new(alloc)),
        Err(error) => line_of(alloc, &error),
    }
}

/// The same of its index.
fn told_of_index(alloc: Global, source: &str) -> Result<String, Fail> {
    if source.len() > 67_108_864 {
        return Err("a source that is too long".into());
    }
    let tree = read(alloc, source.as_bytes())?;
    match glyph_index(alloc, &tree) {
        Ok(_) => Ok(String::new(alloc)),
        Err(error) => line_of(alloc, &error),
    }
}

fn line_of(alloc: Global, error: &ReadError) -> Result<String, Fail> {
    match error {
        ReadError::Refused(refusal) => Ok(refusal.text(alloc)?),
        ReadError::NoMemory => Err("no memory".into()),
    }
}

#[test]
fn each_rule_of_an_index_is_told_at_its_place(rt: HostRuntime) -> Result<(), Fail> {
    for (source, expected) in [
        ("{glyphs=A;}", "S1 WrongShape Index at 8"),
        ("{glyphs=({export=1;});}", "S2 MissingKey Index at 9"),
        (
            "{glyphs=({glyphname=A;export=0.5;});}",
            "S4 NotWhole Index at 29",
        ),
        (
            "{glyphs=({glyphname=A;unicode=65535;});}",
            "S5 OutOfRange Index at 30",
        ),
        (
            "{glyphs=({glyphname=A;unicode=65;},{glyphname=A;unicode=65;});}",
            "S12 DuplicateGlyph Index at 35",
        ),
        (
            "{glyphs=({glyphname=A;unicode=65;},{glyphname=B;unicode=(66,65);});}",
            "G12 DuplicateUnicode Index at 35",
        ),
        ("{}", ""),
    ] {
        assert!(rt; told_of_index(rt.alloc(), source)?.as_str() == expected);
    }
    Ok(())
}
