use fixtures::SOURCE;
use plist_reader::{Tree, ValueRef, read};
use refusal_codes::{ReadError, Rule};
use std::alloc::{AllocError, Global};
use std::test::Fail;

/// A list of a string with a surrogate pair, a line feed and an octal escape, and of a byte string.
const ESCAPES: &[u8] = b"(\"\\Ud83d\\Ude00\\n\\101\",<0aF f>,\n)";

/// The rule and the place of the refusal; `None` where there is a tree. Want of memory is no
/// answer.
fn refused(alloc: Global, source: &[u8]) -> Result<Option<(Rule, u64)>, Fail> {
    if source.len() > 67_108_864 {
        return Err("a source that is too long".into());
    }
    match read(alloc, source) {
        Ok(_) => Ok(None),
        Err(ReadError::Refused(refusal)) => Ok(Some((refusal.rule, refusal.place))),
        Err(ReadError::NoMemory) => Err("no memory".into()),
    }
}

/// A dictionary of this many keys.
fn many_keys(alloc: Global, count: u32) -> Result<String, AllocError> {
    let mut text = String::new(alloc);
    text.push('{')?;
    for i in 0..count {
        write!(&mut text, "k{i}=v;")?;
    }
    text.push('}')?;
    Ok(text)
}

/// Whether a tree has this value under this number, between these places.
fn has_node(tree: &Tree, number: u32, places: (u64, u64), value: ValueRef) -> bool {
    match tree.nodes.get(number) {
        Some(node) => (node.place, node.end) == places && node.value == value,
        None => false,
    }
}

/// Whether a tree has this text under this key of its dictionary.
fn has_text(tree: &Tree, key: &[u8], text: &str) -> bool {
    match tree.find(tree.top, key) {
        Some(number) => match tree.nodes.get(number) {
            Some(node) => node.value == ValueRef::Text(text),
            None => false,
        },
        None => false,
    }
}

#[test]
fn values_are_found_by_their_keys(rt: HostRuntime) -> Result<(), Fail> {
    let tree = read(rt.alloc(), SOURCE)?;
    assert!(rt; has_text(&tree, b"unitsPerEm", "1000") && tree.find(tree.top, b"glyph").is_none());
    let glyphs = tree.find(tree.top, b"glyphs").ok_or("no glyphs")?;
    let node = tree.nodes.get(glyphs).ok_or("no node")?;
    assert!(rt; (node.place, node.end) == (80, 236));
    assert!(rt; tree.find(glyphs, b"glyphname").is_none());
    Ok(())
}

#[test]
fn escapes_are_undone_and_hexadecimal_digits_are_bytes(rt: HostRuntime) -> Result<(), Fail> {
    let tree = read(rt.alloc(), ESCAPES)?;
    assert!(rt; tree.nodes.len() == 3 && tree.top == 2 && !tree.nodes.is_empty());
    assert!(rt; has_node(&tree, 0, (1, 21), ValueRef::Text("\u{1f600}\nA")));
    assert!(rt; has_node(&tree, 1, (22, 29), ValueRef::Bytes(b"\n\xff".as_slice())));
    assert!(rt; has_node(&tree, 2, (0, 32), ValueRef::Items([0, 1].as_slice())));
    assert!(rt; tree.nodes.get(3).is_none());
    Ok(())
}

#[test]
fn trees_are_equal_where_their_values_and_places_are(rt: HostRuntime) -> Result<(), Fail> {
    let tree = read(rt.alloc(), b"{a=(1,<0a>);}")?;
    assert!(rt; tree == read(rt.alloc(), b"{a=(1,<0A>);}")?);
    for other in [
        b"{a=(1,<0b>);}".as_slice(),
        b"{a=(1,\"\\n\");}".as_slice(),
        b"{b=(1,<0a>);}".as_slice(),
        b"{a=(1, 0a );}".as_slice(),
        b"{a=(1,<0a>) ;}".as_slice(),
        b" {a=(1,<0a>);}".as_slice(),
        b"{a=(1,1,<0a>);}".as_slice(),
    ] {
        assert!(rt; other.len() < 20);
        assert!(rt; tree != read(rt.alloc(), other)?);
    }
    Ok(())
}

#[test]
fn each_rule_refuses_at_its_place(rt: HostRuntime) -> Result<(), Fail> {
    let cases = [
        (b"".as_slice(), Some((Rule::UnexpectedEnd, 0))),
        (b"{a = 1;} x".as_slice(), Some((Rule::TrailingText, 9))),
        (b"{a=1;a=2;}".as_slice(), Some((Rule::DuplicateKey, 5))),
        (b"{a=\"\\q\";}".as_slice(), Some((Rule::BadEscape, 4))),
        (b"{a=;}".as_slice(), Some((Rule::UnexpectedByte, 3))),
        (b"\"\xc3".as_slice(), Some((Rule::NotUtf8, 1))),
        (ESCAPES, None),
        (b"{a=1;\"a\"=2;}".as_slice(), Some((Rule::DuplicateKey, 5))),
        (b"{a=1;a".as_slice(), Some((Rule::UnexpectedEnd, 6))),
        (b"{a=(1,2".as_slice(), Some((Rule::UnexpectedEnd, 7))),
        (b"\xff".as_slice(), Some((Rule::NotUtf8, 0))),
        (b"\"\\Ud83d\"".as_slice(), Some((Rule::BadEscape, 1))),
        (b"\"\\Ud83d".as_slice(), Some((Rule::UnexpectedEnd, 7))),
        (b"\"\\Ud83dx\"".as_slice(), Some((Rule::BadEscape, 1))),
        (b"\"\\200\"".as_slice(), Some((Rule::BadEscape, 1))),
        (b"<a>".as_slice(), Some((Rule::UnexpectedByte, 2))),
        (b"<a b>".as_slice(), None),
        (b"<ab c>".as_slice(), Some((Rule::UnexpectedByte, 5))),
        (b"\"a\n\xc3\xa9\xf0\x9f\x98\x80\"".as_slice(), None),
    ];
    for (source, outcome) in cases {
        assert_eq!(rt; refused(rt.alloc(), source)?, outcome);
    }
    Ok(())
}

#[test]
fn a_million_brackets_are_refused_and_a_hundred_thousand_keys_are_read(
    rt: HostRuntime,
) -> Result<(), Fail> {
    let brackets = vec![in rt.alloc(); b'('; 1_000_000]?;
    assert!(rt; refused(rt.alloc(), brackets.as_slice())? == Some((Rule::TooDeep, 64)));
    let keys = many_keys(rt.alloc(), 100_000)?;
    assert!(rt; keys.len() <= 67_108_864);
    let tree = read(rt.alloc(), keys.as_bytes())?;
    assert!(rt; tree.nodes.len() == 200_001 && tree.find(tree.top, b"k99999") == Some(199_999));
    Ok(())
}
