use feature_tokens::{Token, TokenKind, tokenize};
use std::alloc::Global;
use std::test::Fail;

/// Whether a text has these tokens: of these kinds, from and up to these bytes.
fn has_tokens(
    alloc: Global,
    text: &str,
    wanted: &[(TokenKind, usize, usize)],
) -> Result<bool, Fail> {
    let found = tokenize(alloc, text)?;
    Ok(are_tokens(found.as_slice(), wanted))
}

fn are_tokens(found: &[Token], wanted: &[(TokenKind, usize, usize)]) -> bool {
    if found.len() != wanted.len() {
        return false;
    }
    for (i, token) in found.iter().enumerate() {
        if (token.kind, token.start, token.end) != wanted[i] {
            return false;
        }
    }
    true
}

#[test]
fn a_token_is_as_long_as_it_can_be(rt: HostRuntime) -> Result<(), Fail> {
    let wanted = [
        (TokenKind::Name, 0, 5),
        (TokenKind::Class, 6, 8),
        (TokenKind::Escaped, 9, 12),
        (TokenKind::Cid, 13, 16),
        (TokenKind::Number, 17, 23),
        (TokenKind::Number, 23, 25),
        (TokenKind::Name, 25, 26),
        (TokenKind::Reference, 27, 29),
        (TokenKind::Sign(b';'), 29, 30),
    ];
    let text = "a.b-1 @x \\by \\12 123456-7x ${;";
    assert!(rt; has_tokens(rt.alloc(), text, wanted.as_slice())?);
    Ok(())
}

#[test]
fn a_byte_that_begins_no_token_stands_alone(rt: HostRuntime) -> Result<(), Fail> {
    let wanted = [
        (TokenKind::Sign(b'@'), 0, 1),
        (TokenKind::Number, 1, 2),
        (TokenKind::Sign(b'$'), 2, 3),
        (TokenKind::Sign(b'-'), 3, 4),
        (TokenKind::Sign(b'\\'), 5, 6),
        (TokenKind::Sign(0xC3), 6, 7),
        (TokenKind::Sign(0xA9), 7, 8),
    ];
    assert!(rt; has_tokens(rt.alloc(), "@1$- \\\u{e9}", wanted.as_slice())?);
    Ok(())
}

#[test]
fn comments_and_white_space_are_no_tokens(rt: HostRuntime) -> Result<(), Fail> {
    let wanted = [(TokenKind::Name, 7, 8), (TokenKind::Name, 13, 14)];
    let text = " \t\r\n#a\rb# c;\nd #e";
    assert!(rt; has_tokens(rt.alloc(), text, wanted.as_slice())?);
    assert!(rt; has_tokens(rt.alloc(), "", [].as_slice())?);
    Ok(())
}
