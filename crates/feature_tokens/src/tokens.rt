ghost use Rattle.std.specs.Prelude.{◌≡◌, ◌<◌, ◌≤◌, ◌+◌, ◌++◌, length, IfOk, OnOk};
ghost use Rattle.feature_tokens.specs.Tokens.{name_length, marked_piece, piece_of, token_at};
ghost use Rattle.std.specs.List.{All};
ghost use Rattle.feature_tokens.specs.Tokens.{tokens_of, IsInside};

use crate::bytes::{Run, belongs, run_length, starts_name};
use plain_lists::Sequence;
use refusal_codes::NoMemory;
use std::alloc::Global;

/// What a token of feature code is.
#[derive(Clone, Copy, Debug, PartialEq, Eq)]
pub enum TokenKind {
    /// A name, a tag or a keyword: a letter, `_` or `.`, then letters, digits, `_`, `.` and `-`.
    Name,
    /// `@` and a name.
    Class,
    /// `\` and a name, which is then no keyword.
    Escaped,
    /// `\` and digits.
    Cid,
    /// Digits, maybe behind `-`, however large the number.
    Number,
    /// `${`.
    Reference,
    /// A byte that begins none of these.
    Sign(u8),
}

/// A token of feature code.
#[derive(Clone, Copy, Debug, PartialEq, Eq)]
pub struct Token {
    /// What it is.
    pub kind: TokenKind,
    /// The byte of the text at which it starts.
    pub start: usize,
    /// The byte behind its last one.
    pub end: usize,
}

/// A token, or a gap between tokens, which has no kind.
#[derive(Clone, Copy, Debug, PartialEq, Eq)]
pub(crate) struct Piece {
    kind: Option<TokenKind>,
    length: usize,
}

/// A gap of this many bytes.
fn gap(length: usize) -> Piece
    ensures { result ≡ record { kind = None; length = length } }
{
    Piece { kind: None, length }
}

/// A token of this many bytes.
fn token_piece(kind: TokenKind, length: usize) -> Piece
    ensures { result ≡ record { kind = Some kind; length = length } }
{
    Piece {
        kind: Some(kind),
        length,
    }
}

/// How long the name is with which this text begins; 0 where it begins with none.
#[tactic(auto, unfolding(crate::specs::Tokens::name_length))]
fn name_length(bytes: &[u8]) -> usize
    ensures name { result ≡ name_length bytes.now }
    ensures within { result ≤ length bytes.now }
{
    match bytes {
        [] => 0,
        [first, rest @ ..] => {
            if starts_name(*first) {
                1 + run_length(Run::Name, rest)
            } else {
                0
            }
        }
    }
}

/// The first token of a text that begins with this byte, which begins no gap, name or digits.
#[tactic(auto, unfolding(crate::specs::Tokens::marked_piece))]
fn marked_piece(first: u8, rest: &[u8]) -> Piece
    ensures piece { result ≡ marked_piece first rest.now }
    ensures some { 0 < result.length }
    ensures within { result.length ≤ 1 + length rest.now }
{
    let name = name_length(rest);
    let digits = run_length(Run::Digits, rest);
    if first == b'-' && digits > 0 {
        token_piece(TokenKind::Number, 1 + digits)
    } else if first == b'@' && name > 0 {
        token_piece(TokenKind::Class, 1 + name)
    } else if first == b'\\' && name > 0 {
        token_piece(TokenKind::Escaped, 1 + name)
    } else if first == b'\\' && digits > 0 {
        token_piece(TokenKind::Cid, 1 + digits)
    } else if first == b'$' && rest.first() == Some(&b'{') {
        token_piece(TokenKind::Reference, 2)
    } else {
        token_piece(TokenKind::Sign(first), 1)
    }
}

/// The first piece of a text that begins with this byte.
#[tactic(auto, unfolding(crate::specs::Tokens::piece_of))]
fn first_piece(first: u8, rest: &[u8]) -> Piece
    ensures piece { result ≡ piece_of first rest.now }
    ensures some { 0 < result.length }
    ensures within { result.length ≤ 1 + length rest.now }
{
    if belongs(Run::Space, first) {
        gap(1 + run_length(Run::Space, rest))
    } else if first == b'#' {
        gap(1 + run_length(Run::Comment, rest))
    } else if starts_name(first) {
        token_piece(TokenKind::Name, 1 + run_length(Run::Name, rest))
    } else if belongs(Run::Digits, first) {
        token_piece(TokenKind::Number, 1 + run_length(Run::Digits, rest))
    } else {
        marked_piece(first, rest)
    }
}

/// Adds a piece that begins at this place, where it is a token.
fn push_token(found: &mut Sequence<Token>, place: usize, piece: Piece) -> Result<(), NoMemory>
    requires { place + piece.length ≤ usize.MAX }
    ensures { OnOk result (found.new ≡ found.old ++ token_at place piece) }
{
    match piece.kind {
        None => Ok(()),
        Some(kind) => {
            let end = place + piece.length;
            found.push(Token {
                kind,
                start: place,
                end,
            })?;
            Ok(())
        }
    }
}

/// The tokens of a text, in order.
#[tactic(auto, unfolding(crate::specs::Tokens::tokens_of))]
pub fn tokenize(alloc: Global, text: &str) -> Result<Sequence<Token>, NoMemory>
    ensures tokens { IfOk result (λ found. found ≡ tokens_of text.now) }
    ensures inside { IfOk result (λ found. All (IsInside (length text.now)) found) }
{
    let bytes = text.as_bytes();
    let mut found = Sequence::new(alloc);
    let mut place = 0;
    while place < bytes.len() {
        let piece = first_piece(bytes[place], &bytes[place + 1..]);
        push_token(&mut found, place, piece)?;
        place += piece.length;
    }
    Ok(found)
}
