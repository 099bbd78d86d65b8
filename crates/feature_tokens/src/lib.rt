//! Feature code: its tokens, and what the grammar sees of them. The syntax is that part of the
//! Adobe feature file specification that fontc supports.
#![tactic(auto)]

mod bytes;
mod tokens;
mod words;

pub use tokens::{Token, TokenKind, tokenize};
pub use words::{Keyword, Lexeme, is_word, lexeme_of};
