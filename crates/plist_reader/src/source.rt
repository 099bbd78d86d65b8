ghost use Rattle.std.specs.Prelude.{[], ◌∷◌, ◌++◌, ◌≡◌, ◌≤◌, length, ◌⊎◌, ◌↔◌, IfOk, IfErr, Ok};
ghost use Rattle.std.specs.Prelude.{Err, List, ℕ};
ghost use Rattle.refusal_codes.specs.Gives.{Gives};
ghost use Rattle.plist_reader.specs.Tree.{IsTree, source_limit};
ghost use Rattle.plist_reader.specs.Grammar.{HasTree, IsTextOf, Value, tree_of, width};
ghost use Rattle.plist_reader.specs.Refusals.{AgreeInBytes, CanGoOn, IsLongest, IsErrorOf};
ghost use Rattle.plist_reader.specs.Refusals.{IsRefusal, refusal};
ghost use Rattle.refusal_codes.specs.declared.refusal.Refusal.{Refusal};
ghost use Rattle.plist_reader.specs.Sources.{FindsPairs, StandsInSource};
ghost use Rattle.plist_reader.specs.declared.tree.Tree.{Tree};
ghost use Rattle.plist_reader.specs.Reading.{read_of, run, start};
ghost use Rattle.std.specs.Char.{IsScalar};
ghost use Rattle.std.specs.Str.{IsUtf8, chars};

use crate::reader::{Reader, refusal};
use crate::tree::Tree;
use refusal_codes::{ReadError, Rule};
use std::alloc::Global;
use std::str;

/// Reads a property list, of at most 67,108,864 bytes, in the form in which Glyphs saves its
/// sources. Which texts of that form are property lists is fontc's own.
///
/// # Errors
///
/// `NoMemory` where memory runs out. Each source that is no property list has one refusal, by one
/// of seven rules; its place counts the source's bytes from 0. What isn't UTF-8 is refused before
/// all else:
///
/// - `NotUtf8`, at the first byte of the first sequence that is no UTF-8.
///
/// Else reading stops behind the longest beginning of the text with which some property list
/// begins, and the rule is the first of these that holds there:
///
/// - `UnexpectedEnd`, at the length of a text that could go on;
/// - `BadEscape`, at the backslash of an escape that is none;
/// - `DuplicateKey`, at a key that its dictionary has already;
/// - `TooDeep`, at the bracket that would be the sixty-fifth that is open;
/// - `TrailingText`, at the first character behind the value that is no white space;
/// - `UnexpectedByte`, at any other character.
pub fn read(alloc: Global, source: &[u8]) -> Result<Tree, ReadError>
    requires { length source.now ≤ source_limit }
    // A refusal is that of bad UTF-8, or is explained at the longest front with which some text
    // with a tree begins.
    ensures refused { IfErr result (IsErrorOf source.now) }
    // What is a refusal of the source is the refusal, unless memory runs out.
    ensures refusals { (r : Refusal) → IsRefusal source.now r → Gives (λ t. t) result (Err r) }
    // What it answers is what `read_of` computes of the source.
    ensures exact { Gives (λ t. t) result (read_of source.now) }
    // What is read is spelled so by the grammar.
    ensures found { IfOk result (HasTree source.now) }
    // What the grammar spells is read, unless memory runs out.
    ensures only { (t : Tree) → HasTree source.now t → Gives (λ t. t) result (Ok t) }
    ensures tree { IfOk result IsTree }
{
    match str::from_utf8(source) {
        Ok(text) => read_text(alloc, text),
        Err(error) => Err(refusal(alloc, Rule::NotUtf8, error.valid_up_to() as u32)),
    }
}

/// Reads a property list from its text.
fn read_text(alloc: Global, text: &str) -> Result<Tree, ReadError>
    requires { length text.now ≤ source_limit }
    ensures { Gives (λ t. t) result (run start 0 (chars text.now)) }
{
    let mut reader = Reader::new(alloc);
    let mut place = 0u32;
    for character in text.chars() {
        reader.step(alloc, place, character)?;
        place += character.len_utf8() as u32;
    }
    reader.finish(alloc, place)
}

/// A text has at most one tree.
pub fn trees_are_unique()
    ensures { (source : List ℕ) (s t : Tree) → HasTree source s → HasTree source t → s ≡ t }
{}

/// A source has a tree or a refusal, not both, and no two refusals. Both are what `read_of`
/// computes of it.
pub fn sources_have_one_answer()
    ensures either { (source : List ℕ) → ((t : Tree) × HasTree source t)
        ⊎ ((r : Refusal) × IsRefusal source r) }
    ensures not_both { (source : List ℕ) (t : Tree) (r : Refusal) → HasTree source t
        → ¬ (IsRefusal source r) }
    ensures one { (source : List ℕ) (r s : Refusal) → IsRefusal source r → IsRefusal source s
        → r ≡ s }
    ensures tree_computed { (source : List ℕ) (t : Tree) → HasTree source t
        → read_of source ≡ Ok t }
    ensures tree_of_computed { (source : List ℕ) (t : Tree) → read_of source ≡ Ok t
        → HasTree source t }
    ensures refusal_computed { (source : List ℕ) (r : Refusal) → IsRefusal source r
        → read_of source ≡ Err r }
    ensures refusal_of_computed { (source : List ℕ) (r : Refusal) → read_of source ≡ Err r
        → IsRefusal source r }
{}

/// A front of a text goes on exactly where some source with a tree begins with it. With a front
/// each shorter one goes on too, so that one is the longest, in characters and in bytes. Of the
/// characters beyond ASCII, which are of several bytes, each can follow a front or none.
pub fn one_front_is_the_longest()
    // What the grammar spells is the text of a source.
    ensures texts { (v : Value) (text : List ℕ) → IsTextOf v text
        → (source : List ℕ) × HasTree source (tree_of v) × (chars source ≡ text) }
    // So a front begins some text with a tree exactly when it begins that of some source with a
    // tree.
    ensures sources { (front : List ℕ) → CanGoOn front ↔
        ((source : List ℕ) × (t : Tree) × (rest : List ℕ) × HasTree source t
        × (chars source ≡ front ++ rest)) }
    ensures shorter { (front more : List ℕ) → CanGoOn (front ++ more) → CanGoOn front }
    // It is the longest in bytes as well: no source with a tree agrees with the text in more bytes.
    ensures bytes { (source other front rest : List ℕ) (t : Tree) (c n : ℕ) → IsUtf8 source
        → chars source ≡ front ++ c ∷ rest → IsLongest front c → HasTree other t
        → AgreeInBytes n source other → n ≤ width front }
    ensures alike { (front : List ℕ) (c d : ℕ) → 128 ≤ c → 128 ≤ d → IsScalar d
        → CanGoOn (front ++ c ∷ []) → CanGoOn (front ++ d ∷ []) }
{}

/// The values of a tree stand in its source, its texts are the bytes between their places after
/// escapes are undone, at most 64 brackets are open at a place, and the keys of a dictionary
/// differ.
pub fn trees_stand_in_their_sources()
    ensures { (source : List ℕ) (t : Tree) → HasTree source t → StandsInSource source t }
{}

/// In a dictionary of a source the key of each pair leads to its value, and nothing else is found:
/// what `Tree::find` gives of a key is a value exactly where the dictionary has a pair of the two.
pub fn keys_lead_to_their_values()
    ensures { (source : List ℕ) (t : Tree) → HasTree source t → FindsPairs t }
{}
