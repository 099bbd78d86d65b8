//! The jobs of the whole source: its property list, its header and its index of glyphs.

ghost use Rattle.std.specs.Prelude.{◌≡◌, ◌<◌, ℕ, List, [], length, Ok, Err, IfOk};
ghost use Rattle.refusal_codes.specs.Gives.{Gives};
ghost use Rattle.refusal_codes.specs.declared.limits.TheConstants.{SOURCE_BYTES};
ghost use Rattle.plist_reader.specs.Tree.{IsTree};
ghost use Rattle.font_ir.specs.Headers.{IsHeader};
ghost use Rattle.glyphs_source.specs.HeaderReading.{header_of};
ghost use Rattle.glyphs_source.specs.IndexReading.{index_of};
ghost use Rattle.font_graph.specs.Graph.{after_index, of_index};
ghost use Rattle.font_graph.specs.Same.{same_id};
ghost use Rattle.font_graph.specs.declared.items.Item.TheVariants as an;
ghost use Rattle.font_plan.specs.FontFile.{source_too_large};
ghost use Rattle.font_plan.specs.Font.{font_of};
ghost use Rattle.font_plan.specs.Jobs.{parts, tree_of};
ghost use Rattle.font_plan.specs.Known.{IsIndex};
ghost use Rattle.font_plan.specs.Settling.{Comes, made_by, none};

use crate::items::Item;
use crate::known::Known;
use crate::order::numbers_in;
use crate::outcomes::{PlanOutcome, made, made_last, refused};
use crate::specs_of;
use font_ir::Header;
use glyphs_source::{
    GlyphIndex, entries_are_numbered, exported_codes_are_distinct, glyph_index, header,
    notdef_is_exported,
};
use plain_lists::Text;
use plist_reader::{Tree, read};
use refusal_codes::limits::SOURCE_BYTES;
use refusal_codes::{Failure, NoMemory, ReadError, Refusal, Rule, job};
use std::alloc::Global;

/// The refusal of a source that has more than 67,108,864 bytes. It takes no memory.
#[tactic(auto, using(crate::proofs::TooLarge::too_large_refused))]
pub fn source_too_large(alloc: Global) -> Refusal
    ensures refusal { result ≡ source_too_large }
    ensures refuses { (source : List ℕ) → SOURCE_BYTES < length source
        → font_of source ≡ Err result }
{
    let failure = Failure {
        rule: Rule::TooLarge,
        place: SOURCE_BYTES as u64,
    };
    failure.refusal(job::TREE, Text::new(alloc))
}

/// The property list of a source that isn't too long.
#[tactic(auto, unfolding(crate::specs::Jobs::tree_of))]
fn read_tree(alloc: Global, source: &[u8]) -> Result<Tree, ReadError>
    ensures tree { Gives (λ tree. tree) result (tree_of source.now) }
    ensures known { IfOk result IsTree }
{
    if source.len() > SOURCE_BYTES {
        return Err(ReadError::Refused(source_too_large(alloc)));
    }
    read(alloc, source)
}

/// Reads the source's property list.
pub fn run_tree(alloc: Global, source: &[u8]) -> Result<PlanOutcome, NoMemory>
    ensures { Comes result (made_by an.Tree none (tree_of source.now)) }
{
    match read_tree(alloc, source) {
        Ok(tree) => made_last(alloc, Item::Tree(Known::of(tree))),
        Err(ReadError::Refused(refusal)) => Ok(refused(alloc, refusal)),
        Err(ReadError::NoMemory) => Err(NoMemory),
    }
}

/// The source's header.
fn read_header(alloc: Global, tree: &Tree) -> Result<Header, ReadError>
    requires { IsTree tree.now }
    ensures header { Gives (λ header. header) result (header_of tree.now) }
    ensures known { IfOk result IsHeader }
{
    header(alloc, tree)
}

/// Reads the source's header.
pub fn run_header(alloc: Global, tree: &Tree) -> Result<PlanOutcome, NoMemory>
    requires { IsTree tree.now }
    ensures { Comes result (made_by an.Header none (header_of tree.now)) }
{
    match read_header(alloc, tree) {
        Ok(header) => made_last(alloc, Item::Header(Known::of(header))),
        Err(ReadError::Refused(refusal)) => Ok(refused(alloc, refusal)),
        Err(ReadError::NoMemory) => Err(NoMemory),
    }
}

/// The source's index of glyphs.
fn read_index(alloc: Global, tree: &Tree) -> Result<GlyphIndex, ReadError>
    requires { IsTree tree.now }
    ensures index { Gives (λ index. index) result (index_of tree.now) }
    ensures known { IfOk result IsIndex }
{
    exported_codes_are_distinct();
    notdef_is_exported();
    entries_are_numbered();
    glyph_index(alloc, tree)
}

/// Reads the source's index of glyphs, and adds the jobs of those that are exported.
pub fn run_index(alloc: Global, tree: &Tree) -> Result<PlanOutcome, NoMemory>
    requires { IsTree tree.now }
    ensures { Comes result (made_by an.Index (λ index. after_index (parts []) same_id
        (of_index (parts []) same_id index)) (index_of tree.now)) }
{
    match read_index(alloc, tree) {
        Ok(index) => index_made(alloc, index),
        Err(ReadError::Refused(refusal)) => Ok(refused(alloc, refusal)),
        Err(ReadError::NoMemory) => Err(NoMemory),
    }
}

/// What comes of an index that was read.
fn index_made(alloc: Global, index: GlyphIndex) -> Result<PlanOutcome, NoMemory>
    requires { IsIndex index }
    ensures { Comes result (made_by an.Index (λ index. after_index (parts []) same_id
        (of_index (parts []) same_id index)) (Ok index)) }
{
    let glyphs = numbers_in(alloc, &index)?;
    let added = specs_of::after_index(alloc, glyphs.as_slice())?;
    made(alloc, Item::Index(Known::of(index)), added)
}
