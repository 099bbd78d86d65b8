ghost use Rattle.std.specs.Prelude.{◌≡◌, IfOk, []};
ghost use Rattle.std.specs.List.{list_all};
ghost use Rattle.refusal_codes.specs.First.{noted};
ghost use Rattle.source_axes.specs.AxisReading.{is_tag_byte, is_tag, tag_failures, tag_text};
ghost use Rattle.source_axes.specs.AxisReading.{fails_at_tag, again_by, with_tag, repeated_tags};
ghost use Rattle.source_axes.specs.AxisReading.{padded};

use font_ir::Tag;
use indexmap::IndexSet;
use plain_lists::Text;
use plist_reader::Tree;
use refusal_codes::{FirstFailure, Rule};
use source_values::{Asked, copied, note_at, text_at, text_under};
use std::alloc::{AllocError, Global};

/// How many bytes a tag has.
const LENGTH: usize = 4;

/// A tag: a text of 1 to 4 bytes from 0x21 to 0x7E.
#[derive(Clone, Copy)]
pub(crate) struct TagText;

impl Asked for TagText {
    ghost failures = { λ asked. tag_failures };

    #[tactic(auto, unfolding(crate::specs::AxisReading::tag_failures))]
    fn note(&self, tree: &Tree, number: u32, first: &mut FirstFailure) {
        match text_at(tree, number) {
            None => note_at(tree, number, Rule::WrongShape, first),
            Some(text) => {
                if !is_tag(text.as_bytes()) {
                    note_at(tree, number, Rule::BadTag, first);
                }
            }
        }
    }
}

fn is_tag(text: &[u8]) -> bool
    ensures { result ≡ is_tag text.now }
{
    1 <= text.len() && text.len() <= LENGTH && are_tag_bytes(text)
}

fn are_tag_bytes(text: &[u8]) -> bool
    ensures { result ≡ list_all is_tag_byte text.now }
{
    text.iter().all(|byte| 0x21 <= *byte && *byte <= 0x7E)
}

/// Notes each tag of these axes that an earlier axis has.
pub(crate) fn note_repeated_tags(
    alloc: Global,
    tree: &Tree,
    axes: &[u32],
    first: &mut FirstFailure,
) -> Result<(), AllocError>
    ensures { IfOk result (λ _. first.new ≡ noted first.old (repeated_tags tree.now [] axes.now)) }
{
    let mut tags = IndexSet::new(alloc);
    note_tags(alloc, tree, axes, &mut tags, first)
}

/// Notes each tag of these axes that an earlier one has, or that is among the tags before.
fn note_tags(
    alloc: Global,
    tree: &Tree,
    axes: &[u32],
    tags: &mut IndexSet<Text>,
    first: &mut FirstFailure,
) -> Result<(), AllocError>
    ensures { IfOk result (λ _. first.new
        ≡ noted first.old (repeated_tags tree.now tags.old.keys axes.now)) }
{
    for axis in axes {
        note_tag(alloc, tree, *axis, tags, first)?;
    }
    Ok(())
}

/// Notes an axis's tag where it is among the tags before, and else puts it there.
fn note_tag(
    alloc: Global,
    tree: &Tree,
    axis: u32,
    tags: &mut IndexSet<Text>,
    first: &mut FirstFailure,
) -> Result<(), AllocError>
    ensures failure { IfOk result (λ _. first.new
        ≡ noted first.old (again_by tree.now tags.old.keys axis (tag_text tree.now axis))) }
    ensures tags { IfOk result (λ _. tags.new.keys
        ≡ with_tag tags.old.keys (tag_text tree.now axis)) }
{
    if let Some(text) = text_under(tree, axis, b"tag") {
        let tag = copied(alloc, Some(text))?;
        let is_new = tags.insert(tag)?;
        if !is_new {
            note_at_tag(tree, axis, first);
        }
    }
    Ok(())
}

fn note_at_tag(tree: &Tree, axis: u32, first: &mut FirstFailure)
    ensures { first.new ≡ noted first.old (fails_at_tag tree.now axis) }
{
    if let Some(number) = tree.find(axis, b"tag") {
        note_at(tree, number, Rule::BadTag, first);
    }
}

/// A text's first four bytes as a tag, padded with spaces.
pub(crate) fn padded(text: &[u8]) -> Tag
    ensures { result.0 ≡ padded text.now }
{
    match text {
        [] => Tag([b' '; LENGTH]),
        [a] => Tag([*a, b' ', b' ', b' ']),
        [a, b] => Tag([*a, *b, b' ', b' ']),
        [a, b, c] => Tag([*a, *b, *c, b' ']),
        [a, b, c, d, ..] => Tag([*a, *b, *c, *d]),
    }
}
