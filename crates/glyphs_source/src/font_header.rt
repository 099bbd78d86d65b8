ghost use Rattle.std.specs.Prelude.{◌≡◌, ◌≤◌, [], Ok, None, IfOk, IfSome, codes};
ghost use Rattle.plist_reader.specs.declared.tree.Tree.{Tree as SeenTree};
ghost use Rattle.plist_reader.specs.Tree.{IsTree};
ghost use Rattle.font_ir.specs.declared.header.Header.{Header as SeenHeader};
ghost use Rattle.font_ir.specs.Headers.{IsHeader};
ghost use Rattle.refusal_codes.specs.Gives.{Gives};
ghost use Rattle.refusal_codes.specs.First.{noted, first_of};
ghost use Rattle.source_values.specs.Values.{natural_or};
ghost use Rattle.source_masters.specs.MasterReading.{units_per_em};
ghost use Rattle.source_axes.specs.AxisReading.{axes_of};
ghost use Rattle.glyphs_source.specs.HeaderReading.{header_failures, header_record, judged_header};
ghost use Rattle.glyphs_source.specs.HeaderReading.{header_of, place_under, HasSoundHeader};
ghost use Rattle.glyphs_source.specs.HeaderReading.{placed_masters as seen_masters};

use crate::header_places::{origin_at, place_failure, placed_masters};
use crate::header_rules::{Numbers, read_numbers, source_failure};
use crate::laws::read_headers_are_whole;
use font_ir::{Axis, Header, Master};
use plain_lists::{Sequence, Text};
use plist_reader::Tree;
use refusal_codes::{FirstFailure, ReadError, job};
use source_axes::{read_axes, read_instances};
use source_masters::masters_place;
use source_values::{copied, place_at, text_under};
use std::alloc::{AllocError, Global};

/// What a source says of the whole font (Glyphs file format, version 3).
///
/// Coordinates are in 16.16, locations in 2.14, metrics and the em in font units. What is read
/// fulfils the conditions of every call that takes a header. The error is the least failure by
/// place, then by rule, of the rules of single values. Where none of them fails, it is the first of
/// these: more than 8 axes; more than 32 masters; no master; a master whose id an earlier one has; a
/// master or kept instance that hasn't one coordinate per axis, by place; an origin that is no
/// master; a master that lies where an earlier one does; an axis whose map from user to design
/// coordinates doesn't rise. Feature code and kerning aren't built: their forms are of a wrong
/// shape. Where memory runs out, the error is that.
pub fn header(alloc: Global, tree: &Tree) -> Result<Header, ReadError>
    requires { IsTree tree.now }
    ensures record { Gives (λ header. header) result (header_of tree.now) }
    ensures whole { IfOk result IsHeader }
{
    read_headers_are_whole();
    read_header(alloc, tree)
}

#[tactic(auto, unfolding(crate::specs::HeaderReading::header_of, crate::specs::HeaderReading::header_by))]
fn read_header(alloc: Global, tree: &Tree) -> Result<Header, ReadError>
    requires { IsTree tree.now }
    ensures { Gives (λ header. header) result (header_of tree.now) }
{
    let mut first = FirstFailure::new();
    let numbers = read_numbers(alloc, tree, &mut first)?;
    finish(alloc, tree, numbers, &first)
}

/// What is answered where these are the numbers, and this is the first local failure.
#[tactic(auto, unfolding(crate::specs::HeaderReading::judged_header))]
fn finish(
    alloc: Global,
    tree: &Tree,
    numbers: Numbers,
    first: &FirstFailure,
) -> Result<Header, ReadError>
    requires tree { IsTree tree.now }
    requires units { numbers.units ≡ units_per_em tree.now }
    requires small { numbers.units ≤ 16384 }
    requires major { numbers.major ≡ natural_or 0 32767 1 tree.now tree.now.top
        (codes "versionMajor") }
    requires minor { numbers.minor ≡ natural_or 0 999 0 tree.now tree.now.top
        (codes "versionMinor") }
    requires none { first.now ≡ None → header_failures tree.now ≡ [] }
    ensures { Gives (λ header. header) result (judged_header tree.now first.now) }
{
    if let Some(failure) = first.get() {
        return Err(failure.refused(job::HEADER, Text::new(alloc)));
    }
    if let Some(failure) = source_failure(tree) {
        return Err(failure.refused(job::HEADER, Text::new(alloc)));
    }
    let axes = read_axes(alloc, tree)?;
    let masters = placed_masters(alloc, tree, numbers.units, axes.as_slice())?;
    if let Some(failure) = place_failure(alloc, tree, masters.as_slice(), axes.len())? {
        return Err(failure.refused(job::HEADER, Text::new(alloc)));
    }
    Ok(record(alloc, tree, numbers, axes, masters)?)
}

#[tactic(auto, unfolding(crate::specs::HeaderReading::header_record))]
fn record(
    alloc: Global,
    tree: &Tree,
    numbers: Numbers,
    axes: Sequence<Axis>,
    masters: Vec<Master>,
) -> Result<Header, AllocError>
    requires sound { HasSoundHeader tree.now }
    requires units { numbers.units ≡ units_per_em tree.now }
    requires major { numbers.major ≡ natural_or 0 32767 1 tree.now tree.now.top
        (codes "versionMajor") }
    requires minor { numbers.minor ≡ natural_or 0 999 0 tree.now tree.now.top
        (codes "versionMinor") }
    requires axes { axes ≡ axes_of tree.now }
    requires masters { masters.items ≡ seen_masters tree.now }
    ensures { IfOk result (λ header. header ≡ header_record tree.now) }
{
    let family = copied(alloc, text_under(tree, tree.top, b"familyName"))?;
    let instances = read_instances(alloc, tree)?;
    Ok(Header {
        upem: numbers.units,
        family,
        major: numbers.major,
        minor: numbers.minor,
        axes,
        masters: Sequence::from_vec(masters),
        masters_place: masters_place(tree),
        origin: origin_at(tree),
        instances,
        kerning: Sequence::new(alloc),
        kern_place: place_under(tree, b"kerningLTR"),
        features: Text::from_string(String::new(alloc)),
    })
}

/// The place of the value under a key of the top dictionary, 0 where there is none.
#[tactic(auto, unfolding(crate::specs::HeaderReading::place_under))]
fn place_under(tree: &Tree, key: &[u8]) -> u64
    ensures { result ≡ place_under tree.now key.now }
{
    match tree.find(tree.top, key) {
        Some(number) => place_at(tree, number),
        None => 0,
    }
}
