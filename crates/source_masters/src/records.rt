ghost use Rattle.std.specs.Prelude.{◌≡◌, ◌≤◌, ◌+◌, map, IfOk, option_and_then, slice_get};
ghost use Rattle.std.specs.List.{find};
ghost use Rattle.font_ir.specs.Coordinates.{coordinate_at};
ghost use Rattle.source_masters.specs.WholeRules.{master_numbers, origin_of};
ghost use Rattle.source_masters.specs.MasterReading.{units_per_em, masters_place};
ghost use Rattle.source_masters.specs.MasterReading.{locates, location_in, location_entries};
ghost use Rattle.source_masters.specs.MasterReading.{user_coordinate, user_from, default_heights};
ghost use Rattle.source_masters.specs.MasterReading.{master_with, masters_of};

use crate::metrics::{Heights, heights_of, metric_numbers, missing_heights};
use crate::parameters::{has_text, parameter_under};
use crate::whole_rules::{default_position, master_numbers};
use fixed_math::Fixed;
use font_ir::{Axis, Master};
use plain_lists::Sequence;
use plist_reader::Tree;
use source_axes::{coordinate, read_coordinates};
use source_values::{copied, items_at, place_at, text_under};
use std::alloc::{AllocError, Global};

/// The place of the list of masters in the source, 0 where there is none.
#[tactic(auto, unfolding(crate::specs::MasterReading::masters_place))]
pub fn masters_place(tree: &Tree) -> u64
    ensures { result ≡ masters_place tree.now }
{
    match tree.find(tree.top, b"fontMaster") {
        Some(number) => place_at(tree, number),
        None => 0,
    }
}

/// The masters of a source (Glyphs file format, version 3, `fontMaster`), of a font with these axes
/// and so many units per em. Their locations are empty.
///
/// Coordinates are in 16.16 and metrics in font units. A user coordinate that a master doesn't give
/// is its design coordinate; a metric that it hasn't is that of the default master. Where the
/// default master hasn't it, ascender and descender follow from the em, and cap height and x-height
/// are 0. The error is want of memory.
#[tactic(auto, unfolding(crate::specs::MasterReading::masters_of))]
pub fn masters(
    alloc: Global,
    tree: &Tree,
    units: u16,
    axes: &[Axis],
) -> Result<Vec<Master>, AllocError>
    requires units { units ≡ units_per_em tree.now }
    requires small { units ≤ 16384 }
    ensures { IfOk result (λ masters. masters.items
        ≡ masters_of tree.now (map (λ axis. axis.name) axes.now)) }
{
    let missing = default_heights(tree, units);
    each_master(alloc, tree, axes, missing, master_numbers(tree))
}

fn each_master(
    alloc: Global,
    tree: &Tree,
    axes: &[Axis],
    missing: Heights,
    numbers: &[u32],
) -> Result<Vec<Master>, AllocError>
    ensures { IfOk result (λ masters. masters.items
        ≡ map (master_with tree.now (map (λ axis. axis.name) axes.now) missing) numbers.now) }
{
    let mut masters = Vec::with_capacity(alloc, numbers.len())?;
    for number in numbers {
        masters.push(master(alloc, tree, axes, missing, *number)?)?;
    }
    Ok(masters)
}

/// The heights of the default master, and what stands for them where there is none.
#[tactic(auto, unfolding(crate::specs::MasterReading::default_heights))]
fn default_heights(tree: &Tree, units: u16) -> Heights
    requires units { units ≡ units_per_em tree.now }
    requires small { units ≤ 16384 }
    ensures { result ≡ default_heights tree.now }
{
    let missing = missing_heights(units);
    match default_master(tree) {
        Some(master) => heights_of(tree, metric_numbers(tree), master, missing),
        None => missing,
    }
}

fn default_master(tree: &Tree) -> Option<u32>
    ensures { result ≡ option_and_then (slice_get (master_numbers tree.now)) (origin_of tree.now) }
{
    master_numbers(tree).get(default_position(tree)?).copied()
}

#[tactic(auto, unfolding(crate::specs::MasterReading::master_with, crate::specs::MasterReading::design_of, crate::specs::WholeRules::master_id))]
fn master(
    alloc: Global,
    tree: &Tree,
    axes: &[Axis],
    missing: Heights,
    number: u32,
) -> Result<Master, AllocError>
    ensures { IfOk result (λ master. master
        ≡ master_with tree.now (map (λ axis. axis.name) axes.now) missing number) }
{
    let id = copied(alloc, text_under(tree, number, b"id"))?;
    let design = read_coordinates(alloc, tree, number, b"axesValues")?;
    let entries = location_entries(tree, number);
    let user = user_of(alloc, tree, entries, design.as_slice(), axes)?;
    let heights = heights_of(tree, metric_numbers(tree), number, missing);
    Ok(Master {
        id,
        design,
        user: Sequence::from_vec(user),
        location: Sequence::new(alloc),
        ascender: heights.ascender,
        descender: heights.descender,
        cap: heights.cap,
        xheight: heights.xheight,
        place: place_at(tree, number),
    })
}

/// The entries of a master's locations on the user's scale.
#[tactic(auto, unfolding(crate::specs::MasterReading::location_entries))]
fn location_entries(tree: &Tree, master: u32) -> &[u32]
    ensures { result.now ≡ location_entries tree.now master }
{
    match parameter_under(tree, master, b"Axis Location") {
        Some(number) => items_at(tree, number).unwrap_or(&[]),
        None => &[],
    }
}

/// A user coordinate for each axis.
fn user_of(
    alloc: Global,
    tree: &Tree,
    entries: &[u32],
    design: &[Fixed],
    axes: &[Axis],
) -> Result<Vec<Fixed>, AllocError>
    ensures { IfOk result (λ user. user.items
        ≡ user_from tree.now entries.now design.now 0 (map (λ axis. axis.name) axes.now)) }
{
    let mut user = Vec::with_capacity(alloc, axes.len())?;
    for (index, axis) in axes.iter().enumerate() {
        let otherwise = coordinate_at(design, index);
        let name = axis.name.as_bytes();
        user.push(user_coordinate(tree, entries, name, otherwise))?;
    }
    Ok(user)
}

/// The coordinate with this number, 0 where there is none.
fn coordinate_at(coordinates: &[Fixed], index: usize) -> Fixed
    ensures { result ≡ coordinate_at coordinates.now index }
{
    coordinates.get(index).copied().unwrap_or(Fixed(0))
}

/// A user coordinate: that of the first entry for the axis, or else the design coordinate.
#[tactic(auto, unfolding(crate::specs::MasterReading::user_coordinate))]
fn user_coordinate(tree: &Tree, entries: &[u32], axis: &[u8], design: Fixed) -> Fixed
    ensures { result ≡ user_coordinate tree.now entries.now axis.now design }
{
    match location_in(tree, entries, axis) {
        Some(number) => coordinate(tree, number),
        None => design,
    }
}

#[tactic(auto, unfolding(crate::specs::MasterReading::location_in))]
fn location_in(tree: &Tree, entries: &[u32], axis: &[u8]) -> Option<u32>
    ensures { result ≡ location_in axis.now tree.now entries.now }
{
    tree.find(locating(tree, entries, axis)?, b"Location")
}

/// The first entry that says where on this axis a master lies.
fn locating(tree: &Tree, entries: &[u32], axis: &[u8]) -> Option<u32>
    ensures { result ≡ find (locates axis.now tree.now) entries.now }
{
    for entry in entries {
        if locates(tree, *entry, axis) {
            return Some(*entry);
        }
    }
    None
}

fn locates(tree: &Tree, entry: u32, axis: &[u8]) -> bool
    ensures { result ≡ locates axis.now tree.now entry }
{
    has_text(tree, entry, b"Axis", axis) && tree.find(entry, b"Location").is_some()
}
