ghost use Rattle.std.specs.Prelude.{◌≡◌, ◌≤◌, IfOk, length, map, slice_get, slice_index};
ghost use Rattle.source_masters.specs.MasterReading.{units_per_em};
ghost use Rattle.std.specs.Option.{option_map_or};
ghost use Rattle.source_axes.specs.AxisReading.{axes_of, axis_numbers};
ghost use Rattle.source_values.specs.Values.{place_at as seen_place};
ghost use Rattle.glyphs_source.specs.HeaderReading.{origin_at, placed_masters, place_failure_of};
ghost use Rattle.glyphs_source.specs.HeaderReading.{HasSoundHeader, same_location_by};
ghost use Rattle.axis_space.specs.Repeats.{first_repeat};

use axis_space::{place_masters, repeated_place, unmapped_axis};
use font_ir::{Axis, Master, locations_of};
use plist_reader::Tree;
use refusal_codes::{Failure, NoMemory, Rule};
use source_axes::{axis_numbers, sound_axes_are_read};
use source_masters::{masters, origin, sound_masters_are_read};
use source_values::place_at;
use std::alloc::Global;

/// The position of the default master.
#[tactic(auto, unfolding(crate::specs::HeaderReading::origin_at))]
pub fn origin_at(tree: &Tree) -> u32
    requires { HasSoundHeader tree.now }
    ensures { result ≡ origin_at tree.now }
{
    origin(tree).unwrap_or(0)
}

/// The masters of a source that fails no local rule and none on counts, ids and the origin, with
/// their locations.
#[tactic(auto, unfolding(crate::specs::HeaderReading::placed_masters))]
pub fn placed_masters(
    alloc: Global,
    tree: &Tree,
    units: u16,
    axes: &[Axis],
) -> Result<Vec<Master>, NoMemory>
    requires sound { HasSoundHeader tree.now }
    requires units { units ≡ units_per_em tree.now }
    requires small { units ≤ 16384 }
    requires axes { axes.now ≡ axes_of tree.now }
    ensures { IfOk result (λ masters. masters.items ≡ placed_masters tree.now) }
{
    sound_masters_are_read();
    sound_axes_are_read();
    let masters = masters(alloc, tree, units, axes)?;
    place_masters(alloc, masters, origin_at(tree), axes.len() as u32)
}

/// The first master that lies where an earlier one does, at its dictionary; else the first axis
/// whose map from user to design coordinates doesn't rise, at its dictionary.
#[tactic(auto, unfolding(crate::specs::HeaderReading::place_failure_of))]
pub fn place_failure(
    alloc: Global,
    tree: &Tree,
    masters: &[Master],
    axes: usize,
) -> Result<Option<Failure>, NoMemory>
    requires sound { HasSoundHeader tree.now }
    requires masters { masters.now ≡ placed_masters tree.now }
    requires axes { axes ≡ length (axes_of tree.now) }
    ensures { IfOk result (λ failure. failure ≡ place_failure_of tree.now masters.now) }
{
    sound_masters_are_read();
    sound_axes_are_read();
    if let Some(failure) = same_location(alloc, masters)? {
        return Ok(Some(failure));
    }
    match unmapped_axis(alloc, masters, origin_at(tree), axes as u32)? {
        Some(axis) => Ok(Some(Failure {
            rule: Rule::AxisMapNotRising,
            place: axis_place(tree, axis),
        })),
        None => Ok(None),
    }
}

fn same_location(alloc: Global, masters: &[Master]) -> Result<Option<Failure>, NoMemory>
    ensures { IfOk result (λ failure. failure ≡ same_location_by masters.now
        (first_repeat (map (λ master. master.location) masters.now))) }
{
    let places = locations_of(alloc, masters)?;
    match repeated_place(alloc, places.as_slice())? {
        Some(i) => Ok(Some(Failure {
            rule: Rule::SameLocation,
            place: master_place(masters, i),
        })),
        None => Ok(None),
    }
}

/// The place of the master at this position, 0 where there is none.
fn master_place(masters: &[Master], i: usize) -> u64
    ensures { result ≡ option_map_or (λ master. master.place) (slice_get masters.now i) 0 }
{
    match masters.get(i) {
        Some(master) => master.place,
        None => 0,
    }
}

/// The place of the axis with this number.
fn axis_place(tree: &Tree, axis: u32) -> u64
    ensures { result ≡ seen_place tree.now (slice_index (axis_numbers tree.now) axis) }
{
    match axis_numbers(tree).get(axis as usize) {
        Some(number) => place_at(tree, *number),
        None => place_at(tree, 0),
    }
}
