ghost use Rattle.std.specs.Prelude.{◌≡◌, ◌<◌, ◌≤◌, ◌++◌, length, All, IfOk, OnOk};
ghost use Rattle.std.specs.List.{flat_map};
ghost use Rattle.font_ir.specs.AxisMaps.{IsRisingList, pairs_of};
ghost use Rattle.font_ir.specs.Coordinates.{HasAxis};
ghost use Rattle.font_ir.specs.Headers.{IsHeader, HasMap};
ghost use Rattle.name_tables.specs.Avar.{avar_head, avar_table, axis_value_map, pairs_on};
ghost use Rattle.name_tables.specs.Avar.{segment_map, segment_maps};

use axis_space::{MapError, avar_map};
use fixed_math::F2Dot14;
use font_ir::Header;
use refusal_codes::NoMemory;
use std::alloc::{AllocError, Global};
use table_bytes::{push_int16, push_uint16};

/// A normalised user coordinate and the normalised design coordinate there.
type Pair = (F2Dot14, F2Dot14);

/// The pairs of an axis, which rise.
#[tactic(auto, using(crate::specs::HeaderLaws::has_axis))]
fn rising_pairs(alloc: Global, header: &Header, axis: usize) -> Result<Vec<Pair>, NoMemory>
    requires header { IsHeader header.now }
    requires axis { axis < length header.now.axes }
    ensures rising { IfOk result (λ pairs. IsRisingList
        (pairs_of header.now.masters header.now.origin axis) pairs.items) }
    ensures computed { IfOk result (λ pairs. pairs.items
        ≡ pairs_on header.now.masters header.now.origin axis) }
    ensures few { IfOk result (λ pairs. length pairs.items ≤ 35) }
{
    match avar_map(alloc, header.masters.as_slice(), header.origin, axis as u32) {
        Ok(pairs) => Ok(pairs),
        Err(MapError::NotRising(_)) => unreachable!(),
        Err(MapError::NoMemory) => Err(NoMemory),
    }
}

/// Appends an AxisValueMap.
#[tactic(auto, unfolding(crate::specs::Avar::axis_value_map))]
fn push_pair(table: &mut Vec<u8>, pair: Pair) -> Result<(), AllocError>
    ensures { OnOk result (table.new.items ≡ table.old.items ++ axis_value_map pair) }
{
    push_int16(table, pair.0.0)?;
    push_int16(table, pair.1.0)
}

/// Appends the AxisValueMaps of some pairs.
fn push_pairs(table: &mut Vec<u8>, pairs: &[Pair]) -> Result<(), AllocError>
    ensures { OnOk result (table.new.items ≡ table.old.items ++ flat_map axis_value_map pairs.now) }
{
    for pair in pairs {
        push_pair(table, *pair)?;
    }
    Ok(())
}

/// Appends a SegmentMaps record.
#[tactic(auto, unfolding(crate::specs::Avar::segment_map))]
fn push_segment_map(table: &mut Vec<u8>, pairs: &[Pair]) -> Result<(), AllocError>
    requires { length pairs.now ≤ 35 }
    ensures { OnOk result (table.new.items ≡ table.old.items ++ segment_map pairs.now) }
{
    push_uint16(table, pairs.len() as u16)?;
    push_pairs(table, pairs)
}

/// Appends the SegmentMaps record of an axis.
fn push_axis_map(
    alloc: Global,
    table: &mut Vec<u8>,
    header: &Header,
    axis: usize,
) -> Result<(), NoMemory>
    requires header { IsHeader header.now }
    requires axis { axis < length header.now.axes }
    ensures { OnOk result (table.new.items
        ≡ table.old.items ++ segment_map (pairs_on header.now.masters header.now.origin axis)) }
{
    let pairs = rising_pairs(alloc, header, axis)?;
    push_segment_map(table, pairs.as_slice())?;
    Ok(())
}

/// Appends the records of all axes.
fn push_maps(alloc: Global, table: &mut Vec<u8>, header: &Header) -> Result<(), NoMemory>
    requires { IsHeader header.now }
    ensures { OnOk result (table.new.items
        ≡ table.old.items ++ segment_maps header.now 0 header.now.axes) }
{
    let axes = header.axes.as_slice();
    for (number, _axis) in axes.iter().enumerate() {
        push_axis_map(alloc, table, header, number)?;
    }
    Ok(())
}

/// Appends the fields before the records.
#[tactic(auto, unfolding(crate::specs::Avar::avar_head))]
fn push_head(table: &mut Vec<u8>, axes: u16) -> Result<(), AllocError>
    ensures { OnOk result (table.new.items ≡ table.old.items ++ avar_head axes) }
{
    push_uint16(table, 1)?;
    push_uint16(table, 0)?;
    push_uint16(table, 0)?;
    push_uint16(table, axes)
}

/// The table `avar` (OpenType 1.9, "avar"): for each axis the pairs of normalised user and design
/// coordinates, in rising order.
///
/// # Errors
///
/// `NoMemory` where memory runs out.
#[tactic(auto, unfolding(crate::specs::Avar::avar_table))]
pub fn avar(alloc: Global, header: &Header) -> Result<Vec<u8>, NoMemory>
    requires { IsHeader header.now }
    ensures { IfOk result (λ table. table.items ≡ avar_table header.now) }
{
    let mut table = Vec::new(alloc);
    push_head(&mut table, header.axes.len() as u16)?;
    push_maps(alloc, &mut table, header)?;
    Ok(table)
}
