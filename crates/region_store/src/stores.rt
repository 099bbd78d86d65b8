ghost use Rattle.std.specs.Prelude.{◌≡◌, ◌≤◌, ◌++◌, IfOk, OnOk, length, nat_eq, if◌then◌else◌};
ghost use Rattle.std.specs.List.{flat_map, range_with_len};
ghost use Rattle.table_bytes.specs.DataTypes.{uint16};
ghost use Rattle.table_tree.specs.Trees.{end, bytes, number, near, two, four};
ghost use Rattle.region_store.specs.Stores.{IsStore, region_axis_coordinates, variation_region};
ghost use Rattle.region_store.specs.Stores.{variation_region_list, item_variation_data_head};
ghost use Rattle.region_store.specs.Stores.{item_variation_data, delta_set, store_tree};
ghost use Rattle.region_store.specs.Written.{store_bytes};
ghost use Rattle.refusal_codes.specs.declared.limits.TheConstants.{AXES};

use fixed_math::F2Dot14;
use font_ir::Region;
use plain_lists::Sequence;
use refusal_codes::NoMemory;
use std::alloc::Global;
use table_bytes::{push_int16, push_uint16};
use table_tree::{Field, LayoutError, Node, layout};

/// The format of an item variation store.
const FORMAT: u16 = 1;

/// The store of these rows in their order, equal ones each by itself, over these regions of a font
/// with so many axes (OpenType 1.9, "Font variations common table formats", "Item variation
/// stores"). Each region has a side on each axis, and each row a delta, in the row's units, for
/// each region. All deltas are stored as words. Where there are no rows, the store has no subtable
/// of them. Memory can run out.
pub fn plain_store(
    alloc: Global,
    axes: u16,
    regions: &[Region],
    rows: &[Sequence<i16>],
) -> Result<Node, NoMemory>
    requires { IsStore (record { axes = axes; regions = regions.now; rows = rows.now }) }
    ensures { IfOk result (λ node. node ≡ store_tree
        (record { axes = axes; regions = regions.now; rows = rows.now })) }
{
    let list = region_list(alloc, axes, regions)?;
    let subtable = plain_data(alloc, regions.len(), rows)?;
    store_node(alloc, list, rows.len(), subtable)
}

/// The subtable of these rows, over so many regions.
fn plain_data(alloc: Global, regions: usize, rows: &[Sequence<i16>]) -> Result<Vec<u8>, NoMemory>
    requires few_regions { regions ≤ 32767 }
    requires few_rows { length rows.now ≤ 65535 }
    ensures { IfOk result (λ bytes. bytes.items ≡ item_variation_data regions rows.now) }
{
    let mut bytes = data_head(alloc, rows.len(), regions)?;
    for row in rows {
        push_row(&mut bytes, row.as_slice())?;
    }
    Ok(bytes)
}

/// What stands before the deltas of so many rows over so many regions, with room for the deltas.
pub fn data_head(alloc: Global, rows: usize, regions: usize) -> Result<Vec<u8>, NoMemory>
    requires few_rows { rows ≤ 65535 }
    requires few_regions { regions ≤ 32767 }
    ensures { IfOk result (λ bytes. bytes.items ≡ item_variation_data_head rows regions) }
{
    let rows = rows as u16;
    let regions = regions as u16;
    let deltas = u64::from(rows) * u64::from(regions);
    let mut bytes = Vec::with_capacity(alloc, (6 + 2 * u64::from(regions) + 2 * deltas) as usize)?;
    push_uint16(&mut bytes, rows)?;
    push_uint16(&mut bytes, regions)?;
    push_uint16(&mut bytes, regions)?;
    push_indexes(&mut bytes, regions)?;
    Ok(bytes)
}

/// Appends the numbers from 0 on, so many.
#[tactic(auto, using(crate::proofs::ListLemmas::range_told_more))]
fn push_indexes(bytes: &mut Vec<u8>, count: u16) -> Result<(), NoMemory>
    ensures { OnOk result (bytes.new.items
        ≡ bytes.old.items ++ flat_map uint16 (range_with_len 0 count)) }
{
    for index in 0..count {
        push_uint16(bytes, index)?;
    }
    Ok(())
}

/// Appends the deltas of a row.
pub fn push_row(bytes: &mut Vec<u8>, row: &[i16]) -> Result<(), NoMemory>
    ensures { OnOk result (bytes.new.items ≡ bytes.old.items ++ delta_set row.now) }
{
    for delta in row {
        push_int16(bytes, *delta)?;
    }
    Ok(())
}

/// The list of a font's regions.
pub fn region_list(alloc: Global, axes: u16, regions: &[Region]) -> Result<Vec<u8>, NoMemory>
    requires { length regions.now ≤ 32767 }
    ensures { IfOk result (λ list. list.items ≡ variation_region_list axes regions.now) }
{
    let count = regions.len() as u16;
    let sides = u64::from(axes) * u64::from(count);
    let mut list = Vec::with_capacity(alloc, (4 + 6 * sides) as usize)?;
    push_uint16(&mut list, axes)?;
    push_uint16(&mut list, count)?;
    for region in regions {
        push_region(&mut list, region.sides.as_slice())?;
    }
    Ok(list)
}

/// Appends a region's coordinates.
fn push_region(bytes: &mut Vec<u8>, sides: &[(F2Dot14, F2Dot14, F2Dot14)]) -> Result<(), NoMemory>
    ensures { OnOk result (bytes.new.items
        ≡ bytes.old.items ++ flat_map region_axis_coordinates sides.now) }
{
    for side in sides {
        push_side(bytes, *side)?;
    }
    Ok(())
}

/// Appends a region's coordinates on one axis.
fn push_side(bytes: &mut Vec<u8>, side: (F2Dot14, F2Dot14, F2Dot14)) -> Result<(), NoMemory>
    ensures { OnOk result (bytes.new.items ≡ bytes.old.items ++ region_axis_coordinates side) }
{
    let (start, peak, end) = side;
    push_int16(bytes, start.0)?;
    push_int16(bytes, peak.0)?;
    push_int16(bytes, end.0)?;
    Ok(())
}

/// The store of a list of regions, and of so many rows, whose subtable is this.
pub fn store_node(
    alloc: Global,
    list: Vec<u8>,
    rows: usize,
    subtable: Vec<u8>,
) -> Result<Node, NoMemory>
    ensures { IfOk result (λ node. node ≡ number two 1 (near four (bytes list.items end)
        (if nat_eq rows 0 then number two 0 end else number two 1
        (near four (bytes subtable.items end) end)))) }
{
    let mut fields = Vec::with_capacity(alloc, 4)?;
    fields.push(Field::U16(FORMAT))?;
    fields.push(Field::Off32(bytes_node(alloc, list)?))?;
    if rows == 0 {
        fields.push(Field::U16(0))?;
    } else {
        fields.push(Field::U16(1))?;
        fields.push(Field::Off32(bytes_node(alloc, subtable)?))?;
    }
    Ok(Node::new(fields))
}

/// A node of these bytes.
fn bytes_node(alloc: Global, content: Vec<u8>) -> Result<Node, NoMemory>
    ensures { IfOk result (λ node. node ≡ bytes content.items end) }
{
    let mut fields = Vec::with_capacity(alloc, 1)?;
    fields.push(Field::Bytes(Sequence::from_vec(content)))?;
    Ok(Node::new(fields))
}

/// The bytes of the store of these rows in their order, equal ones each by itself, over these
/// regions of a font with at most eight axes. Memory can run out.
pub fn store_bytes(
    alloc: Global,
    axes: u16,
    regions: &[Region],
    rows: &[Sequence<i16>],
) -> Result<Vec<u8>, NoMemory>
    requires few_axes { axes ≤ AXES }
    requires store { IsStore (record { axes = axes; regions = regions.now; rows = rows.now }) }
    ensures { IfOk result (λ bytes. bytes.items ≡ store_bytes
        (record { axes = axes; regions = regions.now; rows = rows.now })) }
{
    let store = plain_store(alloc, axes, regions, rows)?;
    match layout(alloc, &store) {
        Ok(bytes) => Ok(bytes),
        Err(LayoutError::Offset(_)) => unreachable!(),
        Err(LayoutError::NoMemory) => Err(NoMemory),
    }
}
