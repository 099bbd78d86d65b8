ghost use Rattle.std.specs.Prelude.{◌≡◌, ◌+◌, ◌<◌, ◌≤◌, ◌++◌, length, IfOk, OnOk};
ghost use Rattle.std.specs.List.{flat_map};
ghost use Rattle.font_ir.specs.Headers.{IsHeader};
ghost use Rattle.style_tables.specs.Stat as spec;

use crate::axis_values::{AxisValue, STYLE_NAME, values_of};
use font_ir::{Axis, Header};
use name_tables::{FIRST_AXIS_NAME, push_fixed};
use refusal_codes::NoMemory;
use std::alloc::{AllocError, Global};
use table_bytes::{push_uint16, push_uint32};

/// The bytes before the axes.
const HEAD_SIZE: u32 = 20;

/// The bytes of an AxisRecord.
const AXIS_SIZE: u16 = 8;

/// The bytes of an AxisValueFormat1.
const VALUE_SIZE: usize = 12;

/// Appends how many axes there are, and where.
#[tactic(auto, unfolding(crate::specs::Stat::axis_fields))]
fn push_axis_fields(table: &mut Vec<u8>, axes: u16) -> Result<(), AllocError>
    ensures { OnOk result (table.new.items ≡ table.old.items ++ spec.axis_fields axes) }
{
    push_uint16(table, AXIS_SIZE)?;
    push_uint16(table, axes)?;
    push_uint32(table, HEAD_SIZE)
}

/// Appends how many values there are, and where their offsets stand.
#[tactic(auto, unfolding(crate::specs::Stat::value_fields))]
fn push_value_fields(table: &mut Vec<u8>, axes: u16, values: u16) -> Result<(), AllocError>
    requires { axes ≤ 8 }
    ensures { OnOk result (table.new.items ≡ table.old.items ++ spec.value_fields axes values) }
{
    push_uint16(table, values)?;
    push_uint32(table, HEAD_SIZE + u32::from(AXIS_SIZE * axes))
}

/// Appends the fields before the axes.
#[tactic(auto, unfolding(crate::specs::Stat::stat_head))]
fn push_head(table: &mut Vec<u8>, axes: u16, values: u16) -> Result<(), AllocError>
    requires { axes ≤ 8 }
    ensures { OnOk result (table.new.items ≡ table.old.items ++ spec.stat_head axes values) }
{
    push_uint16(table, 1)?;
    push_uint16(table, 1)?;
    push_axis_fields(table, axes)?;
    push_value_fields(table, axes, values)?;
    push_uint16(table, STYLE_NAME)
}

/// Appends an AxisRecord.
#[tactic(auto, unfolding(crate::specs::Stat::axis_record))]
fn push_axis(table: &mut Vec<u8>, number: usize, axis: &Axis) -> Result<(), AllocError>
    requires { number < 8 }
    ensures { OnOk result (table.new.items ≡ table.old.items ++ spec.axis_record number axis.now) }
{
    table.extend_from_slice(&axis.tag.0)?;
    push_uint16(table, FIRST_AXIS_NAME + number as u16)?;
    push_uint16(table, number as u16)
}

/// Appends the records of the axes.
fn push_axes(table: &mut Vec<u8>, axes: &[Axis]) -> Result<(), AllocError>
    requires { length axes.now ≤ 8 }
    ensures { OnOk result (table.new.items ≡ table.old.items ++ spec.axis_records 0 axes.now) }
{
    for (number, axis) in axes.iter().enumerate() {
        push_axis(table, number, axis)?;
    }
    Ok(())
}

/// Where an axis value stands behind so many offsets, from the first of these on.
fn value_offset(count: usize, number: usize) -> u16
    requires count { count ≤ 72 }
    requires number { number < count }
    ensures { result ≡ spec.value_offset count number }
{
    (2 * count + VALUE_SIZE * number) as u16
}

/// Appends where the axis values stand, from the first of these offsets on.
fn push_offsets(table: &mut Vec<u8>, values: &[AxisValue]) -> Result<(), AllocError>
    requires { length values.now ≤ 72 }
    ensures { OnOk result (table.new.items
        ≡ table.old.items ++ spec.value_offsets (length values.now) 0 values.now) }
{
    for (number, _value) in values.iter().enumerate() {
        push_uint16(table, value_offset(values.len(), number))?;
    }
    Ok(())
}

/// Appends an AxisValueFormat1.
#[tactic(auto, unfolding(crate::specs::Stat::axis_value))]
fn push_value(table: &mut Vec<u8>, value: AxisValue) -> Result<(), AllocError>
    ensures { OnOk result (table.new.items ≡ table.old.items ++ spec.axis_value value) }
{
    push_uint16(table, 1)?;
    push_uint16(table, value.axis)?;
    push_uint16(table, value.flags)?;
    push_uint16(table, value.name)?;
    push_fixed(table, value.user)
}

/// Appends the axis values.
fn push_values(table: &mut Vec<u8>, values: &[AxisValue]) -> Result<(), AllocError>
    ensures { OnOk result (table.new.items
        ≡ table.old.items ++ flat_map spec.axis_value values.now) }
{
    for value in values {
        push_value(table, *value)?;
    }
    Ok(())
}

/// Appends the axis values behind their offsets.
#[tactic(auto, unfolding(crate::specs::Stat::value_array))]
fn push_value_array(table: &mut Vec<u8>, values: &[AxisValue]) -> Result<(), AllocError>
    requires { length values.now ≤ 72 }
    ensures { OnOk result (table.new.items ≡ table.old.items ++ spec.value_array values.now) }
{
    push_offsets(table, values)?;
    push_values(table, values)
}

/// The table `STAT` (OpenType 1.9, "STAT"), by which a font of several axes tells its styles: the
/// axes, and named values on them, in user coordinates. There is a value for the default of each
/// axis, and in a family of one axis one for each instance whose coordinate is no earlier value's.
///
/// # Errors
///
/// `NoMemory` where memory runs out.
#[tactic(auto, using(crate::proofs::Lengths::few_such), unfolding(crate::specs::Stat::stat_table))]
pub fn stat(alloc: Global, header: &Header) -> Result<Vec<u8>, NoMemory>
    requires { IsHeader header.now }
    ensures { IfOk result (λ table. table.items ≡ spec.stat_table header.now) }
{
    let axes = header.axes.as_slice();
    let values = values_of(alloc, header)?;
    let mut table = Vec::with_capacity(alloc, 20 + 8 * axes.len() + 14 * values.len())?;
    push_head(&mut table, axes.len() as u16, values.len() as u16)?;
    push_axes(&mut table, axes)?;
    push_value_array(&mut table, values.as_slice())?;
    Ok(table)
}
