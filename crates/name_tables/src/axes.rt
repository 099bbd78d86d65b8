ghost use Rattle.std.specs.Prelude.{◌≡◌, ◌<◌, ◌≤◌, ◌++◌, length, IfOk, OnOk};
ghost use Rattle.font_ir.specs.Headers.{IsHeader};
ghost use Rattle.name_tables.specs.Fvar.{array_sizes, axis_record, axis_records, fvar_head};
ghost use Rattle.name_tables.specs.Fvar.{fvar_table};

use crate::instances::push_instances;
use crate::scales::push_scale;
use font_ir::{Axis, Header};
use refusal_codes::NoMemory;
use std::alloc::{AllocError, Global};
use table_bytes::push_uint16;

/// The number of the first axis's name in the table `name`; the other axes' names follow it, and
/// then the instances'.
pub const FIRST_AXIS_NAME: u16 = 256;

/// The bytes of a VariationAxisRecord.
const AXIS_SIZE: u16 = 20;

/// Appends the counts and the sizes of the records.
#[tactic(auto, unfolding(crate::specs::Fvar::array_sizes))]
fn push_array_sizes(table: &mut Vec<u8>, axes: u16, instances: u16) -> Result<(), AllocError>
    requires { axes ≤ 8 }
    ensures { OnOk result (table.new.items ≡ table.old.items ++ array_sizes axes instances) }
{
    push_uint16(table, axes)?;
    push_uint16(table, AXIS_SIZE)?;
    push_uint16(table, instances)?;
    push_uint16(table, 4 + 4 * axes)
}

/// Appends the fields before the records.
#[tactic(auto, unfolding(crate::specs::Fvar::fvar_head))]
fn push_head(table: &mut Vec<u8>, axes: u16, instances: u16) -> Result<(), AllocError>
    requires { axes ≤ 8 }
    ensures { OnOk result (table.new.items ≡ table.old.items ++ fvar_head axes instances) }
{
    push_uint16(table, 1)?;
    push_uint16(table, 0)?;
    push_uint16(table, 16)?;
    push_uint16(table, 2)?;
    push_array_sizes(table, axes, instances)
}

/// Appends a VariationAxisRecord.
#[tactic(auto, using(crate::specs::HeaderLaws::has_axis), unfolding(crate::specs::Fvar::axis_record))]
fn push_axis(
    table: &mut Vec<u8>,
    header: &Header,
    number: usize,
    axis: &Axis,
) -> Result<(), AllocError>
    requires header { IsHeader header.now }
    requires axis { number < length header.now.axes }
    ensures { OnOk result (table.new.items
        ≡ table.old.items ++ axis_record header.now number axis.now) }
{
    table.extend_from_slice(&axis.tag.0)?;
    push_scale(
        table,
        header.masters.as_slice(),
        header.origin as usize,
        number,
    )?;
    push_uint16(table, 0)?;
    push_uint16(table, FIRST_AXIS_NAME + number as u16)
}

/// Appends the records of all axes.
fn push_axes(table: &mut Vec<u8>, header: &Header) -> Result<(), AllocError>
    requires { IsHeader header.now }
    ensures { OnOk result (table.new.items
        ≡ table.old.items ++ axis_records header.now 0 header.now.axes) }
{
    let axes = header.axes.as_slice();
    for (number, axis) in axes.iter().enumerate() {
        push_axis(table, header, number, axis)?;
    }
    Ok(())
}

/// The table `fvar` (OpenType 1.9, "fvar"): the axes with the masters' user coordinates as their
/// scales, and where the instances lie, in user coordinates.
///
/// # Errors
///
/// `NoMemory` where memory runs out.
#[tactic(auto, unfolding(crate::specs::Fvar::fvar_table))]
pub fn fvar(alloc: Global, header: &Header) -> Result<Vec<u8>, NoMemory>
    requires { IsHeader header.now }
    ensures { IfOk result (λ table. table.items ≡ fvar_table header.now) }
{
    let axes = header.axes.len();
    let instances = header.instances.len();
    let records = instances.saturating_mul(4 + 4 * axes);
    let mut table = Vec::with_capacity(alloc, records.saturating_add(16 + 20 * axes))?;
    push_head(&mut table, axes as u16, instances as u16)?;
    push_axes(&mut table, header)?;
    push_instances(&mut table, header)?;
    Ok(table)
}
