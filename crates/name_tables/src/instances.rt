ghost use Rattle.std.specs.Prelude.{◌≡◌, ℕ, ◌<◌, ◌≤◌, ◌++◌, length, All, OnOk};
ghost use Rattle.font_ir.specs.Coordinates.{HasAxis};
ghost use Rattle.font_ir.specs.Headers.{IsHeader};
ghost use Rattle.name_tables.specs.Fvar.{user_coordinates, instance_record, instance_records};

use crate::axes::FIRST_AXIS_NAME;
use crate::fields::push_fixed;
use axis_space::user_of;
use fixed_math::Fixed;
use font_ir::{Header, Instance, Master};
use std::alloc::AllocError;
use table_bytes::push_uint16;

/// Appends the user coordinates of a place, given by its design coordinates.
fn push_user_coordinates(
    table: &mut Vec<u8>,
    masters: &[Master],
    designs: &[Fixed],
) -> Result<(), AllocError>
    requires master { 0 < length masters.now }
    requires few { length designs.now ≤ 8 }
    requires axes { (axis : ℕ) → axis < length designs.now → All (HasAxis axis) masters.now }
    ensures { OnOk result (table.new.items
        ≡ table.old.items ++ user_coordinates masters.now 0 designs.now) }
{
    for (axis, design) in designs.iter().enumerate() {
        push_fixed(table, user_of(masters, axis as u32, *design))?;
    }
    Ok(())
}

/// Appends an InstanceRecord.
#[tactic(auto, unfolding(crate::specs::Fvar::instance_record))]
fn push_instance(
    table: &mut Vec<u8>,
    header: &Header,
    number: usize,
    instance: &Instance,
) -> Result<(), AllocError>
    requires header { IsHeader header.now }
    requires number { number < 64 }
    requires coordinates { length instance.now.design ≡ length header.now.axes }
    ensures { OnOk result (table.new.items
        ≡ table.old.items ++ instance_record header.now number instance.now) }
{
    push_uint16(
        table,
        FIRST_AXIS_NAME + header.axes.len() as u16 + number as u16,
    )?;
    push_uint16(table, 0)?;
    push_user_coordinates(table, header.masters.as_slice(), instance.design.as_slice())
}

/// Appends the records of all instances.
#[tactic(auto, using(crate::specs::HeaderLaws::has_coordinates))]
pub fn push_instances(table: &mut Vec<u8>, header: &Header) -> Result<(), AllocError>
    requires { IsHeader header.now }
    ensures { OnOk result (table.new.items
        ≡ table.old.items ++ instance_records header.now 0 header.now.instances) }
{
    let instances = header.instances.as_slice();
    for (number, instance) in instances.iter().enumerate() {
        push_instance(table, header, number, instance)?;
    }
    Ok(())
}
