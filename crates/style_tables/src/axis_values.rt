ghost use Rattle.std.specs.Prelude.{◌≡◌, ◌+◌, ◌<◌, ◌≤◌, ◌++◌, length, if◌then◌else◌, [], ◌∷◌};
ghost use Rattle.std.specs.Prelude.{IfOk, OnOk};
ghost use Rattle.font_ir.specs.Headers.{IsHeader};
ghost use Rattle.style_tables.specs.AxisValues as spec;

use axis_space::user_of;
use fixed_math::Fixed;
use font_ir::{Header, Instance};
use name_tables::{FIRST_AXIS_NAME, default_user};
use refusal_codes::NoMemory;
use std::alloc::{AllocError, Global};

/// ELIDABLE_AXIS_VALUE_NAME: the name is left out where a name is put together of several.
const ELIDABLE: u16 = 2;

/// The name ID of the style.
pub const STYLE_NAME: u16 = 2;

/// A place on an axis that has a name.
#[derive(Clone, Copy, Debug, PartialEq, Eq)]
pub struct AxisValue {
    /// The axis's position.
    pub axis: u16,
    pub flags: u16,
    /// The name ID.
    pub name: u16,
    /// Where it is, in user coordinates.
    pub user: Fixed,
}

/// Adds the default of each axis, under the style's name.
#[tactic(auto, using(name_tables::specs::HeaderLaws::has_axis))]
fn push_default_values(values: &mut Vec<AxisValue>, header: &Header) -> Result<(), AllocError>
    requires { IsHeader header.now }
    ensures { OnOk result (values.new.items
        ≡ values.old.items ++ spec.default_values header.now) }
{
    let masters = header.masters.as_slice();
    let axes = header.axes.as_slice();
    for (number, _axis) in axes.iter().enumerate() {
        values.push(AxisValue {
            axis: number as u16,
            flags: ELIDABLE,
            name: STYLE_NAME,
            user: default_user(masters, header.origin as usize, number),
        })?;
    }
    Ok(())
}

/// Where an instance lies on the only axis, in user coordinates, as a raw number in 16.16.
#[tactic(auto, using(name_tables::specs::HeaderLaws::has_axis))]
fn user_of_instance(header: &Header, instance: &Instance) -> i32
    requires header { IsHeader header.now }
    requires axis { length header.now.axes ≡ 1 }
    requires coordinate { length instance.now.design ≡ 1 }
    ensures { result ≡ spec.user_of_instance header.now instance.now }
{
    user_of(header.masters.as_slice(), 0, instance.design.as_slice()[0]).0
}

/// The user coordinates of the default and of the instances on the only axis, as raw numbers in
/// 16.16.
#[tactic(auto, using(name_tables::specs::HeaderLaws::has_coordinates))]
fn users_of(alloc: Global, header: &Header) -> Result<Vec<i32>, AllocError>
    requires header { IsHeader header.now }
    requires axis { length header.now.axes ≡ 1 }
    ensures { IfOk result (λ users. users.items ≡ spec.users_of header.now) }
{
    let instances = header.instances.as_slice();
    let mut users = Vec::with_capacity(alloc, 1 + instances.len())?;
    users.push(default_user(header.masters.as_slice(), header.origin as usize, 0).0)?;
    for instance in instances {
        users.push(user_of_instance(header, instance))?;
    }
    Ok(users)
}

/// Whether a coordinate is none of those before it.
fn is_new(users: &[i32], number: usize) -> bool
    requires { number < length users.now }
    ensures { result ≡ spec.is_new users.now number }
{
    !users[..number].contains(&users[number])
}

/// Adds the value of an instance, unless its coordinate is one of those before it.
fn push_instance_value(
    values: &mut Vec<AxisValue>,
    header: &Header,
    users: &[i32],
    number: usize,
) -> Result<(), AllocError>
    requires header { IsHeader header.now }
    requires axis { length header.now.axes ≡ 1 }
    requires number { number + 1 < length users.now }
    requires few { number < 64 }
    ensures { OnOk result (values.new.items ≡ values.old.items
        ++ (if spec.is_new users.now (number + 1)
        then spec.instance_value header.now users.now number ∷ [] else [])) }
{
    if is_new(users, number + 1) {
        values.push(AxisValue {
            axis: 0,
            flags: 0,
            name: FIRST_AXIS_NAME + header.axes.len() as u16 + number as u16,
            user: Fixed(users[number + 1]),
        })?;
    }
    Ok(())
}

/// Adds a value for each instance of a family of one axis whose coordinate is no earlier value's.
fn push_instance_values(
    values: &mut Vec<AxisValue>,
    header: &Header,
    users: &[i32],
) -> Result<(), AllocError>
    requires header { IsHeader header.now }
    requires axis { length header.now.axes ≡ 1 }
    requires users { length users.now ≡ length header.now.instances + 1 }
    ensures { OnOk result (values.new.items ≡ values.old.items
        ++ spec.instance_values_from header.now users.now 0 header.now.instances) }
{
    let instances = header.instances.as_slice();
    for (number, _instance) in instances.iter().enumerate() {
        push_instance_value(values, header, users, number)?;
    }
    Ok(())
}

/// The axis values of a family.
pub fn values_of(alloc: Global, header: &Header) -> Result<Vec<AxisValue>, NoMemory>
    requires { IsHeader header.now }
    ensures { IfOk result (λ values. values.items ≡ spec.values_of header.now) }
{
    let mut values = Vec::new(alloc);
    push_default_values(&mut values, header)?;
    if header.axes.len() == 1 {
        let users = users_of(alloc, header)?;
        push_instance_values(&mut values, header, users.as_slice())?;
    }
    Ok(values)
}
