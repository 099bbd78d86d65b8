ghost use Rattle.std.specs.Prelude.{◌≡◌, ◌<◌, ◌++◌, length, All, OnOk};
ghost use Rattle.font_ir.specs.Coordinates.{HasAxis, default_on};
ghost use Rattle.font_ir.specs.declared.header.CoordinateScale.TheVariants.{User};
ghost use Rattle.name_tables.specs.Fvar.{axis_scale, scale_fields};

use crate::fields::push_fixed;
use axis_space::{Scale, scale_of};
use fixed_math::Fixed;
use font_ir::{CoordinateScale, Master};
use std::alloc::AllocError;

/// The default master's user coordinate on an axis.
pub fn default_user(masters: &[Master], origin: usize, axis: usize) -> Fixed
    requires origin { origin < length masters.now }
    requires axes { All (HasAxis axis) masters.now }
    ensures { result.0 ≡ default_on User origin axis masters.now }
{
    scale_of(masters, CoordinateScale::User, origin, axis).default
}

/// Appends where an axis begins, where its default is and where it ends.
#[tactic(auto, unfolding(crate::specs::Fvar::scale_fields))]
fn push_scale_fields(table: &mut Vec<u8>, scale: Scale) -> Result<(), AllocError>
    ensures { OnOk result (table.new.items
        ≡ table.old.items ++ scale_fields scale.least.0 scale.default.0 scale.greatest.0) }
{
    push_fixed(table, scale.least)?;
    push_fixed(table, scale.default)?;
    push_fixed(table, scale.greatest)
}

/// Appends the least, the default and the greatest user coordinate of an axis.
pub fn push_scale(
    table: &mut Vec<u8>,
    masters: &[Master],
    origin: usize,
    axis: usize,
) -> Result<(), AllocError>
    requires origin { origin < length masters.now }
    requires axes { All (HasAxis axis) masters.now }
    ensures { OnOk result (table.new.items
        ≡ table.old.items ++ axis_scale masters.now origin axis) }
{
    let scale = scale_of(masters, CoordinateScale::User, origin, axis);
    push_scale_fields(table, scale)
}
