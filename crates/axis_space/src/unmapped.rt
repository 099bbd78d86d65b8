ghost use Rattle.std.specs.Prelude.{◌≡◌, ◌<◌, length, All, IfOk, is_ok};
ghost use Rattle.font_ir.specs.Coordinates.{HasAxis};
ghost use Rattle.axis_space.specs.AxisPairs.{avar_pairs};
ghost use Rattle.axis_space.specs.Placing.{HasAxes};
ghost use Rattle.axis_space.specs.UnmappedAxes.{TellsUnmapped, first_unmapped};

use crate::errors::MapError;
use crate::pairs::avar_map;
use font_ir::Master;
use refusal_codes::NoMemory;
use std::alloc::Global;

/// The first of so many axes that has no map from user to design coordinates, as `avar_map` would
/// make it (OpenType 1.9, "avar"). `origin` is the position of the default master. It costs what
/// `avar_map` costs for each axis.
pub fn unmapped_axis(
    alloc: Global,
    masters: &[Master],
    origin: u32,
    axes: u32,
) -> Result<Option<u32>, NoMemory>
    requires origin { origin < length masters.now }
    requires axes { All (HasAxes axes) masters.now }
    ensures told { IfOk result (TellsUnmapped masters.now origin axes) }
    ensures computed { IfOk result (λ axis. axis ≡ first_unmapped masters.now origin axes) }
{
    for axis in 0..axes {
        if !has_map(alloc, masters, origin, axis)? {
            return Ok(Some(axis));
        }
    }
    Ok(None)
}

/// Whether an axis has a map.
fn has_map(alloc: Global, masters: &[Master], origin: u32, axis: u32) -> Result<bool, NoMemory>
    requires origin { origin < length masters.now }
    requires axes { All (HasAxis axis) masters.now }
    ensures { IfOk result (λ has. has ≡ is_ok (avar_pairs masters.now origin axis)) }
{
    match avar_map(alloc, masters, origin, axis) {
        Ok(_pairs) => Ok(true),
        Err(MapError::NotRising(_)) => Ok(false),
        Err(MapError::NoMemory) => Err(NoMemory),
    }
}
