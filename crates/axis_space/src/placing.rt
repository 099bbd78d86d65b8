ghost use Rattle.std.specs.Prelude.{◌≡◌, ◌<◌, length, map, All, IfOk, OnOk};
ghost use Rattle.axis_space.specs.Placing.{HasAxes, AreWithin, ArePlaced, placed};
ghost use Rattle.axis_space.specs.Placing.{place_of as place_in};
ghost use Rattle.axis_space.specs.Scales.{AreOnScales, located, place_by, scales_on};

use crate::coordinates::{Scale, scale_of};
use crate::normal::normalise;
use fixed_math::Fixed;
use font_ir::{CoordinateScale, Location, Master};
use plain_lists::Sequence;
use refusal_codes::NoMemory;
use std::alloc::{AllocError, Global};

/// The masters with their locations: on each of so many axes the normalised design coordinate
/// (OpenType 1.9, "Coordinate scales and normalization"), in 2.14. `origin` is the position of the
/// default master. It costs a pass over the masters for each axis, and one more.
pub fn place_masters(
    alloc: Global,
    masters: Vec<Master>,
    origin: u32,
    axes: u32,
) -> Result<Vec<Master>, NoMemory>
    requires origin { origin < length masters.items }
    requires axes { All (HasAxes axes) masters.items }
    ensures computed { IfOk result (λ v. v.items ≡ placed origin axes masters.items) }
    ensures placed { IfOk result (λ v. ArePlaced origin axes masters.items v.items) }
{
    let scales = design_scales(alloc, masters.as_slice(), origin as usize, axes as usize)?;
    let mut masters = masters;
    locate(alloc, masters.as_mut_slice(), scales.as_slice())?;
    Ok(masters)
}

/// The place of design coordinates, one per axis, that lie between the masters' least and greatest
/// ones (OpenType 1.9, "Coordinate scales and normalization"). `origin` is the position of the
/// default master. It costs a pass over the masters for each axis.
pub fn place_of(
    alloc: Global,
    masters: &[Master],
    origin: u32,
    design: &[Fixed],
) -> Result<Location, NoMemory>
    requires origin { origin < length masters.now }
    requires axes { All (HasAxes (length design.now)) masters.now }
    requires within { AreWithin masters.now design.now }
    ensures { IfOk result (λ place. place
        ≡ place_in masters.now origin (length design.now) design.now) }
{
    let scales = design_scales(alloc, masters, origin as usize, design.len())?;
    place_on(alloc, design, scales.as_slice())
}

/// The scale of each axis.
fn design_scales(
    alloc: Global,
    masters: &[Master],
    origin: usize,
    axes: usize,
) -> Result<Vec<Scale>, AllocError>
    requires origin { origin < length masters.now }
    requires axes { All (HasAxes axes) masters.now }
    ensures { IfOk result (λ v. v.items ≡ scales_on masters.now origin axes) }
{
    let mut scales = Vec::new(alloc);
    for axis in 0..axes {
        scales.push(scale_of(masters, CoordinateScale::Design, origin, axis))?;
    }
    Ok(scales)
}

/// Gives each master its location.
fn locate(alloc: Global, masters: &mut [Master], scales: &[Scale]) -> Result<(), NoMemory>
    requires { All (λ master. AreOnScales scales.now master.design) masters.old }
    ensures { OnOk result (masters.new ≡ map (located scales.now) masters.old) }
{
    for master in masters.iter_mut() {
        master.location = place_on(alloc, master.design.as_slice(), scales)?;
    }
    Ok(())
}

/// The place of design coordinates on axes of these scales.
fn place_on(alloc: Global, design: &[Fixed], scales: &[Scale]) -> Result<Location, NoMemory>
    requires { AreOnScales scales.now design.now }
    ensures { IfOk result (λ place. place ≡ place_by scales.now design.now) }
{
    let mut place = Vec::new(alloc);
    for (axis, scale) in scales.iter().enumerate() {
        let v = design[axis];
        place.push(normalise(v, scale.least, scale.default, scale.greatest))?;
    }
    Ok(Sequence::from_vec(place))
}
