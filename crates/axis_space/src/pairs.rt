ghost use Rattle.std.specs.Prelude.{◌≡◌, ◌<◌, length, All, IfOk};
ghost use Rattle.font_ir.specs.Coordinates.{HasAxis};
ghost use Rattle.font_ir.specs.AxisMaps.{fixed_pairs, pairs_of};
ghost use Rattle.axis_space.specs.AxisPairs.{GivesPairs, OrdersPairs, avar_pairs, in_order};
ghost use Rattle.axis_space.specs.AxisPairs.{first_fall as fall_of, fall_after as fall_from, rises};

use crate::coordinates::{normal, scale_of};
use crate::errors::MapError;
use fixed_math::F2Dot14;
use font_ir::{CoordinateScale, Master};
use std::alloc::{AllocError, Global};

/// A normalised user coordinate and the design coordinate there.
type Pair = (F2Dot14, F2Dot14);

/// The pairs of an axis in the table avar (OpenType 1.9, "avar"), in 2.14: from normalised user
/// coordinates to normalised design coordinates. They are those of the ends, of the default and of
/// each master, each once, in rising order. `origin` is the position of the default master. Where
/// they don't rise strictly in both numbers, the error has the first user coordinate at which they
/// don't. It costs a sort of the masters and is linear in them beside that.
pub fn avar_map(
    alloc: Global,
    masters: &[Master],
    origin: u32,
    axis: u32,
) -> Result<Vec<Pair>, MapError>
    requires origin { origin < length masters.now }
    requires axes { All (HasAxis axis) masters.now }
    ensures set { OrdersPairs result (pairs_of masters.now origin axis) }
    ensures computed { GivesPairs result (avar_pairs masters.now origin axis) }
{
    let pairs = ordered_pairs(alloc, masters, origin as usize, axis as usize)?;
    match first_fall(pairs.as_slice()) {
        Some(x) => Err(MapError::NotRising(x)),
        None => Ok(pairs),
    }
}

/// The pairs of an axis in their order, each once.
fn ordered_pairs(
    alloc: Global,
    masters: &[Master],
    origin: usize,
    axis: usize,
) -> Result<Vec<Pair>, AllocError>
    requires origin { origin < length masters.now }
    requires axes { All (HasAxis axis) masters.now }
    ensures { IfOk result (λ v. v.items ≡ in_order (pairs_of masters.now origin axis)) }
{
    let mut pairs = all_pairs(alloc, masters, origin, axis)?;
    pairs.sort()?;
    pairs.dedup();
    Ok(pairs)
}

/// The pairs of the ends and the default, and of each master.
fn all_pairs(
    alloc: Global,
    masters: &[Master],
    origin: usize,
    axis: usize,
) -> Result<Vec<Pair>, AllocError>
    requires origin { origin < length masters.now }
    requires axes { All (HasAxis axis) masters.now }
    ensures { IfOk result (λ v. v.items ≡ pairs_of masters.now origin axis) }
{
    let users = scale_of(masters, CoordinateScale::User, origin, axis);
    let designs = scale_of(masters, CoordinateScale::Design, origin, axis);
    let mut pairs = ends_and_default(alloc)?;
    for master in masters {
        let user = normal(master, CoordinateScale::User, axis, users);
        let design = normal(master, CoordinateScale::Design, axis, designs);
        pairs.push((user, design))?;
    }
    Ok(pairs)
}

fn ends_and_default(alloc: Global) -> Result<Vec<Pair>, AllocError>
    ensures { IfOk result (λ v. v.items ≡ fixed_pairs) }
{
    let mut pairs = Vec::new(alloc);
    pairs.push((F2Dot14(-16384), F2Dot14(-16384)))?;
    pairs.push((F2Dot14(0), F2Dot14(0)))?;
    pairs.push((F2Dot14(16384), F2Dot14(16384)))?;
    Ok(pairs)
}

/// The first number of the later pair of the first two neighbours that don't rise in both numbers.
fn first_fall(pairs: &[Pair]) -> Option<F2Dot14>
    ensures { result ≡ fall_of pairs.now }
{
    if pairs.is_empty() {
        return None;
    }
    fall_after(pairs[0], pairs.split_at(1).1)
}

fn fall_after(first: Pair, pairs: &[Pair]) -> Option<F2Dot14>
    ensures { result ≡ fall_from first pairs.now }
{
    let mut last = first;
    for pair in pairs {
        if !is_rise(last, *pair) {
            return Some(pair.0);
        }
        last = *pair;
    }
    None
}

/// Whether the second pair is above the first one in both numbers.
fn is_rise(first: Pair, second: Pair) -> bool
    ensures { result ≡ rises first second }
{
    first.0.0 < second.0.0 && first.1.0 < second.1.0
}
