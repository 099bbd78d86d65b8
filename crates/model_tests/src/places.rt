ghost use Rattle.std.specs.Prelude.{◌<◌, length, All};
ghost use Rattle.font_ir.specs.Coordinates.{HasAxis};
ghost use Rattle.axis_space.specs.Placing.{HasAxes};

use crate::axes::masters;
use axis_space::{place_masters, place_of, repeated_place, scale_of, unmapped_axis};
use fixed_math::{F2Dot14, Fixed};
use font_ir::{CoordinateScale, Master, locations_of};
use refusal_codes::NoMemory;
use std::alloc::{AllocError, Global};
use std::test::Fail;

/// Design and user coordinates of masters on one axis, at 400, 500 and 700.
const THIRDS: [(i32, i32); 3] = [
    (400 * 65536, 400 * 65536),
    (500 * 65536, 500 * 65536),
    (700 * 65536, 700 * 65536),
];

/// At 0, 10000, 10000.1 and 30000.
const NEAR: [(i32, i32); 4] = [
    (0, 0),
    (655360000, 655360000),
    (655366554, 655366554),
    (1966080000, 1966080000),
];

/// The coordinates of the masters' locations, one after the other.
fn numbers_of(alloc: Global, masters: &[Master]) -> Result<Vec<i16>, AllocError> {
    let mut numbers = Vec::new(alloc);
    for master in masters {
        for number in master.location.as_slice() {
            numbers.push(number.0)?;
        }
    }
    Ok(numbers)
}

/// Where masters at these coordinates lie.
fn placed_at(alloc: Global, places: &[(i32, i32)], origin: u32) -> Result<Vec<i16>, NoMemory>
    requires { origin < length places.now }
{
    let placed = place_masters(alloc, masters(alloc, places)?, origin, 1)?;
    Ok(numbers_of(alloc, placed.as_slice())?)
}

#[test]
fn masters_lie_between_the_least_and_the_greatest(rt: HostRuntime) -> Result<(), Fail> {
    let alloc = rt.alloc();
    let from_first = placed_at(alloc, THIRDS.as_slice(), 0)?;
    assert!(rt; from_first.as_slice() == [0, 5461, 16384].as_slice());
    let from_second = placed_at(alloc, THIRDS.as_slice(), 1)?;
    assert!(rt; from_second.as_slice() == [-16384, 0, 16384].as_slice());
    Ok(())
}

/// The master whose place stands before.
fn repeat_of(alloc: Global, places: &[(i32, i32)]) -> Result<Option<usize>, NoMemory>
    requires { 0 < length places.now }
{
    let placed = place_masters(alloc, masters(alloc, places)?, 0, 1)?;
    let places = locations_of(alloc, placed.as_slice())?;
    repeated_place(alloc, places.as_slice())
}

#[test]
fn the_later_of_two_masters_at_one_place_is_told(rt: HostRuntime) -> Result<(), Fail> {
    let alloc = rt.alloc();
    assert!(rt; repeat_of(alloc, NEAR.as_slice())? == Some(2));
    assert!(rt; repeat_of(alloc, THIRDS.as_slice())? == None);
    Ok(())
}

/// Whether a design coordinate lies between the masters, and at this place.
fn is_placed_at(
    alloc: Global,
    masters: &[Master],
    design: Fixed,
    expected: F2Dot14,
) -> Result<bool, NoMemory>
    requires master { 0 < length masters.now }
    requires axis { All (HasAxis 0) masters.now }
    requires axes { All (HasAxes 1) masters.now }
{
    let scale = scale_of(masters, CoordinateScale::Design, 0, 0);
    if design.0 < scale.least.0 {
        return Ok(false);
    }
    if scale.greatest.0 < design.0 {
        return Ok(false);
    }
    let place = place_of(alloc, masters, 0, [design].as_slice())?;
    Ok(place.as_slice() == [expected].as_slice())
}

#[test]
fn a_layer_lies_between_the_masters(rt: HostRuntime) -> Result<(), Fail> {
    let alloc = rt.alloc();
    let thirds = masters(alloc, THIRDS.as_slice())?;
    let middle = Fixed(550 * 65536);
    assert!(rt; is_placed_at(alloc, thirds.as_slice(), middle, F2Dot14(8192))?);
    Ok(())
}

#[test]
fn an_axis_without_a_map_is_told(rt: HostRuntime) -> Result<(), Fail> {
    let alloc = rt.alloc();
    let one_user = [(400 * 65536, 100 * 65536), (700 * 65536, 100 * 65536)];
    let one_user = masters(alloc, one_user.as_slice())?;
    assert!(rt; unmapped_axis(alloc, one_user.as_slice(), 0, 1)? == Some(0));
    let thirds = masters(alloc, THIRDS.as_slice())?;
    assert!(rt; unmapped_axis(alloc, thirds.as_slice(), 0, 1)? == None);
    Ok(())
}
