ghost use Rattle.std.specs.Prelude.{◌≡◌, ◌<◌, IfOk, length, map, EachIndex, All};
ghost use Rattle.variation_model.specs.Places.{axis_count, place_at};
ghost use Rattle.variation_model.specs.Supports as spec;

use fixed_math::F2Dot14;
use font_ir::{Location, Region};
use plain_lists::Sequence;
use std::alloc::{AllocError, Global};

/// Start, peak and end on an axis.
type Side = (F2Dot14, F2Dot14, F2Dot14);

/// How far a number is from a peak, over how far the region reaches there.
#[derive(Clone, Copy)]
struct Ratio {
    distance: u32,
    reach: u32,
}

impl Ratio {
    /// Compares by cross multiplication.
    fn is_less(self, other: Ratio) -> bool
        ensures { result ≡ spec.is_less (self.distance, self.reach) (other.distance, other.reach) }
    {
        u64::from(self.distance) * u64::from(other.reach)
            < u64::from(other.distance) * u64::from(self.reach)
    }

    /// The larger of two.
    fn max(self, other: Ratio) -> Ratio
        ensures { (result.distance, result.reach)
            ≡ spec.larger (self.distance, self.reach) (other.distance, other.reach) }
    {
        if self.is_less(other) { other } else { self }
    }
}

/// The support of a place, after the earlier ones, which are told by their positions.
pub fn support(
    alloc: Global,
    places: &[Location],
    earlier: &[u32],
    place: &[F2Dot14],
) -> Result<Region, AllocError>
    requires one_length { EachIndex places.now
        (λ i. length (place_at places.now i) ≡ axis_count places.now) }
    requires same_length { length place.now ≡ axis_count places.now }
    requires positions { All (λ i. i < length places.now) earlier.now }
    ensures { IfOk result (λ region. region
        ≡ spec.support places.now (map (place_at places.now) earlier.now) place.now) }
{
    let mut sides = widest(alloc, places, place)?;
    for i in earlier {
        narrow(&mut sides, places[*i as usize].as_slice());
    }
    Ok(Region {
        sides: Sequence::from_vec(sides),
    })
}

/// The region of a place before other places are looked at.
fn widest(alloc: Global, places: &[Location], place: &[F2Dot14]) -> Result<Vec<Side>, AllocError>
    requires one_length { EachIndex places.now
        (λ i. length (place_at places.now i) ≡ axis_count places.now) }
    requires same_length { length place.now ≡ axis_count places.now }
    ensures { IfOk result (λ sides. sides.items ≡ spec.widest_from places.now 0 place.now) }
{
    let mut sides = Vec::with_capacity(alloc, place.len())?;
    for (axis, peak) in place.iter().enumerate() {
        let side = if 0 < peak.0 {
            (F2Dot14(0), *peak, greatest(places, axis))
        } else if peak.0 < 0 {
            (least(places, axis), *peak, F2Dot14(0))
        } else {
            (F2Dot14(0), F2Dot14(0), F2Dot14(0))
        };
        sides.push(side)?;
    }
    Ok(sides)
}

/// The least number of an axis.
fn least(places: &[Location], axis: usize) -> F2Dot14
    requires { EachIndex places.now (λ i. axis < length (place_at places.now i)) }
    ensures { result.0 ≡ spec.least places.now axis }
{
    let mut low = 0i16;
    for place in places {
        low = low.min(place.as_slice()[axis].0);
    }
    F2Dot14(low)
}

/// The greatest number of an axis.
fn greatest(places: &[Location], axis: usize) -> F2Dot14
    requires { EachIndex places.now (λ i. axis < length (place_at places.now i)) }
    ensures { result.0 ≡ spec.greatest places.now axis }
{
    let mut high = 0i16;
    for place in places {
        high = high.max(place.as_slice()[axis].0);
    }
    F2Dot14(high)
}

/// Takes away from a region what an earlier place claims of it.
fn narrow(sides: &mut [Side], place: &[F2Dot14])
    requires { length sides.old ≡ length place.now }
    ensures { sides.new ≡ spec.narrowed sides.old place.now }
{
    if are_all_inside(sides, place) {
        let largest = largest_ratio(sides, place);
        cut_largest(sides, place, largest);
    }
}

/// Whether a place is active where the region is, and inside it or at its peak on each axis.
fn are_all_inside(sides: &[Side], place: &[F2Dot14]) -> bool
    requires { length sides.now ≡ length place.now }
    ensures { result ≡ spec.all_inside sides.now place.now }
{
    for (i, side) in sides.iter().enumerate() {
        if !is_inside(*side, place[i]) {
            return false;
        }
    }
    true
}

fn is_inside(side: Side, v: F2Dot14) -> bool
    ensures { result ≡ spec.is_inside side v }
{
    let (start, peak, end) = side;
    if peak.0 == 0 {
        v.0 == 0
    } else {
        v.0 != 0 && (v.0 == peak.0 || (start.0 < v.0 && v.0 < end.0))
    }
}

/// The largest of the ratios on the axes.
fn largest_ratio(sides: &[Side], place: &[F2Dot14]) -> Ratio
    requires { length sides.now ≡ length place.now }
    ensures { (result.distance, result.reach) ≡ spec.largest_ratio sides.now place.now }
{
    let mut largest = Ratio {
        distance: 0,
        reach: 1,
    };
    for (i, side) in sides.iter().enumerate() {
        largest = largest.max(axis_ratio(*side, place[i]));
    }
    largest
}

/// The ratio on an axis: how far a number is from the peak, over how far the region reaches there.
fn axis_ratio(side: Side, v: F2Dot14) -> Ratio
    ensures { (result.distance, result.reach) ≡ spec.axis_ratio side v }
{
    let (start, peak, end) = side;
    if v.0 < peak.0 {
        Ratio {
            distance: distance(peak, v),
            reach: distance(peak, start),
        }
    } else if peak.0 < v.0 {
        Ratio {
            distance: distance(v, peak),
            reach: distance(end, peak),
        }
    } else {
        Ratio {
            distance: 0,
            reach: 1,
        }
    }
}

fn distance(high: F2Dot14, low: F2Dot14) -> u32
    ensures { result ≡ spec.distance high low }
{
    (i32::from(high.0) - i32::from(low.0)).unsigned_abs()
}

/// Cuts each side whose ratio is the largest.
fn cut_largest(sides: &mut [Side], place: &[F2Dot14], largest: Ratio)
    requires { length sides.old ≡ length place.now }
    ensures { sides.new ≡ spec.cut_largest (largest.distance, largest.reach) sides.old place.now }
{
    for (i, v) in place.iter().enumerate() {
        sides[i] = cut_if(sides[i], *v, largest);
    }
}

/// The side, cut where its ratio is not less than this one.
fn cut_if(side: Side, v: F2Dot14, largest: Ratio) -> Side
    ensures { result ≡ spec.cut_at_least (largest.distance, largest.reach) side v }
{
    let (start, peak, end) = side;
    if axis_ratio(side, v).is_less(largest) {
        side
    } else if v.0 < peak.0 {
        (v, peak, end)
    } else if peak.0 < v.0 {
        (start, peak, v)
    } else {
        side
    }
}
