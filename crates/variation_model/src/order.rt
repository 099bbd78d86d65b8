ghost use Rattle.std.specs.Prelude.{◌≡◌, ◌^◌, ◌<◌, ◌==◌, not, position, IfOk, length, map};
ghost use Rattle.std.specs.Prelude.{count_by, unsigned_abs};
ghost use Rattle.variation_model.specs.Places as spec;

use fixed_math::F2Dot14;
use font_ir::Location;
use std::alloc::{AllocError, Global};

/// A coordinate with its axis.
type Coordinate = (usize, F2Dot14);

/// The positions of the places in the model's order.
pub fn positions(alloc: Global, places: &[Location]) -> Result<Vec<u32>, AllocError>
    requires { length places.now < 2 ^ 32 }
    ensures { IfOk result (λ order. order.items ≡ spec.order_of places.now) }
{
    let ranks = ranks(alloc, places)?;
    let mut order = Vec::with_capacity(alloc, places.len())?;
    for k in 0..places.len() {
        order.push(of_rank(ranks.as_slice(), k) as u32)?;
    }
    Ok(order)
}

/// The place of which this is the rank.
#[tactic(auto, using(crate::proofs::OrderLemmas::position_within))]
fn of_rank(ranks: &[usize], k: usize) -> usize
    requires { k < length ranks.now }
    ensures position { result ≡ spec.of_rank ranks.now k }
    ensures within { result < length ranks.now }
{
    first_of_rank(ranks, k).unwrap_or(0)
}

fn first_of_rank(ranks: &[usize], k: usize) -> Option<usize>
    ensures { result ≡ position (λ rank. rank == k) ranks.now }
{
    ranks.iter().position(|rank| *rank == k)
}

/// How many places come before each place.
fn ranks(alloc: Global, places: &[Location]) -> Result<Vec<usize>, AllocError>
    ensures { IfOk result (λ ranks. ranks.items ≡ spec.ranks places.now) }
{
    let keys = keys(alloc, places)?;
    ranks_among(alloc, keys.as_slice())
}

/// How many keys are less than each key.
fn ranks_among(alloc: Global, keys: &[Vec<usize>]) -> Result<Vec<usize>, AllocError>
    ensures { IfOk result (λ ranks. ranks.items
        ≡ map (λ key. count_by (λ other. spec.is_less_key other.items key.items) keys.now)
        keys.now) }
{
    let mut ranks = Vec::with_capacity(alloc, keys.len())?;
    for key in keys.iter() {
        ranks.push(rank(keys, key.as_slice()))?;
    }
    Ok(ranks)
}

/// How many keys are less than this one.
fn rank(keys: &[Vec<usize>], key: &[usize]) -> usize
    ensures { result ≡ count_by (λ other. spec.is_less_key other.items key.now) keys.now }
{
    keys.iter()
        .filter(|other| other.as_slice().cmp(key).is_lt())
        .count()
}

/// What the places are compared by.
fn keys(alloc: Global, places: &[Location]) -> Result<Vec<Vec<usize>>, AllocError>
    ensures { IfOk result (λ keys. map (λ key. key.items) keys.items
        ≡ map (spec.key places.now) places.now) }
{
    let on_axis = all_on_axis(alloc, places)?;
    let mut keys = Vec::with_capacity(alloc, places.len())?;
    for place in places {
        let coordinates = active(alloc, place.as_slice())?;
        keys.push(key(alloc, on_axis.as_slice(), coordinates.as_slice())?)?;
    }
    Ok(keys)
}

/// The coordinates of the places that are on an axis.
fn all_on_axis(alloc: Global, places: &[Location]) -> Result<Vec<Coordinate>, AllocError>
    ensures { IfOk result (λ on_axis. on_axis.items ≡ spec.all_on_axis places.now) }
{
    let mut on_axis = Vec::new(alloc);
    for place in places {
        let coordinates = on_axis_coordinate(alloc, place.as_slice())?;
        on_axis.extend_from_slice(coordinates.as_slice())?;
    }
    Ok(on_axis)
}

/// The active coordinate of a place that is on an axis, which has no other.
fn on_axis_coordinate(alloc: Global, place: &[F2Dot14]) -> Result<Vec<Coordinate>, AllocError>
    ensures { IfOk result (λ on_axis. on_axis.items ≡ spec.on_axis_coordinate place.now) }
{
    let mut coordinates = active(alloc, place)?;
    if coordinates.len() != 1 {
        coordinates.clear();
    }
    Ok(coordinates)
}

/// The coordinates of a place that are not zero.
fn active(alloc: Global, place: &[F2Dot14]) -> Result<Vec<Coordinate>, AllocError>
    ensures { IfOk result (λ coordinates. coordinates.items ≡ spec.active place.now) }
{
    place
        .iter()
        .copied()
        .enumerate()
        .filter(|c| c.1.0 != 0)
        .collect(alloc)
}

/// What a place with these active coordinates is compared by: how many there are, how many of them
/// are not on an axis, their axes, their signs with minus first, and their absolute values.
fn key(
    alloc: Global,
    on_axis: &[Coordinate],
    coordinates: &[Coordinate],
) -> Result<Vec<usize>, AllocError>
    ensures { IfOk result (λ numbers. numbers.items ≡ spec.key_among on_axis.now coordinates.now) }
{
    let mut key = Vec::new(alloc);
    key.push(coordinates.len())?;
    key.push(off_axis(on_axis, coordinates))?;
    key.extend_from_slice(axes(alloc, coordinates)?.as_slice())?;
    key.extend_from_slice(signs(alloc, coordinates)?.as_slice())?;
    key.extend_from_slice(sizes(alloc, coordinates)?.as_slice())?;
    Ok(key)
}

/// How many of the coordinates are not on an axis.
fn off_axis(on_axis: &[Coordinate], coordinates: &[Coordinate]) -> usize
    ensures { result ≡ count_by (λ c. not (spec.is_on_axis on_axis.now c)) coordinates.now }
{
    coordinates.iter().filter(|c| !on_axis.contains(c)).count()
}

fn axes(alloc: Global, coordinates: &[Coordinate]) -> Result<Vec<usize>, AllocError>
    ensures { IfOk result (λ axes. axes.items ≡ map (λ c. c.0) coordinates.now) }
{
    coordinates.iter().map(|c| c.0).collect(alloc)
}

fn signs(alloc: Global, coordinates: &[Coordinate]) -> Result<Vec<usize>, AllocError>
    ensures { IfOk result (λ signs. signs.items ≡ map spec.sign_of coordinates.now) }
{
    coordinates
        .iter()
        .map(|c| if c.1.0 < 0 { 0 } else { 1 })
        .collect(alloc)
}

fn sizes(alloc: Global, coordinates: &[Coordinate]) -> Result<Vec<usize>, AllocError>
    ensures { IfOk result (λ sizes. sizes.items ≡ map (λ c. unsigned_abs c.1.0) coordinates.now) }
{
    coordinates
        .iter()
        .map(|c| usize::from(c.1.0.unsigned_abs()))
        .collect(alloc)
}
