ghost use Rattle.std.specs.Prelude.{◌≡◌, ◌≢◌, ℕ, ◌-◌, ◌+◌, ◌*◌, ◌^◌, ◌<◌, ◌≤◌, ◌-ℤ◌, ◌*ℤ◌, true};
ghost use Rattle.std.specs.Prelude.{false, [], map, unsigned_abs, All, MatchOption, IfOk, length};
ghost use Rattle.std.specs.Prelude.{replicate, EachIndex, Contains};
ghost use Rattle.variation_model.specs.Places.{axis_count, place_at, zero_number, order_of};
ghost use Rattle.fixed_math.specs.FixedPoint.{half_up};
ghost use Rattle.variation_model.specs.Laws.{EarlierPlacesCut, IsEachWhatIsLacking, IsOrder};
ghost use Rattle.variation_model.specs.Laws.{IsInOrder, IsWithinHalfOfValues, IsZeroFirst};
ghost use Rattle.variation_model.specs.Laws.{LaterSupportsCountNothing, MeetWithinHalf};
ghost use Rattle.variation_model.specs.Laws.{NoOtherSupports, OwnSupportsCountWhole};
ghost use Rattle.variation_model.specs.Laws.{RefusesFirstOutside, comes_before};
ghost use Rattle.variation_model.specs.Scalar.{scalar_of};
ghost use Rattle.variation_model.specs.Supports.{supports_after, supports_of};
ghost use Rattle.variation_model.specs.Parts.{AreSmall, deltas_by, row_at, rows_from, scalars_at};
ghost use Rattle.variation_model.specs.Parts.{weighted};
ghost use Rattle.variation_model.specs.Deltas.{GivesDeltas, deltas_of, is_storable, region_at};
ghost use Rattle.variation_model.specs.Deltas.{value_at_place, value_of};

use crate::errors::DeltaError;
use crate::order::positions;
use crate::scalars::scalar;
use crate::supports::support;
use fixed_math::{F2Dot14, Fixed, round_half_up};
use font_ir::{Location, Region};
use plain_lists::Sequence;
use refusal_codes::NoMemory;
use std::alloc::{AllocError, Global};

/// The regions of a family and how values become deltas over them. A contract sees a model as the
/// list of its places.
#[derive(Debug, Drop)]
pub struct Model {
    places: Vec<Location>,
    order: Vec<u32>,
    supports: Vec<Region>,
    /// At each place, in the model's order, the scalars of the regions before its own.
    scalars: Vec<Sequence<Fixed>>,
}

impl std::marker::Model for Model {
    ghost use Rattle.std.specs.Prelude.{List};
    ghost use Rattle.fixed_math.specs.declared.F2Dot14.{F2Dot14};
    ghost use Rattle.variation_model.specs.Parts.{IsModel};

    ghost Value = { List (List F2Dot14) };

    ghost view = { λ m. m.places.items };

    ghost invariant = { λ m. IsModel m.places.items m.order.items m.supports.items
        m.scalars.items };
}

impl Model {
    /// The model of these places, which are normalised coordinates: fewer than 4,294,967,296, each
    /// with one coordinate per axis, all different, and one of them zero on every axis. It takes
    /// time for at most the square of the number of places times the number of axes, and keeps a
    /// scalar for each two places.
    pub fn new(alloc: Global, places: &[Location]) -> Result<Model, NoMemory>
        requires few { length places.now < 2 ^ 32 }
        requires one_length { EachIndex places.now
            (λ i. length (place_at places.now i) ≡ axis_count places.now) }
        requires different { (i j : ℕ) → i < j → j < length places.now
            → place_at places.now i ≢ place_at places.now j }
        requires has_zero { Contains places.now (replicate (axis_count places.now) zero_number) }
        ensures places { IfOk result (λ model. model ≡ places.now) }
        ensures own { IfOk result (λ model. OwnSupportsCountWhole model) }
        ensures later { IfOk result (λ model. LaterSupportsCountNothing model) }
    {
        let order = positions(alloc, places)?;
        let supports = supports_in_order(alloc, places, order.as_slice())?;
        let scalars = scalars_in_order(alloc, supports.as_slice(), places, order.as_slice())?;
        let places = copies(alloc, places)?;
        Ok(Model {
            places,
            order,
            supports,
            scalars,
        })
    }

    /// The positions of the places in the model's order, which is fontc's own. A position counts
    /// from 0 in the caller's order, the one in which the model was given the places.
    pub fn order(&self) -> &[u32]
        ensures value { result.now ≡ order_of self.now }
        ensures sorted { IsInOrder self.now result.now }
        ensures compares { IsOrder (comes_before self.now) }
        ensures zero_first { IsZeroFirst self.now }
    {
        self.order.as_slice()
    }

    /// The region of each place, in the model's order: start, peak and end on each axis, in 2.14
    /// (OpenType 1.9, "Font variations common table formats", "Variation regions"). How far a
    /// region reaches is fontc's own: each earlier place that is inside it cuts it, on the axes on
    /// which the place is farthest from the peak for how far the region reaches there.
    pub fn supports(&self) -> &[Region]
        ensures value { result.now ≡ supports_of self.now }
        ensures as_many { length result.now ≡ length self.now }
        ensures sides { EachIndex result.now
            (λ i. length (region_at result.now i).sides ≡ axis_count self.now) }
        ensures own { OwnSupportsCountWhole self.now }
        ensures later { LaterSupportsCountNothing self.now }
        ensures earlier { EarlierPlacesCut self.now }
        ensures no_other { NoOtherSupports self.now }
    {
        self.supports.as_slice()
    }

    /// The deltas of a value, in whole font units and in the model's order. The value's numbers at
    /// the places are in 16.16, and in the order in which the model was given the places. Each
    /// delta is formed from the earlier ones as they are answered, and rounded to the nearest, a
    /// tie going up. The error is `TooLarge` exactly where a delta is outside an `i16`, and has the
    /// first such, with its number in the model's order; the later ones are not formed. Else memory
    /// can run out. It takes time for at most the square of the number of places, and memory for
    /// its answer alone.
    pub fn deltas(&self, alloc: Global, values: &[Fixed]) -> Result<Vec<i16>, DeltaError>
        requires { length values.now ≡ length self.now }
        ensures deltas { GivesDeltas result (deltas_of self.now values.now) }
        ensures as_many { IfOk result (λ deltas. length deltas.items ≡ length self.now) }
        ensures lacking { IfOk result (λ deltas. IsEachWhatIsLacking self.now values.now
            deltas.items) }
        ensures too_large { RefusesFirstOutside result (deltas_of self.now values.now) }
        ensures within_half { IfOk result (λ deltas. MeetWithinHalf self.now values.now
            deltas.items) }
    {
        deltas_over(
            alloc,
            self.scalars.as_slice(),
            self.order.as_slice(),
            values,
        )
    }

    /// What the deltas, one per place in the model's order, give at a place, which has one
    /// coordinate per axis: the sum of the deltas, each times its region's scalar there, over 65536
    /// (OpenType 1.9, "Font variations common table formats", "Algorithm for interpolation of
    /// instance values"). The deltas of a value give at each place of the model its number there,
    /// up to one half. It takes no memory.
    pub fn value_at(&self, deltas: &[i16], at: &[F2Dot14]) -> i64
        requires deltas { length deltas.now ≡ length self.now }
        requires axes { length at.now ≡ axis_count self.now }
        ensures value { result ≡ value_of (supports_of self.now) deltas.now at.now }
        ensures within { unsigned_abs result ≤ 2147483648 * length deltas.now }
        ensures within_half { IsWithinHalfOfValues self.now deltas.now at.now result }
    {
        value_of(self.supports.as_slice(), deltas, at)
    }
}

/// The supports of the places, which are told by their positions in the model's order.
fn supports_in_order(
    alloc: Global,
    places: &[Location],
    order: &[u32],
) -> Result<Vec<Region>, AllocError>
    requires one_length { EachIndex places.now
        (λ i. length (place_at places.now i) ≡ axis_count places.now) }
    requires positions { All (λ i. i < length places.now) order.now }
    ensures { IfOk result (λ supports. supports.items
        ≡ supports_after places.now [] (map (place_at places.now) order.now)) }
{
    let mut supports = Vec::with_capacity(alloc, order.len())?;
    for (i, position) in order.iter().enumerate() {
        let place = places[*position as usize].as_slice();
        supports.push(support(alloc, places, &order[..i], place)?)?;
    }
    Ok(supports)
}

/// The same places again.
fn copies(alloc: Global, places: &[Location]) -> Result<Vec<Location>, AllocError>
    ensures { IfOk result (λ copies. copies.items ≡ places.now) }
{
    let mut copies = Vec::with_capacity(alloc, places.len())?;
    for place in places {
        let numbers = Vec::from_slice(alloc, place.as_slice())?;
        copies.push(Sequence::from_vec(numbers))?;
    }
    Ok(copies)
}

/// At each place, told by its position, the scalars of the regions before its own.
fn scalars_in_order(
    alloc: Global,
    regions: &[Region],
    places: &[Location],
    order: &[u32],
) -> Result<Vec<Sequence<Fixed>>, AllocError>
    requires one_each { length order.now ≡ length regions.now }
    requires positions { All (λ i. i < length places.now) order.now }
    requires one_length { EachIndex places.now
        (λ i. length (place_at places.now i) ≡ axis_count places.now) }
    requires axes { EachIndex regions.now (λ i. length (region_at regions.now i).sides
        ≡ axis_count places.now) }
    ensures { IfOk result (λ rows. rows.items
        ≡ rows_from regions.now 0 (map (place_at places.now) order.now)) }
{
    let mut rows = Vec::with_capacity(alloc, order.len())?;
    for (k, i) in order.iter().enumerate() {
        let row = scalars_at(alloc, &regions[..k], places[*i as usize].as_slice())?;
        rows.push(Sequence::from_vec(row))?;
    }
    Ok(rows)
}

/// The scalars of regions at a place.
fn scalars_at(
    alloc: Global,
    regions: &[Region],
    place: &[F2Dot14],
) -> Result<Vec<Fixed>, AllocError>
    requires axes { EachIndex regions.now (λ i. length place.now
        ≡ length (region_at regions.now i).sides) }
    ensures { IfOk result (λ row. row.items ≡ scalars_at regions.now place.now) }
{
    let mut row = Vec::with_capacity(alloc, regions.len())?;
    for region in regions {
        row.push(scalar(region, place))?;
    }
    Ok(row)
}

/// The deltas of values whose order is told by their positions, by the scalars that count at each.
fn deltas_over(
    alloc: Global,
    rows: &[Sequence<Fixed>],
    order: &[u32],
    values: &[Fixed],
) -> Result<Vec<i16>, DeltaError>
    requires few { length rows.now < 2 ^ 32 }
    requires one_each { length order.now ≡ length rows.now }
    requires positions { All (λ i. i < length values.now) order.now }
    requires earlier { EachIndex rows.now (λ k. length (row_at rows.now k) ≡ k) }
    requires small { EachIndex rows.now (λ k. AreSmall (row_at rows.now k)) }
    ensures { GivesDeltas result (deltas_by rows.now []
        (map (value_at_place values.now) order.now)) }
{
    let mut deltas = Vec::with_capacity(alloc, order.len())?;
    for (k, i) in order.iter().enumerate() {
        let row = rows[k].as_slice();
        let delta = next_delta(row, deltas.as_slice(), values[*i as usize]);
        match stored(delta) {
            Some(small) => deltas.push(small)?,
            None => {
                let at = k as u32;
                return Err(DeltaError::TooLarge { at, value: delta });
            }
        }
    }
    Ok(deltas)
}

/// The delta as it is stored, where it can be.
fn stored(delta: i64) -> Option<i16>
    ensures { MatchOption result (is_storable delta ≡ false)
        (λ small. (is_storable delta ≡ true) × (small ≡ delta)) }
{
    if -32768 <= delta && delta <= 32767 {
        Some(delta as i16)
    } else {
        None
    }
}

/// What a value lacks of the earlier deltas, each times its scalar, rounded.
fn next_delta(row: &[Fixed], deltas: &[i16], value: Fixed) -> i64
    requires few { length deltas.now + 1 < 2 ^ 32 }
    requires enough { length deltas.now ≤ length row.now }
    requires small { AreSmall row.now }
    ensures { result ≡ half_up (value.0 -ℤ weighted row.now deltas.now) }
{
    round_half_up(i64::from(value.0) - weighted(row, deltas))
}

/// The sum of deltas, each times its scalar.
fn weighted(row: &[Fixed], deltas: &[i16]) -> i64
    requires few { length deltas.now < 2 ^ 32 }
    requires enough { length deltas.now ≤ length row.now }
    requires small { AreSmall row.now }
    ensures value { result ≡ weighted row.now deltas.now }
    ensures within { unsigned_abs result ≤ 2147483648 * length deltas.now }
{
    let mut sum = 0i64;
    for (i, delta) in deltas.iter().enumerate() {
        sum += times(row[i], *delta);
    }
    sum
}

fn times(scalar: Fixed, delta: i16) -> i64
    ensures { result ≡ scalar.0 *ℤ delta }
{
    i64::from(scalar.0) * i64::from(delta)
}

/// The sum of deltas, each times the scalar of its region at a place.
fn value_of(regions: &[Region], deltas: &[i16], place: &[F2Dot14]) -> i64
    requires few { length regions.now < 2 ^ 32 }
    requires enough { length deltas.now ≤ length regions.now }
    requires axes { EachIndex regions.now (λ i. length place.now
        ≡ length (region_at regions.now i).sides) }
    ensures value { result ≡ value_of regions.now deltas.now place.now }
    ensures within { unsigned_abs result ≤ 2147483648 * length deltas.now }
{
    let mut sum = 0i64;
    for (i, delta) in deltas.iter().enumerate() {
        sum += term(&regions[i], *delta, place);
    }
    sum
}

/// A delta times the scalar of its region at a place.
fn term(region: &Region, delta: i16, place: &[F2Dot14]) -> i64
    requires { length place.now ≡ length region.now.sides }
    ensures { result ≡ scalar_of region.now.sides place.now *ℤ delta }
{
    i64::from(scalar(region, place).0) * i64::from(delta)
}
