ghost use Rattle.std.specs.Prelude.{◌≡◌, ◌<◌, length, map, IfOk};
ghost use Rattle.std.specs.List.{All};
ghost use Rattle.variation_model.specs.Deltas.{deltas_of};
ghost use Rattle.gvar_writer.specs.GlyphPoints as spec;
ghost use Rattle.gvar_writer.specs.RowAnswers.{GivesRow, GivesRows};
ghost use Rattle.gvar_writer.specs.TupleData.{column};

use crate::positions::{Coordinate, Position};
use fixed_math::Fixed;
use refusal_codes::NoMemory;
use std::alloc::Global;
use variation_model::{DeltaError, Model};

/// The numbers of a point's coordinate at the places.
fn numbers_of(
    alloc: Global,
    by_place: &[Vec<Position>],
    point: usize,
    coordinate: Coordinate,
) -> Result<Vec<Fixed>, NoMemory>
    requires { All (λ positions. point < length positions.items) by_place.now }
    ensures { IfOk result (λ numbers. numbers.items
        ≡ spec.numbers_of coordinate (map (λ positions. positions.items) by_place.now) point) }
{
    let mut numbers = Vec::with_capacity(alloc, by_place.len())?;
    for positions in by_place {
        numbers.push(positions[point].along(coordinate))?;
    }
    Ok(numbers)
}

/// The deltas of a point's coordinate, in the model's order.
fn row_of(
    alloc: Global,
    model: &Model,
    by_place: &[Vec<Position>],
    point: usize,
    coordinate: Coordinate,
) -> Result<Vec<i16>, DeltaError>
    requires places { length by_place.now ≡ length model.now }
    requires within { All (λ positions. point < length positions.items) by_place.now }
    ensures { GivesRow result (deltas_of model.now
        (spec.numbers_of coordinate (map (λ positions. positions.items) by_place.now) point))
        (length model.now) }
{
    let numbers = numbers_of(alloc, by_place, point, coordinate)?;
    model.deltas(alloc, numbers.as_slice())
}

/// The deltas of the coordinate of each of so many points, in the model's order.
pub fn rows_of(
    alloc: Global,
    model: &Model,
    by_place: &[Vec<Position>],
    count: usize,
    coordinate: Coordinate,
) -> Result<Vec<Vec<i16>>, DeltaError>
    requires places { length by_place.now ≡ length model.now }
    requires within { All (λ positions. length positions.items ≡ count) by_place.now }
    ensures { GivesRows result (spec.rows_of coordinate model.now
        (map (λ positions. positions.items) by_place.now) count) (length model.now) }
{
    let mut rows = Vec::with_capacity(alloc, count)?;
    for point in 0..count {
        rows.push(row_of(alloc, model, by_place, point, coordinate)?)?;
    }
    Ok(rows)
}

/// Each row's delta of the region of this number.
pub fn column(alloc: Global, rows: &[Vec<i16>], region: usize) -> Result<Vec<i16>, NoMemory>
    requires { All (λ row. region < length row.items) rows.now }
    ensures { IfOk result (λ deltas. deltas.items
        ≡ column region (map (λ row. row.items) rows.now)) }
{
    let mut column = Vec::with_capacity(alloc, rows.len())?;
    for row in rows {
        column.push(row[region])?;
    }
    Ok(column)
}
