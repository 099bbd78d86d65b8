ghost use Rattle.std.specs.Prelude.{◌≡◌, ◌≤◌, ◌*◌, ◌+◌, map, IfOk, IsTrue, option_map, negsuc};
ghost use Rattle.std.specs.Prelude.{ℤ, pos, neg_ℤ, ◌≤ℤ◌};
ghost use Rattle.source_axes.specs.AxisValues.{axis_value_failures, is_axis_value, in_billionths};
ghost use Rattle.source_axes.specs.AxisValues.{rounded, axis_coordinate};
ghost use Rattle.source_axes.specs.AxisValues.{coordinates_under};
ghost use Rattle.source_values.specs.Values.{items_under};

use fixed_math::Fixed;
use plain_lists::Sequence;
use plist_reader::Tree;
use refusal_codes::{FirstFailure, Rule};
use source_values::{Asked, Decimal, decimal_at, items_under, note_at};
use std::alloc::{AllocError, Global};

/// A coordinate on an axis: a decimal from -32767 to 32767.
#[derive(Clone, Copy)]
pub struct AxisCoordinate;

impl Asked for AxisCoordinate {
    ghost failures = { λ asked. axis_value_failures };

    #[tactic(auto, unfolding(crate::specs::AxisValues::axis_value_failures))]
    fn note(&self, tree: &Tree, number: u32, first: &mut FirstFailure) {
        match decimal_at(tree, number) {
            None => note_at(tree, number, Rule::WrongShape, first),
            Some(decimal) => {
                if !is_in_range(&decimal) {
                    note_at(tree, number, Rule::OutOfRange, first);
                }
            }
        }
    }
}

/// The coordinates of the list that a dictionary has under a key, each as `coordinate` reads it;
/// none where there is no such list.
#[tactic(auto, unfolding(crate::specs::AxisValues::coordinates_under))]
pub fn read_coordinates(
    alloc: Global,
    tree: &Tree,
    pairs: u32,
    key: &[u8],
) -> Result<Sequence<Fixed>, AllocError>
    ensures { IfOk result (λ values. values ≡ coordinates_under tree.now pairs key.now) }
{
    read_each(alloc, tree, items_under(tree, pairs, key))
}

fn read_each(alloc: Global, tree: &Tree, numbers: &[u32]) -> Result<Sequence<Fixed>, AllocError>
    ensures { IfOk result (λ values. values ≡ map (axis_coordinate tree.now) numbers.now) }
{
    let mut values = Vec::with_capacity(alloc, numbers.len())?;
    for number in numbers {
        values.push(coordinate(tree, *number))?;
    }
    Ok(Sequence::from_vec(values))
}

/// The coordinate that a value says, in 16.16: the nearest number, a tie going up; 0 where the
/// value is no coordinate.
#[tactic(auto, using(crate::proofs::Billionths::few_billionths), unfolding(crate::specs::AxisValues::axis_coordinate))]
pub fn coordinate(tree: &Tree, number: u32) -> Fixed
    ensures { result ≡ axis_coordinate tree.now number }
{
    match decimal_at(tree, number) {
        None => Fixed(0),
        Some(decimal) => {
            if is_in_range(&decimal) {
                nearest(in_billionths(&decimal))
            } else {
                Fixed(0)
            }
        }
    }
}

/// Whether a decimal is from -32767 to 32767.
fn is_in_range(decimal: &Decimal) -> bool
    ensures { result ≡ is_axis_value decimal.now }
{
    decimal.whole < 32767 || (decimal.whole == 32767 && decimal.billionths == 0)
}

/// Billionths of a whole.
const WHOLE: i64 = 1_000_000_000;

/// A decimal in billionths.
fn in_billionths(decimal: &Decimal) -> i64
    requires range { IsTrue (is_axis_value decimal.now) }
    requires few { decimal.now.billionths ≤ 1000000000 }
    ensures value { result ≡ in_billionths decimal.now }
    ensures low { negsuc 32766999999999 ≤ℤ result }
    ensures high { result ≤ℤ pos 32767000000000 }
{
    let size = WHOLE * i64::from(decimal.whole) + i64::from(decimal.billionths);
    if decimal.negative { -size } else { size }
}

/// So many billionths in 16.16: the nearest number, a tie going up.
fn nearest(billionths: i64) -> Fixed
    requires low { negsuc 32766999999999 ≤ℤ billionths }
    requires high { billionths ≤ℤ pos 32767000000000 }
    ensures { result.0 ≡ rounded billionths }
{
    Fixed((65536 * billionths + WHOLE / 2).div_euclid(WHOLE) as i32)
}
