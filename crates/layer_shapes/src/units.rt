ghost use Rattle.std.specs.Prelude.{◌≡◌};
ghost use Rattle.refusal_codes.specs.First.{noted};
ghost use Rattle.source_values.specs.Asking.{whole_failures};
ghost use Rattle.layer_shapes.specs.LayerReading.{units_of, coordinate_of};

use fixed_math::Fixed;
use plist_reader::Tree;
use refusal_codes::{FirstFailure, Rule};
use source_values::{Range, decimal_at, note_at};

/// A coordinate in font units, 0 where the value is no whole number of at most 16383 in size. What
/// fails of it is noted.
#[tactic(auto, unfolding(source_values::specs::Asking::whole_failures, crate::specs::LayerReading::units_of))]
pub fn read_units(tree: &Tree, number: u32, first: &mut FirstFailure) -> i16
    ensures units { result ≡ units_of tree.now number }
    ensures failures { first.new ≡ noted first.old
        (whole_failures Range.Coordinate tree.now number) }
{
    match decimal_at(tree, number) {
        None => note_at(tree, number, Rule::WrongShape, first),
        Some(decimal) => {
            if decimal.billionths != 0 {
                note_at(tree, number, Rule::NotWhole, first);
            } else if !Range::Coordinate.holds(&decimal) {
                note_at(tree, number, Rule::CoordinateTooLarge, first);
            } else {
                let size = decimal.whole as i16;
                return if decimal.negative { -size } else { size };
            }
        }
    }
    0
}

/// The same coordinate in 16.16.
#[tactic(auto, unfolding(crate::specs::LayerReading::coordinate_of))]
pub fn read_coordinate(tree: &Tree, number: u32, first: &mut FirstFailure) -> Fixed
    ensures coordinate { result ≡ coordinate_of tree.now number }
    ensures failures { first.new ≡ noted first.old
        (whole_failures Range.Coordinate tree.now number) }
{
    Fixed(65536 * i32::from(read_units(tree, number, first)))
}
