ghost use Rattle.std.specs.Prelude.{◌≡◌, IfOk};
ghost use Rattle.axis_space.specs.Repeats.{TellsRepeat, first_repeat};

use font_ir::Location;
use refusal_codes::NoMemory;
use std::alloc::Global;
use std::collections::BTreeSet;

/// The position of the first place, in order, that an earlier one equals, which is fontc's own. It
/// takes in the order of n log n steps for n places.
pub fn repeated_place(alloc: Global, places: &[Location]) -> Result<Option<usize>, NoMemory>
    ensures told { IfOk result (TellsRepeat places.now) }
    ensures computed { IfOk result (λ i. i ≡ first_repeat places.now) }
{
    let mut seen = BTreeSet::new(alloc);
    for (i, place) in places.iter().enumerate() {
        if !seen.insert(place.as_slice())? {
            return Ok(Some(i));
        }
    }
    Ok(None)
}
