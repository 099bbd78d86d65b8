ghost use Rattle.std.specs.Prelude.{◌≡◌, ℕ, ◌<◌, ℤ, List, length, FitsSigned};
ghost use Rattle.std.specs.Int.{w16};
ghost use Rattle.std.specs.List.{AllByRecursion};
ghost use Rattle.gvar_writer.specs.Runs.{AreLongestRuns, longest_runs};
ghost use Rattle.gvar_writer.specs.PackedDeltas.{delta_flags, packed_deltas};
ghost use Rattle.gvar_writer.specs.PackedPoints.{point_flags, packed_points};
ghost use Rattle.gvar_writer.specs.Reading.{deltas_in, numbers_in, AreRising};

/// The runs of packed deltas, and those of packed point numbers, stand for exactly these, in order,
/// and each is as long as can be, or full; no other list of runs is so. A law: the function does
/// nothing.
pub fn runs_are_the_longest()
    ensures deltas { (deltas : List ℤ)
        → AreLongestRuns delta_flags 64 deltas (longest_runs delta_flags 64 deltas) }
    ensures only_deltas { (deltas : List ℤ) (runs : List (List ℤ))
        → AreLongestRuns delta_flags 64 deltas runs → runs ≡ longest_runs delta_flags 64 deltas }
    ensures points { (differences : List ℕ)
        → AreLongestRuns point_flags 128 differences (longest_runs point_flags 128 differences) }
    ensures only_points { (differences : List ℕ) (runs : List (List ℕ))
        → AreLongestRuns point_flags 128 differences runs
        → runs ≡ longest_runs point_flags 128 differences }
{}

/// A reader finds in packed deltas the deltas that they were made of. A law: the function does
/// nothing.
pub fn packed_deltas_read_back()
    ensures { (deltas : List ℤ) → AllByRecursion (FitsSigned w16) deltas
        → deltas_in (packed_deltas deltas) ≡ deltas }
{}

/// A reader finds in packed point numbers how many there are, and the numbers that they were made
/// of. A law: the function does nothing.
pub fn packed_points_read_back()
    ensures { (numbers : List ℕ) → length numbers < 32768 → AreRising 0 numbers
        → numbers_in (packed_points numbers) ≡ (length numbers, numbers) }
{}
