ghost use Rattle.std.specs.Prelude.{◌≡◌, List};
ghost use Rattle.cmap_writer.specs.Runs.{Codes, AreLongestRuns, longest_runs, short_codes};
ghost use Rattle.cmap_writer.specs.Cmap.{AreCodes, segments};
ghost use Rattle.cmap_writer.specs.Reading.{SegmentsLead, GroupsLead, AreGlyphNumbers};
ghost use Rattle.cmap_writer.specs.declared.runs.Run.{Run};

/// The runs of some codes stand for exactly these codes, and each is as long as can be; no other
/// list of runs is so. A law: the function does nothing.
pub fn runs_are_the_longest()
    ensures longest { (codes : Codes) → AreLongestRuns codes (longest_runs codes) }
    ensures only { (codes : Codes) (runs : List Run) → AreLongestRuns codes runs
        → runs ≡ longest_runs codes }
{}

/// A code is found in exactly one segment of format 4 and one group of format 12, which give its
/// glyph number; a code that isn't in the list is found in none. A law: the function does nothing.
pub fn codes_lead_to_their_glyphs()
    ensures segments { (codes : Codes) → AreCodes codes → AreGlyphNumbers codes
        → SegmentsLead (short_codes codes) (segments codes) }
    ensures groups { (codes : Codes) → AreCodes codes → GroupsLead codes (longest_runs codes) }
{}
