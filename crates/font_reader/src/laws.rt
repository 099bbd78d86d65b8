ghost use Rattle.font_reader.specs.Laws.{PeaksAreWhole, PointsStay, StaysWithoutTable};
ghost use Rattle.font_reader.specs.Laws.{StaysWithoutTuples, TablesAreFound};

/// A table that lies within the file is read where the first entry with its tag says. A law: the
/// function does nothing.
pub fn tables_are_found()
    ensures { TablesAreFound }
{}

/// A glyph without tuples has its stored points at every place of the design space. A law: the
/// function does nothing.
pub fn points_stay_without_tuples()
    ensures table { StaysWithoutTable }
    ensures tuples { StaysWithoutTuples }
    ensures points { PointsStay }
{}

/// At the peak of a tuple its deltas count whole. A law: the function does nothing.
pub fn peaks_are_whole()
    ensures { PeaksAreWhole }
{}
