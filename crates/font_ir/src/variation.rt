use fixed_math::F2Dot14;
use plain_lists::Sequence;

/// One of the two layout tables (OpenType 1.9, "GSUB" and "GPOS").
#[derive(Clone, Copy, Debug, PartialEq, Eq)]
pub enum LayoutTable {
    Gsub,
    Gpos,
}

/// A place in the design space: a normalised coordinate per axis.
pub type Location = Sequence<F2Dot14>;

/// A region of the design space: start, peak and end on each axis.
#[derive(Debug, PartialEq, Eq, Drop)]
pub struct Region {
    pub sides: Sequence<(F2Dot14, F2Dot14, F2Dot14)>,
}
