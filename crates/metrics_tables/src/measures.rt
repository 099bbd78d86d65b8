use font_ir::Region;
use plain_lists::Sequence;
use refusal_codes::NoMemory;
use std::alloc::{AllocError, AllocFailed};
use thiserror::Error;

/// The greatest counts over the glyphs of a font (OpenType 1.9, "maxp").
#[derive(Clone, Copy, Debug, PartialEq, Eq)]
pub struct Maxima {
    /// The most points of a simple glyph.
    pub points: u16,
    /// The most contours of a simple glyph.
    pub contours: u16,
    /// The most points of a composite.
    pub composite_points: u16,
    /// The most contours of a composite.
    pub composite_contours: u16,
    /// The most components of a composite.
    pub components: u16,
    /// How deep components nest at most; a composite of simple glyphs has 1.
    pub depth: u16,
}

/// What the tables of metrics need of the glyphs, glyph by glyph in the order of their glyph
/// numbers.
#[derive(Debug, PartialEq, Eq, Drop)]
pub struct Measures {
    /// The advance widths at the default master, in font units.
    pub advances: Sequence<u16>,
    /// xMin, yMin, xMax and yMax at the default master, in font units, of each glyph that has a
    /// point.
    pub bounds: Sequence<Option<[i16; 4]>>,
    /// The masters' regions behind the first, and the others of the design space in which some
    /// advance width changes.
    pub regions: Sequence<Region>,
    /// The changes of each glyph's advance width, one per region.
    pub rows: Sequence<Sequence<i16>>,
    pub maxima: Maxima,
}

/// Why the glyphs of a font could not be measured.
#[derive(Debug, Drop, Error)]
pub enum MeasureError {
    /// An advance width changes by more than an i16 holds: of such glyphs that of the one that
    /// stands first in the source.
    #[error("the advance width of glyph {gid} changes by {value}, which is too much")]
    TooLarge { gid: u16, value: i64 },
    /// There are more than 1,024 regions.
    #[error("{0} regions are too many")]
    Regions(u64),
    /// Memory ran out.
    #[error("memory ran out")]
    NoMemory,
}

impl From<NoMemory> for MeasureError {
    ghost use Rattle.std.specs.Prelude.{◌≡◌};
    ghost use Rattle.metrics_tables.specs.declared.measures.MeasureError.TheVariants
        as measure_errors;

    ghost from_gives = { λ _ e. e ≡ measure_errors.NoMemory };

    fn from(_e: NoMemory) -> MeasureError {
        MeasureError::NoMemory
    }
}

impl From<AllocError> for MeasureError {
    ghost use Rattle.std.specs.Prelude.{◌≡◌};
    ghost use Rattle.metrics_tables.specs.declared.measures.MeasureError.TheVariants
        as measure_errors;

    ghost from_gives = { λ _ e. e ≡ measure_errors.NoMemory };

    fn from(_e: AllocError) -> MeasureError {
        MeasureError::NoMemory
    }
}

impl<T: Drop> From<AllocFailed<T>> for MeasureError {
    ghost use Rattle.std.specs.Prelude.{◌≡◌};
    ghost use Rattle.metrics_tables.specs.declared.measures.MeasureError.TheVariants
        as measure_errors;

    ghost from_gives = { λ _ e. e ≡ measure_errors.NoMemory };

    fn from(_e: AllocFailed<T>) -> MeasureError {
        MeasureError::NoMemory
    }
}
